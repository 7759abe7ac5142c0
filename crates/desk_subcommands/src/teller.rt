//! Explains in words why a request isn't carried out, if somebody reads them.

ghost use Rattle.std.specs.Prelude.{◌≡◌, OnOk};
ghost use Rattle.std.specs.Io.KnownBytes.{Appends};
ghost use Rattle.desk_subcommands.specs.Converting.{origin_text};

use crate::converting::origin_text;
use crate::failure::Failure;
use desk_import::Origin;
use desk_model::{Answer, Outcome};
use desk_words::RefusalWords;
use std::alloc::{AllocError, Global};
use std::io::Write;

/// The words for an outcome, if its request isn't carried out.
pub(crate) fn words_of(alloc: Global, outcome: &Outcome) -> Result<Option<String>, AllocError> {
    match outcome {
        Outcome::Failed(fault) => Ok(Some(format!(in alloc; "the request failed: {fault}")?)),
        Outcome::Answered(Answer::Refused(refusal)) => {
            let words = RefusalWords::of(refusal);
            Ok(Some(format!(in alloc; "{words}")?))
        }
        Outcome::Answered(_) => Ok(None),
    }
}

/// Explains in words, besides the reply, why a request isn't carried out, or stays silent if nobody
/// reads them.
#[derive(Drop)]
pub struct Teller<E: Write> {
    alloc: Global,
    writer: E,
    is_told: bool,
}

impl<E: Write> Teller<E> {
    /// A teller that explains or stays silent.
    pub fn new(alloc: Global, writer: E, is_told: bool) -> Teller<E>
        ensures { result.is_told ≡ is_told }
    {
        Teller {
            alloc,
            writer,
            is_told,
        }
    }

    fn tell(&mut self, outcome: &Outcome) -> Result<(), Failure> {
        if let Some(words) = words_of(self.alloc, outcome)? {
            let line = format!(in self.alloc; "{words}\n")?;
            self.writer.write_all(line.as_bytes())?;
        }
        Ok(())
    }

    fn write_origin(&mut self, origin: &Origin) -> Result<(), Failure>
        ensures { OnOk result (Appends (E.contents self.old.writer) (E.contents self.new.writer)
            (origin_text origin.now)) }
    {
        let text = origin_text(self.alloc, origin)?;
        self.writer.write_all(text.as_bytes())?;
        Ok(())
    }

    /// Reports what an imported file is, even if nobody reads explanations.
    pub fn report(&mut self, origin: &Origin) {
        // If it can't be written, there is nobody left to tell.
        let _told = self.write_origin(origin);
    }

    /// Explains why a request isn't carried out, by its outcome.
    pub fn explain(&mut self, outcome: &Outcome) {
        if self.is_told {
            // If it can't be written, there is nobody left to tell.
            let _told = self.tell(outcome);
        }
    }
}
