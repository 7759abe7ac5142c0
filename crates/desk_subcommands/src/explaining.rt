//! Explains in words which lines of a script aren't carried out.

ghost use Rattle.std.specs.Prelude.{◌≡◌};

use crate::failure::Failure;
use crate::teller::words_of;
use desk_model::{Answer, Outcome};
use desk_script::{Reply, Watch};
use desk_words::{RequestTrouble, request_trouble};
use std::alloc::{AllocError, Global};
use std::io::Write;

// How many lines there were, not counting blank ones.
#[derive(Clone, Copy)]
struct Counts {
    done: u64,
    refused: u64,
    no_request: u64,
    failed: u64,
}

impl Counts {
    fn add(&mut self, reply: &Reply) {
        let count = match reply {
            Reply::NoRequest => &mut self.no_request,
            Reply::Became(Outcome::Failed(_)) => &mut self.failed,
            Reply::Became(Outcome::Answered(Answer::Refused(_))) => &mut self.refused,
            Reply::Became(Outcome::Answered(_)) => &mut self.done,
        };
        *count = count.saturating_add(1);
    }

    fn line(&self, alloc: Global) -> Result<String, AllocError> {
        let Counts {
            done,
            refused,
            no_request,
            failed,
        } = self;
        format!(in alloc;
            "done: {done}, refused: {refused}, no request: {no_request}, failed: {failed}\n"
        )
    }
}

/// Watches a script and reports each line that isn't carried out, with its number and the reason,
/// and at the end how many there were.
#[derive(Drop)]
pub struct Explainer<E: Write> {
    alloc: Global,
    writer: E,
    /// Whether anything is reported.
    is_told: bool,
    /// Whether the script ends at the first line that isn't carried out.
    is_stopped: bool,
    /// The number of the current line.
    line: u64,
    /// Why it isn't a request, if it isn't one.
    trouble: Option<RequestTrouble>,
    counts: Counts,
}

impl<E: Write> Explainer<E> {
    /// Reports what isn't carried out or stays silent, and ends the script there or lets it
    /// continue.
    pub fn new(alloc: Global, writer: E, is_told: bool, is_stopped: bool) -> Explainer<E>
        ensures { result.is_stopped ≡ is_stopped }
    {
        let counts = Counts {
            done: 0,
            refused: 0,
            no_request: 0,
            failed: 0,
        };
        Explainer {
            alloc,
            writer,
            is_told,
            is_stopped,
            line: 0,
            trouble: None,
            counts,
        }
    }

    // The words for the current line, if it isn't carried out.
    fn words(&self, reply: &Reply) -> Result<Option<String>, AllocError> {
        let (alloc, line) = (self.alloc, self.line);
        match reply {
            Reply::NoRequest => match &self.trouble {
                Some(trouble) => Ok(Some(format!(in alloc;
                    "line {line}: no request: {trouble}\n"
                )?)),
                None => Ok(Some(format!(in alloc; "line {line}: no request\n")?)),
            },
            Reply::Became(outcome) => match words_of(alloc, outcome)? {
                Some(words) => Ok(Some(format!(in alloc; "line {line}: {words}\n")?)),
                None => Ok(None),
            },
        }
    }

    fn tell(&mut self, reply: &Reply) -> Result<(), Failure>
        ensures { self.new.is_stopped ≡ self.old.is_stopped }
    {
        if let Some(words) = self.words(reply)? {
            self.writer.write_all(words.as_bytes())?;
        }
        Ok(())
    }

    /// Reports how many lines were carried out and how many were not.
    pub fn tell_counts(&mut self) -> Result<(), Failure> {
        if self.is_told {
            let line = self.counts.line(self.alloc)?;
            self.writer.write_all(line.as_bytes())?;
        }
        Ok(())
    }
}

impl<E: Write> Watch for Explainer<E> {
    ghost stops = { λ explainer. explainer.is_stopped };

    fn stops(&self) -> bool {
        self.is_stopped
    }

    fn came(&mut self) {
        self.line = self.line.saturating_add(1);
    }

    fn no_request(&mut self, text: Option<&[u8]>) {
        if !self.is_told {
            return;
        }
        self.trouble = match text {
            // If no memory is left, the line is reported without its cause.
            Some(text) => request_trouble(self.alloc, text).unwrap_or(None),
            None => Some(RequestTrouble::TooLong),
        };
    }

    fn replied(&mut self, reply: &Reply) {
        self.counts.add(reply);
        if self.is_told {
            // If it can't be reported, there is nobody left to report to.
            let _told = self.tell(reply);
        }
    }
}
