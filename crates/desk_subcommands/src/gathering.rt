//! The document of a source tree, written out.

ghost use Rattle.std.specs.Prelude.{◌≡◌, ℕ, List, IfOk, IfErr, OnOk};
ghost use Rattle.std.specs.String.{string_bytes};
ghost use Rattle.std.specs.Io.KnownBytes.{Appends, Keeps};
ghost use Rattle.desk_report.specs.Terminal.{text_on};
ghost use Rattle.desk_tree_infos.specs.Readers.{Reader, IsRightReader};
ghost use Rattle.desk_tree_document.specs.Gathering.{IsGathering, IsUnwritable};
ghost use Rattle.desk_subcommands.specs.Failures.{IfBadValue, IfUntold, IsOfDocument, IsOfOutput};
ghost use Rattle.desk_subcommands.specs.Gathering.{gaps_line, gathering_status, Gathers, named, report};

use crate::failure::Failure;
use crate::filing::write_on;
use desk_report::lines_shown;
use desk_tree_document::{Gaps, Gathering, TextFault, document_of};
use desk_tree_gather::SourceFile;
use std::alloc::{AllocError, Global};
use std::io::Write;

/// What a document says about itself.
#[derive(Clone, Copy)]
pub struct Title<'a> {
    /// Its name.
    pub name: &'a str,
    /// Its namespace.
    pub namespace: &'a str,
    /// When it was made.
    pub created: &'a str,
}

fn status_of(answer: &Gathering) -> u8
    ensures { result ≡ gathering_status answer.now }
{
    if answer.is_document() { 0 } else { 1 }
}

fn gathering_of(
    alloc: Global,
    files: Vec<SourceFile>,
    title: &Title<'_>,
) -> Result<Gathering, Failure>
    ensures ok { (r : Reader) → IsRightReader r
        → IfOk result (IsGathering r files.items (named title.now)) }
    ensures fails { IfErr result IsOfDocument }
    ensures err { (r : Reader) → IsRightReader r
        → IfErr result (IfBadValue (IsUnwritable r files.items (named title.now))) }
{
    match document_of(alloc, files, title.name, title.namespace, title.created) {
        Ok(answer) => Ok(answer),
        Err(TextFault::Memory(error)) => Err(Failure::Memory(error)),
        Err(TextFault::BadValue) => Err(Failure::BadValue),
    }
}

// The line on the files for which a document gives no licence or no notice, if there are any.
fn gaps_line(alloc: Global, gaps: Gaps) -> Result<String, AllocError>
    ensures { IfOk result (λ line. string_bytes line ≡ gaps_line gaps) }
{
    let Gaps { licences, notices } = gaps;
    if licences == 0 && notices == 0 {
        return Ok(String::new(alloc));
    }
    format!(in alloc;
        "files without a licence: {licences}, without a notice: {notices}; the document says NOASSERTION of them\n"
    )
}

// Reports what was gathered besides what is written, which may go into a file: a fault, or what the
// document doesn't say.
fn tell<T: Write>(
    alloc: Global,
    gaps: Option<Gaps>,
    text: &str,
    teller: &mut T,
) -> Result<(), Failure>
    ensures { OnOk result
        (Appends (T.contents teller.old) (T.contents teller.new) (report gaps text.now)) }
{
    match gaps {
        None => {
            let shown = lines_shown(alloc, text)?;
            teller.write_all(shown.as_slice())?;
        }
        Some(gaps) => {
            let line = gaps_line(alloc, gaps)?;
            teller.write_all(line.as_bytes())?;
        }
    }
    Ok(())
}

/// Writes the document of a tree of files, or one line with the fault because of which there is
/// none, and returns the program's status. On a terminal, the text is in the form that is safe to
/// show. If no memory is left, or some value can't be written in its field, nothing is written.
/// Another writer gets the fault too, in that form, or for how many files the document gives no
/// licence or no notice.
pub fn gather<W: Write, T: Write>(
    alloc: Global,
    files: Vec<SourceFile>,
    title: &Title<'_>,
    is_terminal: bool,
    writer: &mut W,
    teller: &mut T,
) -> Result<u8, Failure>
    ensures told { (r : Reader) → IsRightReader r → IfOk result (λ status. (text : List ℕ)
        × Gathers r files.items title.now is_terminal text status
        × Appends (W.contents writer.old) (W.contents writer.new) text) }
    ensures bad_value { (r : Reader) → IsRightReader r → IfErr result
        (IfBadValue (IsUnwritable r files.items (named title.now))) }
    ensures fails { IfErr result IsOfDocument }
    ensures untold { IfErr result
        (IfUntold (Keeps (W.contents writer.old) (W.contents writer.new))) }
{
    let answer = gathering_of(alloc, files, title)?;
    let (status, gaps) = (status_of(&answer), answer.gaps());
    let text = answer.text(alloc)?;
    write_on(alloc, text.as_str(), is_terminal, writer)?;
    // If that can't be reported, what is written still says it.
    let _told = tell(alloc, gaps, text.as_str(), teller);
    Ok(status)
}
