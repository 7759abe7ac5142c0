//! Writes SPDX documents in JSON as the tag-value documents that say the same.

ghost use Rattle.std.specs.Prelude.{◌≡◌, ◌++◌, ◌∷◌, [], ℕ, List, IfOk, IfErr, OnOk, codes};
ghost use Rattle.std.specs.String.{string_bytes};
ghost use Rattle.std.specs.Io.KnownBytes.{Appends, Keeps};
ghost use Rattle.desk_looks.specs.Looks.{look_of};
ghost use Rattle.desk_looks.specs.Words.{look_line};
ghost use Rattle.desk_subcommands.specs.Converting.{convert_fault_line, Converts, fault_words, left_out_files, left_out_line, left_out_rest, neither_text, origin_text};
ghost use Rattle.desk_subcommands.specs.Failures.{IfMemory, IsOfOutput};

use crate::failure::Failure;
use crate::filing::{write_line, write_on};
use desk_base::Text;
use desk_import::{ConvertFault, Files, Origin, Skipped};
use desk_looks::{Look, look_line, look_of};
use std::alloc::{AllocError, Global};
use std::io::Write;

// The name of a fault and its place.
fn words_at(alloc: Global, name: &str, at: &Text) -> Result<String, AllocError>
    ensures { IfOk result (λ words. string_bytes words ≡ name.now ++ at.now) }
{
    let mut words = String::from_str(alloc, name)?;
    words.push_str(at.as_str())?;
    Ok(words)
}

// That the element at a place isn't the same as the first one with its identifier.
fn difference(alloc: Global, at: &str, first: &str) -> Result<String, AllocError>
    ensures { IfOk result (λ words. string_bytes words
        ≡ codes "Differs at " ++ (at.now ++ (codes " from " ++ first.now))) }
{
    format!(in alloc; "Differs at {at} from {first}")
}

// The name of a fault, and where in the document it is.
fn fault_words(alloc: Global, fault: &ConvertFault) -> Result<String, AllocError>
    ensures { IfOk result (λ words. string_bytes words ≡ fault_words fault.now) }
{
    match fault {
        ConvertFault::Memory => String::from_str(alloc, "Memory"),
        ConvertFault::TooLarge => String::from_str(alloc, "TooLarge"),
        ConvertFault::NotJson => String::from_str(alloc, "NotJson"),
        ConvertFault::Missing(at) => words_at(alloc, "Missing at ", at),
        ConvertFault::BadType(at) => words_at(alloc, "BadType at ", at),
        ConvertFault::BadValue(at) => words_at(alloc, "BadValue at ", at),
        ConvertFault::Differs(at, first) => difference(alloc, at.as_str(), first.as_str()),
    }
}

fn fault_text(alloc: Global, fault: &ConvertFault) -> Result<String, AllocError>
    ensures { IfOk result (λ line. string_bytes line ≡ codes "fault: " ++ fault_words fault.now) }
{
    let words = fault_words(alloc, fault)?;
    format!(in alloc; "fault: {words}")
}

// How many files are left out, if that is asked for.
fn left_out_files(alloc: Global, files: Option<usize>) -> Result<String, AllocError>
    ensures { IfOk result (λ words. string_bytes words ≡ left_out_files files) }
{
    match files {
        Some(count) => format!(in alloc; ", {count} files"),
        None => Ok(String::new(alloc)),
    }
}

// How much else is left out.
fn left_out_rest(alloc: Global, skipped: Skipped) -> Result<String, AllocError>
    ensures { IfOk result (λ words. string_bytes words ≡ left_out_rest skipped) }
{
    let Skipped {
        external_documents,
        annotations,
        external_references,
        fields,
        ..
    } = skipped;
    format!(in alloc;
        "{annotations} annotations, {external_references} external references, {external_documents} references to documents, {fields} other fields"
    )
}

// The line of what is left out of a document in JSON.
fn left_out_line(alloc: Global, skipped: Skipped) -> Result<String, AllocError>
    ensures { IfOk result (λ line. string_bytes line ≡ left_out_line skipped) }
{
    let files = left_out_files(alloc, skipped.files)?;
    let rest = left_out_rest(alloc, skipped)?;
    format!(in alloc; "left out: {rest}{files}\n")
}

// The lines that say why bytes that aren't a tag-value document aren't one in JSON either, and what
// they look like.
fn neither_text(
    alloc: Global,
    fault: &ConvertFault,
    look: Option<Look>,
) -> Result<String, AllocError>
    ensures { IfOk result (λ text. string_bytes text ≡ neither_text fault.now look) }
{
    let words = fault_words(alloc, fault)?;
    let line = look_line(alloc, look)?;
    format!(in alloc; "nor is it a document in JSON: {words}\n{line}")
}

/// The lines on what an imported file is: what is left out of a document in JSON, or why bytes that
/// aren't a tag-value document aren't one in JSON either, and what they look like.
pub(crate) fn origin_text(alloc: Global, origin: &Origin) -> Result<String, AllocError>
    ensures { IfOk result (λ text. string_bytes text ≡ origin_text origin.now) }
{
    match origin {
        Origin::TagValue => Ok(String::new(alloc)),
        Origin::Json(skipped) => left_out_line(alloc, *skipped),
        Origin::Neither(fault, look) => neither_text(alloc, fault, *look),
    }
}

/// Reports what the bytes of a file that is refused look like, if they look like something.
pub fn tell_look<T: Write>(alloc: Global, bytes: &[u8], teller: &mut T) -> Result<(), Failure>
    ensures told { OnOk result
        (Appends (T.contents teller.old) (T.contents teller.new) (look_line (look_of bytes.now))) }
{
    let line = look_line(alloc, look_of(bytes))?;
    teller.write_all(line.as_bytes())?;
    Ok(())
}

// Writes why a document isn't converted, as a line, and returns the program's status. What its
// bytes look like is reported to another writer.
fn refuse_conversion<W: Write, T: Write>(
    alloc: Global,
    fault: ConvertFault,
    bytes: &[u8],
    writer: &mut W,
    teller: &mut T,
) -> Result<u8, Failure>
    ensures told { IfOk result (λ status. (status ≡ 1)
        × Appends (W.contents writer.old) (W.contents writer.new) (convert_fault_line fault)) }
    ensures memory_fault { IfOk result (λ _. ¬ (fault ≡ ConvertFault.Memory)) }
    ensures fails { IfErr result IsOfOutput }
    ensures memory { IfErr result
        (IfMemory (Keeps (W.contents writer.old) (W.contents writer.new))) }
{
    if let ConvertFault::Memory = &fault {
        drop(fault);
        return Err(Failure::from(AllocError));
    }
    let line = fault_text(alloc, &fault);
    drop(fault);
    write_line(writer, line?.as_str())?;
    // If that can't be reported, the fault is still written.
    let _told = tell_look(alloc, bytes, teller);
    Ok(1)
}

// Reports how much of a document is left out. The text itself may go into a file.
fn tell_skipped<T: Write>(alloc: Global, skipped: Skipped, teller: &mut T) -> Result<(), Failure>
    ensures told { OnOk result
        (Appends (T.contents teller.old) (T.contents teller.new) (left_out_line skipped)) }
{
    let line = left_out_line(alloc, skipped)?;
    teller.write_all(line.as_bytes())?;
    Ok(())
}

/// Writes the tag-value document that says the same as a document in JSON, with these files, or, as a
/// line, why there is none, and returns the program's status. On a terminal, the document is in the form that
/// is safe to show. What is left out, or what bytes that are refused look like, is reported to
/// another writer.
pub fn convert<W: Write, T: Write>(
    alloc: Global,
    bytes: &[u8],
    files: Files,
    is_terminal: bool,
    writer: &mut W,
    teller: &mut T,
) -> Result<u8, Failure>
    ensures told { IfOk result (λ status. (text : List ℕ) × Converts files bytes.now is_terminal text status
        × Appends (W.contents writer.old) (W.contents writer.new) text) }
    ensures fails { IfErr result IsOfOutput }
    ensures memory { IfErr result
        (IfMemory (Keeps (W.contents writer.old) (W.contents writer.new))) }
{
    match desk_import::convert(alloc, bytes, files) {
        Ok(converted) => {
            write_on(alloc, converted.text.as_str(), is_terminal, writer)?;
            // If that can't be reported, the document is still written.
            let _told = tell_skipped(alloc, converted.skipped, teller);
            Ok(0)
        }
        Err(fault) => refuse_conversion(alloc, fault, bytes, writer, teller),
    }
}
