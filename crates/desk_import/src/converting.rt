//! The conversion of a document.

ghost use Rattle.std.specs.Prelude.{◌≡◌, ◌⊎◌, None, Some, IfOk, IfErr, map};
ghost use Rattle.std.specs.String.{string_bytes};
ghost use Rattle.serde_json.specs.View.{view};
ghost use Rattle.desk_spdx_json.specs.Steps.{step_text};
ghost use Rattle.desk_import.specs.Results.{is_left, count_left, files_left, json_of, kind_number, skipped_of, IsJson, IsOf, IsStopped, IsConverted, IsRefused, IsUnread, AreFields, steps_of};

use crate::faults::ConvertFault;
use crate::writing::put_steps;
use desk_base::limits::INPUT_BYTES;
use desk_cyclonedx::{bom_steps, is_bom};
use desk_looks::behind_mark;
use desk_spdx_json::{Files, Kind, Step, Steps, What, document_steps};
use serde_json::Value;
use std::alloc::{AllocError, Global};

/// How many things were left out.
#[derive(Clone, Copy)]
pub struct Skipped {
    /// References to other documents (`externalDocumentRefs`).
    pub external_documents: usize,
    /// Annotations of the document, of packages, of files and of snippets.
    pub annotations: usize,
    /// References of packages to something outside (`externalRefs`).
    pub external_references: usize,
    /// All other members of the document's objects, such as suppliers, home pages and comments.
    pub fields: usize,
    /// Files without which nothing that ships changes, or `None` if all are kept.
    pub files: Option<usize>,
}

/// A converted document.
#[derive(Drop)]
pub struct Converted {
    /// The document in tag-value form.
    pub text: String,
    /// What it leaves out of the document in JSON.
    pub skipped: Skipped,
}

fn kind_number(kind: Kind) -> u32
    ensures { result ≡ kind_number kind }
{
    match kind {
        Kind::ExternalDocument => 1,
        Kind::Annotation => 2,
        Kind::ExternalReference => 3,
        Kind::Field => 4,
        Kind::File => 5,
    }
}

// Whether a step leaves out something of a kind.
fn is_left(kind: Kind, step: &Step) -> bool
    ensures { result ≡ is_left kind (step_text step.now) }
{
    match &step.what {
        What::LeftOut(other) => kind_number(kind) == kind_number(*other),
        _ => false,
    }
}

// How many things of a kind are left out.
fn count_left(kind: Kind, steps: &[Step]) -> usize
    ensures { result ≡ count_left kind (map step_text steps.now) }
{
    steps.iter().filter(|step| is_left(kind, step)).count()
}

// How many files are left out, if that is asked for.
fn files_left(files: Files, steps: &[Step]) -> Option<usize>
    ensures { result ≡ files_left files (map step_text steps.now) }
{
    match files {
        Files::All => None,
        Files::Needed => Some(count_left(Kind::File, steps)),
    }
}

// How many things of each kind are left out.
fn skipped_of(files: Files, steps: &[Step]) -> Skipped
    ensures { result ≡ skipped_of files (map step_text steps.now) }
{
    Skipped {
        external_documents: count_left(Kind::ExternalDocument, steps),
        annotations: count_left(Kind::Annotation, steps),
        external_references: count_left(Kind::ExternalReference, steps),
        fields: count_left(Kind::Field, steps),
        files: files_left(files, steps),
    }
}

// The steps of a document, by its form.
pub(crate) fn steps_of<'a>(
    alloc: Global,
    value: &'a Value,
    files: Files,
) -> Result<Steps<'a>, AllocError>
    ensures { IfOk result (λ steps. steps ≡ steps_of files (view value.now)) }
{
    if is_bom(value) {
        return bom_steps(alloc, value);
    }
    document_steps(alloc, value, files)
}

/// The text that steps write, and what they leave out.
pub(crate) fn written(
    alloc: Global,
    steps: &[Step<'_>],
    files: Files,
) -> Result<Converted, ConvertFault>
    ensures ok { IfOk result (λ c. IsOf files (map step_text steps.now) c) }
    ensures err { IfErr result (λ e. IsStopped (map step_text steps.now) e) }
{
    let mut text = String::new(alloc);
    match put_steps(alloc, &mut text, steps) {
        Ok(()) => Ok(Converted {
            text,
            skipped: skipped_of(files, steps),
        }),
        Err(fault) => Err(fault),
    }
}

// The text of a document, and what is left out.
fn conversion_of(alloc: Global, value: &Value, files: Files) -> Result<Converted, ConvertFault>
    ensures ok { IfOk result (λ c. IsOf files (steps_of files (view value.now)) c) }
    ensures err { IfErr result (λ e. IsStopped (steps_of files (view value.now)) e) }
{
    let steps = match steps_of(alloc, value, files) {
        Ok(steps) => steps,
        Err(_) => return Err(ConvertFault::Memory),
    };
    written(alloc, steps.as_slice(), files)
}

// The value whose JSON text the bytes are.
fn value_of(alloc: Global, bytes: &[u8]) -> Result<Value, ConvertFault>
    ensures ok { IfOk result (λ value. json_of bytes.now ≡ Some (view value)) }
    ensures err { IfErr result
        (λ e. (e ≡ ConvertFault.Memory) ⊎ ((e ≡ ConvertFault.NotJson) × (json_of bytes.now ≡ None))) }
{
    match Value::from_slice(alloc, behind_mark(bytes)) {
        Ok(value) => Ok(value),
        Err(error) if error.is_memory() => Err(ConvertFault::Memory),
        Err(_) => Err(ConvertFault::NotJson),
    }
}

/// The value whose JSON text the bytes are, if there are at most 64 MiB of them.
pub(crate) fn value_in(alloc: Global, bytes: &[u8]) -> Result<Value, ConvertFault>
    ensures ok { IfOk result (λ value. IsJson bytes.now (view value)) }
    ensures err { IfErr result (λ e. (e ≡ ConvertFault.Memory) ⊎ IsUnread bytes.now e) }
{
    if bytes.len() > INPUT_BYTES {
        return Err(ConvertFault::TooLarge);
    }
    value_of(alloc, bytes)
}

/// The tag-value document that says what the desk reads in an SPDX or CycloneDX document in JSON of
/// at most 64 MiB, with these files. A byte order mark at its start is skipped.
pub fn convert(alloc: Global, bytes: &[u8], files: Files) -> Result<Converted, ConvertFault>
    // The text consists of the lines of the document's steps, all of which pass, and what is left
    // out is counted.
    ensures ok { IfOk result (λ c. IsConverted files bytes.now c) }
    // The text has the fields of these lines and no others.
    ensures fields { IfOk result (λ c. AreFields files bytes.now (string_bytes c.text)) }
    // No memory was left, the bytes are too many or no JSON, or this is the first step that doesn't
    // pass.
    ensures err { IfErr result (λ e. (e ≡ ConvertFault.Memory) ⊎ IsRefused files bytes.now e) }
{
    let value = value_in(alloc, bytes)?;
    let converted = conversion_of(alloc, &value, files);
    drop(value);
    converted
}
