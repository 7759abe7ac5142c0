//! What an import takes from the bytes of a file.

ghost use Rattle.std.specs.Prelude.{◌≡◌, ◌⊎◌, ℕ, List, IfErr, IfOk, MatchOption, Option, map};
ghost use Rattle.serde_json.specs.View.{view};
ghost use Rattle.desk_expr.specs.Tree.{Tree};
ghost use Rattle.desk_findings.specs.Fields.{IsReading};
ghost use Rattle.desk_spdx_json.specs.Steps.{step_text};
ghost use Rattle.desk_import.specs.Intakes.{AreListed, IsDocument, IsFound, IsNoDocument, IsUnlisted, Lists, Takes, TakesSteps};
ghost use Rattle.desk_import.specs.Results.{IsRefused, IsStopped, steps_of};

use crate::converting::{Converted, Skipped, steps_of, value_in, written};
use crate::faults::ConvertFault;
use crate::placed::listed;
use crate::summary::{Summary, summary_of};
use desk_base::Profile;
use desk_looks::{Look, look_of};
use desk_spdx_json::{Files, Step};
use desk_tagvalue::{DocFault, read};
use serde_json::Value;
use std::alloc::{AllocError, Global};

/// What the bytes of a file are.
#[derive(Drop)]
pub enum Origin {
    /// A tag-value document.
    TagValue,
    /// A document in JSON, of which so much is left out.
    Json(Skipped),
    /// Neither, why they are no document in JSON, and what they look like.
    Neither(ConvertFault, Option<Look>),
}

/// What an import takes from a file.
#[derive(Drop)]
pub struct Intake {
    /// The bytes that the desk is to import.
    pub bytes: Vec<u8>,
    /// What the bytes of the file are.
    pub origin: Origin,
    /// What the desk finds in the document that is imported, or `None` if there is none. If no
    /// memory was left for it, the document can still be imported.
    pub summary: Option<Result<Summary, AllocError>>,
}

// The summary of the document that bytes are, or `None` if they are none.
fn summary_in(
    alloc: Global,
    bytes: &[u8],
    profile: Profile,
) -> Result<Option<Result<Summary, AllocError>>, AllocError>
    ensures found { (reads : List ℕ → Option Tree) → IsReading profile reads
        → IfOk result (IsFound reads bytes.now) }
    ensures judged { IfOk result
        (λ found. MatchOption found (IsNoDocument bytes.now) (λ _. IsDocument bytes.now)) }
    ensures unlisted { IfOk result IsUnlisted }
{
    match read(alloc, bytes) {
        Ok(document) => Ok(Some(summary_of(alloc, &document, profile))),
        Err(DocFault::Memory) => Err(AllocError),
        Err(_) => Ok(None),
    }
}

// The summary, if there is one, with its findings listed by the places of steps.
fn listed_in(
    alloc: Global,
    steps: &[Step<'_>],
    summary: Option<Result<Summary, AllocError>>,
) -> Option<Result<Summary, AllocError>>
    ensures found { (reads : List ℕ → Option Tree) (taken : List ℕ)
        → IsFound reads taken summary → IsFound reads taken result }
    ensures listed { AreListed (map step_text steps.now) result }
{
    match summary {
        Some(Ok(summary)) => Some(listed(alloc, steps, summary)),
        Some(Err(error)) => Some(Err(error)),
        None => None,
    }
}

// What is imported of the value of a JSON text.
fn value_intake(
    alloc: Global,
    value: &Value,
    profile: Profile,
    files: Files,
) -> Result<Intake, ConvertFault>
    ensures takes { IfOk result
        (λ taken. TakesSteps files (steps_of files (view value.now)) taken.bytes.items taken.origin) }
    ensures found { (reads : List ℕ → Option Tree) → IsReading profile reads
        → IfOk result (λ taken. IsFound reads taken.bytes.items taken.summary) }
    ensures listed { IfOk result
        (λ taken. AreListed (steps_of files (view value.now)) taken.summary) }
    ensures err { IfErr result (λ e. IsStopped (steps_of files (view value.now)) e) }
{
    let steps = match steps_of(alloc, value, files) {
        Ok(steps) => steps,
        Err(_) => return Err(ConvertFault::Memory),
    };
    let Converted { text, skipped } = match written(alloc, steps.as_slice(), files) {
        Ok(converted) => converted,
        Err(fault) => return Err(fault),
    };
    let bytes = text.into_bytes();
    let summary = summary_in(alloc, bytes.as_slice(), profile)?;
    let summary = listed_in(alloc, steps.as_slice(), summary);
    Ok(Intake {
        bytes,
        origin: Origin::Json(skipped),
        summary,
    })
}

// What is imported of a JSON text.
fn json_intake(
    alloc: Global,
    bytes: &[u8],
    profile: Profile,
    files: Files,
) -> Result<Intake, ConvertFault>
    ensures takes { IsNoDocument bytes.now
        → IfOk result (λ taken. Takes files bytes.now taken.bytes.items taken.origin) }
    ensures found { (reads : List ℕ → Option Tree) → IsReading profile reads
        → IfOk result (λ taken. IsFound reads taken.bytes.items taken.summary) }
    ensures listed { IfOk result (λ taken. Lists files bytes.now taken.origin taken.summary) }
    ensures err { IfErr result (λ e. (e ≡ ConvertFault.Memory) ⊎ IsRefused files bytes.now e) }
{
    let value = value_in(alloc, bytes)?;
    let taken = value_intake(alloc, &value, profile, files);
    drop(value);
    taken
}

// What is imported of bytes that are no tag-value document.
fn converted_intake(
    alloc: Global,
    bytes: Vec<u8>,
    profile: Profile,
    files: Files,
) -> Result<Intake, AllocError>
    ensures takes { IsNoDocument bytes.items
        → IfOk result (λ taken. Takes files bytes.items taken.bytes.items taken.origin) }
    ensures found { (reads : List ℕ → Option Tree) → IsReading profile reads
        → IsNoDocument bytes.items
        → IfOk result (λ taken. IsFound reads taken.bytes.items taken.summary) }
    ensures listed { IfOk result (λ taken. Lists files bytes.items taken.origin taken.summary) }
{
    match json_intake(alloc, bytes.as_slice(), profile, files) {
        Ok(taken) => {
            drop(bytes);
            Ok(taken)
        }
        Err(ConvertFault::Memory) => Err(AllocError),
        Err(fault) => {
            let look = look_of(bytes.as_slice());
            Ok(Intake {
                bytes,
                origin: Origin::Neither(fault, look),
                summary: None,
            })
        }
    }
}

/// What is imported of the bytes of a file: they themselves, if they are a tag-value document, else
/// the document that they convert to from JSON. Bytes that are neither are imported as they are,
/// and the desk says why it refuses them, and what they look like. A tag-value document is read
/// once. Licence expressions are read by the profile of operators. Of a document in JSON these files
/// are kept.
pub fn intake_of(
    alloc: Global,
    bytes: Vec<u8>,
    profile: Profile,
    files: Files,
) -> Result<Intake, AllocError>
    ensures takes { IfOk result (λ taken. Takes files bytes.items taken.bytes.items taken.origin) }
    ensures found { (reads : List ℕ → Option Tree) → IsReading profile reads
        → IfOk result (λ taken. IsFound reads taken.bytes.items taken.summary) }
    ensures listed { IfOk result (λ taken. Lists files bytes.items taken.origin taken.summary) }
{
    match summary_in(alloc, bytes.as_slice(), profile)? {
        Some(found) => Ok(Intake {
            bytes,
            origin: Origin::TagValue,
            summary: Some(found),
        }),
        None => converted_intake(alloc, bytes, profile, files),
    }
}
