//! The choices for packages that have only one.

ghost use Rattle.std.specs.Prelude.{◌≡◌, ◌++◌, filter, IfOk, IfErr, OnOk};
ghost use Rattle.std.specs.Result.{result_map_both};
ghost use Rattle.std.specs.Io.KnownBytes.{Appends, Keeps};
ghost use Rattle.desk_wanting.specs.Requests.{choice_lines_text};
ghost use Rattle.desk_subcommands.specs.Failures.{IfMemory, IsOfOutput};
ghost use Rattle.desk_views.specs.Choosing.{choices_status, choices_text};
ghost use Rattle.desk_views.specs.Proposing.{choice_lines_for, is_choice_for};

use crate::replying::tell_refusal;
use desk_base::Text;
use desk_model::Refusal;
use desk_subcommands::{Failure, Teller, write_text};
use desk_wanting::{SoleChoice, choice_lines};
use std::alloc::{AllocError, Global};
use std::io::Write;

/// Writes choices for packages of a release as requests, each a line of JSON, and returns the
/// program's status.
pub fn write_choices<W: Write>(
    alloc: Global,
    release: &Text,
    choices: &[SoleChoice],
    writer: &mut W,
) -> Result<u8, Failure>
    ensures told { IfOk result (λ status. (status ≡ 0)
        × Appends (W.contents writer.old) (W.contents writer.new)
        (choice_lines_text release.now choices.now)) }
    ensures fails { IfErr result IsOfOutput }
    ensures memory { IfErr result
        (IfMemory (Keeps (W.contents writer.old) (W.contents writer.new))) }
{
    let lines = choice_lines(alloc, release, choices)?;
    write_text(writer, lines.as_bytes())?;
    Ok(0)
}

// The same for choices passed by value, which are freed once they are written.
fn write_found<W: Write>(
    alloc: Global,
    release: &Text,
    choices: Vec<SoleChoice>,
    writer: &mut W,
) -> Result<u8, Failure>
    ensures told { IfOk result (λ status. (status ≡ 0)
        × Appends (W.contents writer.old) (W.contents writer.new)
        (choice_lines_text release.now choices.items)) }
    ensures fails { IfErr result IsOfOutput }
    ensures memory { IfErr result
        (IfMemory (Keeps (W.contents writer.old) (W.contents writer.new))) }
{
    write_choices(alloc, release, choices.as_slice(), writer)
}

/// Writes the choices that were found for packages of a release as `write_choices` does, or the
/// reply to the request that is refused, which is explained. Returns the program's status.
pub fn tell_choices<W: Write, E: Write>(
    alloc: Global,
    release: &Text,
    found: Result<Vec<SoleChoice>, Refusal>,
    writer: &mut W,
    teller: &mut Teller<E>,
) -> Result<u8, Failure>
    ensures told { let found = result_map_both (λ choices. choices.items) (λ refusal. refusal) found in
        IfOk result (λ status. (status ≡ choices_status found)
        × Appends (W.contents writer.old) (W.contents writer.new)
        (choices_text release.now found)) }
    ensures fails { IfErr result IsOfOutput }
    ensures memory { IfErr result
        (IfMemory (Keeps (W.contents writer.old) (W.contents writer.new))) }
{
    match found {
        Ok(choices) => write_found(alloc, release, choices, writer),
        Err(refusal) => tell_refusal(alloc, refusal, writer, teller),
    }
}

// The choices that are for packages of this document.
fn choices_for(mut choices: Vec<SoleChoice>, document: u32) -> Vec<SoleChoice>
    ensures { result.items ≡ filter (is_choice_for document) choices.items }
{
    choices.retain(|choice| choice.document == document);
    choices
}

// Adds choices as requests, a line of JSON each.
fn add_choices(
    alloc: Global,
    text: &mut Vec<u8>,
    release: &Text,
    choices: Vec<SoleChoice>,
) -> Result<(), AllocError>
    ensures { OnOk result (text.new.items
        ≡ text.old.items ++ choice_lines_text release.now choices.items) }
{
    let lines = choice_lines(alloc, release, choices.as_slice())?;
    text.extend_from_slice(lines.as_bytes())
}

/// Adds those of the choices that were found for packages of a release that are for packages of
/// this document, as requests, a line of JSON each. If choices are refused there, it adds nothing.
pub fn add_choices_for(
    alloc: Global,
    text: &mut Vec<u8>,
    release: &Text,
    document: u32,
    found: Result<Vec<SoleChoice>, Refusal>,
) -> Result<(), AllocError>
    ensures { OnOk result (text.new.items ≡ text.old.items ++ choice_lines_for document release.now
        (result_map_both (λ choices. choices.items) (λ refusal. refusal) found)) }
{
    match found {
        Ok(choices) => add_choices(alloc, text, release, choices_for(choices, document)),
        Err(refusal) => {
            drop(refusal);
            Ok(())
        }
    }
}
