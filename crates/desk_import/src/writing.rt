//! The text of some steps.

ghost use Rattle.std.specs.Prelude.{◌≡◌, ◌⊎◌, ◌++◌, IfOk, IfErr, OnOk, map};
ghost use Rattle.std.specs.String.{string_bytes};
ghost use Rattle.desk_tagvalue.specs.Drafts.{line_text, spelled, text_of_lines};
ghost use Rattle.desk_tagvalue.specs.Written.{Stands};
ghost use Rattle.desk_spdx_json.specs.Steps.{step_text, put};
ghost use Rattle.desk_import.specs.Results.{IsPut, IsStopped, Passes, FailsAt, Fails};
ghost use Rattle.desk_spdx_json.specs.Steps.{lines_in};

use crate::faults::ConvertFault;
use desk_base::Text;
use desk_spdx_json::{Step, What};
use desk_tagvalue::{DraftLine, WriteFault, put_line};
use std::alloc::Global;

// The place of a fault.
fn place(alloc: Global, at: &str) -> Result<Text, ConvertFault>
    ensures text { IfOk result (λ text. text ≡ at.now) }
    ensures err { IfErr result (λ e. e ≡ ConvertFault.Memory) }
{
    match Text::of(alloc, at) {
        Ok(at) => Ok(at),
        Err(_) => Err(ConvertFault::Memory),
    }
}

// Adds the text of a line, if it is read back as its one field.
fn put(alloc: Global, out: &mut String, at: &str, line: DraftLine) -> Result<(), ConvertFault>
    ensures ok { OnOk result
        (string_bytes out.new ≡ string_bytes out.old ++ spelled (line_text line.entry)) }
    ensures stands { OnOk result (Stands (line_text line.entry)) }
    ensures err { IfErr result
        (λ e. (e ≡ ConvertFault.Memory) ⊎ FailsAt at.now (put (line_text line.entry)) e) }
{
    match put_line(alloc, out, line) {
        Ok(()) => Ok(()),
        Err(WriteFault::Memory) => Err(ConvertFault::Memory),
        Err(WriteFault::BadValue) => Err(ConvertFault::BadValue(place(alloc, at)?)),
    }
}

// That an element isn't the same as the first one with its identifier.
fn difference(alloc: Global, at: &str, first: &str) -> Result<ConvertFault, ConvertFault>
    ensures fault { IfOk result (λ e. e ≡ ConvertFault.Differs at.now first.now) }
    ensures err { IfErr result (λ e. e ≡ ConvertFault.Memory) }
{
    let at = place(alloc, at)?;
    let first = place(alloc, first)?;
    Ok(ConvertFault::Differs(at, first))
}

// Adds the text of a step, if it passes.
fn put_step(alloc: Global, out: &mut String, step: &Step) -> Result<(), ConvertFault>
    ensures ok { OnOk result (string_bytes out.new
        ≡ string_bytes out.old ++ text_of_lines (lines_in (step_text step.now))) }
    ensures passes { OnOk result (Passes (step_text step.now)) }
    ensures err { IfErr result (λ e. (e ≡ ConvertFault.Memory) ⊎ Fails (step_text step.now) e) }
{
    let at = step.at.as_str();
    match &step.what {
        What::Blank => put(alloc, out, at, DraftLine::Blank),
        What::OneLine(tag, text) => put(alloc, out, at, DraftLine::OneLine(*tag, *text)),
        What::InText(tag, text) => put(alloc, out, at, DraftLine::InText(*tag, *text)),
        What::Composed(tag, text) => put(alloc, out, at, DraftLine::OneLine(*tag, text.as_str())),
        What::LeftOut(_) => Ok(()),
        What::Missing => Err(ConvertFault::Missing(place(alloc, at)?)),
        What::BadType => Err(ConvertFault::BadType(place(alloc, at)?)),
        What::BadValue => Err(ConvertFault::BadValue(place(alloc, at)?)),
        What::Differs(first) => Err(difference(alloc, at, first.as_str())?),
    }
}

/// Adds the text of some steps, if all pass.
pub(crate) fn put_steps(alloc: Global, out: &mut String, steps: &[Step]) -> Result<(), ConvertFault>
    ensures ok { OnOk result
        (IsPut (string_bytes out.old) (map step_text steps.now) (string_bytes out.new)) }
    ensures err { IfErr result (λ e. IsStopped (map step_text steps.now) e) }
{
    for step in steps {
        match put_step(alloc, out, step) {
            Ok(()) => {}
            Err(fault) => return Err(fault),
        }
    }
    Ok(())
}
