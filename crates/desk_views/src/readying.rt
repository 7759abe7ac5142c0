//! Whether a release is ready, or lacks nothing for its notices.

ghost use Rattle.std.specs.Prelude.{◌≡◌, IfOk, IfErr, IsTrue, true};
ghost use Rattle.std.specs.Io.KnownBytes.{Appends, Keeps};
ghost use Rattle.desk_model.specs.declared.command.Answer.{Answer};
ghost use Rattle.desk_model.specs.declared.command.Outcome.TheVariants.{Answered, Failed};
ghost use Rattle.desk_subcommands.specs.Failures.{IfMemory, OfRequest};
ghost use Rattle.desk_subcommands.specs.Filing.{outcome_line};
ghost use Rattle.desk_views.specs.Readying.{IsShownReady, is_ready, ready_status, ready_text};
ghost use Rattle.desk_views.specs.Showing.{HasFailed, IsUntold};

use crate::showing::{ask_desk, write_outcome};
use desk_core::desk::Desk;
use desk_model::{Answer, Outcome, Query};
use desk_subcommands::{Failure, Teller, write_text};
use std::alloc::Global;
use std::io::Write;

// Whether nothing keeps the release back: no duty, or no gap.
fn is_ready(outcome: &Outcome) -> bool
    ensures { result ≡ is_ready outcome.now }
{
    match outcome {
        Outcome::Answered(Answer::Duties(lines)) => lines.as_slice().is_empty(),
        Outcome::Answered(Answer::Gaps(gaps)) => gaps.as_slice().is_empty(),
        _ => false,
    }
}

// Writes what keeps a release back, or else why it can't be listed, and returns the status.
fn write_unready<W: Write>(
    alloc: Global,
    outcome: &Outcome,
    is_terminal: bool,
    writer: &mut W,
) -> Result<u8, Failure>
    ensures done { IfOk result (λ status. (answer : Answer) × (outcome.now ≡ Answered answer)
        × Appends (W.contents writer.old) (W.contents writer.new) (ready_text is_terminal answer)
        × (status ≡ ready_status answer)) }
    ensures failed { IfErr result (OfRequest
        (λ fault. (outcome.now ≡ Failed fault)
        × Appends (W.contents writer.old) (W.contents writer.new) (outcome_line outcome.now))
        (Unit {0})) }
    ensures memory { IfErr result
        (IfMemory (Keeps (W.contents writer.old) (W.contents writer.new))) }
{
    if is_ready(outcome) {
        write_text(writer, b"")?;
        return Ok(0);
    }
    write_outcome(alloc, outcome, is_terminal, writer)?;
    Ok(1)
}

/// Asks a desk which duties keep a release from being ready, or what is missing for its notices, and
/// writes these rows as `show` does, or nothing if there are none. Returns the program's status: 0 if
/// there are none, and else 1. A refusal is written as the line of its reply. If the desk fails, both
/// the reply and the failure say so. The desk is as it was.
pub fn show_ready<D: Desk, W: Write, E: Write>(
    alloc: Global,
    desk: &mut D,
    query: &Query,
    is_terminal: bool,
    writer: &mut W,
    teller: &mut Teller<E>,
) -> Result<u8, Failure>
    ensures done { IfOk result
        (IsShownReady D.are_right D.tells D.stands query.now (D.seen desk.old) (D.seen desk.new)
        is_terminal
        (W.contents writer.old) (W.contents writer.new)) }
    ensures failed { IfErr result (OfRequest
        (HasFailed D.are_right D.tells D.stands query.now (D.seen desk.old) (D.seen desk.new)
        (W.contents writer.old) (W.contents writer.new))
        (IsUntold D.are_right D.tells D.stands query.now (D.seen desk.old) (D.seen desk.new))) }
    ensures memory { IfErr result
        (IfMemory (Keeps (W.contents writer.old) (W.contents writer.new))) }
{
    let outcome = ask_desk(desk, query);
    let told = write_unready(alloc, &outcome, is_terminal, writer);
    teller.explain(&outcome);
    drop(outcome);
    told
}
