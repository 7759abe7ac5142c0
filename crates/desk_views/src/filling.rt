//! Notices whose gaps are filled from files.

ghost use Rattle.std.specs.Prelude.{◌≡◌, IfOk, IfErr, List, ℕ, [], is_some, option_map, unwrap_or, if◌then◌else◌};
ghost use Rattle.std.specs.Io.KnownBytes.{Appends, Keeps};
ghost use Rattle.desk_model.specs.declared.command.Answer.{Answer};
ghost use Rattle.desk_model.specs.declared.command.Answer.TheVariants.{Bill as BillOf};
ghost use Rattle.desk_model.specs.declared.command.Outcome.TheVariants.{Answered, Failed};
ghost use Rattle.desk_subcommands.specs.Failures.{IfMemory, IsOfOutput, OfRequest};
ghost use Rattle.desk_subcommands.specs.Filing.{answer_status, outcome_line};
ghost use Rattle.desk_views.specs.Filling.{IsFilled, bill_of, filled_status, filled_text, written_notices};
ghost use Rattle.desk_views.specs.Showing.{HasFailed, IsUntold};

use crate::showing::ask_desk;
use desk_core::desk::Desk;
use desk_fill::{Fill, Gaps, Style, Written, filled_notices};
use desk_model::{Answer, Bill, Outcome, Query};
use desk_subcommands::{Failure, Teller, tell, write_text};
use std::alloc::Global;
use std::io::Write;

/// From which files notices are filled, and how they are written.
#[derive(Clone, Copy)]
pub struct Filling<'a> {
    /// What the files say, in their order.
    pub fills: &'a [Fill],
    /// Whether they must be complete, and for whom they are.
    pub style: Style,
}

// The bill of an outcome, or an outcome that has none.
fn bill_of(outcome: Outcome) -> Result<Bill, Outcome>
    ensures { result ≡ bill_of outcome }
{
    match outcome {
        Outcome::Answered(Answer::Bill(bill)) => Ok(bill),
        outcome => Err(outcome),
    }
}

// Says how much is missing, if anything is.
fn tell_gaps<N: Write>(alloc: Global, gaps: Gaps, notes: &mut N) -> Result<(), Failure> {
    let line = gaps.line(alloc)?;
    write_text(notes, line.as_bytes())
}

// Writes notices, if there are any, and returns the program's status.
fn write_notices<W: Write>(text: &Option<Vec<u8>>, writer: &mut W) -> Result<u8, Failure>
    ensures told { let text = option_map (λ text. text.items) text.now in
        IfOk result (λ status. Appends (W.contents writer.old) (W.contents writer.new)
        (unwrap_or text []) × (status ≡ (if is_some text then 0 else 1))) }
    ensures fails { IfErr result IsOfOutput }
    ensures memory { IfErr result
        (IfMemory (Keeps (W.contents writer.old) (W.contents writer.new))) }
{
    match text {
        Some(text) => {
            write_text(writer, text.as_slice())?;
            Ok(0)
        }
        None => {
            write_text(writer, b"")?;
            Ok(1)
        }
    }
}

// Writes the notices of a bill, says what they lack, and returns the program's status.
fn write_bill<W: Write, N: Write>(
    alloc: Global,
    bill: Bill,
    filling: Filling<'_>,
    writer: &mut W,
    notes: &mut N,
) -> Result<u8, Failure>
    ensures told { let text = written_notices filling.entry.fills.now filling.entry.style bill in
        IfOk result (λ status. Appends (W.contents writer.old) (W.contents writer.new)
        (unwrap_or text []) × (status ≡ (if is_some text then 0 else 1))) }
    ensures fails { IfErr result IsOfOutput }
    ensures memory { IfErr result
        (IfMemory (Keeps (W.contents writer.old) (W.contents writer.new))) }
{
    let Written { text, gaps } = filled_notices(alloc, bill, filling.fills, filling.style)?;
    let told = write_notices(&text, writer);
    drop(text);
    // If the count can't be written, the notices still are.
    let _noted = tell_gaps(alloc, gaps, notes);
    told
}

// Writes notices of a bill with their gaps filled, and any other outcome as the line of its reply.
// Returns the program's status.
fn write_filled<W: Write, E: Write, N: Write>(
    alloc: Global,
    outcome: Outcome,
    filling: Filling<'_>,
    writer: &mut W,
    teller: &mut Teller<E>,
    notes: &mut N,
) -> Result<u8, Failure>
    ensures done { IfOk result (λ status. (answer : Answer) × (outcome ≡ Answered answer)
        × Appends (W.contents writer.old) (W.contents writer.new)
        (filled_text filling.entry.fills.now filling.entry.style answer)
        × (status ≡ filled_status filling.entry.fills.now filling.entry.style answer)) }
    ensures failed { IfErr result (OfRequest
        (λ fault. (outcome ≡ Failed fault)
        × Appends (W.contents writer.old) (W.contents writer.new) (outcome_line outcome))
        (Unit {0})) }
    ensures memory { IfErr result
        (IfMemory (Keeps (W.contents writer.old) (W.contents writer.new))) }
{
    match bill_of(outcome) {
        Ok(bill) => write_bill(alloc, bill, filling, writer, notes),
        Err(other) => {
            let told = tell(alloc, &other, writer);
            teller.explain(&other);
            drop(other);
            told
        }
    }
}

/// Asks a desk for the bill of a release and writes its notices with their gaps filled; `notes` gets
/// a line on what is still missing. If they must be complete and something is, nothing is written,
/// and the status is 1. Any other answer, such as a refusal, is written as the line of its reply.
/// Returns the program's status. If the desk fails, both the reply and the failure say so. The desk
/// is as it was.
pub fn show_filled<D: Desk, W: Write, E: Write, N: Write>(
    alloc: Global,
    desk: &mut D,
    query: &Query,
    filling: Filling<'_>,
    writer: &mut W,
    teller: &mut Teller<E>,
    notes: &mut N,
) -> Result<u8, Failure>
    ensures done { IfOk result (IsFilled filling.entry.fills.now filling.entry.style
        D.are_right D.tells D.stands query.now (D.seen desk.old) (D.seen desk.new)
        (W.contents writer.old) (W.contents writer.new)) }
    ensures failed { IfErr result (OfRequest
        (HasFailed D.are_right D.tells D.stands query.now (D.seen desk.old) (D.seen desk.new)
        (W.contents writer.old) (W.contents writer.new))
        (IsUntold D.are_right D.tells D.stands query.now (D.seen desk.old) (D.seen desk.new))) }
    ensures memory { IfErr result
        (IfMemory (Keeps (W.contents writer.old) (W.contents writer.new))) }
{
    let outcome = ask_desk(desk, query);
    write_filled(alloc, outcome, filling, writer, teller, notes)
}
