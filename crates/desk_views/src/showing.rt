//! The texts that an office asks for: the notices of a release, the table of its duties, their
//! totals, the changes of a duty, and what is missing for notices.

ghost use Rattle.std.specs.Prelude.{◌≡◌, IfOk, IfErr, option_map, if◌then◌else◌};
ghost use Rattle.std.specs.Io.KnownBytes.{Appends, Keeps};
ghost use Rattle.desk_report.specs.Columns.{columns_text};
ghost use Rattle.desk_report.specs.CsvTable.{table_text};
ghost use Rattle.desk_report.specs.Lines.{totals_line};
ghost use Rattle.desk_report.specs.Notices.{notices_text};
ghost use Rattle.desk_report.specs.Terminal.{text_on};
ghost use Rattle.desk_model.specs.declared.command.Answer.{Answer};
ghost use Rattle.desk_model.specs.declared.command.Outcome.TheVariants.{Answered, Failed};
ghost use Rattle.desk_subcommands.specs.Failures.{IfMemory, IsOfOutput, OfRequest};
ghost use Rattle.desk_subcommands.specs.Filing.{answer_status, outcome_line};
ghost use Rattle.desk_views.specs.Showing.{answer_text, Asks, HasFailed, IsShown, IsUntold, outcome_text, shown};

use desk_answers::gaps_text;
use desk_core::desk::Desk;
use desk_model::{Answer, Bill, DutyLine, Outcome, Query, Totals};
use desk_report::{changes_on, duties_columns, duties_csv, notices, notices_shown, totals_text};
use desk_subcommands::{Failure, Teller, tell, write_text};
use std::alloc::{AllocError, Global};
use std::io::Write;

fn totals_bytes(alloc: Global, totals: &Totals) -> Result<Vec<u8>, AllocError>
    ensures { IfOk result (λ text. text.items ≡ totals_line totals.now) }
{
    Ok(totals_text(alloc, totals)?.into_bytes())
}

// The notices.
fn notices_bytes(alloc: Global, bill: &Bill, is_terminal: bool) -> Result<Vec<u8>, AllocError>
    ensures { IfOk result (λ text. text.items ≡ text_on is_terminal (notices_text bill.now)) }
{
    if is_terminal {
        notices_shown(alloc, bill)
    } else {
        notices(alloc, bill)
    }
}

// The table of duties.
fn duties_table(alloc: Global, lines: &[DutyLine], is_terminal: bool) -> Result<Vec<u8>, AllocError>
    ensures { IfOk result (λ text. text.items
        ≡ (if is_terminal then columns_text lines.now else table_text lines.now)) }
{
    if is_terminal {
        duties_columns(alloc, lines)
    } else {
        duties_csv(alloc, lines)
    }
}

// The text of an answer, if it has one.
fn answer_text(
    alloc: Global,
    answer: &Answer,
    is_terminal: bool,
) -> Result<Option<Vec<u8>>, AllocError>
    ensures { IfOk result (λ found. option_map (λ text. text.items) found
        ≡ answer_text is_terminal answer.now) }
{
    match answer {
        Answer::Bill(bill) => Ok(Some(notices_bytes(alloc, bill, is_terminal)?)),
        Answer::Duties(lines) => Ok(Some(duties_table(alloc, lines.as_slice(), is_terminal)?)),
        Answer::Totals(totals) => Ok(Some(totals_bytes(alloc, totals)?)),
        Answer::Changes(rows) => Ok(Some(changes_on(alloc, rows.as_slice(), is_terminal)?)),
        Answer::Gaps(gaps) => Ok(Some(gaps_text(alloc, gaps.as_slice(), is_terminal)?)),
        _ => Ok(None),
    }
}

fn outcome_text(
    alloc: Global,
    outcome: &Outcome,
    is_terminal: bool,
) -> Result<Option<Vec<u8>>, AllocError>
    ensures { IfOk result (λ found. option_map (λ text. text.items) found
        ≡ outcome_text is_terminal outcome.now) }
{
    match outcome {
        Outcome::Answered(answer) => answer_text(alloc, answer, is_terminal),
        Outcome::Failed(_) => Ok(None),
    }
}

// Writes an outcome as it is shown, and returns the status.
pub(crate) fn write_outcome<W: Write>(
    alloc: Global,
    outcome: &Outcome,
    is_terminal: bool,
    writer: &mut W,
) -> Result<u8, Failure>
    ensures done { IfOk result (λ status. (answer : Answer) × (outcome.now ≡ Answered answer)
        × Appends (W.contents writer.old) (W.contents writer.new) (shown is_terminal answer)
        × (status ≡ answer_status answer)) }
    ensures failed { IfErr result (OfRequest
        (λ fault. (outcome.now ≡ Failed fault)
        × Appends (W.contents writer.old) (W.contents writer.new) (outcome_line outcome.now))
        (Unit {0})) }
    ensures memory { IfErr result
        (IfMemory (Keeps (W.contents writer.old) (W.contents writer.new))) }
{
    match outcome_text(alloc, outcome, is_terminal)? {
        Some(text) => {
            write_text(writer, text.as_slice())?;
            Ok(0)
        }
        None => tell(alloc, outcome, writer),
    }
}

// Asks a question.
pub(crate) fn ask_desk<D: Desk>(desk: &mut D, query: &Query) -> Outcome
    ensures { Asks D.are_right D.tells D.stands query.now (D.seen desk.old) (D.seen desk.new)
        result }
{
    Outcome::from(desk.ask(query))
}

/// Asks a desk a question and writes the text of its answer: the notices of a bill, the table of
/// duties, the line of totals, the lines of changes, or the list of gaps. A terminal gets the
/// notices and the changes as it shows them, and tables in columns. Any other answer, such as a
/// refusal, is written as the line of its reply. Returns the program's status. If the desk fails,
/// both the reply and the failure say so. The desk is as it was.
pub fn show<D: Desk, W: Write, E: Write>(
    alloc: Global,
    desk: &mut D,
    query: &Query,
    is_terminal: bool,
    writer: &mut W,
    teller: &mut Teller<E>,
) -> Result<u8, Failure>
    ensures done { IfOk result
        (IsShown D.are_right D.tells D.stands query.now (D.seen desk.old) (D.seen desk.new)
        is_terminal
        (W.contents writer.old) (W.contents writer.new)) }
    ensures failed { IfErr result (OfRequest
        (HasFailed D.are_right D.tells D.stands query.now (D.seen desk.old) (D.seen desk.new)
        (W.contents writer.old) (W.contents writer.new))
        (IsUntold D.are_right D.tells D.stands query.now (D.seen desk.old) (D.seen desk.new))) }
    ensures memory { IfErr result
        (IfMemory (Keeps (W.contents writer.old) (W.contents writer.new))) }
{
    let outcome = ask_desk(desk, query);
    let told = write_outcome(alloc, &outcome, is_terminal, writer);
    teller.explain(&outcome);
    drop(outcome);
    told
}
