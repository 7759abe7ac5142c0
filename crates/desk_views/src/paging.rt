//! The page on a release.

ghost use Rattle.std.specs.Prelude.{◌≡◌, ◌++◌, ◌∷◌, [], IfOk, IfErr, OnOk, List, ℕ};
ghost use Rattle.std.specs.Io.KnownBytes.{Appends, Keeps};
ghost use Rattle.desk_model.specs.Queries.{queried};
ghost use Rattle.desk_model.specs.declared.command.Answer.{Answer as Answered};
ghost use Rattle.desk_model.specs.declared.command.Answer.TheVariants as answered;
ghost use Rattle.desk_model.specs.declared.command.Fault.TheVariants.{Memory};
ghost use Rattle.desk_model.specs.declared.command.Outcome.TheVariants as told;
ghost use Rattle.desk_model.specs.declared.command.Outcome.TheVariants.{Failed};
ghost use Rattle.desk_model.specs.declared.command.Query.TheVariants as query;
ghost use Rattle.desk_access.specs.Seen.{Kept, Looked};
ghost use Rattle.desk_core.specs.Desks.{InHistory};
ghost use Rattle.desk_subcommands.specs.Failures.{IfMemory, IsOfOutput, OfRequest};
ghost use Rattle.desk_subcommands.specs.Filing.{answer_status, outcome_line};
ghost use Rattle.desk_views.specs.Paging.{AreChanges, Gathers, IsPaged, IsToldBy, LookedUp, contents_text, rows_in};

use desk_base::{Items, Text};
use desk_core::desk::Desk;
use desk_model::{Answer, Bill, ChangeRow, DutyLine, Fault, Outcome, Query, Totals};
use desk_subcommands::{Failure, Teller, tell, write_text};
use std::alloc::Global;
use std::io::Write;

/// What a page is written from.
#[derive(Drop)]
pub(crate) struct Contents {
    bill: Bill,
    totals: Totals,
    duties: Items<DutyLine>,
    /// The changes of each duty, at the duty's own index.
    changes: Vec<Items<ChangeRow>>,
}

// Asks a question.
fn answer_of<D: Desk>(desk: &mut D, query: Query) -> Result<Answer, Fault>
    ensures told { IfOk result (λ answer. InHistory D.are_right (λ w h.
        answer ≡ queried w h query) (D.seen desk.old) (D.seen desk.new)) }
    ensures kept { Looked (D.seen desk.old) (D.seen desk.new) result }
{
    let answer = desk.ask(&query);
    drop(query);
    answer
}

fn bill_of<D: Desk>(desk: &mut D, release: &Text) -> Result<Answer, Fault>
    ensures told { IfOk result (λ answer. InHistory D.are_right (λ w h.
        answer ≡ queried w h (query.Bill release.now)) (D.seen desk.old) (D.seen desk.new)) }
    ensures kept { Looked (D.seen desk.old) (D.seen desk.new) result }
{
    let release = release.clone()?;
    answer_of(desk, Query::Bill { release })
}

fn totals_of<D: Desk>(desk: &mut D, release: &Text) -> Result<Answer, Fault>
    ensures told { IfOk result (λ answer. InHistory D.are_right (λ w h.
        answer ≡ queried w h (query.Totals release.now)) (D.seen desk.old) (D.seen desk.new)) }
    ensures kept { Looked (D.seen desk.old) (D.seen desk.new) result }
{
    let release = release.clone()?;
    answer_of(desk, Query::Totals { release })
}

fn duties_of<D: Desk>(desk: &mut D, release: &Text) -> Result<Answer, Fault>
    ensures told { IfOk result (λ answer. InHistory D.are_right (λ w h.
        answer ≡ queried w h (query.Duties release.now)) (D.seen desk.old) (D.seen desk.new)) }
    ensures kept { Looked (D.seen desk.old) (D.seen desk.new) result }
{
    let release = release.clone()?;
    answer_of(desk, Query::Duties { release })
}

fn changes_of<D: Desk>(desk: &mut D, number: u32) -> Result<Answer, Fault>
    ensures told { IfOk result (λ answer. InHistory D.are_right (λ w h.
        answer ≡ queried w h (query.Changes number)) (D.seen desk.old) (D.seen desk.new)) }
    ensures kept { Looked (D.seen desk.old) (D.seen desk.new) result }
{
    let duty = u64::from(number);
    answer_of(desk, Query::Changes { duty })
}

fn bill_in(asked: Result<Answer, Fault>) -> Result<Bill, Outcome>
    ensures { IsToldBy answered.Bill asked result }
{
    match asked {
        Ok(Answer::Bill(bill)) => Ok(bill),
        other => Err(Outcome::from(other)),
    }
}

fn totals_in(asked: Result<Answer, Fault>) -> Result<Totals, Outcome>
    ensures { IsToldBy answered.Totals asked result }
{
    match asked {
        Ok(Answer::Totals(totals)) => {
            drop(asked);
            Ok(totals)
        }
        other => Err(Outcome::from(other)),
    }
}

fn duties_in(asked: Result<Answer, Fault>) -> Result<Items<DutyLine>, Outcome>
    ensures { IsToldBy answered.Duties asked result }
{
    match asked {
        Ok(Answer::Duties(duties)) => Ok(duties),
        other => Err(Outcome::from(other)),
    }
}

fn changes_in(asked: Result<Answer, Fault>) -> Result<Items<ChangeRow>, Outcome>
    ensures { IsToldBy answered.Changes asked result }
{
    match asked {
        Ok(Answer::Changes(rows)) => Ok(rows),
        other => Err(Outcome::from(other)),
    }
}

/// Adds the changes of a duty.
fn add_rows(changes: &mut Vec<Items<ChangeRow>>, rows: Items<ChangeRow>) -> Result<(), Outcome>
    ensures ok { OnOk result (changes.new.items ≡ changes.old.items ++ rows ∷ []) }
    ensures memory { IfErr result (λ outcome. outcome ≡ Failed Memory) }
{
    match changes.push(rows) {
        Ok(()) => Ok(()),
        Err(_) => Err(Outcome::Failed(Fault::Memory)),
    }
}

/// The changes of each of these duties.
fn all_changes<D: Desk>(
    alloc: Global,
    desk: &mut D,
    duties: &[DutyLine],
) -> Result<Vec<Items<ChangeRow>>, Outcome>
    ensures found { InHistory D.are_right (λ w h. AreChanges w h duties.now (rows_in result))
        (D.seen desk.old) (D.seen desk.new) }
    ensures kept { LookedUp (D.seen desk.old) (D.seen desk.new) result }
{
    let mut changes = Vec::new(alloc);
    for duty in duties {
        let rows = changes_in(changes_of(desk, duty.number))?;
        add_rows(&mut changes, rows)?;
    }
    Ok(changes)
}

/// Asks a desk for what a page on a release is written from.
fn contents_of<D: Desk>(alloc: Global, desk: &mut D, release: &Text) -> Result<Contents, Outcome>
    ensures found { InHistory D.are_right (λ w h. Gathers w h release.now result)
        (D.seen desk.old) (D.seen desk.new) }
    ensures kept { Kept (D.seen desk.old) (D.seen desk.new) }
{
    let bill = bill_in(bill_of(desk, release))?;
    let totals = match totals_in(totals_of(desk, release)) {
        Ok(totals) => totals,
        Err(outcome) => {
            drop(bill);
            return Err(outcome);
        }
    };
    let duties = match duties_in(duties_of(desk, release)) {
        Ok(duties) => duties,
        Err(outcome) => {
            drop(bill);
            return Err(outcome);
        }
    };
    let changes = match all_changes(alloc, desk, duties.as_slice()) {
        Ok(changes) => changes,
        Err(outcome) => {
            drop(bill);
            drop(duties);
            return Err(outcome);
        }
    };
    Ok(Contents {
        bill,
        totals,
        duties,
        changes,
    })
}

/// Writes the page, and returns the program's status.
fn write_contents<W: Write>(
    alloc: Global,
    contents: &Contents,
    writer: &mut W,
) -> Result<u8, Failure>
    ensures told { IfOk result (λ status. (status ≡ 0)
        × Appends (W.contents writer.old) (W.contents writer.new) (contents_text contents.now)) }
    ensures fails { IfErr result IsOfOutput }
    ensures memory { IfErr result
        (IfMemory (Keeps (W.contents writer.old) (W.contents writer.new))) }
{
    let text = desk_page::page(
        alloc,
        &contents.bill,
        &contents.totals,
        contents.duties.as_slice(),
        contents.changes.as_slice(),
    )?;
    write_text(writer, text.as_bytes())?;
    Ok(0)
}

/// The same for contents passed by value, which are freed once the page is written.
fn write_page<W: Write>(alloc: Global, contents: Contents, writer: &mut W) -> Result<u8, Failure>
    ensures told { IfOk result (λ status. (status ≡ 0)
        × Appends (W.contents writer.old) (W.contents writer.new) (contents_text contents)) }
    ensures fails { IfErr result IsOfOutput }
    ensures memory { IfErr result
        (IfMemory (Keeps (W.contents writer.old) (W.contents writer.new))) }
{
    let status = write_contents(alloc, &contents, writer);
    drop(contents);
    status
}

/// Writes the outcome of a question, in place of a page, and explains it.
fn tell_instead<W: Write, E: Write>(
    alloc: Global,
    outcome: Outcome,
    writer: &mut W,
    teller: &mut Teller<E>,
) -> Result<u8, Failure>
    ensures done { IfOk result (λ status. (answer : Answered) × (outcome ≡ told.Answered answer)
        × Appends (W.contents writer.old) (W.contents writer.new)
        (outcome_line (told.Answered answer))
        × (status ≡ answer_status answer)) }
    ensures failed { IfErr result (OfRequest
        (λ fault. (outcome ≡ Failed fault)
        × Appends (W.contents writer.old) (W.contents writer.new) (outcome_line outcome))
        (Unit {0})) }
    ensures memory { IfErr result
        (IfMemory (Keeps (W.contents writer.old) (W.contents writer.new))) }
{
    let status = tell(alloc, &outcome, writer);
    if let Outcome::Answered(_) = &outcome {
        teller.explain(&outcome);
    }
    drop(outcome);
    status
}

/// Writes a page on a frozen release of a desk, as HTML: what it ships, its duties with their
/// changes, and the notices. If the desk refuses one of the questions for it, the line of that reply
/// is written. Returns the program's status. If the desk fails, both the reply and the failure say
/// so. The desk is as it was.
pub fn page<D: Desk, W: Write, E: Write>(
    alloc: Global,
    desk: &mut D,
    release: &Text,
    writer: &mut W,
    teller: &mut Teller<E>,
) -> Result<u8, Failure>
    ensures done { IfOk result (λ status. (text : List ℕ)
        × InHistory D.are_right (λ w h. IsPaged w h release.now text status) (D.seen desk.old)
        (D.seen desk.new)
        × Appends (W.contents writer.old) (W.contents writer.new) text) }
    ensures failed { IfErr result
        (OfRequest (λ fault. Appends (W.contents writer.old) (W.contents writer.new)
        (outcome_line (Failed fault))) (Unit {0})) }
    ensures kept { Kept (D.seen desk.old) (D.seen desk.new) }
    ensures memory { IfErr result
        (IfMemory (Keeps (W.contents writer.old) (W.contents writer.new))) }
{
    match contents_of(alloc, desk, release) {
        Ok(contents) => write_page(alloc, contents, writer),
        Err(outcome) => tell_instead(alloc, outcome, writer, teller),
    }
}
