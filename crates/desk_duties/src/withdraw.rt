//! Withdraws releases, and ends waivers.

ghost use Rattle.std.specs.Prelude.{◌≡◌, ◌+◌, IfOk, IfErr, length, filter, map, false};
ghost use Rattle.desk_model.specs.Readings.{Readings};
ghost use Rattle.desk_model.specs.Faults.{MayFail};
ghost use Rattle.desk_model.specs.Answers.{refused_alone};
ghost use Rattle.desk_history.specs.FromTables.{ended_rows, is_unmet, next_row, withdrawn_rows};
ghost use Rattle.desk_access.specs.Seen.{OfRows};
ghost use Rattle.desk_access.specs.Plans.{IsPlanOf, Plans, SparesStore};
ghost use Rattle.desk_model.specs.declared.command.Command.TheVariants.{Withdraw, CloseDay};

use crate::duty::{read_day, refusal_if_gone};
use desk_access::store::Store;
use desk_base::{Day, Items, Text};
use desk_model::{
    Answer, Change, ChangeRow, DutyState, Fault, Move, Plan, Refusal, Standing, Word, is_note,
};
use desk_packages::{make, refuse};
use std::alloc::{AllocError, Global};

/// The number of the step after this many. A duty of a recorded history has at most 1,001 changes
/// (`desk_history_laws::changes_are_few`); if rows that no command made have more changes than a
/// step's number can count, the error is that no memory is left.
fn step_after(steps: u64) -> Result<u32, AllocError>
    ensures { IfOk result (λ step. step ≡ steps + 1) }
{
    if steps >= u64::from(u32::MAX) {
        return Err(AllocError);
    }
    Ok(steps as u32 + 1)
}

/// The row of a duty's next move.
fn next_row(made: &Move, standing: &Standing) -> Result<ChangeRow, AllocError>
    ensures { IfOk result (λ row. row ≡ next_row made.now standing.now) }
{
    Ok(ChangeRow {
        duty: standing.number,
        step: step_after(standing.steps)?,
        day: made.day,
        word: made.word,
        body: made.body.clone()?,
        last_day: made.last_day,
    })
}

fn is_unmet(standing: &Standing) -> bool
    ensures { result ≡ is_unmet standing.now }
{
    standing.state != DutyState::Met
}

/// Those of the standings whose duties are not met.
fn unmet_of(mut standings: Vec<Standing>) -> Vec<Standing>
    ensures { result.items ≡ filter is_unmet standings.items }
{
    standings.retain(|standing| is_unmet(standing));
    standings
}

/// The rows of the next moves of duties.
fn next_rows(
    alloc: Global,
    made: &Move,
    standings: &[Standing],
) -> Result<Items<ChangeRow>, AllocError>
    ensures { IfOk result (λ rows. rows ≡ map (next_row made.now) standings.now) }
{
    let mut rows = Items::new(alloc);
    for standing in standings {
        rows.push(next_row(made, standing)?)?;
    }
    Ok(rows)
}

/// Withdraws a release, and with it those of its duties that are not met.
fn withdrew(
    alloc: Global,
    release: &Text,
    day: Day,
    text: &Text,
    standings: Vec<Standing>,
) -> Result<Change, AllocError>
    ensures { IfOk result
        (λ change. change ≡ Change.Withdrew release.now
        (withdrawn_rows day text.now standings.items)) }
{
    let unmet = unmet_of(standings);
    let made = Move {
        day,
        word: Word::Withdrawn,
        body: text.clone()?,
        last_day: None,
    };
    let changes = next_rows(alloc, &made, unmet.as_slice())?;
    let release = release.clone()?;
    Ok(Change::Withdrew { release, changes })
}

/// The rows of the waivers that end.
fn ended_rows(
    alloc: Global,
    day: Day,
    standings: &[Standing],
) -> Result<Items<ChangeRow>, AllocError>
    ensures { IfOk result (λ rows. rows ≡ ended_rows day standings.now) }
{
    let made = Move {
        day,
        word: Word::Ended,
        body: Text::of(alloc, "")?,
        last_day: None,
    };
    next_rows(alloc, &made, standings)
}

/// Withdraws a release: its duties that are not met are withdrawn with it, and it no longer holds
/// any choice.
pub fn withdraw<S: Store>(
    alloc: Global,
    store: &mut S,
    release: &Text,
    day: &Text,
    text: &Text,
) -> Result<Plan, Fault>
    ensures plan { (w : Readings) → IfOk result (λ plan.
        OfRows (IsPlanOf w (Withdraw release.now day.now text.now) plan)
        (S.seen store.old) (S.seen store.new)) }
    ensures kept { Plans (S.seen store.old) (S.seen store.new) result }
    ensures alone { (w : Readings)
        → SparesStore (refused_alone w (Withdraw release.now day.now text.now)) result }
    ensures fault { IfErr result (MayFail S.tells) }
{
    let Some(day) = read_day(day) else {
        return Ok(refuse(Refusal::BadDay));
    };
    if !is_note(text.as_str()) {
        return Ok(refuse(Refusal::BadText));
    }
    let Some(row) = store.release(release.as_str())? else {
        return Ok(refuse(Refusal::UnknownRelease));
    };
    if let Some(refusal) = refusal_if_gone(row.state) {
        return Ok(refuse(refusal));
    }
    let standings = store.standings_of(release.as_str())?;
    Ok(make(withdrew(alloc, release, day, text, standings)?))
}

fn close_plan(changes: Items<ChangeRow>) -> Plan
    ensures { result ≡ Plan.Make (Answer.Closed (length changes)) (Change.Moved changes) }
{
    let count = changes.as_slice().len() as u64;
    Plan::Make {
        answer: Answer::Closed(count),
        change: Change::Moved { changes },
    }
}

/// Ends the waivers whose last day is before this day.
pub fn close_day<S: Store>(alloc: Global, store: &mut S, day: &Text) -> Result<Plan, Fault>
    ensures plan { (w : Readings) → IfOk result (λ plan.
        OfRows (IsPlanOf w (CloseDay day.now) plan) (S.seen store.old) (S.seen store.new)) }
    ensures kept { Plans (S.seen store.old) (S.seen store.new) result }
    ensures alone { (w : Readings) → SparesStore (refused_alone w (CloseDay day.now)) result }
    ensures fault { IfErr result (MayFail S.tells) }
{
    let Some(day) = read_day(day) else {
        return Ok(refuse(Refusal::BadDay));
    };
    let standings = store.ended(day)?;
    Ok(close_plan(ended_rows(alloc, day, standings.as_slice())?))
}
