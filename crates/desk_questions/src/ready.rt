//! Whether a release is ready.

ghost use Rattle.std.specs.Prelude.{◌≡◌, ◌++◌, ◌∷◌, [], IfOk, IfErr, MatchOption, None, OnOk, cond, filter, true, false};
ghost use Rattle.std.specs.List.{last_or};
ghost use Rattle.std.specs.Option.{option_and_then, option_map_or};
ghost use Rattle.desk_base.specs.Day.{is_day};
ghost use Rattle.desk_model.specs.Readings.{Readings};
ghost use Rattle.desk_model.specs.Faults.{MayFail};
ghost use Rattle.desk_model.specs.Moves.{is_over};
ghost use Rattle.desk_model.specs.Ready.{unfrozen};
ghost use Rattle.desk_access.specs.Seen.{Looked, OfRows};
ghost use Rattle.desk_history.specs.FromTables.{end_found, queried_from, unready_found};
ghost use Rattle.desk_questions.specs.Ready.{keeps_found};

use crate::ask::duty_lines;
use desk_access::store::Store;
use desk_base::{Day, Text};
use desk_model::{
    Answer, ChangeRow, DutyRow, DutyState, Fault, Query, Refusal, ReleaseState, is_over,
};
use std::alloc::{AllocError, Global};

/// The day that a text is, if there is a text.
fn read_day(text: &Option<Text>) -> Option<Option<Day>>
    ensures { MatchOption result
        (option_map_or is_day text.now true ≡ false)
        (λ day. (option_map_or is_day text.now true ≡ true) × (day ≡ text.now)) }
{
    match text {
        Some(text) => Some(Some(Day::parse(text.as_str())?)),
        None => Some(None),
    }
}

fn unfrozen(state: ReleaseState) -> Option<Refusal>
    ensures { result ≡ unfrozen state }
{
    match state {
        ReleaseState::Frozen => None,
        _ => Some(Refusal::ReleaseState(state)),
    }
}

/// The last day of the last change, if it is a waiver that ends.
fn end_of(mut changes: Vec<ChangeRow>) -> Option<Day>
    ensures { result ≡ option_and_then (λ change. change.last_day) (last_or None changes.items) }
{
    match changes.pop() {
        Some(last) => last.last_day,
        None => None,
    }
}

/// Whether the waiver of a duty is over on a day.
fn is_past<S: Store>(store: &mut S, duty: u32, day: Day) -> Result<bool, Fault>
    ensures found { IfOk result (λ past.
        OfRows (λ t. past ≡ is_over day (end_found t duty)) (S.seen store.old) (S.seen store.new)) }
    ensures kept { Looked (S.seen store.old) (S.seen store.new) result }
    ensures fault { IfErr result (MayFail S.tells) }
{
    let changes = store.changes_of(u64::from(duty))?;
    Ok(is_over(day, &end_of(changes)))
}

/// Whether a duty keeps its release back, for a day if one is given.
fn keeps_back<S: Store>(store: &mut S, row: &DutyRow, day: &Option<Day>) -> Result<bool, Fault>
    ensures found { IfOk result (λ keeps.
        OfRows (λ t. keeps ≡ keeps_found t day.now row.now) (S.seen store.old) (S.seen store.new)) }
    ensures kept { Looked (S.seen store.old) (S.seen store.new) result }
    ensures fault { IfErr result (MayFail S.tells) }
{
    match row.state {
        DutyState::IsOpen => Ok(true),
        DutyState::Waived => match day {
            Some(day) => is_past(store, row.number, *day),
            None => Ok(false),
        },
        DutyState::Met | DutyState::Withdrawn => Ok(false),
    }
}

fn push_if(rows: &mut Vec<DutyRow>, is: bool, row: DutyRow) -> Result<(), AllocError>
    ensures { OnOk result (rows.new.items ≡ rows.old.items ++ cond is (row ∷ []) []) }
{
    if is {
        rows.push(row)?;
    }
    Ok(())
}

#[tactic(auto, using(desk_access::proofs::Chains::same_then_kept, desk_access::proofs::Chains::same_then_same))]
/// Those of these duties that keep their release back, for a day if one is given.
fn unready_among<S: Store>(
    alloc: Global,
    store: &mut S,
    rows: Vec<DutyRow>,
    day: &Option<Day>,
) -> Result<Vec<DutyRow>, Fault>
    ensures found { IfOk result (λ kept. OfRows (λ t.
        kept.items ≡ filter (keeps_found t day.now) rows.items)
        (S.seen store.old) (S.seen store.new)) }
    ensures kept { Looked (S.seen store.old) (S.seen store.new) result }
    ensures fault { IfErr result (MayFail S.tells) }
{
    let mut kept = Vec::new(alloc);
    for row in rows {
        let keeps = keeps_back(store, &row, day)?;
        push_if(&mut kept, keeps, row)?;
    }
    Ok(kept)
}

/// The duties that keep a release back, for a day if one is given.
fn unready<S: Store>(
    alloc: Global,
    store: &mut S,
    release: &Text,
    day: &Option<Day>,
) -> Result<Vec<DutyRow>, Fault>
    ensures found { IfOk result (λ kept.
        OfRows (λ t. kept.items ≡ unready_found t release.now day.now) (S.seen store.old)
        (S.seen store.new)) }
    ensures kept { Looked (S.seen store.old) (S.seen store.new) result }
    ensures fault { IfErr result (MayFail S.tells) }
{
    let rows = store.duties_of(release.as_str())?;
    unready_among(alloc, store, rows, day)
}

/// The duties that keep a frozen release from being ready: the open ones and, if a day is given,
/// those whose waivers are over on it.
pub fn ready<S: Store>(
    alloc: Global,
    store: &mut S,
    release: &Text,
    day: &Option<Text>,
) -> Result<Answer, Fault>
    ensures answer { (w : Readings) → IfOk result (λ answer.
        OfRows (λ t. answer ≡ queried_from w t (Query.Ready release.now day.now))
        (S.seen store.old) (S.seen store.new)) }
    ensures kept { Looked (S.seen store.old) (S.seen store.new) result }
    ensures fault { IfErr result (MayFail S.tells) }
{
    let Some(day) = read_day(day) else {
        return Ok(Answer::Refused(Refusal::BadDay));
    };
    let Some(row) = store.release(release.as_str())? else {
        return Ok(Answer::Refused(Refusal::UnknownRelease));
    };
    if let Some(refusal) = unfrozen(row.state) {
        return Ok(Answer::Refused(refusal));
    }
    let kept = unready(alloc, store, release, &day)?;
    Ok(Answer::Duties(duty_lines(alloc, store, kept)?))
}
