//! The changes of duties, and the last days of waivers that end.

ghost use Rattle.std.specs.Prelude.{◌≡◌, true, ℕ, ◌∷◌, [], MatchBool, filter, length, List};
ghost use Rattle.std.specs.List.{list_all};
ghost use Rattle.std.specs.Option.{option_copied};
ghost use Rattle.std.specs.declared.option.Option.TheVariants.{None};
ghost use Rattle.desk_model.specs.Readings.{Readings};
ghost use Rattle.desk_snapshot.specs.Changes.{goes_on, is_waived, is_within};
ghost use Rattle.desk_snapshot.specs.Conditions.{AreChanges};
ghost use Rattle.desk_snapshot.specs.Reports.{IsFirst};
ghost use Rattle.desk_snapshot.specs.Rows.{is_change_of};
ghost use Rattle.desk_snapshot.specs.declared.fault.AuditFault.TheVariants.{BadChange};
ghost use Rattle.desk_audit.specs.Walks.{follows, is_next, lead};

use crate::moves::{is_formed, is_raising, is_waiver_of, leaves, may_move};
use crate::numbers::is_number;
use desk_model::Word;
use desk_snapshot::{
    AuditFault, ByDuty, ByStep, Snapshot, StoredChange, StoredDuty, StoredWaiver, last_day_at,
};

/// Whether a change continues from where the one before it left the duty.
fn goes_on(snapshot: &Snapshot, before: &StoredChange, row: &StoredChange) -> bool
    ensures { result ≡ goes_on snapshot.now before.now row.now }
{
    let Some(left) = Word::named(before.word.as_str()) else {
        return false;
    };
    let Some(word) = Word::named(row.word.as_str()) else {
        return false;
    };
    let end = last_day_at(snapshot, before);
    may_move(left.state_after(), end, row.day.as_str(), word)
}

/// Whether a change raises its duty, or continues from the one before it.
fn follows(snapshot: &Snapshot, before: Option<&StoredChange>, row: &StoredChange) -> bool
    ensures { result ≡ follows snapshot.now (option_copied before.entry) row.now }
{
    match before {
        Some(before) => goes_on(snapshot, before, row),
        None => is_raising(row),
    }
}

/// Whether a change may be at a step, after the one before it.
fn is_next(
    snapshot: &Snapshot,
    before: Option<&StoredChange>,
    step: usize,
    row: &StoredChange,
) -> bool
    ensures { result ≡ is_next snapshot.now (option_copied before.entry) step row.now }
{
    if !is_number(row.step, step) {
        return false;
    }
    if !is_formed(row) {
        return false;
    }
    follows(snapshot, before, row)
}

fn is_change_of(duty: &StoredDuty, row: &StoredChange) -> bool
    ensures { result ≡ is_change_of duty.now.number row.now }
{
    row.duty == duty.number
}

/// Whether the changes of a duty among some rows begin with its raising, continue each other, and
/// lead to its state.
fn lead(snapshot: &Snapshot, duty: &StoredDuty, rows: &[StoredChange]) -> bool
    ensures { result ≡ lead snapshot.now duty.now.state None 1
        (filter (is_change_of duty.now.number) rows.now) }
{
    let mut before: Option<&StoredChange> = None;
    let mut count = 0;
    for row in rows {
        if !is_change_of(duty, row) {
            continue;
        }
        if !is_next(snapshot, before, count + 1, row) {
            return false;
        }
        before = Some(row);
        count += 1;
    }
    match before {
        Some(last) => leaves(duty.state.as_str(), last),
        None => false,
    }
}

fn are_changes_of(snapshot: &Snapshot, duty: &StoredDuty) -> bool
    ensures { result ≡ lead snapshot.now duty.now.state None 1
        (filter (is_change_of duty.now.number) snapshot.now.changes) }
{
    let key = ByDuty { duty: duty.number };
    lead(snapshot, duty, snapshot.changes.among(&key))
}

fn are_changes_of_each(snapshot: &Snapshot) -> bool
    ensures { result ≡ list_all (λ duty. lead snapshot.now duty.state None 1
        (filter (is_change_of duty.number) snapshot.now.changes)) snapshot.now.duty }
{
    let duties = snapshot.duty.as_slice();
    duties.iter().all(|duty| are_changes_of(snapshot, duty))
}

fn is_within(count: usize, number: i64) -> bool
    ensures { result ≡ is_within count number }
{
    match usize::try_from(number) {
        Ok(told) => 1 <= told && told <= count,
        Err(_) => false,
    }
}

fn are_of_duties(snapshot: &Snapshot) -> bool
    ensures { result ≡ list_all (λ row. is_within (length snapshot.now.duty) row.duty)
        snapshot.now.changes }
{
    let count = snapshot.duty.as_slice().len();
    let changes = snapshot.changes.as_slice();
    changes.iter().all(|row| is_within(count, row.duty))
}

fn is_waived(snapshot: &Snapshot, waiver: &StoredWaiver) -> bool
    ensures { result ≡ is_waived snapshot.now waiver.now }
{
    let step = ByStep {
        duty: waiver.duty,
        step: waiver.step,
    };
    match snapshot.changes.find(&step) {
        Some(row) => is_waiver_of(row, waiver.last_day.as_str()),
        None => false,
    }
}

fn are_waived(snapshot: &Snapshot) -> bool
    ensures { result ≡ list_all (is_waived snapshot.now) snapshot.now.waiver }
{
    let waivers = snapshot.waiver.as_slice();
    waivers.iter().all(|waiver| is_waived(snapshot, waiver))
}

fn are_changes(snapshot: &Snapshot) -> bool
    ensures { MatchBool result (AreChanges snapshot.now) (AreChanges snapshot.now → ⊥) }
{
    if !are_changes_of_each(snapshot) {
        return false;
    }
    if !are_of_duties(snapshot) {
        return false;
    }
    are_waived(snapshot)
}

/// Returns `BadChange`, unless each duty's changes are moves that continue each other and lead to
/// its state, there are no others, and waivers that end are only at waived steps.
pub fn change_fault(snapshot: &Snapshot) -> Option<AuditFault>
    ensures { (w : Readings) → IsFirst w snapshot.now (BadChange ∷ []) result }
{
    if are_changes(snapshot) {
        None
    } else {
        Some(AuditFault::BadChange)
    }
}
