//! The numbers of duties, and that their releases were frozen.

ghost use Rattle.std.specs.Prelude.{◌≡◌, pos, ◌∷◌, [], MatchBool};
ghost use Rattle.std.specs.List.{list_all};
ghost use Rattle.std.specs.Ordering.{int_eq};
ghost use Rattle.desk_model.specs.Readings.{Readings};
ghost use Rattle.desk_snapshot.specs.Conditions.{AreNumbered, was_frozen};
ghost use Rattle.desk_snapshot.specs.Reports.{IsFirst};
ghost use Rattle.desk_snapshot.specs.declared.fault.AuditFault.TheVariants.{BadNumber};
ghost use Rattle.desk_audit.specs.Walks.{count_from};

use desk_base::limits;
use desk_snapshot::{AuditFault, ByName, Snapshot, StoredDuty};

/// Whether a whole number is this count.
pub(crate) fn is_number(number: i64, count: usize) -> bool
    ensures { result ≡ int_eq number (pos count) }
{
    match usize::try_from(number) {
        Ok(told) => told == count,
        Err(_) => false,
    }
}

/// Whether the duties have the numbers 1, 2 and so on.
fn count_from_one(duties: &[StoredDuty]) -> bool
    ensures { result ≡ count_from 1 duties.now }
{
    for (place, duty) in duties.iter().enumerate() {
        if !is_number(duty.number, place + 1) {
            return false;
        }
    }
    true
}

/// Whether the release with this name was frozen.
pub(crate) fn was_frozen(snapshot: &Snapshot, name: &str) -> bool
    ensures { result ≡ was_frozen snapshot.now name.now }
{
    match snapshot.releases.find(&ByName { name }) {
        Some(release) => release.revision != 0,
        None => false,
    }
}

fn were_frozen(snapshot: &Snapshot) -> bool
    ensures { result ≡ list_all (λ row. was_frozen snapshot.now row.release) snapshot.now.duty }
{
    let duties = snapshot.duty.as_slice();
    duties
        .iter()
        .all(|duty| was_frozen(snapshot, duty.release.as_str()))
}

fn are_numbered(snapshot: &Snapshot) -> bool
    ensures { MatchBool result (AreNumbered snapshot.now) (AreNumbered snapshot.now → ⊥) }
{
    let duties = snapshot.duty.as_slice();
    if duties.len() as u64 > limits::DUTIES {
        return false;
    }
    if !count_from_one(duties) {
        return false;
    }
    were_frozen(snapshot)
}

/// Returns `BadNumber`, unless the duties have the numbers 1, 2 and so on, there are at most
/// 100,000, and each is of a release that was frozen.
pub fn number_fault(snapshot: &Snapshot) -> Option<AuditFault>
    ensures { (w : Readings) → IsFirst w snapshot.now (BadNumber ∷ []) result }
{
    if are_numbered(snapshot) {
        None
    } else {
        Some(AuditFault::BadNumber)
    }
}
