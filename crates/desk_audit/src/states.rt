//! The states of releases and of their duties.

ghost use Rattle.std.specs.Prelude.{◌≡◌, true, ◌∷◌, [], MatchBool, find, is_some};
ghost use Rattle.std.specs.List.{list_all};
ghost use Rattle.std.specs.Option.{option_map_or};
ghost use Rattle.desk_model.specs.Readings.{Readings};
ghost use Rattle.desk_model.specs.Names.{release_state_named};
ghost use Rattle.desk_snapshot.specs.Conditions.{AreStates, stands_as};
ghost use Rattle.desk_snapshot.specs.Reports.{IsFirst};
ghost use Rattle.desk_snapshot.specs.Rows.{is_release};
ghost use Rattle.desk_snapshot.specs.declared.fault.AuditFault.TheVariants.{BadState};

use crate::words::{is_in_state, is_stated, is_withdrawn};
use desk_model::DutyState;
use desk_snapshot::{AuditFault, ByName, Snapshot, StoredDuty, StoredRelease};

/// Whether a duty may be in its state, given its release.
fn stands_as(release: &StoredRelease, duty: &StoredDuty) -> bool
    ensures { result ≡ stands_as release.now duty.now }
{
    if is_withdrawn(release) {
        !(is_in_state(DutyState::IsOpen, duty) || is_in_state(DutyState::Waived, duty))
    } else {
        !is_in_state(DutyState::Withdrawn, duty)
    }
}

/// Whether a duty may be in its state, given its release, if that exists.
fn stands(snapshot: &Snapshot, duty: &StoredDuty) -> bool
    ensures { result ≡ option_map_or (λ release. stands_as release duty.now)
        (find (is_release duty.now.release) snapshot.now.releases) true }
{
    let name = duty.release.as_str();
    match snapshot.releases.find(&ByName { name }) {
        Some(release) => stands_as(release, duty),
        None => true,
    }
}

fn are_stated(snapshot: &Snapshot) -> bool
    ensures { result ≡ list_all (λ row. is_some (release_state_named row.state))
        snapshot.now.releases }
{
    snapshot.releases.as_slice().iter().all(is_stated)
}

fn all_stand(snapshot: &Snapshot) -> bool
    ensures { result ≡ list_all (λ row. option_map_or (λ release. stands_as release row)
        (find (is_release row.release) snapshot.now.releases) true) snapshot.now.duty }
{
    let duties = snapshot.duty.as_slice();
    duties.iter().all(|duty| stands(snapshot, duty))
}

fn are_states(snapshot: &Snapshot) -> bool
    ensures { MatchBool result (AreStates snapshot.now) (AreStates snapshot.now → ⊥) }
{
    are_stated(snapshot) && all_stand(snapshot)
}

/// Returns `BadState`, unless each release is open, frozen or withdrawn, a withdrawn release has no
/// open or waived duty, and any other release no withdrawn one.
pub fn state_fault(snapshot: &Snapshot) -> Option<AuditFault>
    ensures { (w : Readings) → IsFirst w snapshot.now (BadState ∷ []) result }
{
    if are_states(snapshot) {
        None
    } else {
        Some(AuditFault::BadState)
    }
}
