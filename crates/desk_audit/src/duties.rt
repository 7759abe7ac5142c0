//! Compares the duties with what the frozen terms owe.

ghost use Rattle.std.specs.Prelude.{◌≡◌, ◌∷◌, [], MatchBool, IfOk, IsPermutation, map, flat_map};
ghost use Rattle.std.specs.List.{list_all};
ghost use Rattle.desk_model.specs.Readings.{Readings};
ghost use Rattle.desk_snapshot.specs.Conditions.{AreDuties, is_ruled, owed_by, owed_of};
ghost use Rattle.desk_snapshot.specs.Reports.{IsFirst};
ghost use Rattle.desk_snapshot.specs.declared.fault.AuditFault.TheVariants.{BadDuty};

use crate::owed::{are_alike, owed_by_all, owed_of_all, sort_owed};
use crate::rules::Ruling;
use desk_snapshot::{AuditFault, Snapshot};
use std::alloc::{AllocError, Global};

fn are_ruled(ruling: &Ruling<'_>) -> bool
    ensures { result ≡ list_all (is_ruled ruling.now.snapshot.now) ruling.now.snapshot.now.frozen }
{
    let rows = ruling.snapshot.frozen.as_slice();
    rows.iter().all(|row| ruling.is_ruled(row))
}

/// Whether the duties are those that the frozen terms owe.
fn are_owed(alloc: Global, ruling: &Ruling<'_>) -> Result<bool, AllocError>
    ensures { IfOk result (λ good. MatchBool good
        (IsPermutation (flat_map (owed_by ruling.now.snapshot.now) ruling.now.snapshot.now.frozen)
        (map owed_of ruling.now.snapshot.now.duty))
        (IsPermutation (flat_map (owed_by ruling.now.snapshot.now) ruling.now.snapshot.now.frozen)
        (map owed_of ruling.now.snapshot.now.duty) → ⊥)) }
{
    let rows = ruling.snapshot.frozen.as_slice();
    let duties = ruling.snapshot.duty.as_slice();
    let Some(owed) = owed_by_all(alloc, ruling, rows, duties.len())? else {
        return Ok(false);
    };
    let owed = sort_owed(owed);
    let told = sort_owed(owed_of_all(alloc, duties)?);
    Ok(are_alike(&owed, &told))
}

fn are_duties(alloc: Global, snapshot: &Snapshot) -> Result<bool, AllocError>
    ensures { IfOk result (λ good. MatchBool good (AreDuties snapshot.now)
        (AreDuties snapshot.now → ⊥)) }
{
    let ruling = Ruling::of(alloc, snapshot)?;
    if !are_ruled(&ruling) {
        return Ok(false);
    }
    are_owed(alloc, &ruling)
}

/// Returns `BadDuty`, unless the duties of each release are exactly those that its frozen terms
/// owe, each by the rule of the release's revision and form, each frozen term is of a release that
/// was frozen, and its rule exists.
///
/// The only error is that no memory is left.
pub fn duty_fault(alloc: Global, snapshot: &Snapshot) -> Result<Option<AuditFault>, AllocError>
    ensures { IfOk result (λ found. (w : Readings) → IsFirst w snapshot.now (BadDuty ∷ []) found) }
{
    if are_duties(alloc, snapshot)? {
        Ok(None)
    } else {
        Ok(Some(AuditFault::BadDuty))
    }
}
