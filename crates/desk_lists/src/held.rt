//! The duties that releases hold, found by the release.

ghost use Rattle.std.specs.Prelude.{◌≡◌, map, IfOk, IsPermutation};
ghost use Rattle.desk_sorted.specs.Sides.{texts_meet};
ghost use Rattle.desk_lists.specs.Held.{duties_held, held_order, held_side, held_splits, held_total, is_held_by};

use desk_snapshot::StoredDuty;
use desk_sorted::{Keyed, Sorted, Sought};
use std::alloc::{AllocError, Global};
use std::cmp::Ordering;

/// A duty that its release holds.
#[derive(Clone, Copy)]
pub(crate) struct Held<'a> {
    pub duty: &'a StoredDuty,
}

impl Keyed for Held<'_> {
    ghost order = { held_order };

    ghost total = { held_total };

    fn compare(&self, other: &Self) -> Ordering {
        let release = self.duty.release.as_str();
        release.cmp(other.duty.release.as_str())
    }
}

/// The duties of a release.
#[derive(Clone, Copy)]
pub(crate) struct ByRelease<'a> {
    pub release: &'a str,
}

impl<'a> Sought<Held<'a>> for ByRelease<'_> {
    ghost side = { λ key. held_side key.release.now };

    ghost is_at = { λ key. is_held_by key.release.now };

    ghost splits = { λ key. held_splits key.release.now };

    ghost meets = { λ key row. texts_meet row.duty.now.release key.release.now };

    fn side_of(&self, row: &Held<'a>) -> Ordering {
        row.duty.release.as_str().cmp(self.release)
    }
}

// Each duty, in the order of the table.
fn held_in_turn(alloc: Global, duties: &[StoredDuty]) -> Result<Vec<Held<'_>>, AllocError>
    ensures { IfOk result (λ held. duties_held held.items ≡ duties.now) }
{
    let mut held = Vec::new(alloc);
    for duty in duties {
        held.push(Held { duty })?;
    }
    Ok(held)
}

/// The duties in the order of their releases.
pub(crate) fn held_by_release(
    alloc: Global,
    duties: &[StoredDuty],
) -> Result<Sorted<Held<'_>>, AllocError>
    ensures { IfOk result (λ sorted. IsPermutation duties.now (duties_held sorted.rows.items)) }
{
    let mut rows = held_in_turn(alloc, duties)?;
    rows.sort_by(|duty, other| duty.compare(other))?;
    Ok(Sorted { rows })
}
