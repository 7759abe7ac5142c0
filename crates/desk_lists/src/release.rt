//! The list of releases.

ghost use Rattle.std.specs.Prelude.{◌≡◌, ◌&&◌, map, count_by, IfOk, IsPermutation};
ghost use Rattle.std.specs.List.Sorted.{IsSortedByKey};
ghost use Rattle.std.specs.Ordering.{int_cmp};
ghost use Rattle.std.specs.Str.{bytes_eq};
ghost use Rattle.desk_model.specs.Names.{duty_state_name};
ghost use Rattle.desk_lists.specs.Held.{duties_held};
ghost use Rattle.desk_lists.specs.Releases.{is_duty_in, is_duty_of, release_line, totals_among};

use crate::held::{ByRelease, Held, held_by_release};
use crate::lines::ReleaseLine;
use desk_model::{DutyState, Totals};
use desk_snapshot::{Snapshot, StoredRelease};
use desk_sorted::Sorted;
use std::alloc::{AllocError, Global};

// How many of these duties are in a state.
fn count_in(rows: &[Held<'_>], state: DutyState) -> u64
    ensures { result ≡ count_by (λ row. bytes_eq row.duty.now.state (duty_state_name state))
        rows.now }
{
    let name = state.name();
    rows.iter()
        .filter(|row| row.duty.state.as_str() == name)
        .count() as u64
}

// How many duties a release has, and how many of these are in each state.
fn totals_of(held: &Sorted<Held<'_>>, release: &str) -> Totals
    ensures { result ≡ totals_among (duties_held held.now.rows.items) release.now }
{
    let rows = held.run(&ByRelease { release });
    Totals {
        raised: rows.len() as u64,
        still_open: count_in(rows, DutyState::IsOpen),
        met: count_in(rows, DutyState::Met),
        waived: count_in(rows, DutyState::Waived),
        withdrawn: count_in(rows, DutyState::Withdrawn),
    }
}

// The line of a release.
fn release_line(
    alloc: Global,
    held: &Sorted<Held<'_>>,
    release: &StoredRelease,
) -> Result<ReleaseLine, AllocError>
    ensures { IfOk result (λ line. line
        ≡ release_line (duties_held held.now.rows.items) release.now) }
{
    let place = release.place;
    let revision = release.revision;
    let duties = totals_of(held, release.name.as_str());
    Ok(ReleaseLine {
        name: release.name.clone()?,
        place,
        form: release.form.clone()?,
        state: release.state.clone()?,
        revision,
        duties,
    })
}

// The line of each release, in the order of the table.
fn lines_in_turn(
    alloc: Global,
    held: &Sorted<Held<'_>>,
    rows: &[StoredRelease],
) -> Result<Vec<ReleaseLine>, AllocError>
    ensures { IfOk result (λ lines. lines.items
        ≡ map (release_line (duties_held held.now.rows.items)) rows.now) }
{
    let mut lines = Vec::new(alloc);
    for release in rows {
        lines.push(release_line(alloc, held, release)?)?;
    }
    Ok(lines)
}

/// The releases in the order in which they were opened.
pub fn releases(alloc: Global, snapshot: &Snapshot) -> Result<Vec<ReleaseLine>, AllocError>
    ensures members { IfOk result (λ lines.
        IsPermutation (map (release_line snapshot.now.duty) snapshot.now.releases) lines.items) }
    ensures order { IfOk result (λ lines. IsSortedByKey (λ line. line.place) int_cmp lines.items) }
{
    let held = held_by_release(alloc, snapshot.duty.as_slice())?;
    let mut lines = lines_in_turn(alloc, &held, snapshot.releases.as_slice())?;
    lines.sort_by_key(|line| line.place)?;
    Ok(lines)
}
