//! Tallies of duties that exist already.

ghost use Rattle.std.specs.Prelude.{◌≡◌, ℕ, true, false, ◌≤◌, [], length, vec_len, IfOk};
ghost use Rattle.std.specs.Prelude.{map, unwrap_or};
ghost use Rattle.desk_access.specs.Follows.{are_numbered};
ghost use Rattle.desk_tally.specs.Stands.{AreTallied, are_placed, are_places};
ghost use Rattle.desk_tally.specs.Kept.{place_found, stand_of};

use crate::lists::{move_at, raise_at};
use crate::stand::Stand;
use crate::tally::Tally;
use desk_model::{DutyRow, DutyState, ReleaseRow};
use std::alloc::{AllocError, Global};

/// Whether these are the places from 1 to their number, in any order.
pub(crate) fn are_places(alloc: Global, places: &[u32]) -> Result<bool, AllocError>
    ensures { IfOk result (λ are. are
        ≡ are_places (length places.now) (λ place. false) places.now) }
{
    let count = places.len();
    let mut is_taken = vec![in alloc; false; count + 1]?;
    for place in places {
        let index = *place as usize;
        if index == 0 || index > count || is_taken[index] {
            return Ok(false);
        }
        is_taken[index] = true;
    }
    Ok(true)
}

/// Whether the place of each duty's release is from 1 to `releases`.
pub(crate) fn are_placed(releases: usize, stands: &[Stand]) -> bool
    ensures { result ≡ are_placed releases stands.now }
{
    for stand in stands {
        if stand.place == 0 || stand.place as usize > releases {
            return false;
        }
    }
    true
}

/// The tallies of this many releases that have no duties.
fn empty(alloc: Global, releases: usize) -> Result<Vec<Tally>, AllocError>
    ensures len { IfOk result (λ tallies. vec_len tallies ≡ releases) }
    ensures tallied { IfOk result (λ tallies. AreTallied [] tallies.items) }
{
    let mut tallies = Vec::with_capacity(alloc, releases)?;
    for _ in 0..releases {
        tallies.push(Tally::new())?;
    }
    Ok(tallies)
}

/// The tallies of this many releases with these duties.
pub(crate) fn tallies_of(
    alloc: Global,
    releases: usize,
    stands: &[Stand],
) -> Result<Vec<Tally>, AllocError>
    requires placed { are_placed releases stands.now ≡ true }
    requires limited { length stands.now ≤ 100000 }
    ensures len { IfOk result (λ tallies. vec_len tallies ≡ releases) }
    ensures tallied { IfOk result (λ tallies. AreTallied stands.now tallies.items) }
{
    let mut tallies = empty(alloc, releases)?;
    for stand in stands {
        let index = (stand.place - 1) as usize;
        raise_at(&mut tallies, index, 1);
        move_at(&mut tallies, index, DutyState::IsOpen, stand.state);
    }
    Ok(tallies)
}

/// Whether duties have the numbers 1, 2 and so on.
pub(crate) fn are_numbered(duties: &[DutyRow]) -> bool
    ensures { result ≡ are_numbered 1 duties.now }
{
    let mut number = 1;
    for duty in duties {
        if u64::from(duty.number) != number {
            return false;
        }
        number += 1;
    }
    true
}

/// The places of releases.
pub(crate) fn places_of(alloc: Global, releases: &[ReleaseRow]) -> Result<Vec<u32>, AllocError>
    ensures { IfOk result (λ places. places.items ≡ map (λ row. row.place) releases.now) }
{
    let mut places = Vec::with_capacity(alloc, releases.len())?;
    for release in releases {
        places.push(release.place)?;
    }
    Ok(places)
}

/// The place of the release with this name, 0 if there is none.
fn place_of(releases: &[ReleaseRow], name: &str) -> u32
    ensures { result ≡ unwrap_or (place_found releases.now name.now) 0 }
{
    for release in releases {
        if release.name.as_str() == name {
            return release.place;
        }
    }
    0
}

/// The place of a release, given that of the last release asked for.
fn place_after(releases: &[ReleaseRow], last: &str, place: u32, name: &str) -> u32
    requires { place ≡ unwrap_or (place_found releases.now last.now) 0 }
    ensures { result ≡ unwrap_or (place_found releases.now name.now) 0 }
{
    if name == last {
        place
    } else {
        place_of(releases, name)
    }
}

/// The place and state of each duty. Duties that one freeze raised are next to each other, so the
/// place of their release is looked up once.
pub(crate) fn stands_of(
    alloc: Global,
    releases: &[ReleaseRow],
    duties: &[DutyRow],
) -> Result<Vec<Stand>, AllocError>
    ensures { IfOk result (λ stands. stands.items ≡ map (stand_of releases.now) duties.now) }
{
    let mut stands = Vec::with_capacity(alloc, duties.len())?;
    let mut last = "";
    let mut place = place_of(releases, last);
    for duty in duties {
        let release = duty.release.as_str();
        place = place_after(releases, last, place, release);
        last = release;
        stands.push(Stand {
            place,
            state: duty.state,
        })?;
    }
    Ok(stands)
}
