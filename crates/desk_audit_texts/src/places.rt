//! Checks that the places of releases are the numbers from 1.

ghost use Rattle.std.specs.Prelude.{◌≡◌, IfOk, IsPermutation, length, map};
ghost use Rattle.std.specs.Bool.{Decides};
ghost use Rattle.std.specs.List.Sorted.{IsSorted};
ghost use Rattle.std.specs.Ordering.{int_cmp};
ghost use Rattle.desk_snapshot.specs.Conditions.{numbers_to};

use desk_snapshot::StoredRelease;
use std::alloc::{AllocError, Global};

/// The places of releases.
fn places_of(alloc: Global, releases: &[StoredRelease]) -> Result<Vec<i64>, AllocError>
    ensures { IfOk result (λ places. places.items ≡ map (λ row. row.place) releases.now) }
{
    let mut places = Vec::with_capacity(alloc, releases.len())?;
    for release in releases {
        places.push(release.place)?;
    }
    Ok(places)
}

/// Whether these are the numbers from 1, in order.
fn are_from_one(numbers: &[i64]) -> bool
    ensures { Decides result (numbers.now ≡ numbers_to (length numbers.now)) }
{
    for (index, number) in numbers.iter().enumerate() {
        if *number != index as i64 + 1 {
            return false;
        }
    }
    true
}

/// Whether the places of releases are the numbers from 1, in any order.
pub(crate) fn are_places(alloc: Global, releases: &[StoredRelease]) -> Result<bool, AllocError>
    ensures { IfOk result (λ are.
        Decides are (IsPermutation (numbers_to (length releases.now))
        (map (λ row. row.place) releases.now))) }
{
    let mut places = places_of(alloc, releases)?;
    places.sort_unstable();
    Ok(are_from_one(places.as_slice()))
}
