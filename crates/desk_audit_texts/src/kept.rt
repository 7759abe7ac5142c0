//! Checks that the choices of frozen releases are their frozen terms.

ghost use Rattle.std.specs.Prelude.{◌≡◌, [], ◌∷◌, filter, map, MatchOption};
ghost use Rattle.std.specs.Bool.{Decides};
ghost use Rattle.std.specs.List.{AllByRecursion};
ghost use Rattle.desk_snapshot.specs.Conditions.{is_frozen, chosen_in, frozen_in, IsKept};
ghost use Rattle.desk_snapshot.specs.Rows.{is_choice_in, is_frozen_in};
ghost use Rattle.desk_audit_texts.specs.HeldAs.{StartsOtherwise, chosen_as, frozen_as, held_in};

use desk_model::ReleaseState;
use desk_snapshot::{ByFrozen, ByHolder, Snapshot, StoredChoice, StoredFrozen, StoredRelease};

/// The first frozen term of a release among these, and the rows after it.
fn next_frozen<'a>(
    rows: &'a [StoredFrozen],
    release: &str,
) -> Option<(&'a StoredFrozen, &'a [StoredFrozen])>
    ensures { MatchOption result (filter (is_frozen_in release.now) rows.now ≡ [])
        (λ next. filter (is_frozen_in release.now) rows.now
        ≡ next.0.now ∷ filter (is_frozen_in release.now) next.1.now) }
{
    for (place, row) in rows.iter().enumerate() {
        if row.release.as_str() == release {
            return Some((row, &rows[place + 1..]));
        }
    }
    None
}

/// Whether a choice is a frozen term: the same term for the same package.
fn is_same(row: &StoredChoice, frozen: &StoredFrozen) -> bool
    ensures { Decides result (chosen_as row.now ≡ frozen_as frozen.now) }
{
    row.document == frozen.document
        && (row.package_id.as_str() == frozen.package_id.as_str()
            && row.term.as_str() == frozen.term.as_str())
}

/// The rows after the first frozen term of a release among these, if that one is the choice.
fn frozen_behind<'a>(
    row: &StoredChoice,
    frozen: &'a [StoredFrozen],
    release: &str,
) -> Option<&'a [StoredFrozen]>
    ensures { MatchOption result
        (StartsOtherwise (chosen_as row.now) (held_in release.now frozen.now))
        (λ behind. held_in release.now frozen.now
        ≡ chosen_as row.now ∷ held_in release.now behind.now) }
{
    let (first, behind) = next_frozen(frozen, release)?;
    if is_same(row, first) {
        Some(behind)
    } else {
        None
    }
}

/// Whether the choices of a release among these are its frozen terms among these.
fn are_same(choices: &[StoredChoice], frozen: &[StoredFrozen], release: &str) -> bool
    ensures { Decides result (map chosen_as (filter (is_choice_in release.now) choices.now)
        ≡ held_in release.now frozen.now) }
{
    let mut left = frozen;
    for row in choices {
        if row.release.as_str() == release {
            let Some(behind) = frozen_behind(row, left, release) else {
                return false;
            };
            left = behind;
        }
    }
    next_frozen(left, release).is_none()
}

/// Whether the choices of a release are its frozen terms.
fn is_unchanged(snapshot: &Snapshot, release: &str) -> bool
    ensures { Decides result
        (chosen_in snapshot.now release.now ≡ frozen_in snapshot.now release.now) }
{
    let choices = snapshot.choice.among(&ByHolder { release });
    let frozen = snapshot.frozen.among(&ByFrozen { release });
    are_same(choices, frozen, release)
}

/// Whether a release is frozen.
fn is_frozen(release: &StoredRelease) -> bool
    ensures { result ≡ is_frozen release.now }
{
    release.state.as_str() == ReleaseState::Frozen.name()
}

/// Whether a release isn't frozen, or its choices are its frozen terms.
fn is_kept(snapshot: &Snapshot, release: &StoredRelease) -> bool
    ensures { Decides result (IsKept snapshot.now release.now) }
{
    !is_frozen(release) || is_unchanged(snapshot, release.name.as_str())
}

/// Whether the choices of each frozen release are its frozen terms.
pub(crate) fn are_kept(snapshot: &Snapshot) -> bool
    ensures { Decides result (AllByRecursion (IsKept snapshot.now) snapshot.now.releases) }
{
    for release in snapshot.releases.as_slice() {
        if !is_kept(snapshot, release) {
            return false;
        }
    }
    true
}
