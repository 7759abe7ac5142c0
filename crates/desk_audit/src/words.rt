//! States and words, by their texts.

ghost use Rattle.std.specs.Prelude.{◌≡◌, is_some};
ghost use Rattle.desk_snapshot.specs.Conditions.{is_in_state, is_withdrawn};
ghost use Rattle.desk_model.specs.Names.{release_state_named};

use desk_model::{DutyState, ReleaseState};
use desk_snapshot::{StoredDuty, StoredRelease};

/// Whether a release is in one of the three states.
pub(crate) fn is_stated(release: &StoredRelease) -> bool
    ensures { result ≡ is_some (release_state_named release.now.state) }
{
    ReleaseState::named(release.state.as_str()).is_some()
}

/// Whether a release is withdrawn.
pub(crate) fn is_withdrawn(release: &StoredRelease) -> bool
    ensures { result ≡ is_withdrawn release.now }
{
    release.state.as_str() == ReleaseState::Withdrawn.name()
}

/// Whether a duty is in a state.
pub(crate) fn is_in_state(state: DutyState, duty: &StoredDuty) -> bool
    ensures { result ≡ is_in_state state duty.now }
{
    duty.state.as_str() == state.name()
}
