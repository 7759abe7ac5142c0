//! The tallies, and the places and states of duties, changed together.

ghost use Rattle.std.specs.Prelude.{◌≡◌, ℕ, true, ◌+◌, ◌-◌, ◌<◌, ◌≤◌, ◌++◌, List, length, replicate, vec_len, Some, slice_get};
ghost use Rattle.std.specs.Option.{option_copied};
ghost use Rattle.std.specs.Vec.{vec_capacity};
ghost use Rattle.desk_tally.specs.Numbers.{number_of};
ghost use Rattle.desk_tally.specs.Totals.{totals_in};
ghost use Rattle.desk_tally.specs.Stands.{AreTallied, are_placed, are_duties, at_state, open_at, shifted};

use crate::stand::{Shift, Stand};
use crate::tally::Tally;
use desk_model::DutyState;

/// The tally at an index.
pub(crate) fn tally_at(tallies: &[Tally], index: usize) -> Option<&Tally>
    ensures { option_copied result ≡ slice_get tallies.now index }
{
    tallies.get(index)
}

/// Raises duties of the release at an index.
pub(crate) fn raise_at(tallies: &mut Vec<Tally>, index: usize, count: usize)
    requires within { index < vec_len tallies.old }
    requires room { (tally : Tally) → slice_get tallies.old.items index ≡ Some tally
        → tally.raised + count ≤ 100000 }
    ensures len { vec_len tallies.new ≡ vec_len tallies.old }
    ensures tallied { (all : List Stand) → AreTallied all tallies.old.items
        → AreTallied (all ++ replicate count (open_at (index + 1))) tallies.new.items }
{
    tallies[index].raise(count as u64);
}

/// Moves a duty of the release at an index from one state to another.
pub(crate) fn move_at(tallies: &mut Vec<Tally>, index: usize, from: DutyState, to: DutyState)
    requires within { index < vec_len tallies.old }
    requires some { (tally : Tally) → slice_get tallies.old.items index ≡ Some tally
        → 1 ≤ number_of from (totals_in tally) }
    ensures len { vec_len tallies.new ≡ vec_len tallies.old }
    ensures tallied { (all : List Stand) (i : ℕ) (stand : Stand) → slice_get all i ≡ Some stand
        → stand.place ≡ index + 1 → stand.state ≡ from → AreTallied all tallies.old.items
        → AreTallied (at_state i to all) tallies.new.items }
{
    tallies[index].move_one(from, to);
}

/// Adds open duties of the release at a place.
pub(crate) fn push_open(stands: &mut Vec<Stand>, place: u32, count: usize)
    requires { vec_len stands.old + count ≤ vec_capacity stands.old }
    ensures { stands.new.items ≡ stands.old.items ++ replicate count (open_at place) }
{
    for _ in 0..count {
        stands.push_reserved(Stand {
            place,
            state: DutyState::IsOpen,
        });
    }
}

/// Puts the duty at an index into a state.
fn shift_one(stands: &mut Vec<Stand>, tallies: &mut Vec<Tally>, index: usize, to: DutyState)
    requires within { index < vec_len stands.old }
    requires placed { are_placed (vec_len tallies.old) stands.old.items ≡ true }
    requires tallied { AreTallied stands.old.items tallies.old.items }
    ensures stands { stands.new.items ≡ at_state index to stands.old.items }
    ensures count { vec_len stands.new ≡ vec_len stands.old }
    ensures len { vec_len tallies.new ≡ vec_len tallies.old }
    ensures tallied { AreTallied stands.new.items tallies.new.items }
{
    let stand = stands[index];
    move_at(tallies, (stand.place - 1) as usize, stand.state, to);
    stands[index] = Stand {
        place: stand.place,
        state: to,
    };
}

/// Puts each of these duties into its state, the last one first.
pub(crate) fn shift_all(stands: &mut Vec<Stand>, tallies: &mut Vec<Tally>, shifts: &[Shift])
    requires within { are_duties (vec_len stands.old) shifts.now ≡ true }
    requires placed { are_placed (vec_len tallies.old) stands.old.items ≡ true }
    requires tallied { AreTallied stands.old.items tallies.old.items }
    ensures stands { stands.new.items ≡ shifted shifts.now stands.old.items }
    ensures count { vec_len stands.new ≡ vec_len stands.old }
    ensures len { vec_len tallies.new ≡ vec_len tallies.old }
    ensures tallied { AreTallied stands.new.items tallies.new.items }
{
    let mut left = shifts.len();
    while left > 0 {
        left -= 1;
        let shift = shifts[left];
        shift_one(stands, tallies, (shift.duty - 1) as usize, shift.state);
    }
}
