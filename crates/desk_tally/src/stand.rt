//! The place and state of duties, and where they move.

use desk_base::Items;
use desk_model::DutyState;

/// The release of a duty, by its place, from 1, and the duty's state.
#[derive(Clone, Copy, PartialEq, Eq)]
pub struct Stand {
    /// The place of its release in the order of opening, from 1.
    pub place: u32,
    /// Its state.
    pub state: DutyState,
}

/// A duty, by its number, is put into a state.
#[derive(Clone, Copy, PartialEq, Eq)]
pub struct Shift {
    /// The number of the duty, from 1.
    pub duty: u32,
    /// The state after the move.
    pub state: DutyState,
}

/// What a change of the rows does to the tallies.
#[derive(Drop)]
pub enum Step {
    /// Nothing.
    Stay,
    /// A release with no duties is opened.
    Open,
    /// This many duties are raised for the release at a place.
    Raise { place: u32, count: usize },
    /// Each of these duties is put into its state, the last one first.
    Move(Items<Shift>),
}
