//! How many duties of each release are in each state, kept beside the rows instead of being
//! counted.
//!
//! - `Tally` is what is kept for one release. Its numbers change as duties are raised and moved.
//! - `Tallies` are those of all releases, by place, with the place and state of each duty, by
//!   number. `Tallies::plan` returns the step that a change of the rows amounts to, and makes room
//!   for it, before anything is written; `Tallies::take` takes the step and can't fail.
#![tactic(auto)]

mod changes;
mod counting;
mod lists;
mod stand;
mod tallies;
mod tally;

pub use changes::state_after;
pub use stand::{Shift, Stand, Step};
pub use tallies::Tallies;
pub use tally::Tally;
