//! Lists of rows that are found by binary search.
//!
//! `Sorted` keeps rows in the order of their keys. `Blocks` does so in blocks, and a change moves
//! rows of only one of them. `Appended` keeps rows in the order in which they came, which mostly is
//! that of their keys. Rows are looked up by a key, or by the beginning of a key.
#![tactic(auto)]

mod appended;
mod blocks;
mod sorted;
mod tables;

pub use appended::Appended;
pub use blocks::{Blocks, run_in};
pub use sorted::{Keyed, Run, Sorted, Sought, item_at, reserve, run_of};
