//! Files with texts and credits that fill what the notices of a release lack.
//!
//! ```toml
//! [[text]]
//! licence = "LicenseRef-own"
//! body = "Permission is hereby granted, .."
//! [[credit]]
//! package = "kettle"
//! version = "1.0"
//! text = "Copyright 2025 Firm"
//! ```
//!
//! - `read_fill` reads such a file: `fill_of` (specs/Reading.antt) is a function of its bytes, the
//!   entries in their order or the first fault.
//! - `filled` is a bill whose gaps are filled by the first entry that fits, in the order of the
//!   files (specs/Filling.antt), and `gaps_of` counts those that a bill has. What is given stays:
//!   the laws are in `laws`.
//! - `filled_notices` is the text of such a bill (specs/Showing.antt), as `desk_report` writes it.
#![tactic(auto)]

mod credits;
mod entries;
mod fault;
mod fill;
mod filling;
mod index;
mod laws;
pub mod limits;
mod reading;
mod showing;
mod subjects;
mod texts;
mod values;

pub use fault::{FillFault, Flaw, Part};
pub use fill::{Credit, Fill};
pub use filling::{Gaps, filled, gaps_of};
pub use laws::{
    filling_twice_is_filling_once, full_bills_stay, gaps_are_filled, given_values_stay,
};
pub use reading::read_fill;
pub use showing::{Style, Written, filled_notices};
pub use subjects::Subject;
pub use texts::is_repeated;
pub use values::{is_name, says_something};
