//! The report on a source tree (REUSE Specification 3.3): where each problem is, what is wrong and
//! what to do.
//!
//! - `report_on` reports the rows of `desk_tree_problems`, one on each line or all in one JSON
//!   object (`specs/Reports.antt`), and `blank_lines` the lines of one kind. Both take the files by
//!   value, so that their bytes aren't kept once everything in them is read.
//! - A report may be much larger than the tree: a long path may be in each of its rows. So its
//!   `LongText` keeps what rows have in common once (`specs/Pieces.antt`), and rows are added to it
//!   one by one (`specs/Telling.antt`). Writing it takes no memory.
#![tactic(auto)]

mod counting;
mod items;
mod lines;
mod long_text;
mod object;
mod pieces;
mod reports;
mod summary;
mod telling;
mod ways;

pub use long_text::LongText;
pub use reports::{Report, blank_lines, report_on};
