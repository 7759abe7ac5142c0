//! What the names that the desk prints mean, and what to do about each.
//!
//! There is a table for each page of `docs/`, with its words: refusals, faults, findings,
//! conditions of an audit, problems of source trees. A name may be in several tables: `BadTerm` is
//! both a refusal and a fault of catalogues.
//!
//! - `TABLES` is what the pages say, and `entries` what tables say about a name.
//! - `explanation` is the text of such entries, a block for each (`specs/Explanations.antt`).
//!
//! No contract says what the pages say; tests/explain.py compares the words.
#![tactic(auto)]

mod blocks;
mod conditions;
mod entry;
mod faults;
mod findings;
mod named;
mod problems;
mod refusals;

pub use blocks::explanation;
pub use entry::{Entry, Kind};
pub use named::{TABLES, entries};
