//! What the notices of a release are written from, and what is missing for them, over looked-up
//! rows.
//!
//! - `bill` answers for a frozen release: its packages with the rules that they were frozen with,
//!   and the texts that its terms name, in the order of first use (`texts`).
//! - `gaps` answers for a release that is open or frozen: which of these texts nobody has, before
//!   the freeze those of the terms that are chosen or possible (`needed`), which packages have no
//!   copyright, which documents ship nothing, and which packages two documents ship (`lacks`).
//!
//! Both leave the rows as they are, and answer as the definitions of the recorded history do.
#![tactic(auto)]

pub mod bill;
mod frozen;
pub mod gaps;
mod lacks;
mod namesakes;
mod needed;
mod texts;
