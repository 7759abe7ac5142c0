//! The rows of a desk in memory that change in more than one place at once: duties with their
//! changes, and what the office decided.
//!
//! - `Ledger` has the duties, found by their numbers, which start at 1, and the changes of each by
//!   step. What is added follows what exists: duties by their numbers, and a change by the next
//!   step of its duty.
//! - `Office` has what the office concluded for packages and adopted for references, and `Choices`
//!   what it chose. The releases that hold a choice are kept too, by package and place, so that the
//!   first of them is found at once.
//!
//! A store in a database also keeps such a list of holders, so what a choice and a withdrawal do to
//! it (`note`, `drop_choice`, `drop_choices`) is public.
#![tactic(auto)]

mod choices;
mod holders;
mod ledger;
mod office;

pub use choices::{ByPackage, Choices};
pub use holders::{ByHeld, Holder, drop_choice, drop_choices, note};
pub use ledger::Ledger;
pub use office::{ByAdopting, ByConcluded, ByReference, Office};
