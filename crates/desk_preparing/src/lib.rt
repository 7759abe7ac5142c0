//! The answers to commands that prepare a release, and the rows that these change. They are decided
//! over looked-up rows before anything is written, in the same way for the desk in memory and for
//! the desk in tables.
//!
//! Each function takes a store of rows (`desk_access::Store`) and, if a command carries texts, a
//! reader of them (`desk_access::Texts`). It answers as the definitions of the recorded history do
//! over the tables that the store holds, and returns the change of rows that goes with the answer.
//!
//! - `catalogue`, `document`, `release`, `conclusion` and `choice` have one or two commands each;
//!   `looking` has what several of them look up.
#![tactic(auto)]

pub mod catalogue;
pub mod choice;
pub mod conclusion;
pub mod document;
mod looking;
pub mod release;
