//! The answers to commands that raise or move duties, and the rows that these change. They are
//! decided over looked-up rows before anything is written, in the same way for the desk in memory
//! and for the desk in tables.
//!
//! Each function takes a store of rows (`desk_access::Store`) and, if it reads texts, a reader of
//! them (`desk_access::Texts`). It answers as the definitions of the recorded history do over the
//! tables that the store holds, and returns the change of rows that goes with the answer.
//!
//! - `freeze` raises the duties of a release, `duty` moves one, and `withdraw` moves those of a
//!   release, or those whose waivers end.
#![tactic(auto)]

pub mod duty;
pub mod freeze;
mod gathering;
pub mod withdraw;
