//! The desk: it carries out commands and answers questions over a store of rows, and runs lists of
//! commands.
//!
//! What contracts see of a desk is which tables are its rows (`Desk::seen`). The recorded history
//! of commands, defined in `desk_model`, says what these mean. For each reading of texts that the
//! desk takes to be right, and each history whose tables are the rows, `apply` answers a command as
//! the definitions of the history do and leaves the tables of the history with it; `run` keeps this
//! over any list of commands, including refusals and faults. That is the desk's main contract.
//! After a refusal, Again, a question or a fault the rows are unchanged, whatever they are.
//!
//! - `TableDesk` is the desk over a store and a reader of texts (`desk_access`), and decides as
//!   `carry` says: `plan` decides on each command, by `desk_preparing` or `desk_duties`, and
//!   `carry_out` commits the rows of its answer, all or none. Questions are answered by
//!   `desk_questions`.
//! - `MemDesk` is the desk over rows in memory (`desk_memory`), whose only fault is that no memory
//!   is left.
//! - `Tally` is what a store keeps about the duties of each release, so that they needn't be
//!   counted (`desk_tally`).
#![tactic(auto)]

pub mod carry;
pub mod desk;

pub use desk::{Desk, MemDesk, TableDesk, run, run_in_memory};
pub use desk_model::{Answer, Command, Fault, Outcome, Query};
pub use desk_tally::Tally;
