//! What is written to the desk's tables in a SQL database.
//!
//! `write_change` writes a change of rows inside a transaction. `desk_sql_commit` has the
//! transaction, and first checks whether the tables can hold the change. Below `write_change` there
//! is a function for each change, and one for each statement, with a clause that says what it does
//! to the rows of each table (`Turns`). If there may be many rows, they are added by `add_all` and
//! `add_in_eights`, and duties are set in runs (`set_duties`). `create_tables` creates the tables
//! of an empty desk in an empty database.
#![tactic(auto)]

mod adding;
mod catalogue;
mod change;
mod create;
mod document;
mod duty;
mod office;
mod release;
mod statement;

pub use change::write_change;
pub use create::{READING_TABLE, Refused, WAIVER_TABLE, create_tables};
pub use statement::execute;
