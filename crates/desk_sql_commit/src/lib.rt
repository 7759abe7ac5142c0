//! A change of the desk's rows in a SQL database, written whole or not at all.
//!
//! `commit` writes a change of rows in one transaction, the only one that writes what a command
//! changes: all of it, or nothing. Its contract is the one that a store must meet (`Wrote` of
//! `desk_access`), over the tables that a database holds (`Holds` of `desk_sql_layout`).
//! `commit_counted` does the same and counts a written change in the tallies of duties.
//!
//! `desk_sql_write` says what is written for each change.
#![tactic(auto)]

mod counted;
mod transaction;

pub use counted::commit_counted;
pub use transaction::commit;
