//! Migrates a desk's tables of version 1 or 2 in a database to version 3.
//!
//! `migrate_tables` does it in one transaction: it declares the tables that are missing, and
//! records profile 1 for each document if the version had no profiles, and the new version. Before
//! the commit it reads what the transaction shows, as an audit does, and goes on only if these rows
//! are sound; if not, the transaction is dropped, and the database is as it was.
//!
//! `specs/Older.antt` of `desk_sql_adopt` says what an older version holds and what becomes of it,
//! and `specs/Migrating.antt` what a migration makes of a connection, and why it is refused.
#![tactic(auto)]

mod fault;
mod migrate;
mod upgrade;

pub use fault::MigrateFault;
pub use migrate::migrate_tables;
