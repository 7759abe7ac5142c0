//! A desk in an SQL database: created, audited, adopted, migrated, returned.

pub use desk_store::{AdoptFault, CreateFault, MigrateFault, SqlDesk, audit_connection};
