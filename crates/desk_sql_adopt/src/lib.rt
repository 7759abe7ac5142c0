//! Whether a database that is to be adopted as a desk holds a desk's tables.
//!
//! `examine` reports what a database holds: the tables of a desk, those of another version, or
//! something else. It asks the table `meta` for its version, and looks for each of the desk's
//! tables in the schema that the connection shows, field by field (`has_desk`): with its columns
//! and keys, whatever else there is, if no foreign key and no UNIQUE index can refuse a row. The
//! database may have any schema; its version, in the contract, is its answer to that query
//! (`specs/Version.antt`).
//!
//! `examine_older` does so for a migration: whether a database holds the tables of version 1 or 2,
//! whatever else it holds (`specs/Older.antt`).
//!
//! The query only reads, whatever the schema of the database is (`Asks`): the connection shows what
//! it showed, if it still shows anything; a stop leaves nothing that it couldn't leave before; and
//! the connection may be closed only after a fault (`read`, `specs/Reading.antt`).
#![tactic(auto)]

mod columns;
mod declared;
mod forms;
mod indexes;
mod matching;
mod older;
mod query;
mod version;

pub use columns::has_columns;
pub use declared::has_desk;
pub use older::{OlderContent, OlderVersion, examine_older};
pub use version::{Content, examine};
