//! All rows of a desk's database, read into a snapshot.
//!
//! `snapshot` reads each table with one query, in the order of its key, and takes the rows as they
//! are: an audit examines them, even if no command wrote them. The cells of a row are those of
//! `specs/Cells.antt`; a cell that such a column never has (a NULL, a text among numbers, a text
//! that isn't UTF-8) is a fault of the rows. `IsSnapshot` (`specs/Scans.antt`) says that a snapshot
//! has the rows of a database's tables, whatever these are; if the database holds a desk's tables,
//! they are the snapshot of those tables. If the rows of its tables are in the order of their
//! rowids, as every store keeps them, such a database holds the snapshot's rows in the sense of
//! `desk_sql_layout` (`proofs/Holding.antt`).
//!
//! Each query only reads: the connection shows what it showed, and stays open if there is no fault.
//! A key that is not the rowid is written as `+column`, so that the table is read in one pass and
//! sorted; with the key's index each row would be looked up separately.
#![tactic(auto)]

mod catalogues;
mod columns;
mod documents;
mod duties;
mod office;
mod releases;
mod scan;
mod source;
mod whole;

pub use whole::{snapshot, snapshot_inside};
