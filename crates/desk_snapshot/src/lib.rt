//! The rows of a desk's tables as anyone may have left them, and what an audit requires of them.
//!
//! A `Snapshot` has a list of rows for each table, in the order of the table's key: numbers are
//! whole numbers of any size, states and words are texts. `specs/` has the ten conditions that the
//! tables of a desk meet (`Conditions`, with those of changes in `Changes`), what a report says
//! about them (`Reports`), and the snapshot of a recorded history's tables (`Tables`).
#![tactic(auto)]

mod fault;
mod keys;
mod listed;
mod lookups;
mod orders;
mod rows;
mod snapshot;

pub use fault::{AuditFault, AuditReport};
pub use keys::{
    ByAttachment, ByChoice, ByDocument, ByDuty, ByFrozen, ByHolder, ById, ByName, ByPackage, ByStep,
};
pub use listed::Listed;
pub use lookups::{last_day_at, profile_at};
pub use rows::{
    StoredAdoption, StoredAttached, StoredCatalogue, StoredChange, StoredChoice, StoredConclusion,
    StoredDocument, StoredDuty, StoredExtracted, StoredFrozen, StoredMeta, StoredPackage,
    StoredReading, StoredRelease, StoredRule, StoredWaiver,
};
pub use snapshot::Snapshot;
