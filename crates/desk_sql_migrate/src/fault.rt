//! Why a database isn't migrated.

use desk_model::Fault;
use desk_snapshot::AuditFault;
use thiserror::Error;

/// Why a database of an older version wasn't migrated. It prints as its name, with the version that
/// the database gives.
#[derive(Clone, Copy, Debug, Drop, PartialEq, Eq, Error)]
pub enum MigrateFault {
    /// No table `meta` has a column `version`; or it gives version 1 or 2, and a table of this version
    /// isn't there as it is declared, a table has a foreign key, or an index of a desk's table could
    /// refuse a row.
    #[error("NotADesk")]
    NotADesk,
    /// The tables are of a version that isn't an older one.
    #[error("BadVersion({0})")]
    BadVersion(i64),
    /// The migrated tables wouldn't be sound: the first condition of an audit that they don't meet.
    #[error("Unsound({0:?})")]
    Unsound(AuditFault),
    /// No memory was left, or the database failed or gave rows that no desk has.
    #[error(transparent)]
    Fault(Fault),
}
