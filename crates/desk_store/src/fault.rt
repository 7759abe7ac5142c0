//! Why a database isn't taken as a desk.

use desk_model::Fault;
use desk_snapshot::AuditFault;
use thiserror::Error;

/// Why no desk was created in a database. It prints as its name.
#[derive(Clone, Copy, Debug, Drop, PartialEq, Eq, Error)]
pub enum CreateFault {
    /// The database has a table `meta`.
    #[error("NotEmpty")]
    NotEmpty,
    /// No memory was left, or the database failed, as it does if it has other tables.
    #[error(transparent)]
    Fault(Fault),
}

/// Why a database wasn't adopted as a desk. It prints as its name, with the version that the
/// database gives.
#[derive(Clone, Copy, Debug, Drop, PartialEq, Eq, Error)]
pub enum AdoptFault {
    /// No table `meta` has a column `version`; or it gives no other version, and a table of a desk
    /// isn't there as it is declared, a table has a foreign key, or an index of a desk's table could
    /// refuse a row.
    #[error("NotADesk")]
    NotADesk,
    /// The tables are of another version.
    #[error("BadVersion({0})")]
    BadVersion(i64),
    /// The tables aren't sound: the first condition of an audit that they don't meet.
    #[error("Unsound({0:?})")]
    Unsound(AuditFault),
    /// No memory was left, or the database failed or gave rows that no desk has.
    #[error(transparent)]
    Fault(Fault),
}
