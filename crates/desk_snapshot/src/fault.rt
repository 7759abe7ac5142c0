//! What an audit finds.

/// The first of the ten conditions that the rows of a desk's tables don't meet.
#[derive(Clone, Copy, Debug, PartialEq, Eq)]
pub enum AuditFault {
    /// The table `meta` has one row, with the version of the schema.
    BadMeta,
    /// The revisions are numbered from 1, and the body of each is a catalogue.
    BadRevision,
    /// The rules of each revision are those of its body.
    BadRule,
    /// The documents are numbered from 1, the bytes of each are a document with its namespace, and
    /// each has a profile.
    BadDocument,
    /// The packages and the extracted licences are those of the documents.
    BadPackage,
    /// The office can have made its conclusions, adoptions, places and choices.
    BadChoice,
    /// The duties are numbered from 1, at most 100,000, and each is of a release that was frozen.
    BadNumber,
    /// The duties of each release are those that its frozen terms owe.
    BadDuty,
    /// The changes of each duty are moves that follow from each other and lead to its state.
    BadChange,
    /// A withdrawn release has no open or waived duty, and any other release no withdrawn one.
    BadState,
}

impl AuditFault {
    ghost use Rattle.std.specs.Prelude.{◌≡◌};
    ghost use Rattle.desk_snapshot.specs.Reports.{audit_name};

    /// The name by which it is reported.
    pub fn name(&self) -> &'static str
        ensures { result.now ≡ audit_name self.now }
    {
        match self {
            AuditFault::BadMeta => "BadMeta",
            AuditFault::BadRevision => "BadRevision",
            AuditFault::BadRule => "BadRule",
            AuditFault::BadDocument => "BadDocument",
            AuditFault::BadPackage => "BadPackage",
            AuditFault::BadChoice => "BadChoice",
            AuditFault::BadNumber => "BadNumber",
            AuditFault::BadDuty => "BadDuty",
            AuditFault::BadChange => "BadChange",
            AuditFault::BadState => "BadState",
        }
    }
}

/// What an audit reports about a desk's tables.
#[derive(Clone, Copy, PartialEq, Eq)]
pub enum AuditReport {
    /// They meet all ten conditions.
    Sound,
    /// They don't meet this one, but they meet those before it.
    Unsound(AuditFault),
}
