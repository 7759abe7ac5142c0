//! Commands, queries and their answers.

use crate::bill::Bill;
use crate::finding::Finding;
use crate::gap::Gap;
use crate::reading::{Cheapest, Profile};
use crate::refusal::Refusal;
use crate::row::{
    AdoptionRow, AttachedRow, CatalogueRow, ChangeRow, ChoiceRow, ConclusionRow, DocumentHead,
    DocumentRow, DutyRow, ExtractedRow, FrozenRow, PackageRow, ReleaseRow, RuleRow,
};
use crate::state::DutyState;
use desk_base::{Day, Items, Text, TextList};
use std::alloc::{AllocError, AllocFailed};
use thiserror::Error;

/// A command, with texts and numbers as they came: nothing in it is checked before the desk
/// decides.
#[derive(Drop)]
pub enum Command {
    /// A catalogue is loaded as the next revision.
    LoadCatalogue {
        /// TOML, as docs/CATALOGUE.md describes it.
        text: Text,
    },
    /// A document is imported.
    Import {
        /// A tag-value document of SPDX 2.1, 2.2 or 2.3, of at most 4 MiB.
        bytes: Items<u8>,
        /// How its operators may be written.
        profile: Profile,
    },
    /// A release is opened in a form.
    OpenRelease {
        /// The name, an idstring of 1 to 64 bytes.
        release: Text,
        /// A form of the catalogue in force.
        form: Text,
    },
    /// A document is attached to a release.
    Attach {
        /// The name of a release.
        release: Text,
        /// The number of a document, from 1.
        document: u64,
    },
    /// Terms are chosen for a package in a release, in place of an earlier choice.
    Choose {
        /// The name of a release.
        release: Text,
        /// The number of a document, from 1.
        document: u64,
        /// The SPDXID of a package of it.
        package_id: Text,
        /// The terms, in any spelling and order; a term may be there twice.
        terms: TextList,
    },
    /// A release is frozen, and its duties are raised.
    Freeze {
        /// The name of a release.
        release: Text,
        /// The day of the freeze, `YYYY-MM-DD`.
        day: Text,
    },
    /// A choice is dropped.
    Unchoose {
        /// The name of a release.
        release: Text,
        /// The number of a document, from 1.
        document: u64,
        /// The SPDXID of a package of it.
        package_id: Text,
    },
    /// A duty is met.
    Meet {
        /// The number of a duty, from 1.
        duty: u64,
        /// The day, `YYYY-MM-DD`.
        day: Text,
        /// What was done, 1 to 1,024 bytes.
        text: Text,
    },
    /// A duty is waived.
    Waive {
        /// The number of a duty, from 1.
        duty: u64,
        /// The day, `YYYY-MM-DD`.
        day: Text,
        /// Why, 1 to 1,024 bytes.
        text: Text,
        /// The last day of the waiver, if it ends.
        until: Option<Text>,
    },
    /// A duty is open again.
    Reopen {
        /// The number of a duty, from 1.
        duty: u64,
        /// The day, `YYYY-MM-DD`.
        day: Text,
        /// Why, 1 to 1,024 bytes.
        text: Text,
    },
    /// A release is withdrawn, frozen or still open.
    Withdraw {
        /// The name of a release.
        release: Text,
        /// The day, `YYYY-MM-DD`.
        day: Text,
        /// Why, 1 to 1,024 bytes.
        text: Text,
    },
    /// The waivers that ended before a day end on it.
    CloseDay {
        /// The day, `YYYY-MM-DD`.
        day: Text,
    },
    /// The office's conclusion for a package, in place of an earlier one.
    Conclude {
        /// The number of a document, from 1.
        document: u64,
        /// The SPDXID of a package of it.
        package_id: Text,
        /// The expression, with operators in capitals whatever the document's profile.
        expression: Text,
    },
    /// A reference of a document is adopted as a licence, in place of an earlier one.
    Adopt {
        /// The number of a document, from 1.
        document: u64,
        /// A reference, byte for byte.
        reference: Text,
        /// A plain licence id, without plus and exception.
        licence: Text,
    },
}

/// A question.
#[derive(Drop)]
pub enum Query {
    /// The duties of a release, by number.
    Duties {
        /// The name of a release.
        release: Text,
    },
    /// The duties of a release, counted by state.
    Totals {
        /// The name of a release.
        release: Text,
    },
    /// The changes of a duty, by step.
    Changes {
        /// The number of a duty, from 1.
        duty: u64,
    },
    /// What in a document isn't as its standard has it.
    Findings {
        /// The number of a document, from 1.
        document: u64,
    },
    /// A release, and the packages that it ships with what is concluded and chosen for each.
    Release {
        /// The name of a release.
        release: Text,
    },
    /// The minimal sets of terms under which a package's conclusion in force is true.
    Alternatives {
        /// The number of a document, from 1.
        document: u64,
        /// The SPDXID of a package of it.
        package_id: Text,
    },
    /// Of the sets of terms under which a package's conclusion in force is true, the one that owes
    /// the fewest duties in a form.
    Cheapest {
        /// The number of a document, from 1.
        document: u64,
        /// The SPDXID of a package of it.
        package_id: Text,
        /// A form of the catalogue in force.
        form: Text,
    },
    /// What the notices of a frozen release are written from.
    Bill {
        /// The name of a release.
        release: Text,
    },
    /// All releases by name, each with its duties counted by state.
    Releases,
    /// All documents by number, with how many packages each ships.
    Documents,
    /// The open duties of all releases, release by release.
    OpenDuties,
    /// Everything that keeps an open release from being frozen.
    Wanting {
        /// The name of a release.
        release: Text,
    },
    /// The duties that keep a frozen release from being ready, by number.
    Ready {
        /// The name of a release.
        release: Text,
        /// The day on which waivers have to last, `YYYY-MM-DD`, if they have to.
        day: Option<Text>,
    },
    /// What is missing for the notices of a release that is open or frozen.
    Gaps {
        /// The name of a release.
        release: Text,
    },
}

/// A duty of a release, and the day of its last change.
#[derive(Drop)]
pub struct DutyLine {
    /// Its number, from 1.
    pub number: u32,
    /// The number of the document, from 1.
    pub document: u32,
    /// The SPDXID of the package.
    pub package_id: Text,
    /// The chosen term, printed.
    pub term: Text,
    /// The adopted form of the term, as the rule spells it.
    pub rule: Text,
    /// The code of the duty in the revision of the freeze.
    pub code: Text,
    /// Its state.
    pub state: DutyState,
    /// The day of the last change.
    pub day: Option<Day>,
}

/// A package that a release ships, with the text of its conclusion and what is chosen for it.
#[derive(Drop)]
pub struct PackageLine {
    /// The number of the document, from 1.
    pub document: u32,
    /// The SPDXID of the package.
    pub package_id: Text,
    /// The value of PackageName.
    pub name: Text,
    /// The conclusion in force, as it was written.
    pub conclusion: Option<Text>,
    /// The chosen terms, printed and in order.
    pub terms: Items<Text>,
}

/// How many duties of a release were raised, and how many of these are in each state.
#[derive(Clone, Copy, PartialEq, Eq)]
pub struct Totals {
    /// All that were raised: the sum of the others.
    pub raised: u64,
    /// Those that are open.
    pub still_open: u64,
    /// Those that are met.
    pub met: u64,
    /// Those that are waived.
    pub waived: u64,
    /// Those that are withdrawn.
    pub withdrawn: u64,
}

/// A release, with its duties counted by state.
#[derive(Drop)]
pub struct ReleaseLine {
    /// The release itself.
    pub release: ReleaseRow,
    /// Its duties, counted.
    pub totals: Totals,
}

/// A document, and how many packages it ships.
#[derive(Drop)]
pub struct DocumentLine {
    /// The document, without its bytes.
    pub head: DocumentHead,
    /// How many of its packages it ships.
    pub shipped: u64,
}

/// An open duty, and the day of its last change.
#[derive(Drop)]
pub struct OpenDuty {
    /// The duty itself.
    pub duty: DutyRow,
    /// The day of the last change.
    pub day: Option<Day>,
}

/// The answer to a command or a query.
#[derive(Drop)]
pub enum Answer {
    /// The catalogue was loaded as this revision.
    Revision(u32),
    /// The document was imported under this number.
    Imported(u32),
    /// The document was imported before, under this number.
    Again(u32),
    /// It was recorded, and there is nothing more to report.
    Done,
    /// The release was frozen. Its duties have consecutive numbers.
    Frozen {
        /// The number of the first of them.
        first: u32,
        /// How many there are, perhaps 0.
        count: u32,
    },
    /// This many waivers ended.
    Closed(u64),
    /// The duties of a release, or those that keep it from being ready, by number.
    Duties(Items<DutyLine>),
    /// The duties of a release, counted by state.
    Totals(Totals),
    /// The changes of a duty, by step.
    Changes(Items<ChangeRow>),
    /// What in a document isn't as its standard has it, by line and kind.
    Findings(Items<Finding>),
    /// A release and its packages.
    Release {
        /// The release itself.
        release: ReleaseRow,
        /// Its packages, by document and SPDXID.
        packages: Items<PackageLine>,
    },
    /// The sets of printed terms.
    Alternatives(Items<Items<Text>>),
    /// The cheapest set, if there is one.
    Cheapest(Option<Cheapest>),
    /// What the notices of a frozen release are written from.
    Bill(Bill),
    /// All releases by name, each with its duties counted by state.
    Releases(Items<ReleaseLine>),
    /// All documents by number, with how many packages each ships.
    Documents(Items<DocumentLine>),
    /// The open duties of all releases, release by release, each by number.
    OpenDuties(Items<OpenDuty>),
    /// What keeps a release from being frozen, in the order in which a freeze checks it.
    Wanting(Items<Refusal>),
    /// What is missing for the notices of a release: texts, copyrights, shipments, and what is there
    /// twice.
    Gaps(Items<Gap>),
    /// Nothing was recorded, for this reason.
    Refused(Refusal),
}

/// What a recorded command does to the rows.
#[derive(Drop)]
pub enum Change {
    /// A revision of the catalogue is loaded.
    Loaded {
        /// The revision with the next number.
        catalogue: CatalogueRow,
        /// Its rules, by term and form.
        rules: Items<RuleRow>,
        /// Its forms.
        forms: Items<Text>,
    },
    /// A document is imported.
    Imported {
        /// The document with the next number.
        document: DocumentRow,
        /// Its packages, by SPDXID.
        packages: Items<PackageRow>,
        /// Its references, by id.
        references: Items<ExtractedRow>,
    },
    /// A release is opened.
    Opened(ReleaseRow),
    /// A document is attached to a release.
    Attached(AttachedRow),
    /// The choice for a package, in place of an earlier one.
    Chosen {
        /// The name of a release.
        release: Text,
        /// The number of the document, from 1.
        document: u32,
        /// The SPDXID of the package.
        package_id: Text,
        /// The choice in place of an earlier one, or nothing if it is dropped.
        rows: Items<ChoiceRow>,
    },
    /// A release is frozen.
    Froze {
        /// The name of the release.
        release: Text,
        /// The revision in force, from 1.
        revision: u64,
        /// The chosen terms.
        frozen: Items<FrozenRow>,
        /// The duties, with the next numbers.
        duties: Items<DutyRow>,
        /// The raising of each.
        changes: Items<ChangeRow>,
    },
    /// Each of these duties is moved by its change, in the order of their numbers.
    Moved {
        /// The changes, each with the next step of its duty.
        changes: Items<ChangeRow>,
    },
    /// The release is withdrawn, and these duties are moved.
    Withdrew {
        /// The name of the release.
        release: Text,
        /// The changes, each with the next step of its duty.
        changes: Items<ChangeRow>,
    },
    /// The office's conclusion for a package, in place of an earlier one.
    Concluded(ConclusionRow),
    /// The licence of a document's reference, in place of an earlier one.
    Adopted(AdoptionRow),
}

/// What a command comes to, decided before anything is written.
#[derive(Drop)]
pub enum Plan {
    /// It gets this answer, and the rows stay as they are.
    Leave(Answer),
    /// It is recorded: the answer, and the change of the rows that goes with it.
    Make { answer: Answer, change: Change },
}

/// How a database failed.
#[derive(Clone, Copy, Debug, PartialEq, Eq)]
pub enum StoreFault {
    /// The database refused a statement or a commit.
    Database,
    /// The database gave rows that no desk's tables have.
    Rows,
}

/// Why a command or a query has no answer.
#[derive(Clone, Copy, Debug, Drop, PartialEq, Eq, Error)]
pub enum Fault {
    #[error("out of memory")]
    /// No memory was left. Nothing was recorded.
    Memory,
    #[error("the store failed")]
    /// The database failed.
    Store(StoreFault),
}

impl From<AllocError> for Fault {
    ghost use Rattle.std.specs.Prelude.{◌≡◌};
    ghost use Rattle.desk_model.specs.declared.command.Fault.TheVariants.{Memory};

    ghost from_gives = { λ _ fault. fault ≡ Memory };

    fn from(_error: AllocError) -> Fault {
        Fault::Memory
    }
}

impl<T: Drop> From<AllocFailed<T>> for Fault {
    ghost use Rattle.std.specs.Prelude.{◌≡◌};
    ghost use Rattle.desk_model.specs.declared.command.Fault.TheVariants.{Memory};

    ghost from_gives = { λ _ fault. fault ≡ Memory };

    fn from(_error: AllocFailed<T>) -> Fault {
        Fault::Memory
    }
}

/// The outcome of a command.
#[derive(Drop)]
pub enum Outcome {
    /// There is an answer.
    Answered(Answer),
    /// There is none.
    Failed(Fault),
}

impl From<Result<Answer, Fault>> for Outcome {
    ghost use Rattle.std.specs.Prelude.{◌≡◌};
    ghost use Rattle.desk_model.specs.Faults.{outcome_of};

    ghost from_gives = { λ told outcome. outcome ≡ outcome_of told };

    fn from(told: Result<Answer, Fault>) -> Outcome {
        match told {
            Ok(answer) => Outcome::Answered(answer),
            Err(fault) => Outcome::Failed(fault),
        }
    }
}
