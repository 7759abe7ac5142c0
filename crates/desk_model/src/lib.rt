//! What the desk keeps, what it is asked, and what it answers: the rows of its tables, its
//! commands, queries and answers, the refusals and the kinds of findings by their numbers and
//! names; and in `specs/` what each of them means in terms of the recorded history of commands.
//!
//! A contract sees each text and each list as its items, and each other value as the record of its
//! fields.
#![tactic(auto)]

pub mod bill;
pub mod command;
pub mod finding;
pub mod gap;
pub mod note;
pub mod reading;
pub mod refusal;
pub mod row;
pub mod state;
pub mod waiver;

pub use bill::{Bill, BillLine, BillText, TextOf};
pub use command::{
    Answer, Change, Command, DocumentLine, DutyLine, Fault, OpenDuty, Outcome, PackageLine, Plan,
    Query, ReleaseLine, StoreFault, Totals,
};
pub use finding::{Finding, FindingKind, MissingField};
pub use gap::{Gap, GapKind, says_nothing};
pub use note::is_note;
pub use reading::{
    Catalogue, Cheapest, Conclusion, Document, LicenceText, ListFault, Package, Profile, Reference,
    Rule, Verdict,
};
pub use refusal::{CatalogueFault, CataloguePart, DocumentFault, ExpressionFault, Limit, Refusal};
pub use row::{
    AdoptionRow, AttachedRow, CatalogueRow, ChangeRow, ChoiceRow, ConclusionRow, DocumentHead,
    DocumentRow, DutyRow, ExtractedRow, FrozenRow, Move, Owed, PackageRow, ReleaseRow, RuleRow,
    Standing,
};
pub use state::{DutyState, ReleaseState, Word};
pub use waiver::is_over;
