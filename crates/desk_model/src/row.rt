//! The rows of the desk's tables. The fields of a row's key come first.

use crate::reading::Profile;
use crate::state::{DutyState, ReleaseState, Word};
use desk_base::{Day, Items, Text};

/// A revision of the catalogue.
#[derive(Drop)]
pub struct CatalogueRow {
    /// Its number, from 1, in the order of loading.
    pub revision: u32,
    /// The text as it was loaded, which the reader of texts found to be a catalogue.
    pub body: Text,
}

/// A rule of a revision.
#[derive(Drop)]
pub struct RuleRow {
    /// The revision, from 1.
    pub revision: u32,
    /// The term, printed in small letters.
    pub term: Text,
    /// One of the revision's forms.
    pub form: Text,
    /// The term, as the catalogue spells it.
    pub spelled: Text,
    /// The codes of duties, sorted by their bytes, each once. The reader of texts checked that each
    /// has a duty.
    pub codes: Items<Text>,
}

/// A document, with the profile that it was imported with.
#[derive(Drop)]
pub struct DocumentRow {
    /// Its number, from 1, in the order of import.
    pub number: u32,
    /// Its DocumentNamespace, which no other document has.
    pub namespace: Text,
    /// The bytes as they came, which the reader of texts found to be a document.
    pub bytes: Items<u8>,
    /// How its operators may be written.
    pub profile: Profile,
}

/// A document without its bytes.
#[derive(Drop)]
pub struct DocumentHead {
    /// Its number, from 1, in the order of import.
    pub number: u32,
    /// Its DocumentNamespace, which no other document has.
    pub namespace: Text,
    /// How its operators may be written.
    pub profile: Profile,
}

/// A package of a document.
#[derive(Drop)]
pub struct PackageRow {
    /// The number of the document, from 1.
    pub document: u32,
    /// Its SPDXID.
    pub id: Text,
    /// The value of PackageName.
    pub name: Text,
    /// The value of PackageVersion.
    pub version: Option<Text>,
    /// The value of PackageLicenseConcluded, as it is written.
    pub concluded: Option<Text>,
    /// The value of PackageCopyrightText, as it is written.
    pub copyright: Option<Text>,
    /// Whether the document ships it.
    pub shipped: bool,
}

/// A licence reference that a document defines.
#[derive(Drop)]
pub struct ExtractedRow {
    /// The number of the document, from 1.
    pub document: u32,
    /// The value of LicenseID, byte for byte.
    pub reference: Text,
    /// The value of ExtractedText.
    pub body: Option<Text>,
}

/// The office's conclusion for a package, as it was written.
#[derive(Drop)]
pub struct ConclusionRow {
    /// The number of the document, from 1.
    pub document: u32,
    /// The SPDXID of a package of it.
    pub package_id: Text,
    /// The expression as it was written. Its operators are in capitals, whatever the document's profile.
    pub expression: Text,
}

/// The licence that a reference of a document was adopted as.
#[derive(Drop)]
pub struct AdoptionRow {
    /// The number of the document, from 1.
    pub document: u32,
    /// The reference, byte for byte.
    pub reference: Text,
    /// The printed term that takes its place.
    pub licence: Text,
}

/// A release.
#[derive(Drop)]
pub struct ReleaseRow {
    /// An idstring of 1 to 64 bytes, as OpenRelease checks.
    pub name: Text,
    /// Its place in the order of opening, from 1.
    pub place: u32,
    /// A form of the catalogue that was in force when it was opened.
    pub form: Text,
    /// Its state.
    pub state: ReleaseState,
    /// The revision of the catalogue at its freeze, or 0 before.
    pub revision: u64,
}

/// A document that is attached to a release.
#[derive(Drop)]
pub struct AttachedRow {
    /// The name of a release.
    pub release: Text,
    /// The number of the document, from 1.
    pub document: u32,
}

/// A term that is chosen for a package of a document in a release.
#[derive(Drop)]
pub struct ChoiceRow {
    /// The name of a release.
    pub release: Text,
    /// The number of the document, from 1.
    pub document: u32,
    /// The SPDXID of a package that the document ships.
    pub package_id: Text,
    /// The term, printed in small letters.
    pub term: Text,
}

/// A term that a release was frozen with, and the rule's spelling of its adopted form.
#[derive(Drop)]
pub struct FrozenRow {
    /// The name of a release.
    pub release: Text,
    /// The number of the document, from 1.
    pub document: u32,
    /// The SPDXID of the package.
    pub package_id: Text,
    /// The chosen term, printed.
    pub term: Text,
    /// The adopted form of the term, as the rule spells it.
    pub rule: Text,
}

/// Why a duty is owed: a code of the rule for a term of a package in a release, and the rule's
/// spelling of the term.
#[derive(Drop)]
pub struct Owed {
    /// The name of a release.
    pub release: Text,
    /// The number of the document, from 1.
    pub document: u32,
    /// The SPDXID of the package.
    pub package_id: Text,
    /// The chosen term, printed.
    pub term: Text,
    /// The code, one of the rule's.
    pub code: Text,
    /// The adopted form of the term, as the rule spells it.
    pub rule: Text,
}

/// A duty.
#[derive(Drop)]
pub struct DutyRow {
    /// Its number, from 1, in the order of freezes.
    pub number: u32,
    /// The name of the release that raised it.
    pub release: Text,
    /// The number of the document, from 1.
    pub document: u32,
    /// The SPDXID of the package.
    pub package_id: Text,
    /// The chosen term, printed.
    pub term: Text,
    /// The code of the duty in the revision of the freeze.
    pub code: Text,
    /// The adopted form of the term, as the rule spells it.
    pub rule: Text,
    /// Its state.
    pub state: DutyState,
}

/// A move of a duty: its day, word and text, and the last day of a waiver that ends.
#[derive(Drop)]
pub struct Move {
    /// The day, `YYYY-MM-DD`.
    pub day: Day,
    /// What was done.
    pub word: Word,
    /// The text, of at most 1,024 bytes; empty if the command has none.
    pub body: Text,
    /// The last day of a waiver, if it is one that ends.
    pub last_day: Option<Day>,
}

/// A change of a duty.
#[derive(Drop)]
pub struct ChangeRow {
    /// The number of the duty, from 1.
    pub duty: u32,
    /// Its place among the duty's changes, from 1.
    pub step: u32,
    /// The day, `YYYY-MM-DD`.
    pub day: Day,
    /// What was done.
    pub word: Word,
    /// The text, of at most 1,024 bytes; empty if the command has none.
    pub body: Text,
    /// The last day of a waiver, if it is one that ends.
    pub last_day: Option<Day>,
}

/// The state of a duty, and how many changes it has.
#[derive(Drop)]
pub struct Standing {
    /// The number of the duty, from 1.
    pub number: u32,
    /// Its state.
    pub state: DutyState,
    /// How many changes it has, including its raising.
    pub steps: u64,
}
