//! The rows of the desk's tables as they are. The fields are the columns, in their order; numbers
//! may be any.

use desk_base::{Items, Text};

/// A row of `meta`.
#[derive(Drop)]
pub struct StoredMeta {
    /// The version of the schema.
    pub version: i64,
}

/// A row of `catalogue`.
#[derive(Drop)]
pub struct StoredCatalogue {
    /// Its number.
    pub revision: i64,
    /// The text as it was loaded.
    pub body: Text,
}

/// A row of `rule`.
#[derive(Drop)]
pub struct StoredRule {
    /// The revision that has the rule.
    pub revision: i64,
    /// The term, printed in small letters.
    pub term: Text,
    /// One of the revision's forms.
    pub form: Text,
    /// The term, as the catalogue spells it.
    pub spelled: Text,
    /// The codes, joined by one blank.
    pub codes: Text,
}

/// A row of `document`.
#[derive(Drop)]
pub struct StoredDocument {
    /// Its number.
    pub number: i64,
    /// Its DocumentNamespace.
    pub namespace: Text,
    /// The bytes as they came.
    pub bytes: Items<u8>,
}

/// A row of `reading`: the profile by which a document is read.
#[derive(Drop)]
pub struct StoredReading {
    /// The number of the document.
    pub document: i64,
    /// 1 for operators in capitals, 2 for either case.
    pub profile: i64,
}

/// A row of `package`.
#[derive(Drop)]
pub struct StoredPackage {
    /// The number of the document.
    pub document: i64,
    /// Its SPDXID.
    pub id: Text,
    /// The value of PackageName.
    pub name: Text,
    /// The value of PackageVersion.
    pub version: Option<Text>,
    /// The value of PackageLicenseConcluded, as it is written.
    pub concluded: Option<Text>,
    /// The value of PackageCopyrightText, as it is written.
    pub copyright: Option<Text>,
    /// 1 if the document ships the package, otherwise 0.
    pub shipped: i64,
}

/// A row of `extracted`.
#[derive(Drop)]
pub struct StoredExtracted {
    /// The number of the document.
    pub document: i64,
    /// The value of LicenseID, byte for byte.
    pub reference: Text,
    /// The value of ExtractedText.
    pub body: Option<Text>,
}

/// A row of `conclusion`.
#[derive(Drop)]
pub struct StoredConclusion {
    /// The number of the document.
    pub document: i64,
    /// The SPDXID of a package of it.
    pub package_id: Text,
    /// The expression as it was written.
    pub expression: Text,
}

/// A row of `adoption`.
#[derive(Drop)]
pub struct StoredAdoption {
    /// The number of the document.
    pub document: i64,
    /// The reference, byte for byte.
    pub reference: Text,
    /// The folded id of the licence that takes its place.
    pub licence: Text,
}

/// A row of `releases`.
#[derive(Drop)]
pub struct StoredRelease {
    /// Its name.
    pub name: Text,
    /// Its place in the order of opening.
    pub place: i64,
    /// A form of a catalogue.
    pub form: Text,
    /// Its state, by name.
    pub state: Text,
    /// The revision of the catalogue at its freeze, or 0 before.
    pub revision: i64,
}

/// A row of `attached`.
#[derive(Drop)]
pub struct StoredAttached {
    /// The name of the release.
    pub release: Text,
    /// The number of the document.
    pub document: i64,
}

/// A row of `choice`.
#[derive(Drop)]
pub struct StoredChoice {
    /// The name of the release.
    pub release: Text,
    /// The number of the document.
    pub document: i64,
    /// The SPDXID of a package that the document ships.
    pub package_id: Text,
    /// The term, printed in small letters.
    pub term: Text,
}

/// A row of `frozen`.
#[derive(Drop)]
pub struct StoredFrozen {
    /// The name of the release.
    pub release: Text,
    /// The number of the document.
    pub document: i64,
    /// The SPDXID of a package that the document ships.
    pub package_id: Text,
    /// The term, printed in small letters.
    pub term: Text,
    /// Its adopted form, as the catalogue of the freeze spells it.
    pub rule: Text,
}

/// A row of `duty`.
#[derive(Drop)]
pub struct StoredDuty {
    /// Its number.
    pub number: i64,
    /// The name of the release.
    pub release: Text,
    /// The number of the document.
    pub document: i64,
    /// The SPDXID of the package.
    pub package_id: Text,
    /// The frozen term that owes it.
    pub term: Text,
    /// The code that is owed.
    pub code: Text,
    /// The term's adopted form, as the catalogue of the freeze spells it.
    pub rule: Text,
    /// Its state, by name.
    pub state: Text,
}

/// A row of `change`.
#[derive(Drop)]
pub struct StoredChange {
    /// The number of the duty.
    pub duty: i64,
    /// The step, from 1.
    pub step: i64,
    /// The day, as it was written.
    pub day: Text,
    /// What was done, by its word.
    pub word: Text,
    /// The evidence or the reason; empty if the duty was raised or its waiver ended.
    pub body: Text,
}

/// A row of `waiver`: the last day of a waiver that ends.
#[derive(Drop)]
pub struct StoredWaiver {
    /// The number of the duty.
    pub duty: i64,
    /// The step at which it was waived.
    pub step: i64,
    /// The last day, as it was written.
    pub last_day: Text,
}
