//! What the desk reads in the texts that it is given.

pub use desk_base::Profile;
use desk_base::{Items, Text};

/// A rule of a catalogue: what a term owes in a form.
#[derive(Drop)]
pub struct Rule {
    /// The term, as it is printed.
    pub term: Text,
    /// One of the catalogue's forms.
    pub form: Text,
    /// The term, as the catalogue spells it.
    pub spelled: Text,
    /// The codes of the duties, sorted by their bytes, each once.
    pub codes: Items<Text>,
}

/// A catalogue of rules.
#[derive(Drop)]
pub struct Catalogue {
    /// The forms, in the order of the text, each once.
    pub forms: Items<Text>,
    /// The rules, sorted by term and form.
    pub rules: Items<Rule>,
}

/// The text that a catalogue has for a licence or an exception.
#[derive(Drop)]
pub struct LicenceText {
    /// The id, as the catalogue spells it.
    pub title: Text,
    /// The text.
    pub body: Text,
}

/// A package of a document.
#[derive(Drop)]
pub struct Package {
    /// Its SPDXID.
    pub id: Text,
    /// The value of PackageName.
    pub name: Text,
    /// The value of PackageVersion.
    pub version: Option<Text>,
    /// The value of PackageLicenseConcluded, as it is written.
    pub concluded: Option<Text>,
    /// The value of PackageCopyrightText, as it is written.
    pub copyright: Option<Text>,
    /// Whether the document ships it.
    pub shipped: bool,
}

/// A licence reference that a document defines.
#[derive(Drop)]
pub struct Reference {
    /// The value of LicenseID.
    pub id: Text,
    /// The value of ExtractedText.
    pub body: Option<Text>,
}

/// A document.
#[derive(Drop)]
pub struct Document {
    /// The value of DocumentNamespace.
    pub namespace: Text,
    /// The packages, sorted by their ids.
    pub packages: Items<Package>,
    /// The references that it defines, sorted by their ids.
    pub references: Items<Reference>,
}

/// The licence expression that is concluded for a package, as it was written, and the profile by
/// which it is read.
#[derive(Drop)]
pub struct Conclusion {
    /// How its operators may be written.
    pub profile: Profile,
    /// The expression.
    pub text: Text,
}

/// Why the minimal sets of terms of a licence expression aren't listed.
#[derive(Clone, Copy, PartialEq, Eq)]
pub enum ListFault {
    /// It has more than 128 distinct terms.
    TooManyTerms,
    /// Some part of it, or the first few of the parts that an operator joins, has more than 64
    /// minimal sets.
    TooMany,
}

/// The cheapest set of terms under which a licence expression is true, printed, and what it costs.
#[derive(Drop)]
pub struct Cheapest {
    /// The number of duties that the terms owe.
    pub cost: u64,
    /// The terms, in order.
    pub terms: Items<Text>,
}

/// How well a list of terms satisfies a licence expression.
#[derive(Clone, Copy, PartialEq, Eq)]
pub enum Verdict {
    /// The expression isn't true under these terms.
    NotEnough,
    /// It is true even without the term at this place of the list, the first such place.
    Superfluous(usize),
    /// It is true, and each term is needed.
    Minimal,
}
