//! The lines of the lists.

use desk_base::Text;
use desk_model::Totals;

/// A release, and how many of its duties are in each state.
#[derive(Drop)]
pub struct ReleaseLine {
    /// Its name.
    pub name: Text,
    /// Its place in the order in which the releases were opened.
    pub place: i64,
    /// The form in which it ships.
    pub form: Text,
    /// `open`, `frozen` or `withdrawn`, as the table has it.
    pub state: Text,
    /// The revision of the catalogue that it was frozen with, 0 if it wasn't frozen.
    pub revision: i64,
    /// How many duties it raised, and how many of these are in each state.
    pub duties: Totals,
}

/// A document, and how many packages it has.
#[derive(Drop)]
pub struct DocumentLine {
    /// Its number, from 1.
    pub number: i64,
    /// Its name. Empty if its bytes aren't a document, which no desk has.
    pub name: Text,
    /// Its namespace.
    pub namespace: Text,
    /// How many packages it has.
    pub packages: u64,
    /// How many of these it ships.
    pub shipped: u64,
    /// How many findings it has, its licence fields read by its profile. `None` if its bytes aren't
    /// a document, which no desk has.
    pub findings: Option<u64>,
    /// The number of the profile that its expressions are read by. Each document of a desk has one.
    pub profile: Option<i64>,
}

/// A duty of a release. Days are written `YYYY-MM-DD`.
#[derive(Drop)]
pub struct DutyLine {
    /// Its number, from 1.
    pub number: i64,
    /// The release that raised it.
    pub release: Text,
    /// The number of the document, from 1.
    pub document: i64,
    /// The SPDX id of the package.
    pub package_id: Text,
    /// The name of the package. Empty if the document has no such package, which no desk has.
    pub package_name: Text,
    /// The rule that owes it, as the catalogue spells it.
    pub rule: Text,
    /// The code of what is owed.
    pub code: Text,
    /// The title of this code in the catalogue in force. Empty if it has none there.
    pub title: Text,
    /// `open`, `met`, `waived` or `withdrawn`, as the table has it.
    pub state: Text,
    /// The day it was raised. Empty if its first step is missing, which no desk has.
    pub raised: Text,
    /// The day of its last change. Empty if it has no changes, which no desk has.
    pub changed: Text,
    /// The last day of its waiver, if its last change is a waiver that ends.
    pub last_day: Option<Text>,
}

/// Which duties are asked for: those that meet all given conditions.
#[derive(Clone, Copy)]
pub struct DutyFilter<'a> {
    /// Those of this release.
    pub release: Option<&'a str>,
    /// Those with this code.
    pub code: Option<&'a str>,
    /// Those that are open.
    pub still_open: bool,
    /// Those whose waivers have a last day before this one, `YYYY-MM-DD`.
    pub past: Option<&'a str>,
}
