//! The bill of a frozen release: what its notices are written from.

use desk_base::{Items, Text};

/// Whose text it is.
#[derive(Drop)]
pub enum TextOf {
    /// A licence's or an exception's.
    Licence {
        /// Its id, in small letters.
        id: Text,
    },
    /// A reference's, which a document defines.
    Reference {
        /// The number of the document, from 1.
        document: u32,
        /// The reference, byte for byte.
        reference: Text,
    },
}

/// A package that a release shipped, with the rules for the terms that it was frozen with.
#[derive(Drop)]
pub struct BillLine {
    /// The value of PackageName.
    pub name: Text,
    /// The value of PackageVersion.
    pub version: Option<Text>,
    /// The adopted form of each term, as the rule spells it, in the order of terms.
    pub rules: Items<Text>,
    /// The value of PackageCopyrightText, as it is written.
    pub copyright: Option<Text>,
}

/// A text that goes with a release.
#[derive(Drop)]
pub struct BillText {
    /// The licence or the exception, as the catalogue spells it with its text, or else its id; a
    /// reference as it is.
    pub title: Text,
    /// The text, if one is recorded.
    pub body: Option<Text>,
}

/// What the notices of a frozen release are written from.
#[derive(Drop)]
pub struct Bill {
    /// The name of the release.
    pub release: Text,
    /// The form in which it ships.
    pub form: Text,
    /// Its packages, by document and SPDXID.
    pub lines: Items<BillLine>,
    /// The texts of their terms in the order of first use, each once.
    pub texts: Items<BillText>,
}
