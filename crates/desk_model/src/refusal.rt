//! The reasons for which a command or a query is refused.

use crate::state::{DutyState, ReleaseState};
use desk_base::Text;

/// Why a text isn't a licence expression (SPDX 2.3, Annex D), with the byte where it stops.
#[derive(Clone, Copy, PartialEq, Eq)]
pub enum ExpressionFault {
    /// There are only blanks.
    Empty(usize),
    /// A run of bytes is no operator, id or reference.
    BadToken(usize),
    /// A token can't be there, or the text ends too early.
    Unexpected(usize),
    /// A parenthesis isn't closed.
    Unclosed(usize),
    /// More than 64 parentheses are open.
    TooDeep(usize),
    /// The text has more than 16,384 bytes.
    TooLong(usize),
    /// There are more than 1,024 terms.
    TooManyTerms(usize),
}

impl ExpressionFault {
    ghost use Rattle.std.specs.Prelude.{◌≡◌};
    ghost use Rattle.desk_model.specs.FaultNumbers.{expression_fault_number};

    /// The number of the fault.
    pub fn number(&self) -> u8
        ensures { result ≡ expression_fault_number self.now }
    {
        match self {
            ExpressionFault::Empty(_) => 1,
            ExpressionFault::BadToken(_) => 2,
            ExpressionFault::Unexpected(_) => 3,
            ExpressionFault::Unclosed(_) => 4,
            ExpressionFault::TooDeep(_) => 5,
            ExpressionFault::TooLong(_) => 6,
            ExpressionFault::TooManyTerms(_) => 7,
        }
    }
}

/// Why a text isn't a tag-value document (SPDX 2.3), with the line, counted from 1.
#[derive(Drop, PartialEq)]
pub enum DocumentFault {
    /// The bytes aren't UTF-8.
    NotUtf8,
    /// A line has no colon, or no tag before it.
    NoColon(u64),
    /// A `<text>` isn't closed.
    OpenText(u64),
    /// Something other than blanks follows `</text>`.
    AfterText(u64),
    /// SPDXVersion is none of 2.1, 2.2 and 2.3.
    BadVersion(u64),
    /// A required field is missing.
    Missing { line: u64, tag: Text },
    /// An identifier of another form.
    BadId(u64),
    /// An identifier that is used already.
    DuplicateId(u64),
    /// A field that may occur only once occurs again.
    Repeated { line: u64, tag: Text },
    /// A relationship that isn't three words of the right form.
    BadRelationship(u64),
    /// There are more than 4 MiB.
    TooLarge,
    /// There are more than 10,000 packages, files, snippets and extracted licences.
    TooManyElements(u64),
}

impl DocumentFault {
    ghost use Rattle.std.specs.Prelude.{◌≡◌};
    ghost use Rattle.desk_model.specs.FaultNumbers.{document_fault_number};

    /// The number of the fault.
    pub fn number(&self) -> u8
        ensures { result ≡ document_fault_number self.now }
    {
        match self {
            DocumentFault::NotUtf8 => 1,
            DocumentFault::NoColon(_) => 2,
            DocumentFault::OpenText(_) => 3,
            DocumentFault::AfterText(_) => 4,
            DocumentFault::BadVersion(_) => 5,
            DocumentFault::Missing { .. } => 6,
            DocumentFault::BadId(_) => 7,
            DocumentFault::DuplicateId(_) => 8,
            DocumentFault::Repeated { .. } => 9,
            DocumentFault::BadRelationship(_) => 10,
            DocumentFault::TooLarge => 11,
            DocumentFault::TooManyElements(_) => 12,
        }
    }
}

/// A part of a catalogue.
#[derive(Clone, Copy, Debug, PartialEq, Eq)]
pub enum CataloguePart {
    /// The list of forms.
    Forms,
    /// The tables of duties.
    Duty,
    /// The tables of rules.
    Rule,
    /// The tables of texts.
    Text,
}

impl CataloguePart {
    ghost use Rattle.std.specs.Prelude.{◌≡◌};
    ghost use Rattle.desk_model.specs.Names.{part_name};

    /// The key of the part.
    pub fn name(&self) -> &'static str
        ensures { result.now ≡ part_name self.now }
    {
        match self {
            CataloguePart::Forms => "forms",
            CataloguePart::Duty => "duty",
            CataloguePart::Rule => "rule",
            CataloguePart::Text => "text",
        }
    }
}

/// Why a text isn't a catalogue, with the part and the place in it, counted from 0.
#[derive(Clone, Copy, Debug, PartialEq, Eq)]
pub enum CatalogueFault {
    /// The text isn't a TOML document.
    NotToml,
    /// A key is absent.
    Missing(CataloguePart, usize),
    /// A value of another kind, or outside its limits.
    BadKind(CataloguePart, usize),
    /// The term of a rule, or the licence of a text, isn't one.
    BadTerm(CataloguePart, usize),
    /// The form of a rule isn't listed.
    UnknownForm(CataloguePart, usize),
    /// A code of a rule has no duty.
    UnknownDuty(CataloguePart, usize),
    /// Something is there twice; the place is that of the later one.
    Twice(CataloguePart, usize),
    /// There are more than 4 MiB.
    TooLarge,
}

impl CatalogueFault {
    ghost use Rattle.std.specs.Prelude.{◌≡◌};
    ghost use Rattle.desk_model.specs.FaultNumbers.{catalogue_fault_number};

    /// The number of the fault.
    pub fn number(&self) -> u8
        ensures { result ≡ catalogue_fault_number self.now }
    {
        match self {
            CatalogueFault::NotToml => 1,
            CatalogueFault::Missing(_, _) => 2,
            CatalogueFault::BadKind(_, _) => 3,
            CatalogueFault::BadTerm(_, _) => 4,
            CatalogueFault::UnknownForm(_, _) => 5,
            CatalogueFault::UnknownDuty(_, _) => 6,
            CatalogueFault::Twice(_, _) => 7,
            CatalogueFault::TooLarge => 8,
        }
    }
}

/// What is full.
#[derive(Clone, Copy, PartialEq, Eq)]
pub enum Limit {
    /// Revisions of the catalogue.
    Revisions,
    /// Documents.
    Documents,
    /// Releases, whatever their state.
    Releases,
    /// Documents of one release.
    Attached,
    /// Adopted references of one document.
    Adoptions,
    /// Duties of all releases.
    Duties,
    /// Changes of one duty.
    Changes,
}

impl Limit {
    ghost use Rattle.std.specs.Prelude.{◌≡◌};
    ghost use Rattle.desk_model.specs.Names.{limit_name};

    /// The word for what is full.
    pub fn name(&self) -> &'static str
        ensures { result.now ≡ limit_name self.now }
    {
        match self {
            Limit::Revisions => "revisions",
            Limit::Documents => "documents",
            Limit::Releases => "releases",
            Limit::Attached => "attached",
            Limit::Adoptions => "adoptions",
            Limit::Duties => "duties",
            Limit::Changes => "changes",
        }
    }
}

/// Why a command or a query is refused.
#[derive(Drop, PartialEq)]
pub enum Refusal {
    /// The text is no catalogue.
    BadCatalogue(CatalogueFault),
    /// The bytes are no document.
    BadDocument(DocumentFault),
    /// Another document has this namespace.
    NamespaceTaken {
        /// Its number, from 1.
        document: u32,
    },
    /// No document has this number.
    UnknownDocument,
    /// The document has no such package.
    UnknownPackage,
    /// The text is no licence expression.
    BadExpression(ExpressionFault),
    /// A release holds a choice for the package.
    Chosen {
        /// The name of the one that was opened first.
        release: Text,
    },
    /// The text at this index is no term.
    BadTerm(usize),
    /// The name can't be a release's.
    BadName,
    /// A release has this name.
    NameTaken,
    /// The catalogue in force doesn't list this form.
    UnknownForm,
    /// No release has this name.
    UnknownRelease,
    /// The release is in this state.
    ReleaseState(ReleaseState),
    /// The document is attached already.
    AlreadyAttached,
    /// The release doesn't ship this package.
    NotShipped,
    /// No licence is concluded for this package.
    NoConclusion {
        /// The number of the document, from 1.
        document: u32,
        /// The SPDXID of the package.
        package_id: Text,
    },
    /// The conclusion isn't true under the terms.
    NotEnough,
    /// The conclusion is true without this term.
    NotMinimal {
        /// The first term that can go, printed.
        term: Text,
    },
    /// Nothing is chosen for this package.
    NoChoice {
        /// The number of the document, from 1.
        document: u32,
        /// The SPDXID of the package.
        package_id: Text,
    },
    /// No document is attached.
    EmptyRelease,
    /// This reference is adopted as no licence.
    NotAdopted {
        /// The number of the document, from 1.
        document: u32,
        /// The reference, byte for byte.
        reference: Text,
    },
    /// The catalogue in force has no rule for this term.
    NoRule {
        /// The number of the document, from 1.
        document: u32,
        /// The SPDXID of the package.
        package_id: Text,
        /// The term, printed.
        term: Text,
    },
    /// No duty has this number.
    UnknownDuty,
    /// The duty is in this state.
    DutyState(DutyState),
    /// The text is empty, too long or has a control byte.
    BadText,
    /// The text is no day.
    BadDay,
    /// There are already as many as the limit allows.
    Full(Limit),
    /// There are too many minimal sets.
    TooMany,
    /// There are too many distinct terms.
    TooManyTerms,
    /// The last day of the waiver is before the day.
    BadEnd,
}

impl Refusal {
    ghost use Rattle.std.specs.Prelude.{◌≡◌};
    ghost use Rattle.desk_model.specs.Names.{refusal_name};
    ghost use Rattle.desk_model.specs.Numbers.{refusal_number};

    /// The number of the refusal.
    pub fn number(&self) -> u8
        ensures { result ≡ refusal_number self.now }
    {
        match self {
            Refusal::BadCatalogue(_) => 1,
            Refusal::BadDocument(_) => 2,
            Refusal::NamespaceTaken { .. } => 3,
            Refusal::UnknownDocument => 4,
            Refusal::UnknownPackage => 5,
            Refusal::BadExpression(_) => 6,
            Refusal::Chosen { .. } => 7,
            Refusal::BadTerm(_) => 8,
            Refusal::BadName => 9,
            Refusal::NameTaken => 10,
            Refusal::UnknownForm => 11,
            Refusal::UnknownRelease => 12,
            Refusal::ReleaseState(_) => 13,
            Refusal::AlreadyAttached => 14,
            Refusal::NotShipped => 15,
            Refusal::NoConclusion { .. } => 16,
            Refusal::NotEnough => 17,
            Refusal::NotMinimal { .. } => 18,
            Refusal::NoChoice { .. } => 19,
            Refusal::EmptyRelease => 20,
            Refusal::NotAdopted { .. } => 21,
            Refusal::NoRule { .. } => 22,
            Refusal::UnknownDuty => 23,
            Refusal::DutyState(_) => 24,
            Refusal::BadText => 25,
            Refusal::BadDay => 26,
            Refusal::Full(_) => 27,
            Refusal::TooMany => 28,
            Refusal::TooManyTerms => 29,
            Refusal::BadEnd => 30,
        }
    }

    /// The name of the refusal.
    pub fn name(&self) -> &'static str
        ensures { result.now ≡ refusal_name self.now }
    {
        match self {
            Refusal::BadCatalogue(_) => "BadCatalogue",
            Refusal::BadDocument(_) => "BadDocument",
            Refusal::NamespaceTaken { .. } => "NamespaceTaken",
            Refusal::UnknownDocument => "UnknownDocument",
            Refusal::UnknownPackage => "UnknownPackage",
            Refusal::BadExpression(_) => "BadExpression",
            Refusal::Chosen { .. } => "Chosen",
            Refusal::BadTerm(_) => "BadTerm",
            Refusal::BadName => "BadName",
            Refusal::NameTaken => "NameTaken",
            Refusal::UnknownForm => "UnknownForm",
            Refusal::UnknownRelease => "UnknownRelease",
            Refusal::ReleaseState(_) => "ReleaseState",
            Refusal::AlreadyAttached => "AlreadyAttached",
            Refusal::NotShipped => "NotShipped",
            Refusal::NoConclusion { .. } => "NoConclusion",
            Refusal::NotEnough => "NotEnough",
            Refusal::NotMinimal { .. } => "NotMinimal",
            Refusal::NoChoice { .. } => "NoChoice",
            Refusal::EmptyRelease => "EmptyRelease",
            Refusal::NotAdopted { .. } => "NotAdopted",
            Refusal::NoRule { .. } => "NoRule",
            Refusal::UnknownDuty => "UnknownDuty",
            Refusal::DutyState(_) => "DutyState",
            Refusal::BadText => "BadText",
            Refusal::BadDay => "BadDay",
            Refusal::Full(_) => "Full",
            Refusal::TooMany => "TooMany",
            Refusal::TooManyTerms => "TooManyTerms",
            Refusal::BadEnd => "BadEnd",
        }
    }
}
