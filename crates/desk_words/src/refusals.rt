//! Refusals in words.

use desk_base::{Text, limits};
use desk_model::{CatalogueFault, DocumentFault, DutyState, ExpressionFault, Limit, Refusal};
use std::fmt;

const MEBIBYTE: usize = 1_048_576;

const ID_WANTED: &str = ": wanted are letters, digits, . and - behind SPDXRef- or LicenseRef-";

// How the references to licences begin (SPDX 2.3, Annex D.3).
const LICENSE_REF: &str = "LicenseRef-";

const DOCUMENT_REF: &str = "DocumentRef-";

const WORDS_WANTED: &str = ": wanted are an id, a type in capitals and an id";

/// A refusal that prints as its name with what is wrong and where.
#[derive(Clone, Copy)]
pub struct RefusalWords<'a> {
    refusal: &'a Refusal,
}

impl<'a> RefusalWords<'a> {
    ghost use Rattle.std.specs.Prelude.{◌≡◌};

    /// The words for a refusal.
    pub fn of(refusal: &'a Refusal) -> RefusalWords<'a>
        ensures { result.refusal.now ≡ refusal.now }
    {
        RefusalWords { refusal }
    }
}

// A fault of a document, with its line.
#[derive(Clone, Copy)]
struct DocumentWords<'a> {
    fault: &'a DocumentFault,
}

// A fault of a catalogue, with the part and the place in it.
#[derive(Clone, Copy)]
struct CatalogueWords<'a> {
    fault: &'a CatalogueFault,
}

// A fault of an expression, with its byte.
#[derive(Clone, Copy)]
struct ExpressionWords<'a> {
    fault: &'a ExpressionFault,
}

fn write_large<W: fmt::Write>(most: usize, f: &mut fmt::Formatter<W>) -> fmt::Result {
    let most = most / MEBIBYTE;
    write!(f, "TooLarge, more than {most} MiB")
}

fn write_many<W: fmt::Write>(line: u64, f: &mut fmt::Formatter<W>) -> fmt::Result {
    let most = limits::DOCUMENT_ELEMENTS;
    write!(
        f,
        "TooManyElements on line {line}, more than {most} elements"
    )
}

fn write_missing<W: fmt::Write>(line: u64, tag: &Text, f: &mut fmt::Formatter<W>) -> fmt::Result {
    let tag = tag.as_str();
    write!(f, "Missing on line {line}, where {tag} is wanted")
}

fn write_repeated<W: fmt::Write>(line: u64, tag: &Text, f: &mut fmt::Formatter<W>) -> fmt::Result {
    let tag = tag.as_str();
    write!(f, "Repeated on line {line}, where {tag} appears again")
}

impl fmt::Display for DocumentWords<'_> {
    fn fmt<W: fmt::Write>(&self, f: &mut fmt::Formatter<W>) -> fmt::Result {
        let (name, line, what) = match self.fault {
            DocumentFault::NotUtf8 => return f.write_str("NotUtf8, bytes that are not UTF-8"),
            DocumentFault::TooLarge => return write_large(limits::DOCUMENT_BYTES, f),
            DocumentFault::TooManyElements(line) => return write_many(*line, f),
            DocumentFault::Missing { line, tag } => return write_missing(*line, tag, f),
            DocumentFault::Repeated { line, tag } => return write_repeated(*line, tag, f),
            DocumentFault::NoColon(line) => ("NoColon", line, ", which has no tag and colon"),
            DocumentFault::OpenText(line) => ("OpenText", line, ", a <text> that is not closed"),
            DocumentFault::AfterText(line) => (
                "AfterText",
                line,
                ", where something follows </text>",
            ),
            DocumentFault::BadVersion(line) => (
                "BadVersion",
                line,
                ", not SPDX-2.1, SPDX-2.2 or SPDX-2.3",
            ),
            DocumentFault::BadId(line) => ("BadId", line, ID_WANTED),
            DocumentFault::DuplicateId(line) => (
                "DuplicateId",
                line,
                ", which another element has",
            ),
            DocumentFault::BadRelationship(line) => ("BadRelationship", line, WORDS_WANTED),
        };
        write!(f, "{name} on line {line}{what}")
    }
}

impl fmt::Display for CatalogueWords<'_> {
    fn fmt<W: fmt::Write>(&self, f: &mut fmt::Formatter<W>) -> fmt::Result {
        let (what, part, place) = match self.fault {
            CatalogueFault::NotToml => return f.write_str("NotToml, no TOML document"),
            CatalogueFault::TooLarge => return write_large(limits::CATALOGUE_BYTES, f),
            CatalogueFault::Missing(part, place) => ("Missing, a key is absent", part, place),
            CatalogueFault::BadKind(part, place) => {
                (
                    "BadKind, a value of another kind or outside its limits",
                    part,
                    place,
                )
            }
            CatalogueFault::BadTerm(part, place) => ("BadTerm, no term", part, place),
            CatalogueFault::UnknownForm(part, place) => {
                ("UnknownForm, a form that is not listed", part, place)
            }
            CatalogueFault::UnknownDuty(part, place) => {
                ("UnknownDuty, a code that no duty has", part, place)
            }
            CatalogueFault::Twice(part, place) => ("Twice, something appears again", part, place),
        };
        let part = part.name();
        write!(f, "{what}, in {part} at {place}, counted from 0")
    }
}

impl fmt::Display for ExpressionWords<'_> {
    fn fmt<W: fmt::Write>(&self, f: &mut fmt::Formatter<W>) -> fmt::Result {
        let (what, byte) = match self.fault {
            ExpressionFault::Empty(byte) => ("Empty, there is nothing", byte),
            ExpressionFault::BadToken(byte) => ("BadToken, no word of an expression", byte),
            ExpressionFault::Unexpected(byte) => {
                ("Unexpected, something that is not allowed there", byte)
            }
            ExpressionFault::Unclosed(byte) => {
                ("Unclosed, a parenthesis that is not closed", byte)
            }
            ExpressionFault::TooDeep(byte) => ("TooDeep, too many open parentheses", byte),
            ExpressionFault::TooLong(byte) => ("TooLong, too many bytes", byte),
            ExpressionFault::TooManyTerms(byte) => ("TooManyTerms, too many terms", byte),
        };
        write!(f, "{what}, at byte {byte}, counted from 0")
    }
}

// What is full, how many it may have at most, and of what.
fn fullness(limit: Limit) -> (&'static str, u64, &'static str) {
    match limit {
        Limit::Revisions => ("a desk", limits::REVISIONS, "revisions of the catalogue"),
        Limit::Documents => ("a desk", limits::DOCUMENTS, "documents"),
        Limit::Releases => ("a desk", limits::RELEASES, "releases"),
        Limit::Attached => ("a release", limits::ATTACHED, "documents"),
        Limit::Adoptions => ("a document", limits::ADOPTIONS, "adopted references"),
        Limit::Duties => ("a desk", limits::DUTIES, "duties"),
        Limit::Changes => ("a duty", limits::CHANGES, "changes"),
    }
}

fn write_full<W: fmt::Write>(limit: Limit, f: &mut fmt::Formatter<W>) -> fmt::Result {
    let (who, count, what) = fullness(limit);
    write!(f, "{who} has {count} {what} at most")
}

fn write_state<W: fmt::Write>(state: DutyState, f: &mut fmt::Formatter<W>) -> fmt::Result {
    let name = state.name();
    write!(f, "the duty is {name}")?;
    match state {
        DutyState::Met | DutyState::Waived => f.write_str(": reopen it first"),
        _ => Ok(()),
    }
}

// What is wrong, for a refusal that has no place.
fn plain_words(refusal: &Refusal) -> &'static str {
    match refusal {
        Refusal::UnknownDocument => "no document has this number",
        Refusal::UnknownPackage => "the document has no package with this id",
        Refusal::BadName => "a release's name is made of letters, digits, . and -, and is short",
        Refusal::NameTaken => "a release has this name",
        Refusal::UnknownForm => "the catalogue in force has no such form",
        Refusal::UnknownRelease => "no release has this name",
        Refusal::AlreadyAttached => "the document is attached to it already",
        Refusal::NotShipped => "the release does not ship this package",
        Refusal::NotEnough => "the conclusion is not satisfied by these terms",
        Refusal::EmptyRelease => "no document is attached",
        Refusal::UnknownDuty => "no duty has this number",
        Refusal::BadText => "the text must be 1 to 1,024 bytes without control bytes",
        Refusal::BadDay => "a day is YYYY-MM-DD, and in the calendar",
        Refusal::TooMany => "there are too many minimal sets to list",
        Refusal::TooManyTerms => "there are too many distinct terms to list the sets",
        Refusal::BadEnd => "the waiver's last day is before the day of the request",
        _ => "",
    }
}

// Which rule is to be added for a term. That of a reference is for a licence, which the office adopted
// it as.
fn rule_wanted(term: &str) -> &'static str {
    if term.starts_with(LICENSE_REF) || term.starts_with(DOCUMENT_REF) {
        ": add one for the licence that the reference was adopted as"
    } else {
        ": add one"
    }
}

// A refusal about a package, a reference or a term of a document.
fn write_place<W: fmt::Write>(refusal: &Refusal, f: &mut fmt::Formatter<W>) -> fmt::Result {
    match refusal {
        Refusal::NoConclusion {
            document,
            package_id,
        } => {
            let id = package_id.as_str();
            write!(f, "no licence is concluded for {id} of document {document}")
        }
        Refusal::NoChoice {
            document,
            package_id,
        } => {
            let id = package_id.as_str();
            write!(f, "nothing is chosen for {id} of document {document}")
        }
        Refusal::NotAdopted {
            document,
            reference,
        } => {
            let reference = reference.as_str();
            write!(
                f,
                "no licence is adopted for {reference} of document {document}"
            )
        }
        Refusal::NoRule {
            document,
            package_id,
            term,
        } => {
            let (id, term) = (package_id.as_str(), term.as_str());
            write!(
                f,
                "the catalogue has no rule for {term} of {id} of document {document}"
            )?;
            f.write_str(rule_wanted(term))
        }
        other => f.write_str(plain_words(other)),
    }
}

impl fmt::Display for RefusalWords<'_> {
    fn fmt<W: fmt::Write>(&self, f: &mut fmt::Formatter<W>) -> fmt::Result {
        let name = self.refusal.name();
        write!(f, "{name}: ")?;
        match self.refusal {
            Refusal::BadCatalogue(fault) => CatalogueWords { fault }.fmt(f),
            Refusal::BadDocument(fault) => DocumentWords { fault }.fmt(f),
            Refusal::BadExpression(fault) => ExpressionWords { fault }.fmt(f),
            Refusal::NamespaceTaken { document } => {
                write!(f, "document {document} has this DocumentNamespace")
            }
            Refusal::Chosen { release } => {
                let release = release.as_str();
                write!(f, "release {release} holds a choice for the package")
            }
            Refusal::BadTerm(place) => {
                write!(f, "item {place} (counting from 0) is not a licence term")
            }
            Refusal::ReleaseState(state) => {
                let state = state.name();
                write!(f, "the release is {state}")
            }
            Refusal::DutyState(state) => write_state(*state, f),
            Refusal::NotMinimal { term } => {
                let term = term.as_str();
                write!(f, "{term} can be left out")
            }
            Refusal::Full(limit) => write_full(*limit, f),
            other => write_place(other, f),
        }
    }
}
