//! The faults, with the words of docs/REFUSALS.md and, for those of catalogues, of
//! docs/CATALOGUE.md.

use crate::entry::{Entry, Kind};

/// The faults of documents, by number.
pub(crate) const DOCUMENT_FAULTS: [Entry; 12] = [
    Entry {
        name: "NotUtf8",
        kind: Kind::DocumentFault { number: 1 },
        meaning: Some("the bytes aren't UTF-8"),
        cause: Some(
            "Latin-1 names or notices: iconv -f latin1 -t utf-8. A request is always text, so only desk import reports this",
        ),
    },
    Entry {
        name: "NoColon",
        kind: Kind::DocumentFault { number: 2 },
        meaning: Some("a line without a colon, or with no tag before it"),
        cause: Some(
            "a value over several lines without <text> and </text> around it; JSON, XML or a spreadsheet: convert it",
        ),
    },
    Entry {
        name: "OpenText",
        kind: Kind::DocumentFault { number: 3 },
        meaning: Some("<text> without </text>, at the line of its field"),
        cause: Some("a document cut short"),
    },
    Entry {
        name: "AfterText",
        kind: Kind::DocumentFault { number: 4 },
        meaning: Some("something follows </text>, at that line"),
        cause: Some("a notice that contains </text> itself; the next field on the same line"),
    },
    Entry {
        name: "BadVersion",
        kind: Kind::DocumentFault { number: 5 },
        meaning: Some("SPDXVersion is not SPDX-2.1, SPDX-2.2 or SPDX-2.3"),
        cause: Some(
            "SPDX-2.0, SPDX-1.2, or 2.3 alone: have the tool write a newer version, or convert it",
        ),
    },
    Entry {
        name: "Missing",
        kind: Kind::DocumentFault { number: 6 },
        meaning: Some(
            "SPDXVersion, SPDXID, DocumentName or DocumentNamespace of the document (line 1), or the SPDXID of a package or file (the line where it begins)",
        ),
        cause: Some("a tool that leaves out ids or the namespace"),
    },
    Entry {
        name: "BadId",
        kind: Kind::DocumentFault { number: 7 },
        meaning: Some("an SPDXID, SnippetSPDXID or LicenseID of the wrong form"),
        cause: Some(
            "_, +, / or @ from a package's name or version: it must be SPDXRef- or LicenseRef-, then letters, digits, . and -; for the document itself SPDXRef-DOCUMENT",
        ),
    },
    Entry {
        name: "DuplicateId",
        kind: Kind::DocumentFault { number: 8 },
        meaning: Some("an id that another element has"),
        cause: Some("two packages with one name; a document put together from two"),
    },
    Entry {
        name: "Repeated",
        kind: Kind::DocumentFault { number: 9 },
        meaning: Some("a field that is allowed once appears again"),
        cause: Some("two PackageVersion lines; a missing PackageName between two packages"),
    },
    Entry {
        name: "BadRelationship",
        kind: Kind::DocumentFault { number: 10 },
        meaning: Some("not three words A TYPE B of the right form"),
        cause: Some(
            "wanted: an id as in 7, perhaps after DocumentRef-NAME:; a type in capitals and _; such an id, NONE or NOASSERTION. Not: describes, as reuse writes it, dependsOn, a package's name for its id, a comment after it",
        ),
    },
    Entry {
        name: "TooLarge",
        kind: Kind::DocumentFault { number: 11 },
        meaning: Some("more than 4 MiB"),
        cause: Some("a list of each file: write documents for parts of it"),
    },
    Entry {
        name: "TooManyElements",
        kind: Kind::DocumentFault { number: 12 },
        meaning: Some("the 10,001st package, file, snippet or extracted licence"),
        cause: Some("a list of files; for JSON, --no-files"),
    },
];

/// The faults of expressions, by number.
pub(crate) const EXPRESSION_FAULTS: [Entry; 7] = [
    Entry {
        name: "Empty",
        kind: Kind::ExpressionFault { number: 1 },
        meaning: Some("there is nothing (at 0)"),
        cause: None,
    },
    Entry {
        name: "BadToken",
        kind: Kind::ExpressionFault { number: 2 },
        meaning: Some("a run of characters that isn't a word of an expression"),
        cause: None,
    },
    Entry {
        name: "Unexpected",
        kind: Kind::ExpressionFault { number: 3 },
        meaning: Some("a word or parenthesis that isn't allowed there, or the text ends too early"),
        cause: None,
    },
    Entry {
        name: "Unclosed",
        kind: Kind::ExpressionFault { number: 4 },
        meaning: Some("a parenthesis that isn't closed: the last one that was opened"),
        cause: None,
    },
    Entry {
        name: "TooDeep",
        kind: Kind::ExpressionFault { number: 5 },
        meaning: Some("the 65th parenthesis that is open at once"),
        cause: None,
    },
    Entry {
        name: "TooLong",
        kind: Kind::ExpressionFault { number: 6 },
        meaning: Some("more than 16,384 bytes (at 0)"),
        cause: None,
    },
    Entry {
        name: "TooManyTerms",
        kind: Kind::ExpressionFault { number: 7 },
        meaning: Some("the 1,025th term"),
        cause: None,
    },
];

/// The other faults, of files and trees.
pub(crate) const OTHER_FAULTS: [Entry; 10] = [
    Entry {
        name: "BadVersion",
        kind: Kind::OtherFault { place: "--db FILE" },
        meaning: Some("its tables have a version other than 3"),
        cause: Some("an older desk: desk migrate; or a newer one"),
    },
    Entry {
        name: "NotADesk",
        kind: Kind::OtherFault { place: "--db FILE" },
        meaning: Some(
            "a desk's table that is missing, made differently, or with a trigger or an index that could refuse a row; a foreign key",
        ),
        cause: Some(
            "a database of something else; or a desk's rows in tables of another form: examples/restore",
        ),
    },
    Entry {
        name: "ExpressionTooLong",
        kind: Kind::OtherFault {
            place: "desk gather",
        },
        meaning: Some("a file's licences can't be joined to one expression"),
        cause: Some("a limit of expressions"),
    },
    Entry {
        name: "TooLarge",
        kind: Kind::OtherFault { place: "JSON" },
        meaning: Some("more than 64 MiB"),
        cause: Some("a list of each file: write documents for parts of it"),
    },
    Entry {
        name: "NotJson",
        kind: Kind::OtherFault { place: "JSON" },
        meaning: Some("the bytes aren't JSON in UTF-8, or are nested more than 127 deep"),
        cause: Some("a file cut short; another form of SPDX"),
    },
    Entry {
        name: "Missing",
        kind: Kind::OtherFault { place: "JSON" },
        meaning: Some("a required member is missing at AT"),
        cause: Some("a tool that leaves out names or ids; SPDX 3, or JSON of something else"),
    },
    Entry {
        name: "BadType",
        kind: Kind::OtherFault { place: "JSON" },
        meaning: Some(
            "the value at AT isn't of the type that SPDX 2.3 or CycloneDX gives its member",
        ),
        cause: Some("a text instead of a list; SPDX 3"),
    },
    Entry {
        name: "BadValue",
        kind: Kind::OtherFault { place: "JSON" },
        meaning: Some("the text at AT can't be in its field"),
        cause: Some(
            "a line end in a name or version, </text> in a notice, a blank in an id; an expression beside other licences",
        ),
    },
    Entry {
        name: "Differs",
        kind: Kind::OtherFault { place: "JSON" },
        meaning: Some("two elements of one identifier differ"),
        cause: Some("a tool that gives two packages one identifier (docs/DOCUMENTS.md)"),
    },
    Entry {
        name: "origin",
        kind: Kind::OtherFault {
            place: "desk serve",
        },
        meaning: Some("a browser sent the request for a page from elsewhere; nothing was done"),
        cause: Some("a page from another address, or a name that was bound to the desk's"),
    },
];

/// The faults of catalogues, by number.
pub(crate) const CATALOGUE_FAULTS: [Entry; 8] = [
    Entry {
        name: "NotToml",
        kind: Kind::CatalogueFault { number: 1 },
        meaning: Some("the text isn't a TOML document; no part and no index"),
        cause: Some("a quote or bracket that isn't closed, a key that appears twice"),
    },
    Entry {
        name: "Missing",
        kind: Kind::CatalogueFault { number: 2 },
        meaning: Some("forms, or a key of a table, is absent"),
        cause: Some(
            "a rule without duties: a rule that owes nothing has duties = []; a text without body",
        ),
    },
    Entry {
        name: "BadKind",
        kind: Kind::CatalogueFault { number: 3 },
        meaning: Some("a value of another kind, or outside its limits"),
        cause: Some(
            "a single form instead of a list, a blank or underscore in a code, an empty title, [duty] for [[duty]], [text] for [[text]]",
        ),
    },
    Entry {
        name: "BadTerm",
        kind: Kind::CatalogueFault { number: 4 },
        meaning: Some(
            "the term of a rule can't be read, or is a reference; the licence of a text isn't an id of a licence or an exception",
        ),
        cause: Some(
            "an expression with AND or OR: a rule is for one term; a text for GPL-2.0+, which is that of GPL-2.0",
        ),
    },
    Entry {
        name: "UnknownForm",
        kind: Kind::CatalogueFault { number: 5 },
        meaning: Some("the form of a rule isn't in forms"),
        cause: Some("another spelling; forms are compared byte for byte"),
    },
    Entry {
        name: "UnknownDuty",
        kind: Kind::CatalogueFault { number: 6 },
        meaning: Some("a code of a rule has no [[duty]]"),
        cause: Some("a slip in the code"),
    },
    Entry {
        name: "Twice",
        kind: Kind::CatalogueFault { number: 7 },
        meaning: Some(
            "a form, a code, a term with its form, a code within a rule or the licence of a text appears twice; reported at the later one",
        ),
        cause: Some("a rule that was copied to be changed, MIT beside mit"),
    },
    Entry {
        name: "TooLarge",
        kind: Kind::CatalogueFault { number: 8 },
        meaning: Some("more than 4 MiB; no part and no index"),
        cause: None,
    },
];
