//! The findings of documents, with the words of docs/REQUESTS.md.

use crate::entry::{Entry, Kind};

/// The kinds of findings, by number.
pub(crate) const FINDINGS: [Entry; 11] = [
    Entry {
        name: "UnknownTag",
        kind: Kind::Finding {
            number: 1,
            clauses: "6 to 13",
        },
        meaning: Some(
            "a tag that the standard doesn't have or calls deprecated (ArtifactOfProjectName), unless it begins with Package, File, Snippet, License, Annotat, Review, External, Relationship, Creator, Document or SPDXREF",
        ),
        cause: Some("a misspelt tag, or one of another tool"),
    },
    Entry {
        name: "Misplaced",
        kind: Kind::Finding {
            number: 2,
            clauses: "6 to 10",
        },
        meaning: Some("a field outside the sections that allow it; it is ignored"),
        cause: Some("fields in another order"),
    },
    Entry {
        name: "BadExpression",
        kind: Kind::Finding {
            number: 3,
            clauses: "7.13, 7.15, 8.5, 8.6, Annex D",
        },
        meaning: Some("a licence field that is neither an expression nor NONE nor NOASSERTION"),
        cause: Some("a licence's full name, or operators in small letters"),
    },
    Entry {
        name: "BadDigest",
        kind: Kind::Finding {
            number: 4,
            clauses: "8.4",
        },
        meaning: Some(
            "a FileChecksum that begins with SHA1: and isn't followed by one blank and 40 hexadecimal digits",
        ),
        cause: Some("a digest cut short"),
    },
    Entry {
        name: "BadCode",
        kind: Kind::Finding {
            number: 5,
            clauses: "7.9",
        },
        meaning: Some("a PackageVerificationCode of the wrong form"),
        cause: Some("another digest in its place"),
    },
    Entry {
        name: "CodeDiffers",
        kind: Kind::Finding {
            number: 6,
            clauses: "7.9",
        },
        meaning: Some("a PackageVerificationCode that isn't that of the package's files"),
        cause: Some("files changed after the code was made"),
    },
    Entry {
        name: "CodeUnwanted",
        kind: Kind::Finding {
            number: 7,
            clauses: "7.8, 7.9",
        },
        meaning: Some("a PackageVerificationCode although FilesAnalyzed is false"),
        cause: Some("a flag set by hand"),
    },
    Entry {
        name: "Dangling",
        kind: Kind::Finding {
            number: 8,
            clauses: "11.1",
        },
        meaning: Some("a relationship of an element that isn't in the document"),
        cause: Some("an element left out"),
    },
    Entry {
        name: "MissingField",
        kind: Kind::Finding {
            number: 9,
            clauses: "6.2, 6.8, 6.9, 7.7, 8.4, 10.2",
        },
        meaning: Some(
            "on line 1, no DataLicense, Creator or Created; where an element starts, a package without PackageDownloadLocation, a file without a FileChecksum that is a SHA1, an extracted licence without ExtractedText",
        ),
        cause: Some("a document written by hand"),
    },
    Entry {
        name: "BadFlag",
        kind: Kind::Finding {
            number: 10,
            clauses: "7.8",
        },
        meaning: Some(
            "a FilesAnalyzed that is neither true nor false (ignoring case); it counts as true",
        ),
        cause: Some("yes or no"),
    },
    Entry {
        name: "UndefinedRef",
        kind: Kind::Finding {
            number: 11,
            clauses: "7.13, 10.1",
        },
        meaning: Some(
            "a PackageLicenseConcluded with a LicenseRef- of this document that no extracted licence defines",
        ),
        cause: Some("a licence text left out"),
    },
];
