//! The problems of source trees, with the words of docs/LINT.md.

use crate::entry::{Entry, Kind};

/// The kinds of problems.
pub(crate) const PROBLEMS: [Entry; 11] = [
    Entry {
        name: "Dep5",
        kind: Kind::Problem,
        meaning: Some("a file .reuse/dep5"),
        cause: None,
    },
    Entry {
        name: "TooManyFiles",
        kind: Kind::Problem,
        meaning: Some("more than 10,000 files"),
        cause: None,
    },
    Entry {
        name: "BadPath",
        kind: Kind::Problem,
        meaning: Some(
            "a name with a byte below 32, or with a blank at its end; the message says which",
        ),
        cause: None,
    },
    Entry {
        name: "TwicePath",
        kind: Kind::Problem,
        meaning: Some("a path that appears twice (impossible in a folder)"),
        cause: None,
    },
    Entry {
        name: "BadToml",
        kind: Kind::Problem,
        meaning: Some("a REUSE.toml that isn't a TOML document of version 1"),
        cause: None,
    },
    Entry {
        name: "BadAnnotation",
        kind: Kind::Problem,
        meaning: Some(
            "an annotation without a path, with a value of another kind, with an unknown precedence, or with a licence that isn't an expression",
        ),
        cause: None,
    },
    Entry {
        name: "BadExpression",
        kind: Kind::Problem,
        meaning: Some(
            "a licence that a file states and that isn't an expression (SPDX 2.3, Annex D)",
        ),
        cause: None,
    },
    Entry {
        name: "BlankAtEnd",
        kind: Kind::Problem,
        meaning: Some(
            "an annotation with a licence that begins or ends with a blank (\" MIT\"); gather can't write it, and names it",
        ),
        cause: None,
    },
    Entry {
        name: "Missing",
        kind: Kind::Problem,
        meaning: Some("a licence, exception or reference that is used and has no text"),
        cause: None,
    },
    Entry {
        name: "Unused",
        kind: Kind::Problem,
        meaning: Some("a licence's text that nothing uses"),
        cause: None,
    },
    Entry {
        name: "Bare",
        kind: Kind::Problem,
        meaning: Some(
            "a covered file without a copyright notice, without a licence, or without both",
        ),
        cause: None,
    },
];
