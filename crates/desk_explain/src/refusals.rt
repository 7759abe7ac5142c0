//! The refusals, with the words of docs/REFUSALS.md.

use crate::entry::{Entry, Kind};

/// The refusals, by number.
pub(crate) const REFUSALS: [Entry; 30] = [
    Entry {
        name: "BadCatalogue",
        kind: Kind::Refusal {
            number: 1,
            requests: "catalogue",
        },
        meaning: None,
        cause: Some(
            "a slip in the TOML, a rule that names a form or duty that isn't listed, or something that appears twice",
        ),
    },
    Entry {
        name: "BadDocument",
        kind: Kind::Refusal {
            number: 2,
            requests: "import",
        },
        meaning: None,
        cause: Some("not a tag-value document, or one that was cut off"),
    },
    Entry {
        name: "NamespaceTaken",
        kind: Kind::Refusal {
            number: 3,
            requests: "import",
        },
        meaning: None,
        cause: Some(
            "the document was changed under the same DocumentNamespace; each version needs its own",
        ),
    },
    Entry {
        name: "UnknownDocument",
        kind: Kind::Refusal {
            number: 4,
            requests: "conclude, adopt, attach, choose, unchoose, findings, alternatives, cheapest",
        },
        meaning: None,
        cause: Some("a wrong number, or the import was refused"),
    },
    Entry {
        name: "UnknownPackage",
        kind: Kind::Refusal {
            number: 5,
            requests: "conclude, choose, unchoose, alternatives, cheapest",
        },
        meaning: None,
        cause: Some("this document has no package with that id; ids are written with SPDXRef-"),
    },
    Entry {
        name: "BadExpression",
        kind: Kind::Refusal {
            number: 6,
            requests: "conclude",
        },
        meaning: None,
        cause: Some(
            "NONE or NOASSERTION, which conclude nothing; an operator in small letters; a parenthesis that isn't closed",
        ),
    },
    Entry {
        name: "Chosen",
        kind: Kind::Refusal {
            number: 7,
            requests: "conclude",
        },
        meaning: None,
        cause: Some(
            "terms were chosen under the older conclusion: drop the choice (unchoose), or withdraw the release",
        ),
    },
    Entry {
        name: "BadTerm",
        kind: Kind::Refusal {
            number: 8,
            requests: "choose, adopt",
        },
        meaning: None,
        cause: Some(
            "an expression instead of a term, a blank before +, a letter that an id can't have",
        ),
    },
    Entry {
        name: "BadName",
        kind: Kind::Refusal {
            number: 9,
            requests: "open",
        },
        meaning: None,
        cause: Some("a blank, an underscore or more than 64 bytes in the release's name"),
    },
    Entry {
        name: "NameTaken",
        kind: Kind::Refusal {
            number: 10,
            requests: "open",
        },
        meaning: None,
        cause: Some("the release was opened before; a name can't be used again"),
    },
    Entry {
        name: "UnknownForm",
        kind: Kind::Refusal {
            number: 11,
            requests: "open, cheapest",
        },
        meaning: None,
        cause: Some(
            "no catalogue was loaded, or the form isn't in the one in force; forms are compared byte for byte",
        ),
    },
    Entry {
        name: "UnknownRelease",
        kind: Kind::Refusal {
            number: 12,
            requests: "attach, choose, unchoose, freeze, withdraw, duties, totals, release, wanting, ready, gaps",
        },
        meaning: None,
        cause: Some("a wrong name, or its opening was refused"),
    },
    Entry {
        name: "ReleaseState",
        kind: Kind::Refusal {
            number: 13,
            requests: "attach, choose, unchoose, freeze, meet, waive, reopen, withdraw, wanting, ready, gaps",
        },
        meaning: None,
        cause: Some("it is frozen or withdrawn; for ready, it isn't frozen"),
    },
    Entry {
        name: "AlreadyAttached",
        kind: Kind::Refusal {
            number: 14,
            requests: "attach",
        },
        meaning: None,
        cause: Some("the same document twice"),
    },
    Entry {
        name: "NotShipped",
        kind: Kind::Refusal {
            number: 15,
            requests: "choose",
        },
        meaning: None,
        cause: Some(
            "the document isn't attached to this release, or its relationships don't reach the package",
        ),
    },
    Entry {
        name: "NoConclusion",
        kind: Kind::Refusal {
            number: 16,
            requests: "choose, freeze, alternatives, cheapest",
        },
        meaning: None,
        cause: Some(
            "PackageLicenseConcluded is absent, NONE, NOASSERTION or not an expression: the office concludes one (conclude). Operators in small letters need profile 2 at the import",
        ),
    },
    Entry {
        name: "NotEnough",
        kind: Kind::Refusal {
            number: 17,
            requests: "choose",
        },
        meaning: None,
        cause: Some("a part joined by AND is missing, or no term was given"),
    },
    Entry {
        name: "NotMinimal",
        kind: Kind::Refusal {
            number: 18,
            requests: "choose",
        },
        meaning: None,
        cause: Some("both sides of an OR"),
    },
    Entry {
        name: "NoChoice",
        kind: Kind::Refusal {
            number: 19,
            requests: "unchoose, freeze",
        },
        meaning: None,
        cause: Some("a package for which nothing is chosen"),
    },
    Entry {
        name: "EmptyRelease",
        kind: Kind::Refusal {
            number: 20,
            requests: "freeze",
        },
        meaning: None,
        cause: Some("nothing is attached"),
    },
    Entry {
        name: "NotAdopted",
        kind: Kind::Refusal {
            number: 21,
            requests: "freeze",
        },
        meaning: None,
        cause: Some("a LicenseRef- was chosen, and no licence was adopted for it in this document"),
    },
    Entry {
        name: "NoRule",
        kind: Kind::Refusal {
            number: 22,
            requests: "freeze",
        },
        meaning: None,
        cause: Some(
            "the catalogue in force has no rule for this term, or for the licence that this reference was adopted as, in the release's form: add one; it may owe nothing (duties = [])",
        ),
    },
    Entry {
        name: "UnknownDuty",
        kind: Kind::Refusal {
            number: 23,
            requests: "meet, waive, reopen, changes",
        },
        meaning: None,
        cause: Some("a wrong number"),
    },
    Entry {
        name: "DutyState",
        kind: Kind::Refusal {
            number: 24,
            requests: "meet, waive, reopen",
        },
        meaning: None,
        cause: Some(
            "the duty was met or waived before: reopen it first; or it is open, and so can't be reopened",
        ),
    },
    Entry {
        name: "BadText",
        kind: Kind::Refusal {
            number: 25,
            requests: "meet, waive, reopen, withdraw",
        },
        meaning: None,
        cause: Some(
            "an empty text, more than 1,024 bytes, or a control byte in it, such as a line end or a tab",
        ),
    },
    Entry {
        name: "BadDay",
        kind: Kind::Refusal {
            number: 26,
            requests: "freeze, meet, waive, reopen, withdraw, close, ready",
        },
        meaning: None,
        cause: Some("not YYYY-MM-DD, or not a day of the calendar"),
    },
    Entry {
        name: "Full",
        kind: Kind::Refusal {
            number: 27,
            requests: "catalogue, import, open, attach, adopt, freeze, meet, waive, reopen",
        },
        meaning: None,
        cause: Some("a limit of the desk (docs/REQUESTS.md)"),
    },
    Entry {
        name: "TooMany",
        kind: Kind::Refusal {
            number: 28,
            requests: "alternatives, cheapest",
        },
        meaning: None,
        cause: Some(
            "some part of the expression, or the first few of the parts that AND or OR joins, has more than 64 minimal sets: conclude a narrower one (conclude), or choose without the list",
        ),
    },
    Entry {
        name: "TooManyTerms",
        kind: Kind::Refusal {
            number: 29,
            requests: "alternatives, cheapest",
        },
        meaning: None,
        cause: Some("the expression has more than 128 distinct terms"),
    },
    Entry {
        name: "BadEnd",
        kind: Kind::Refusal {
            number: 30,
            requests: "waive",
        },
        meaning: None,
        cause: Some("the last day of the waiver is before the day of the request"),
    },
];
