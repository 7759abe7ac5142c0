//! The conditions of an audit, with the words of docs/AUDIT.md.

use crate::entry::{Entry, Kind};

/// The conditions, in the order in which they are tested.
pub(crate) const CONDITIONS: [Entry; 10] = [
    Entry {
        name: "BadMeta",
        kind: Kind::Condition { number: 1 },
        meaning: Some("meta has one row, with version 3"),
        cause: Some("another version of the desk made the file: use that version"),
    },
    Entry {
        name: "BadRevision",
        kind: Kind::Condition { number: 2 },
        meaning: Some("Revisions run from 1 on, and each body is a catalogue (docs/CATALOGUE.md)"),
        cause: Some("a catalogue was edited or deleted: load a new one instead"),
    },
    Entry {
        name: "BadRule",
        kind: Kind::Condition { number: 3 },
        meaning: Some("The rules of each revision are those of its body"),
        cause: Some("somebody changed what a licence owes"),
    },
    Entry {
        name: "BadDocument",
        kind: Kind::Condition { number: 4 },
        meaning: Some(
            "Documents run from 1 on; the bytes of each are a document with its namespace; each has one profile, 1 or 2",
        ),
        cause: Some("a document was replaced by a newer one"),
    },
    Entry {
        name: "BadPackage",
        kind: Kind::Condition { number: 5 },
        meaning: Some(
            "Packages and extracted licences are those of the documents' bytes, and shipped says what ships",
        ),
        cause: Some("a conclusion was corrected in the table instead of by conclude"),
    },
    Entry {
        name: "BadChoice",
        kind: Kind::Condition { number: 6 },
        meaning: Some(
            "Conclusions are expressions; adoptions lead from a reference to a licence id; places of releases run from 1 on. Choices are of releases that aren't withdrawn, for packages that attached documents ship; what is chosen for a package satisfies its conclusion with no term to spare; a frozen release's choices are its frozen terms",
        ),
        cause: Some("a choice or a conclusion was changed after the freeze"),
    },
    Entry {
        name: "BadNumber",
        kind: Kind::Condition { number: 7 },
        meaning: Some("Duties run from 1 to 100,000 at most, each of a release that was frozen"),
        cause: Some("duties or a release were deleted"),
    },
    Entry {
        name: "BadDuty",
        kind: Kind::Condition { number: 8 },
        meaning: Some(
            "Duties are exactly what the frozen terms owe, by the rules of the release's revision and form",
        ),
        cause: Some("a duty was deleted or added, or a release was given another form"),
    },
    Entry {
        name: "BadChange",
        kind: Kind::Condition { number: 9 },
        meaning: Some(
            "The steps of a duty run from 1 on: its raising, then moves that docs/REQUESTS.md allows, of which the last gives its state. Days exist, and texts are as that page requires. Only waived steps have last days, and a waiver ends after its last day",
        ),
        cause: Some("a state was set without its change, or a change was rewritten"),
    },
    Entry {
        name: "BadState",
        kind: Kind::Condition { number: 10 },
        meaning: Some(
            "Each release is open, frozen or withdrawn. A withdrawn one has no open or waived duty, any other one no withdrawn duty",
        ),
        cause: Some("a release was withdrawn or revived in the table"),
    },
];
