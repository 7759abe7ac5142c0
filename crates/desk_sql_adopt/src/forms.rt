//! How the desk's tables are declared, in short form.

use crate::forms::ColumnForm::{NotNull, Nullable};
use sqlite_schema::schema::Kind;

/// A column of a STRICT table, with no default: its name and its type.
pub(crate) enum ColumnForm {
    NotNull(&'static str, Kind),
    Nullable(&'static str, Kind),
}

/// A table of such columns: its tree in a file that has no other tables; the name of the number that
/// is its rowid, which is its first column if it has one; the other columns; and the places in a row
/// of its primary key and of each key that it keeps unique. Place 0 of a row is the rowid.
pub(crate) struct TableForm {
    pub(crate) name: &'static str,
    pub(crate) tree: u32,
    pub(crate) number: Option<&'static str>,
    pub(crate) columns: &'static [ColumnForm],
    pub(crate) primary: &'static [usize],
    pub(crate) uniques: &'static [&'static [usize]],
}

/// The tables.
pub(crate) const TABLES: [TableForm; 16] = [
    TableForm {
        name: "meta",
        tree: 0,
        number: Some("version"),
        columns: &[],
        primary: &[0],
        uniques: &[],
    },
    TableForm {
        name: "catalogue",
        tree: 1,
        number: Some("revision"),
        columns: &[NotNull("body", Kind::Text)],
        primary: &[0],
        uniques: &[],
    },
    TableForm {
        name: "rule",
        tree: 2,
        number: None,
        columns: &[
            NotNull("revision", Kind::Integer),
            NotNull("term", Kind::Text),
            NotNull("form", Kind::Text),
            NotNull("spelled", Kind::Text),
            NotNull("codes", Kind::Text),
        ],
        primary: &[1, 2, 3],
        uniques: &[&[1, 2, 3]],
    },
    TableForm {
        name: "document",
        tree: 4,
        number: Some("number"),
        columns: &[
            NotNull("namespace", Kind::Text),
            NotNull("bytes", Kind::Blob),
        ],
        primary: &[0],
        uniques: &[&[2]],
    },
    TableForm {
        name: "package",
        tree: 6,
        number: None,
        columns: &[
            NotNull("document", Kind::Integer),
            NotNull("id", Kind::Text),
            NotNull("name", Kind::Text),
            Nullable("version", Kind::Text),
            Nullable("concluded", Kind::Text),
            Nullable("copyright", Kind::Text),
            NotNull("shipped", Kind::Integer),
        ],
        primary: &[1, 2],
        uniques: &[&[1, 2]],
    },
    TableForm {
        name: "extracted",
        tree: 8,
        number: None,
        columns: &[
            NotNull("document", Kind::Integer),
            NotNull("reference", Kind::Text),
            Nullable("body", Kind::Text),
        ],
        primary: &[1, 2],
        uniques: &[&[1, 2]],
    },
    TableForm {
        name: "conclusion",
        tree: 10,
        number: None,
        columns: &[
            NotNull("document", Kind::Integer),
            NotNull("package", Kind::Text),
            NotNull("expression", Kind::Text),
        ],
        primary: &[1, 2],
        uniques: &[&[1, 2]],
    },
    TableForm {
        name: "adoption",
        tree: 12,
        number: None,
        columns: &[
            NotNull("document", Kind::Integer),
            NotNull("reference", Kind::Text),
            NotNull("licence", Kind::Text),
        ],
        primary: &[1, 2],
        uniques: &[&[1, 2]],
    },
    TableForm {
        name: "releases",
        tree: 14,
        number: None,
        columns: &[
            NotNull("name", Kind::Text),
            NotNull("place", Kind::Integer),
            NotNull("form", Kind::Text),
            NotNull("state", Kind::Text),
            NotNull("revision", Kind::Integer),
        ],
        primary: &[1],
        uniques: &[&[2], &[1]],
    },
    TableForm {
        name: "attached",
        tree: 17,
        number: None,
        columns: &[
            NotNull("release", Kind::Text),
            NotNull("document", Kind::Integer),
        ],
        primary: &[1, 2],
        uniques: &[&[1, 2]],
    },
    TableForm {
        name: "choice",
        tree: 19,
        number: None,
        columns: &[
            NotNull("release", Kind::Text),
            NotNull("document", Kind::Integer),
            NotNull("package", Kind::Text),
            NotNull("term", Kind::Text),
        ],
        primary: &[1, 2, 3, 4],
        uniques: &[&[1, 2, 3, 4]],
    },
    TableForm {
        name: "frozen",
        tree: 21,
        number: None,
        columns: &[
            NotNull("release", Kind::Text),
            NotNull("document", Kind::Integer),
            NotNull("package", Kind::Text),
            NotNull("term", Kind::Text),
            NotNull("rule", Kind::Text),
        ],
        primary: &[1, 2, 3, 4],
        uniques: &[&[1, 2, 3, 4]],
    },
    TableForm {
        name: "duty",
        tree: 23,
        number: Some("number"),
        columns: &[
            NotNull("release", Kind::Text),
            NotNull("document", Kind::Integer),
            NotNull("package", Kind::Text),
            NotNull("term", Kind::Text),
            NotNull("code", Kind::Text),
            NotNull("rule", Kind::Text),
            NotNull("state", Kind::Text),
        ],
        primary: &[0],
        uniques: &[&[2, 3, 4, 5, 6]],
    },
    TableForm {
        name: "change",
        tree: 25,
        number: None,
        columns: &[
            NotNull("duty", Kind::Integer),
            NotNull("step", Kind::Integer),
            NotNull("day", Kind::Text),
            NotNull("word", Kind::Text),
            NotNull("body", Kind::Text),
        ],
        primary: &[1, 2],
        uniques: &[&[1, 2]],
    },
    TableForm {
        name: "reading",
        tree: 27,
        number: Some("document"),
        columns: &[NotNull("profile", Kind::Integer)],
        primary: &[0],
        uniques: &[],
    },
    TableForm {
        name: "waiver",
        tree: 28,
        number: None,
        columns: &[
            NotNull("duty", Kind::Integer),
            NotNull("step", Kind::Integer),
            NotNull("last_day", Kind::Text),
        ],
        primary: &[1, 2],
        uniques: &[&[1, 2]],
    },
];
