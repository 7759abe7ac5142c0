//! The table of looks.

ghost use Rattle.std.specs.Prelude.{◌≡◌, map};
ghost use Rattle.desk_looks.specs.Looks.{is_row, look_in, look_of, look_rows, row_text};

use crate::head::{has_word, head_of};
use crate::look::Look;

// How bytes begin, a word in them, and what they look like, if that is to be said.
struct Row {
    start: &'static [u8],
    word: &'static [u8],
    look: Option<Look>,
}

macro_rules! row {
    ($start:literal, $word:literal, $look:expr) => {
        Row {
            start: $start,
            word: $word,
            look: $look,
        }
    };
}

// The first row that holds counts. (bytes of other forms come first, so that a word that a text
// may have too says nothing of them)
const ROWS: [Row; 20] = [
    row!(b"\x1F\x8B", b"", Some(Look::Gzip)),
    row!(b"PK\x03\x04", b"xl/", Some(Look::Spreadsheet)),
    row!(
        b"PK\x03\x04",
        b"vnd.oasis.opendocument.spreadsheet",
        Some(Look::Spreadsheet)
    ),
    row!(b"PK\x03\x04", b"", Some(Look::Zip)),
    row!(
        b"<",
        b"http://cyclonedx.org/schema/bom/",
        Some(Look::CycloneDxXml)
    ),
    row!(b"<", b"http://spdx.org/rdf/terms", Some(Look::SpdxRdf)),
    row!(b"<", b"<SPDXID>", Some(Look::SpdxXml)),
    row!(b"<", b"<spdxVersion>", Some(Look::SpdxXml)),
    row!(b"<", b"", None),
    row!(b"{", b"spdx.org/rdf/3", Some(Look::Spdx3)),
    row!(b"{", b"", None),
    row!(b"[", b"", None),
    row!(b"", b"SPDXVersion:", None),
    row!(b"", b"spdxVersion: ", Some(Look::SpdxYaml)),
    row!(b"", b"creationInfo:", Some(Look::SpdxYaml)),
    row!(b"", b"MIT License", Some(Look::LicenceText)),
    row!(b"", b"Apache License", Some(Look::LicenceText)),
    row!(b"", b"GENERAL PUBLIC LICENSE", Some(Look::LicenceText)),
    row!(
        b"",
        b"Permission is hereby granted",
        Some(Look::LicenceText)
    ),
    row!(
        b"",
        b"Redistribution and use in source",
        Some(Look::LicenceText)
    ),
];

fn is_row(head: &[u8], row: &Row) -> bool
    ensures { result ≡ is_row head.now (row_text row.now) }
{
    head.starts_with(row.start) && has_word(head, row.word)
}

fn look_in(head: &[u8], rows: &[Row]) -> Option<Look>
    ensures { result ≡ look_in head.now (map row_text rows.now) }
{
    for row in rows {
        if is_row(head, row) {
            return row.look;
        }
    }
    None
}

// What the table says of bytes that are looked at.
fn look_at(head: &[u8]) -> Option<Look>
    ensures { result ≡ look_in head.now look_rows }
{
    look_in(head, &ROWS)
}

/// What a file looks like, if the desk reads it as no document.
#[tactic(auto, unfolding(crate::specs::Looks::look_of))]
pub fn look_of(bytes: &[u8]) -> Option<Look>
    ensures { result ≡ look_of bytes.now }
{
    look_at(head_of(bytes))
}
