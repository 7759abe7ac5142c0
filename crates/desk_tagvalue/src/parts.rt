//! The parts of a document.

ghost use Rattle.std.specs.Prelude.{◌≡◌, IfOk, Some, None, map, drop, if◌then◌else◌};
ghost use Rattle.std.specs.List.{list_all};
ghost use Rattle.desk_fields.specs.declared.tag.Tag.TheVariants as tags;
ghost use Rattle.desk_tagvalue.specs.Entries.{entry_text, value_text};
ghost use Rattle.desk_tagvalue.specs.Parts.{head_of, text_of, section_at, parts_of, package_of, file_of, snippet_of, extracted_of, edge_of, edges_of, is_hex, is_sha1, sha1_of};
ghost use Rattle.desk_tagvalue.specs.Views.{package_text, file_text, snippet_text, extracted_text, edge_text};

use crate::Entry;
use crate::entries::value_of;
use crate::ids::behind;
use crate::sections::section_begun;
use desk_fields::{Tag, split_word};
use std::alloc::{AllocError, Global};

/// A package (SPDX 2.3, clause 7), each text a slice of the source.
#[derive(Debug, Clone, Copy)]
pub struct Package<'a> {
    /// The line on which it begins.
    pub line: u32,
    /// `PackageName`.
    pub name: &'a str,
    /// `SPDXID`.
    pub id: &'a str,
    /// `PackageVersion`.
    pub version: Option<&'a str>,
    /// `PackageDownloadLocation`.
    pub download_location: Option<&'a str>,
    /// `FilesAnalyzed`.
    pub files_analyzed: Option<&'a str>,
    /// `PackageVerificationCode`.
    pub verification_code: Option<&'a str>,
    /// `PackageLicenseConcluded`.
    pub concluded: Option<&'a str>,
    /// `PackageLicenseDeclared`.
    pub declared: Option<&'a str>,
    /// `PackageCopyrightText`.
    pub copyright: Option<&'a str>,
}

/// A file (SPDX 2.3, clause 8), each text a slice of the source.
#[derive(Debug, Clone, Copy)]
pub struct FileEntry<'a> {
    /// The line on which it begins.
    pub line: u32,
    /// `FileName`.
    pub name: &'a str,
    /// `SPDXID`.
    pub id: &'a str,
    /// The 40 digits of the first `FileChecksum` that is a SHA1.
    pub sha1: Option<&'a str>,
    /// `LicenseConcluded`.
    pub concluded: Option<&'a str>,
    /// `FileCopyrightText`.
    pub copyright: Option<&'a str>,
}

/// A snippet (SPDX 2.3, clause 9).
#[derive(Debug, Clone, Copy)]
pub struct Snippet<'a> {
    /// The line on which it begins.
    pub line: u32,
    /// `SnippetSPDXID`.
    pub id: &'a str,
}

/// An extracted licence (SPDX 2.3, clause 10).
#[derive(Debug, Clone, Copy)]
pub struct Extracted<'a> {
    /// The line on which it begins.
    pub line: u32,
    /// `LicenseID`.
    pub id: &'a str,
    /// `ExtractedText`.
    pub text: Option<&'a str>,
}

/// A relationship (SPDX 2.3, clause 11).
#[derive(Debug, Clone, Copy)]
pub struct Edge<'a> {
    /// The line on which it is.
    pub line: u32,
    /// The element on the left, perhaps of another document.
    pub left: &'a str,
    /// The type, such as `CONTAINS`.
    pub kind: &'a str,
    /// The element on the right, perhaps of another document, or `NONE` or `NOASSERTION`.
    pub right: &'a str,
}

/// The fields up to the next that begins a section.
pub(crate) fn head_of<'s, 'a>(entries: &'s [Entry<'a>]) -> &'s [Entry<'a>]
    ensures { map entry_text result.now ≡ head_of (map entry_text entries.now) }
{
    for (i, entry) in entries.iter().enumerate() {
        if section_begun(entry.tag).is_some() {
            return &entries[..i];
        }
    }
    entries
}

/// The value of a field, or the empty text if it isn't there.
pub(crate) fn text_of<'a>(entries: &[Entry<'a>], tag: Tag) -> &'a str
    ensures { result.now ≡ text_of tag (map entry_text entries.now) }
{
    match value_of(entries, tag) {
        Some(value) => value,
        None => "",
    }
}

/// A package, from the field that begins it and the fields after that.
pub(crate) fn package_of<'a>(start: &Entry<'a>, rest: &[Entry<'a>]) -> Package<'a>
    ensures { package_text result
        ≡ package_of (section_at (entry_text start.now) (map entry_text rest.now)) }
{
    let fields = head_of(rest);
    Package {
        line: start.line,
        name: start.value,
        id: text_of(fields, Tag::Identifier),
        version: value_of(fields, Tag::PackageVersion),
        download_location: value_of(fields, Tag::DownloadLocation),
        files_analyzed: value_of(fields, Tag::FilesAnalyzed),
        verification_code: value_of(fields, Tag::VerificationCode),
        concluded: value_of(fields, Tag::PackageConcluded),
        declared: value_of(fields, Tag::PackageDeclared),
        copyright: value_of(fields, Tag::PackageCopyright),
    }
}

fn is_hex(byte: u8) -> bool
    ensures { result ≡ is_hex byte }
{
    match byte {
        b'0'..=b'9' | b'A'..=b'F' | b'a'..=b'f' => true,
        _ => false,
    }
}

/// Whether all bytes are hexadecimal digits, in either case.
pub fn all_hex(bytes: &[u8]) -> bool
    ensures { result ≡ list_all is_hex bytes.now }
{
    for byte in bytes {
        if !is_hex(*byte) {
            return false;
        }
    }
    true
}

/// The 40 digits of a checksum that is a SHA1 (SPDX 2.3, clause 8.4).
pub fn sha1_digits(value: &str) -> Option<&str>
    ensures { value_text result ≡ (if is_sha1 value.now then Some (drop 6 value.now) else None) }
{
    let digits = behind(value, "SHA1: ")?;
    if digits.len() == 40 && all_hex(digits.as_bytes()) {
        Some(digits)
    } else {
        None
    }
}

// The digits of the first checksum that is a SHA1.
fn sha1_of<'a>(fields: &[Entry<'a>]) -> Option<&'a str>
    ensures { value_text result ≡ sha1_of (map entry_text fields.now) }
{
    for entry in fields {
        if entry.tag.is(Tag::FileChecksum) {
            if let Some(digits) = sha1_digits(entry.value) {
                return Some(digits);
            }
        }
    }
    None
}

/// A file, from the field that begins it and the fields after that.
pub(crate) fn file_of<'a>(start: &Entry<'a>, rest: &[Entry<'a>]) -> FileEntry<'a>
    ensures { file_text result
        ≡ file_of (section_at (entry_text start.now) (map entry_text rest.now)) }
{
    let fields = head_of(rest);
    FileEntry {
        line: start.line,
        name: start.value,
        id: text_of(fields, Tag::Identifier),
        sha1: sha1_of(fields),
        concluded: value_of(fields, Tag::FileConcluded),
        copyright: value_of(fields, Tag::FileCopyright),
    }
}

/// An extracted licence, from the field that begins it and the fields after that.
pub(crate) fn extracted_of<'a>(start: &Entry<'a>, rest: &[Entry<'a>]) -> Extracted<'a>
    ensures { extracted_text result ≡ extracted_of
        (section_at (entry_text start.now) (map entry_text rest.now)) }
{
    Extracted {
        line: start.line,
        id: start.value,
        text: value_of(head_of(rest), Tag::ExtractedText),
    }
}

/// The words of a relationship.
pub(crate) fn edge_of<'a>(entry: &Entry<'a>) -> Edge<'a>
    ensures { edge_text result ≡ edge_of (entry_text entry.now) }
{
    let (left, rest) = split_word(entry.value);
    let (kind, rest) = split_word(rest);
    let (right, _) = split_word(rest);
    Edge {
        line: entry.line,
        left,
        kind,
        right,
    }
}
