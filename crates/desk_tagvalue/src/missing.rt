//! Fields that are missing.

ghost use Rattle.std.specs.Prelude.{◌≡◌, map};
ghost use Rattle.desk_tagvalue.specs.Entries.{entry_text};
ghost use Rattle.desk_tagvalue.specs.Missing.{is_absent, is_unnamed, missing_of, missing_of_document, missing_of_elements};

use crate::Entry;
use crate::entries::value_of;
use crate::parts::head_of;
use desk_fields::{DocFault, Tag};

// Whether no field has the tag.
fn is_absent(entries: &[Entry], tag: Tag) -> bool
    ensures { result ≡ is_absent tag (map entry_text entries.now) }
{
    value_of(entries, tag).is_none()
}

// The first field of the document that is missing.
fn missing_of_document(entries: &[Entry]) -> Option<DocFault>
    ensures { result ≡ missing_of_document (map entry_text entries.now) }
{
    if is_absent(entries, Tag::Version) {
        return Some(DocFault::Missing(1, Tag::Version));
    }
    if is_absent(head_of(entries), Tag::Identifier) {
        return Some(DocFault::Missing(1, Tag::Identifier));
    }
    if is_absent(entries, Tag::DocumentName) {
        return Some(DocFault::Missing(1, Tag::DocumentName));
    }
    if is_absent(entries, Tag::DocumentNamespace) {
        return Some(DocFault::Missing(1, Tag::DocumentNamespace));
    }
    None
}

// Whether a field begins a package or a file without an identifier.
fn is_unnamed(entry: &Entry, rest: &[Entry]) -> bool
    ensures { result ≡ is_unnamed (entry_text entry.now) (map entry_text rest.now) }
{
    let is_element = entry.tag.is(Tag::PackageName) || entry.tag.is(Tag::FileName);
    is_element && is_absent(head_of(rest), Tag::Identifier)
}

// The first identifier of a package or a file that is missing.
fn missing_of_elements(entries: &[Entry]) -> Option<DocFault>
    ensures { result ≡ missing_of_elements (map entry_text entries.now) }
{
    for (i, entry) in entries.iter().enumerate() {
        if is_unnamed(entry, &entries[i + 1..]) {
            return Some(DocFault::Missing(u64::from(entry.line), Tag::Identifier));
        }
    }
    None
}

/// The first field that is missing: first of the document, then of its packages and files in the
/// order of the text.
pub(crate) fn missing_of(entries: &[Entry]) -> Option<DocFault>
    ensures { result ≡ missing_of (map entry_text entries.now) }
{
    match missing_of_document(entries) {
        Some(fault) => Some(fault),
        None => missing_of_elements(entries),
    }
}
