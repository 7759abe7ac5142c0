//! Fields with their tags read.

ghost use Rattle.std.specs.Prelude.{◌≡◌, ◌≤◌, ◌<◌, ◌+◌, ◌^◌, ◌/◌, ◌⊎◌, length, IfOk, IfErr, Err, map};
ghost use Rattle.desk_fields.specs.declared.fault.DocFault.{DocFault};
ghost use Rattle.desk_fields.specs.Cutting.{Reads, behind_mark};
ghost use Rattle.desk_fields.specs.Found.{field_text};
ghost use Rattle.desk_base.specs.Limits.{document_bytes};
ghost use Rattle.desk_tagvalue.specs.Entries.{AreEntries, entry_text, read_entry, value_text, value_of};

use desk_fields::{DocFault, Field, Scanner, Tag};
use memchr::memchr_iter;
use std::alloc::Global;

/// A field with its tag read.
#[derive(Clone, Copy)]
pub struct Entry<'a> {
    /// The line on which it begins, from 1. For a document of 4 MiB 32 bits are enough.
    pub line: u32,
    /// What its tag is read as.
    pub tag: Tag,
    /// Its value, a slice of the source.
    pub value: &'a str,
}

// A field with its tag read.
fn entry_of<'a>(field: &Field<'a>) -> Entry<'a>
    requires { field.now.line < 2 ^ 32 }
    ensures { entry_text result ≡ read_entry (field_text field.now) }
{
    Entry {
        line: field.line as u32,
        tag: Tag::of(field.tag),
        value: field.value,
    }
}

// The most fields that a text can have: each takes a line and at least three bytes, except that the
// last may lack its line's end.
fn most_fields(text: &str) -> usize
    ensures { result ≤ length text.now / 3 + 1 }
{
    let bytes = text.as_bytes();
    let ends = memchr_iter(b'\n', bytes).count();
    (ends + 1).min(bytes.len() / 3 + 1)
}

/// All fields of a text with their tags read. Room for the most that there can be is reserved once,
/// and what isn't needed is released.
pub(crate) fn entries_of<'a>(alloc: Global, text: &'a str) -> Result<Vec<Entry<'a>>, DocFault>
    requires { length text.now ≤ document_bytes }
    ensures ok { IfOk result (λ v. AreEntries text.now (map entry_text v.items)) }
    ensures err { IfErr result
        (λ e. (e ≡ DocFault.Memory) ⊎ Reads 1 (behind_mark text.now) (Err e)) }
{
    let mut entries = Vec::with_capacity(alloc, most_fields(text))?;
    for field in Scanner::of(text) {
        match field {
            Ok(field) => entries.push(entry_of(&field))?,
            Err(fault) => return Err(fault),
        }
    }
    entries.shrink_to_fit();
    Ok(entries)
}

/// The value of the first field with a tag.
pub(crate) fn value_of<'a>(entries: &[Entry<'a>], tag: Tag) -> Option<&'a str>
    ensures { value_text result ≡ value_of tag (map entry_text entries.now) }
{
    for entry in entries {
        if entry.tag.is(tag) {
            return Some(entry.value);
        }
    }
    None
}
