//! The parts of a document in lists, each with exactly the room that it needs.

ghost use Rattle.std.specs.Prelude.{◌≡◌, IfOk, map, count_by};
ghost use Rattle.desk_fields.specs.declared.tag.Tag.TheVariants as tags;
ghost use Rattle.desk_tagvalue.specs.Entries.{entry_text};
ghost use Rattle.desk_tagvalue.specs.Faults.{has_tag};
ghost use Rattle.desk_tagvalue.specs.Parts.{parts_of, package_of, file_of, snippet_of, extracted_of, edges_of};
ghost use Rattle.desk_tagvalue.specs.Views.{package_text, file_text, snippet_text, extracted_text, edge_text};

use crate::Entry;
use crate::parts::{
    Edge, Extracted, FileEntry, Package, Snippet, edge_of, extracted_of, file_of, package_of,
};
use desk_fields::Tag;
use std::alloc::{AllocError, Global};

// How many fields have the tag, so that a list takes only the room that it needs.
fn count_of(entries: &[Entry], tag: Tag) -> usize
    ensures { result ≡ count_by (has_tag tag) (map entry_text entries.now) }
{
    entries.iter().filter(|entry| entry.tag.is(tag)).count()
}

/// All packages, in order.
pub(crate) fn packages<'a>(
    alloc: Global,
    entries: &[Entry<'a>],
) -> Result<Vec<Package<'a>>, AllocError>
    ensures { IfOk result (λ v. map package_text v.items
        ≡ parts_of tags.PackageName package_of (map entry_text entries.now)) }
{
    let mut found = Vec::with_capacity(alloc, count_of(entries, Tag::PackageName))?;
    for (i, entry) in entries.iter().enumerate() {
        if entry.tag.is(Tag::PackageName) {
            found.push(package_of(entry, &entries[i + 1..]))?;
        }
    }
    Ok(found)
}

/// All files, in order.
pub(crate) fn files<'a>(
    alloc: Global,
    entries: &[Entry<'a>],
) -> Result<Vec<FileEntry<'a>>, AllocError>
    ensures { IfOk result (λ v. map file_text v.items
        ≡ parts_of tags.FileName file_of (map entry_text entries.now)) }
{
    let mut found = Vec::with_capacity(alloc, count_of(entries, Tag::FileName))?;
    for (i, entry) in entries.iter().enumerate() {
        if entry.tag.is(Tag::FileName) {
            found.push(file_of(entry, &entries[i + 1..]))?;
        }
    }
    Ok(found)
}

/// All extracted licences, in order.
pub(crate) fn extracted_licences<'a>(
    alloc: Global,
    entries: &[Entry<'a>],
) -> Result<Vec<Extracted<'a>>, AllocError>
    ensures { IfOk result (λ v. map extracted_text v.items
        ≡ parts_of tags.LicenseIdentifier extracted_of (map entry_text entries.now)) }
{
    let mut found = Vec::with_capacity(alloc, count_of(entries, Tag::LicenseIdentifier))?;
    for (i, entry) in entries.iter().enumerate() {
        if entry.tag.is(Tag::LicenseIdentifier) {
            found.push(extracted_of(entry, &entries[i + 1..]))?;
        }
    }
    Ok(found)
}

/// All snippets, in order.
pub(crate) fn snippets<'a>(
    alloc: Global,
    entries: &[Entry<'a>],
) -> Result<Vec<Snippet<'a>>, AllocError>
    ensures { IfOk result (λ v. map snippet_text v.items
        ≡ parts_of tags.SnippetIdentifier snippet_of (map entry_text entries.now)) }
{
    let mut found = Vec::with_capacity(alloc, count_of(entries, Tag::SnippetIdentifier))?;
    for entry in entries {
        if entry.tag.is(Tag::SnippetIdentifier) {
            found.push(Snippet {
                line: entry.line,
                id: entry.value,
            })?;
        }
    }
    Ok(found)
}

/// All relationships, in order.
pub(crate) fn edges<'a>(alloc: Global, entries: &[Entry<'a>]) -> Result<Vec<Edge<'a>>, AllocError>
    ensures { IfOk result (λ v. map edge_text v.items ≡ edges_of (map entry_text entries.now)) }
{
    let mut found = Vec::with_capacity(alloc, count_of(entries, Tag::Relationship))?;
    for entry in entries {
        if entry.tag.is(Tag::Relationship) {
            found.push(edge_of(entry))?;
        }
    }
    Ok(found)
}
