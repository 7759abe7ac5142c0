//! Reads a whole document.

ghost use Rattle.std.specs.Prelude.{◌≡◌, ◌⊎◌, IfOk, IfErr, List, ℕ, Result, Ok, Err, map};
ghost use Rattle.desk_fields.specs.declared.fault.DocFault.{DocFault};
ghost use Rattle.desk_tagvalue.specs.Entries.{entry_text};
ghost use Rattle.desk_tagvalue.specs.Parts.{DocumentText, document_of};
ghost use Rattle.desk_tagvalue.specs.Documents.{document_text, judged, Spells};

use crate::entries::entries_of;
use crate::faults::check;
use crate::lists::{edges, extracted_licences, files, packages, snippets};
use crate::missing::missing_of;
use crate::parts::text_of;
use crate::{Edge, Entry, Extracted, FileEntry, Package, Snippet};
use desk_base::Items;
use desk_base::limits::DOCUMENT_BYTES;
use desk_fields::{DocFault, Tag};
use std::alloc::{AllocError, Global};
use std::str;

/// A document, each text a slice of the source.
#[derive(Drop)]
pub struct Document<'a> {
    /// All fields, in order.
    pub entries: Items<Entry<'a>>,
    /// `DocumentName`.
    pub name: &'a str,
    /// `DocumentNamespace`.
    pub namespace: &'a str,
    /// The packages, in order.
    pub packages: Items<Package<'a>>,
    /// The files, in order.
    pub files: Items<FileEntry<'a>>,
    /// The snippets, in order.
    pub snippets: Items<Snippet<'a>>,
    /// The extracted licences, in order.
    pub extracted: Items<Extracted<'a>>,
    /// The relationships, in order.
    pub edges: Items<Edge<'a>>,
}

// The document of these fields.
fn document_of<'a>(alloc: Global, entries: Vec<Entry<'a>>) -> Result<Document<'a>, AllocError>
    ensures { IfOk result (λ d. document_text d
        ≡ document_of (map entry_text entries.entry.items)) }
{
    let name = text_of(&entries, Tag::DocumentName);
    let namespace = text_of(&entries, Tag::DocumentNamespace);
    let packages = Items::from_vec(packages(alloc, &entries)?);
    let files = Items::from_vec(files(alloc, &entries)?);
    let snippets = Items::from_vec(snippets(alloc, &entries)?);
    let extracted = Items::from_vec(extracted_licences(alloc, &entries)?);
    let edges = Items::from_vec(edges(alloc, &entries)?);
    Ok(Document {
        entries: Items::from_vec(entries),
        name,
        namespace,
        packages,
        files,
        snippets,
        extracted,
        edges,
    })
}

// The document of these fields, or the fault for which they aren't one.
fn judge<'a>(alloc: Global, entries: Vec<Entry<'a>>) -> Result<Document<'a>, DocFault>
    ensures ok { IfOk result
        (λ d. judged (map entry_text entries.entry.items) ≡ Ok (document_text d)) }
    ensures err { IfErr result (λ e. (e ≡ DocFault.Memory)
        ⊎ (judged (map entry_text entries.entry.items) ≡ Err e)) }
{
    match check(alloc, &entries) {
        Ok(()) => {}
        Err(fault) => return Err(fault),
    }
    if let Some(fault) = missing_of(&entries) {
        return Err(fault);
    }
    match document_of(alloc, entries) {
        Ok(document) => Ok(document),
        Err(_) => Err(DocFault::Memory),
    }
}

/// Reads a tag-value document of SPDX 2.1, 2.2 or 2.3, without copying a text.
pub fn read<'a>(alloc: Global, bytes: &'a [u8]) -> Result<Document<'a>, DocFault>
    ensures ok { IfOk result (λ d. Spells bytes.now (Ok (document_text d))) }
    ensures err { IfErr result (λ e. (e ≡ DocFault.Memory) ⊎ Spells bytes.now (Err e)) }
{
    if bytes.len() > DOCUMENT_BYTES {
        return Err(DocFault::TooLarge);
    }
    let Ok(text) = str::from_utf8(bytes) else {
        return Err(DocFault::NotUtf8);
    };
    match entries_of(alloc, text) {
        Ok(entries) => judge(alloc, entries),
        Err(fault) => Err(fault),
    }
}

/// Bytes spell only one document, or have only one fault, which is never lack of memory.
pub fn one_document()
    ensures once { (bytes : List ℕ) (a b : Result DocumentText DocFault) → Spells bytes a
        → Spells bytes b → a ≡ b }
    ensures memory { (bytes : List ℕ) → Spells bytes (Err DocFault.Memory) → ⊥ }
{}
