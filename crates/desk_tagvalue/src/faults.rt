//! The first field of a document that fails.

ghost use Rattle.std.specs.Prelude.{◌≡◌, ◌⊎◌, ◌<◌, ◌+◌, ◌++◌, ◌∷◌, ◌||◌, [], ℕ, List, length, true, false, IfErr, OnOk, None, Some, map, reverse};
ghost use Rattle.std.specs.List.{list_any};
ghost use Rattle.std.specs.Str.{bytes_eq};
ghost use denote.Ref.{Bor};
ghost use Rattle.desk_fields.specs.declared.fault.DocFault.{DocFault};
ghost use Rattle.desk_tagvalue.specs.Entries.{EntryText, entry_text};
ghost use Rattle.desk_tagvalue.specs.Faults.{has_tag, begins, is_too_many, is_again, is_misspelt, is_version, names, place_fault, double_fault, value_fault, field_fault, first_fault};
ghost use Rattle.desk_tagvalue.specs.Sections.{section_begun};
ghost use Rattle.desk_tagvalue.specs.Seen.{newest, has_key, HoldsIds, Knows};

use crate::Entry;
use crate::ids::{is_document_id, is_element_id, is_licence_id};
use crate::relationships::is_relationship;
use crate::sections::{
    IdForm, SectionKind, id_form, is_placed, once_in_document, once_in_section, section_begun,
};
use desk_base::limits::DOCUMENT_ELEMENTS;
use desk_fields::{DocFault, Tag};
use std::alloc::Global;
use std::collections::BTreeSet;

/// The identifiers of a document so far.
#[derive(Drop)]
pub(crate) struct Ids<'a> {
    elements: BTreeSet<&'a str>,
    licences: BTreeSet<&'a str>,
}

/// What is known of the fields so far.
#[derive(Drop)]
pub(crate) struct Seen<'a> {
    kind: SectionKind,
    start: usize,
    elements: usize,
    ids: Ids<'a>,
}

// Whether one of the fields has the tag.
fn has_tag(entries: &[Entry], tag: Tag) -> bool
    ensures { result ≡ list_any (has_tag tag) (map entry_text entries.now) }
{
    for entry in entries {
        if entry.tag.is(tag) {
            return true;
        }
    }
    false
}

// Whether a field that may occur only once has occurred.
fn is_again(seen: &Seen, before: &[Entry], tag: Tag) -> bool
    requires { Knows before.now seen.now }
    ensures { (e : EntryText) → e.tag ≡ tag → result ≡ is_again (newest before.now) e }
{
    if once_in_document(tag) {
        return has_tag(before, tag);
    }
    if !once_in_section(tag) {
        return false;
    }
    if !is_placed(seen.kind, tag) {
        return false;
    }
    has_tag(&before[seen.start..], tag)
}

// Whether an identifier is of another form.
fn is_misspelt(form: Option<IdForm>, value: &str) -> bool
    ensures { result ≡ is_misspelt form value.now }
{
    match form {
        None => false,
        Some(IdForm::Document) => !is_document_id(value),
        Some(IdForm::Element) => !is_element_id(value),
        Some(IdForm::Licence) => !is_licence_id(value),
    }
}

fn is_version(value: &str) -> bool
    ensures { result ≡ is_version value.now }
{
    value == "SPDX-2.1" || value == "SPDX-2.2" || value == "SPDX-2.3"
}

// Whether a field begins one element too many.
fn is_too_many(seen: &Seen, before: &[Entry], tag: Tag) -> bool
    requires { Knows before.now seen.now }
    ensures { (e : EntryText) → e.tag ≡ tag → result ≡ is_too_many (newest before.now) e }
{
    let full = seen.elements >= DOCUMENT_ELEMENTS;
    section_begun(tag).is_some() && full
}

// How a field fails because of what precedes it.
fn place_fault(seen: &Seen, before: &[Entry], entry: &Entry) -> Option<DocFault>
    requires { Knows before.now seen.now }
    ensures { result ≡ place_fault (newest before.now) (entry_text entry.now) }
{
    let line = u64::from(entry.line);
    if is_too_many(seen, before, entry.tag) {
        return Some(DocFault::TooManyElements(line));
    }
    if is_again(seen, before, entry.tag) {
        return Some(DocFault::Repeated(line, entry.tag));
    }
    if is_misspelt(id_form(seen.kind, entry.tag), entry.value) {
        return Some(DocFault::BadId(line));
    }
    None
}

// How a field fails because of its value, whatever precedes it.
fn value_fault(entry: &Entry) -> Option<DocFault>
    ensures { result ≡ value_fault (entry_text entry.now) }
{
    if entry.tag.is(Tag::Version) && !is_version(entry.value) {
        return Some(DocFault::BadVersion(u64::from(entry.line)));
    }
    if entry.tag.is(Tag::Relationship) && !is_relationship(entry.value) {
        return Some(DocFault::BadRelationship(u64::from(entry.line)));
    }
    None
}

// Adds an identifier that isn't there yet.
fn add<'a>(ids: &mut BTreeSet<&'a str>, entry: &Entry<'a>) -> Result<(), DocFault>
    ensures fresh { OnOk result (has_key entry.now.value.now ids.old ≡ false) }
    ensures added { OnOk result ((q : List ℕ) → has_key q ids.new ≡
        (bytes_eq entry.now.value.now q || has_key q ids.old)) }
    ensures err { IfErr result (λ e. (e ≡ DocFault.Memory)
        ⊎ ((has_key entry.now.value.now ids.old ≡ true)
        × (e ≡ DocFault.DuplicateId entry.now.line))) }
{
    match ids.insert(entry.value) {
        Ok(true) => Ok(()),
        Ok(false) => Err(DocFault::DuplicateId(u64::from(entry.line))),
        Err(_) => Err(DocFault::Memory),
    }
}

// Notes what a field names.
fn note<'a>(ids: &mut Ids<'a>, form: Option<IdForm>, entry: &Entry<'a>) -> Result<(), DocFault>
    ensures ok { (before : List EntryText) → form ≡ names before (entry_text entry.now)
        → HoldsIds before ids.old
        → OnOk result (double_fault before (entry_text entry.now) ≡ None) }
    ensures holds { (before : List EntryText) → form ≡ names before (entry_text entry.now)
        → HoldsIds before ids.old → OnOk result (HoldsIds (entry_text entry.now ∷ before) ids.new) }
    ensures err { (before : List EntryText) → form ≡ names before (entry_text entry.now)
        → HoldsIds before ids.old → IfErr result (λ e. (e ≡ DocFault.Memory)
        ⊎ (double_fault before (entry_text entry.now) ≡ Some e)) }
{
    match form {
        None => Ok(()),
        Some(IdForm::Licence) => add(&mut ids.licences, entry),
        Some(_) => add(&mut ids.elements, entry),
    }
}

// Opens a section whose first field is at a place.
fn open_section(seen: &mut Seen, kind: SectionKind, start: usize)
    requires { seen.old.elements < 10000 }
    ensures { seen.new ≡ record seen.old { kind = kind; start = start; elements = seen.old.elements + 1 } }
{
    seen.kind = kind;
    seen.start = start;
    seen.elements += 1;
}

// Checks a field, and notes what is known after it.
fn step<'a>(seen: &mut Seen<'a>, before: &[Entry<'a>], entry: &Entry<'a>) -> Result<(), DocFault>
    requires { Knows before.now seen.old }
    ensures ok { OnOk result (field_fault (newest before.now) (entry_text entry.now) ≡ None) }
    ensures knows { OnOk result (Knows (before.now ++ entry.now ∷ []) seen.new) }
    ensures err { IfErr result (λ e. (e ≡ DocFault.Memory)
        ⊎ (field_fault (newest before.now) (entry_text entry.now) ≡ Some e)) }
{
    if let Some(fault) = place_fault(seen, before, entry) {
        return Err(fault);
    }
    let form = id_form(seen.kind, entry.tag);
    match note(&mut seen.ids, form, entry) {
        Ok(()) => {}
        Err(fault) => return Err(fault),
    }
    if let Some(fault) = value_fault(entry) {
        return Err(fault);
    }
    match section_begun(entry.tag) {
        Some(kind) => {
            open_section(seen, kind, before.len());
            Ok(())
        }
        None => Ok(()),
    }
}

/// Finds the first field that fails.
pub(crate) fn check(alloc: Global, entries: &[Entry]) -> Result<(), DocFault>
    ensures ok { OnOk result (first_fault [] (map entry_text entries.now) ≡ None) }
    ensures err { IfErr result (λ e. (e ≡ DocFault.Memory)
        ⊎ (first_fault [] (map entry_text entries.now) ≡ Some e)) }
{
    let mut seen = Seen {
        kind: SectionKind::Document,
        start: 0,
        elements: 0,
        ids: Ids {
            elements: BTreeSet::new(alloc),
            licences: BTreeSet::new(alloc),
        },
    };
    for i in 0..entries.len() {
        match step(&mut seen, &entries[..i], &entries[i]) {
            Ok(()) => {}
            Err(fault) => return Err(fault),
        }
    }
    Ok(())
}
