//! The findings of a whole document.

ghost use Rattle.std.specs.Prelude.{◌≡◌, ◌++◌, ℕ, List, IfOk, IfSome, OnOk, Option, map, slice_index_or, ◌||◌, ◌&&◌, Some};
ghost use Rattle.std.specs.List.{flat_map, list_any};
ghost use Rattle.std.specs.List.Sorted.{IsPermutation, IsSorted};
ghost use Rattle.std.specs.Str.{bytes_eq};
ghost use Rattle.desk_fields.specs.declared.tag.Tag.TheVariants as tags;
ghost use Rattle.desk_fields.specs.Tags.{same_tag};
ghost use Rattle.desk_base.specs.declared.profile.Profile.TheVariants.{Capitals};
ghost use Rattle.desk_expr.specs.Tree.{Tree};
ghost use Rattle.desk_tagvalue.specs.Documents.{document_text};
ghost use Rattle.desk_tagvalue.specs.Entries.{entry_text};
ghost use Rattle.desk_tagvalue.specs.Parts.{DocumentText};
ghost use Rattle.desk_tagvalue.specs.Seen.{has_key};
ghost use Rattle.desk_tagvalue.specs.Views.{extracted_text};
ghost use Rattle.desk_tagvalue.specs.declared.sections.SectionKind.TheVariants as sections;
ghost use Rattle.desk_bom.specs.Held.{Holds};
ghost use Rattle.desk_bom.specs.declared.state.CodeState.TheVariants as state;
ghost use Rattle.desk_bom.specs.Notes.{Notes};
ghost use Rattle.desk_tagvalue.specs.Faults.{kind_after};
ghost use Rattle.desk_tagvalue.specs.Sections.{section_begun};
ghost use Rattle.desk_findings.specs.Known.{Defines, state_in};
ghost use Rattle.desk_findings.specs.Told.{Tells, IsTold};
ghost use Rattle.desk_findings.specs.Fields.{IsReading, is_bad_expression, is_undefined_use, uses_undefined, fields_in, packages_after};
ghost use Rattle.desk_findings.specs.Findings.{field_findings, all_findings, AreStates, AreFindings};
ghost use Rattle.desk_findings.specs.Placed.{placed_text};

use crate::expression::{expression_in, is_no_licence, uses_undefined};
use crate::field::{
    Placed, differs, is_bad_code, is_bad_digest, is_bad_flag, is_field, is_licence_field,
    is_misplaced, is_unknown, is_unwanted_code,
};
use crate::finding::{key, note};
use crate::missing::{
    add_dangling, add_of_document, add_of_extracted, add_of_files, add_of_packages,
};
use desk_base::Profile;
use desk_bom::{CodeState, Contents, Elements};
use desk_expr::Expr;
use desk_fields::Tag;
use desk_model::{Finding, FindingKind};
use desk_tagvalue::{Document, Entry, Extracted, SectionKind, section_begun};
use std::alloc::{AllocError, Global};
use std::collections::BTreeSet;

/// What fields are compared with.
#[derive(Drop)]
struct Known<'a> {
    profile: Profile,
    defined: BTreeSet<&'a str>,
    states: Vec<CodeState>,
}

/// What a licence field says.
#[derive(Clone, Copy)]
pub(crate) struct Licence {
    is_bad: bool,
    is_undefined: bool,
}

/// The licence field whose value was read last, and what it said. In a document the same licence
/// often occurs many times, and one that equals the last one isn't read again.
#[derive(Clone, Copy)]
pub(crate) struct Told<'a> {
    tag: Tag,
    value: &'a str,
    licence: Licence,
}

fn add_defined<'a>(
    defined: &mut BTreeSet<&'a str>,
    licence: &Extracted<'a>,
) -> Result<(), AllocError>
    ensures { OnOk result ((q : List ℕ) → has_key q defined.new ≡
        (bytes_eq licence.now.id.now q || has_key q defined.old)) }
{
    defined.insert(licence.id)?;
    Ok(())
}

// The identifiers of the extracted licences.
fn defined_in<'a>(
    alloc: Global,
    extracted: &[Extracted<'a>],
) -> Result<BTreeSet<&'a str>, AllocError>
    ensures { IfOk result (λ s. (q : List ℕ) → has_key q s ≡ list_any (λ x. bytes_eq x.id q)
        (map extracted_text extracted.now)) }
{
    let mut defined = BTreeSet::new(alloc);
    for licence in extracted {
        add_defined(&mut defined, licence)?;
    }
    Ok(defined)
}

// The states of the codes of all packages.
fn states_in(
    alloc: Global,
    document: &Document,
    contents: &Contents,
) -> Result<Vec<CodeState>, AllocError>
    requires { Holds (document_text document.now) contents.now }
    ensures { IfOk result (λ v. AreStates (document_text document.now) (state_in v.items)) }
{
    let count = document.packages.as_slice().len();
    let mut states = Vec::with_capacity(alloc, count)?;
    for place in 0..count {
        states.push(contents.code_state(alloc, document, place)?)?;
    }
    Ok(states)
}

// Whether a concluded licence uses a reference that no extracted licence defines.
fn uses_undefined_in(
    alloc: Global,
    defined: &BTreeSet<&str>,
    tag: Tag,
    expr: &Expr,
) -> Result<bool, AllocError>
    ensures { (d : DocumentText) → ((q : List ℕ)
        → has_key q defined.now ≡ list_any (λ x. bytes_eq x.id q) d.extracted)
        → IfOk result (λ b. b ≡ (same_tag tag tags.PackageConcluded && uses_undefined d
        (Some expr.now))) }
{
    if !tag.is(Tag::PackageConcluded) {
        return Ok(false);
    }
    uses_undefined(alloc, defined, expr)
}

// What a value that is read in a licence field says.
fn licence_read(alloc: Global, known: &Known, tag: Tag, value: &str) -> Result<Licence, AllocError>
    ensures { IfOk result (Tells known.now.profile known.now.defined tag value.now) }
{
    match expression_in(alloc, value, known.profile)? {
        Some(expr) => Ok(Licence {
            is_bad: false,
            is_undefined: uses_undefined_in(alloc, &known.defined, tag, &expr)?,
        }),
        None => Ok(Licence {
            is_bad: true,
            is_undefined: false,
        }),
    }
}

// What the last one said, if it had the same tag and value.
fn told_again(last: Option<Told<'_>>, tag: Tag, value: &str) -> Option<Licence>
    ensures { IfSome result (λ l. (t : Told) × (last.entry ≡ Some t) × (t.tag ≡ tag)
        × (t.value.now ≡ value.now) × (t.licence ≡ l)) }
{
    match last {
        Some(told) if told.tag == tag && told.value == value => Some(told.licence),
        _ => None,
    }
}

// What a value in a licence field says, which is read unless it is the one that was read last.
fn licence_told<'a>(
    alloc: Global,
    known: &Known,
    last: &mut Option<Told<'a>>,
    tag: Tag,
    value: &'a str,
) -> Result<Licence, AllocError>
    requires { IfSome last.old (IsTold known.now.profile known.now.defined) }
    ensures licence { IfOk result (Tells known.now.profile known.now.defined tag value.now) }
    ensures told { OnOk result (IfSome last.new (IsTold known.now.profile known.now.defined)) }
{
    if let Some(licence) = told_again(*last, tag, value) {
        return Ok(licence);
    }
    let licence = licence_read(alloc, known, tag, value)?;
    *last = Some(Told {
        tag,
        value,
        licence,
    });
    Ok(licence)
}

// What a licence field says.
fn licence_of<'a>(
    alloc: Global,
    known: &Known,
    last: &mut Option<Told<'a>>,
    field: &Placed<'a>,
) -> Result<Licence, AllocError>
    requires { IfSome last.old (IsTold known.now.profile known.now.defined) }
    ensures bad { (reads : List ℕ → Option Tree) → IsReading known.now.profile reads
        → IfOk result (λ l. l.is_bad ≡ is_bad_expression reads (placed_text field.now)) }
    ensures undefined { (reads : List ℕ → Option Tree) → IsReading known.now.profile reads
        → (d : DocumentText) → Defines d known.now.defined
        → IfOk result (λ l. l.is_undefined ≡ is_undefined_use reads d (placed_text field.now)) }
    ensures told { OnOk result (IfSome last.new (IsTold known.now.profile known.now.defined)) }
{
    let tag = field.entry.tag;
    if !is_licence_field(tag) || is_misplaced(field) || is_no_licence(field.entry.value) {
        return Ok(Licence {
            is_bad: false,
            is_undefined: false,
        });
    }
    licence_told(alloc, known, last, tag, field.entry.value)
}

// Adds the findings of a field: those of its tag and section, of licences, of digests, of codes and
// of flags.
fn add_of_field<'a>(
    alloc: Global,
    found: &mut Vec<Finding>,
    known: &Known,
    last: &mut Option<Told<'a>>,
    document: &Document,
    field: &Placed<'a>,
) -> Result<(), AllocError>
    requires { IfSome last.old (IsTold known.now.profile known.now.defined) }
    ensures told { OnOk result (IfSome last.new (IsTold known.now.profile known.now.defined)) }
    ensures found { (reads : List ℕ → Option Tree) → IsReading known.now.profile reads
        → Defines (document_text document.now) known.now.defined
        → OnOk result (found.new.items ≡ found.old.items ++ field_findings reads
        (state_in known.now.states.items) (document_text document.now) (placed_text field.now)) }
{
    let line = field.entry.line;
    let licence = licence_of(alloc, known, last, field)?;
    note(found, is_unknown(field), line, FindingKind::UnknownTag)?;
    note(found, is_misplaced(field), line, FindingKind::Misplaced)?;
    note(found, licence.is_bad, line, FindingKind::BadExpression)?;
    note(found, is_bad_digest(field), line, FindingKind::BadDigest)?;
    note(found, is_bad_code(field), line, FindingKind::BadCode)?;
    note(
        found,
        differs(&known.states, field),
        line,
        FindingKind::CodeDiffers,
    )?;
    note(
        found,
        is_unwanted_code(document, field),
        line,
        FindingKind::CodeUnwanted,
    )?;
    note(found, is_bad_flag(field), line, FindingKind::BadFlag)?;
    note(found, licence.is_undefined, line, FindingKind::UndefinedRef)?;
    Ok(())
}

fn section_after(section: SectionKind, tag: Tag) -> SectionKind
    ensures { result ≡ kind_after (section_begun tag) section }
{
    match section_begun(tag) {
        Some(begun) => begun,
        None => section,
    }
}

// Adds the findings of all fields.
fn add_of_fields(
    alloc: Global,
    found: &mut Vec<Finding>,
    known: &Known,
    document: &Document,
) -> Result<(), AllocError>
    requires { Defines (document_text document.now) known.now.defined }
    ensures { (reads : List ℕ → Option Tree) → IsReading known.now.profile reads
        → OnOk result (found.new.items ≡ found.old.items ++ flat_map
        (field_findings reads (state_in known.now.states.items) (document_text document.now))
        (fields_in sections.Document 0 (document_text document.now).entries)) }
{
    let entries = document.entries.as_slice();
    let mut section = SectionKind::Document;
    let mut packages = 0;
    let mut last = None;
    for entry in entries {
        section = section_after(section, entry.tag);
        if entry.tag.is(Tag::PackageName) {
            packages += 1;
        }
        let field = Placed {
            section,
            packages,
            entry: *entry,
        };
        add_of_field(alloc, found, known, &mut last, document, &field)?;
    }
    Ok(())
}

// What the findings of a document are compared with.
fn known_of<'a>(
    alloc: Global,
    document: &Document<'a>,
    elements: &Elements,
    profile: Profile,
) -> Result<Known<'a>, AllocError>
    requires { Notes (document_text document.now) elements.now }
    ensures profile { IfOk result (λ k. k.profile ≡ profile) }
    ensures defined { IfOk result (λ k. Defines (document_text document.now) k.defined) }
    ensures states { IfOk result
        (λ k. AreStates (document_text document.now) (state_in k.states.items)) }
{
    let contents = Contents::of(alloc, document, elements)?;
    let states = states_in(alloc, document, &contents)?;
    let defined = defined_in(alloc, document.extracted.as_slice())?;
    Ok(Known {
        profile,
        defined,
        states,
    })
}

// All findings of a document, kind by kind.
fn all_findings(
    alloc: Global,
    document: &Document,
    known: &Known,
    elements: &Elements,
) -> Result<Vec<Finding>, AllocError>
    requires defined { Defines (document_text document.now) known.now.defined }
    requires elements { Notes (document_text document.now) elements.now }
    ensures { (reads : List ℕ → Option Tree) → IsReading known.now.profile reads
        → IfOk result (λ v. v.items ≡ all_findings reads (state_in known.now.states.items)
        (document_text document.now)) }
{
    let mut found = Vec::new(alloc);
    add_of_fields(alloc, &mut found, known, document)?;
    add_dangling(&mut found, elements, document.edges.as_slice())?;
    add_of_document(&mut found, document)?;
    add_of_packages(&mut found, document.packages.as_slice())?;
    add_of_files(&mut found, document.files.as_slice())?;
    add_of_extracted(&mut found, document.extracted.as_slice())?;
    Ok(found)
}

/// Every deviation of a document from the standard, by line, by kind, and for missing fields in the
/// order of `MissingField`. Licence fields are read by the profile of operators.
pub fn findings_in(
    alloc: Global,
    document: &Document,
    profile: Profile,
) -> Result<Vec<Finding>, AllocError>
    ensures { (reads : List ℕ → Option Tree) → IsReading profile reads
        → IfOk result (λ v. AreFindings reads (document_text document.now) v.items) }
{
    let elements = Elements::of(alloc, document)?;
    let known = known_of(alloc, document, &elements, profile)?;
    let mut found = all_findings(alloc, document, &known, &elements)?;
    found.sort_unstable_by_key(|finding| key(finding));
    Ok(found)
}

/// The same with operators in capitals.
pub fn findings(alloc: Global, document: &Document) -> Result<Vec<Finding>, AllocError>
    ensures { (reads : List ℕ → Option Tree) → IsReading Capitals reads
        → IfOk result (λ v. AreFindings reads (document_text document.now) v.items) }
{
    findings_in(alloc, document, Profile::Capitals)
}
