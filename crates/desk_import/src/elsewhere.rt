//! The elements of other documents that ship with a document.

ghost use Rattle.std.specs.Prelude.{◌≡◌, ℕ, List, Bool, IfOk, [], map};
ghost use Rattle.std.specs.Option.{option_copied};
ghost use Rattle.desk_base.specs.Borrowed.{texts};
ghost use Rattle.desk_bom.specs.Notes.{Notes};
ghost use Rattle.desk_bom.specs.Shipping.{ships_left, ships_right};
ghost use Rattle.desk_tagvalue.specs.Documents.{document_text};
ghost use Rattle.desk_tagvalue.specs.Parts.{DocumentText};
ghost use Rattle.desk_tagvalue.specs.Views.{edge_text};
ghost use Rattle.desk_import.specs.Elsewhere.{count_new, elsewhere_behind, elsewhere_count, elsewhere_ids, elsewhere_in, has_mark, is_elsewhere};

use desk_bom::Elements;
use desk_tagvalue::{Document, Edge};
use std::alloc::{AllocError, Global};
use std::collections::BTreeSet;

fn ships_right(kind: &str) -> bool
    ensures { result ≡ ships_right kind.now }
{
    match kind {
        "DESCRIBES" | "CONTAINS" | "DEPENDS_ON" | "STATIC_LINK" | "DYNAMIC_LINK" => true,
        _ => false,
    }
}

fn ships_left(kind: &str) -> bool
    ensures { result ≡ ships_left kind.now }
{
    match kind {
        "DESCRIBED_BY" | "CONTAINED_BY" | "DEPENDENCY_OF" | "RUNTIME_DEPENDENCY_OF" => true,
        _ => false,
    }
}

// Whether an identifier is that of an element of another document.
fn is_elsewhere(id: &str) -> bool
    ensures { result ≡ is_elsewhere id.now }
{
    id.as_bytes().starts_with(b"DocumentRef-")
}

// Whether an element ships: the document itself, or a package by its mark.
fn has_mark(marks: &[bool], place: Option<usize>) -> bool
    ensures { result ≡ has_mark marks.now place }
{
    match place {
        Some(0) => true,
        Some(place) => marks.get(place - 1).copied().unwrap_or(false),
        None => false,
    }
}

// An element of another document, if it ships with one that ships.
fn elsewhere_behind<'a>(
    elements: &Elements,
    marks: &[bool],
    from: &str,
    to: &'a str,
) -> Option<&'a str>
    ensures { (d : DocumentText) → Notes d elements.now
        → option_copied result ≡ elsewhere_behind d marks.now from.now to.now }
{
    if is_elsewhere(to) && has_mark(marks, elements.place(from)) {
        Some(to)
    } else {
        None
    }
}

// The element of another document that ships by a relationship.
fn elsewhere_in<'a>(elements: &Elements, marks: &[bool], edge: &Edge<'a>) -> Option<&'a str>
    ensures { (d : DocumentText) → Notes d elements.now
        → option_copied result ≡ elsewhere_in d marks.now (edge_text edge.now) }
{
    if ships_right(edge.kind) {
        return elsewhere_behind(elements, marks, edge.left, edge.right);
    }
    if ships_left(edge.kind) {
        return elsewhere_behind(elements, marks, edge.right, edge.left);
    }
    None
}

// Those of all relationships.
fn elsewhere_ids<'a>(
    alloc: Global,
    document: &Document<'a>,
    elements: &Elements,
    marks: &[bool],
) -> Result<Vec<&'a str>, AllocError>
    requires { Notes (document_text document.now) elements.now }
    ensures { IfOk result
        (λ ids. texts ids.items ≡ elsewhere_ids (document_text document.now) marks.now) }
{
    let mut ids = Vec::new(alloc);
    let edges = document.edges.as_slice();
    for edge in edges {
        match elsewhere_in(elements, marks, edge) {
            Some(id) => ids.push(id)?,
            None => {}
        }
    }
    Ok(ids)
}

// How many different texts there are.
fn count_distinct(alloc: Global, listed: &[&str]) -> Result<usize, AllocError>
    ensures { IfOk result (λ count. count ≡ count_new [] (texts listed.now)) }
{
    let mut seen = BTreeSet::new(alloc);
    for text in listed {
        seen.insert(*text)?;
    }
    Ok(seen.len())
}

/// How many elements of other documents ship with a document whose packages have these marks.
pub(crate) fn elsewhere_count(
    alloc: Global,
    document: &Document<'_>,
    marks: &[bool],
) -> Result<usize, AllocError>
    ensures { IfOk result
        (λ count. count ≡ elsewhere_count (document_text document.now) marks.now) }
{
    let elements = Elements::of(alloc, document)?;
    let ids = elsewhere_ids(alloc, document, &elements, marks)?;
    count_distinct(alloc, ids.as_slice())
}
