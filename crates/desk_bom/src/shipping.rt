//! The packages that a document ships.

ghost use Rattle.std.specs.Prelude.{◌≡◌, ◌<◌, ◌+◌, ◌||◌, ◌&&◌, ◌^◌, nat_le, [], ℕ, false, IfOk, OnOk, All, drop, length, map, filter, slice_index_or};
ghost use Rattle.std.specs.List.{list_any, filter_map, range_with_len};
ghost use Rattle.std.specs.List.Sorted.{IsPermutation, IsNonDecreasingBy};
ghost use Rattle.desk_tagvalue.specs.Documents.{document_text};
ghost use Rattle.desk_tagvalue.specs.Views.{edge_text};
ghost use Rattle.desk_bom.specs.Elements.{element_count};
ghost use Rattle.desk_bom.specs.Notes.{Notes};
ghost use Rattle.desk_tagvalue.specs.Parts.{DocumentText};
ghost use Rattle.desk_bom.specs.Marks.{among, IsLeastFrom};
ghost use Rattle.desk_bom.specs.Shipping.{ships_right, ships_left, arrow_between, touches_document, shipping_arrow, shipping_arrows, describes, is_described, is_start, AreShipped, AreShippingMarks};

use crate::Elements;
use crate::arrows::{Arrow, Reached, arrow_between};
use desk_tagvalue::{Document, Edge, Package};
use std::alloc::{AllocError, Global};

fn ships_right(kind: &str) -> bool
    ensures { result ≡ ships_right kind.now }
{
    match kind {
        "DESCRIBES" | "CONTAINS" | "DEPENDS_ON" | "STATIC_LINK" | "DYNAMIC_LINK" => true,
        _ => false,
    }
}

fn ships_left(kind: &str) -> bool
    ensures { result ≡ ships_left kind.now }
{
    match kind {
        "DESCRIBED_BY" | "CONTAINED_BY" | "DEPENDENCY_OF" | "RUNTIME_DEPENDENCY_OF" => true,
        _ => false,
    }
}

// From which element to which a relationship ships.
fn shipping_arrow(elements: &Elements, edge: &Edge) -> Option<Arrow>
    ensures { (d : DocumentText) → Notes d elements.now
        → result ≡ shipping_arrow d (edge_text edge.now) }
{
    if ships_right(edge.kind) {
        return arrow_between(elements.place(edge.left), elements.place(edge.right));
    }
    if ships_left(edge.kind) {
        return arrow_between(elements.place(edge.right), elements.place(edge.left));
    }
    None
}

// The arrows of all relationships that ship.
fn shipping_arrows(
    alloc: Global,
    document: &Document,
    elements: &Elements,
) -> Result<Vec<Arrow>, AllocError>
    requires { Notes (document_text document.now) elements.now }
    ensures { IfOk result (λ v. v.items ≡ shipping_arrows (document_text document.now)) }
{
    let mut arrows = Vec::new(alloc);
    let edges = document.edges.as_slice();
    for edge in edges {
        match shipping_arrow(elements, edge) {
            Some(arrow) => arrows.push(arrow)?,
            None => {}
        }
    }
    Ok(arrows)
}

fn touches_document(arrow: Option<Arrow>) -> bool
    ensures { result ≡ touches_document arrow }
{
    match arrow {
        Some(arrow) => arrow.from == 0 || arrow.to == 0,
        None => false,
    }
}

// Whether a relationship says that the document describes an element.
fn describes(elements: &Elements, edge: &Edge) -> bool
    ensures { (d : DocumentText) → Notes d elements.now
        → result ≡ describes d (edge_text edge.now) }
{
    let named = edge.kind == "DESCRIBES" || edge.kind == "DESCRIBED_BY";
    named && touches_document(arrow_between(elements.place(edge.left), elements.place(edge.right)))
}

// Whether some relationship says so.
fn is_described(document: &Document, elements: &Elements) -> bool
    requires { Notes (document_text document.now) elements.now }
    ensures { result ≡ is_described (document_text document.now) }
{
    let edges = document.edges.as_slice();
    for edge in edges {
        if describes(elements, edge) {
            return true;
        }
    }
    false
}

// Reaches this many packages.
fn add_packages(reached: &mut Reached, count: usize) -> Result<(), AllocError>
    requires { count < length reached.old.marks.items }
    ensures order { OnOk result ((a : ℕ) → among reached.new.order.items a
        ≡ (among reached.old.order.items a || nat_le 1 a && nat_le a count)) }
    ensures count { length reached.new.marks.items ≡ length reached.old.marks.items }
{
    for package in 0..count {
        reached.add(package + 1)?;
    }
    Ok(())
}

// The elements at which shipping starts.
fn starts(alloc: Global, document: &Document, elements: &Elements) -> Result<Reached, AllocError>
    requires { Notes (document_text document.now) elements.now }
    ensures order { IfOk result (λ r. (a : ℕ) → among r.order.items a ≡ is_start
        (document_text document.now) a) }
    ensures count { IfOk result (λ r. length r.marks.items ≡ element_count elements.now) }
{
    let mut reached = Reached::new(alloc, elements.count())?;
    reached.add(0)?;
    if !is_described(document, elements) {
        add_packages(&mut reached, document.packages.as_slice().len())?;
    }
    Ok(reached)
}

// The elements that ship.
fn shipping(alloc: Global, document: &Document) -> Result<Reached, AllocError>
    ensures { IfOk result (λ r. IsLeastFrom (is_start (document_text document.now))
        (shipping_arrows (document_text document.now)) (among r.order.items)) }
{
    let elements = Elements::of(alloc, document)?;
    let mut arrows = shipping_arrows(alloc, document, &elements)?;
    arrows.sort_by_key(|arrow| arrow.from)?;
    let mut reached = starts(alloc, document, &elements)?;
    reached.walk(&arrows)?;
    Ok(reached)
}

// A package with its identifier.
#[derive(Clone, Copy)]
struct Named<'a> {
    id: &'a str,
    place: usize,
}

// The packages among what was reached.
fn packages_in<'a>(
    alloc: Global,
    packages: &[Package<'a>],
    reached: &Reached,
) -> Result<Vec<Named<'a>>, AllocError>
    ensures places { IfOk result (λ v. map (λ n. n.place) v.items ≡ filter (λ k.
        among reached.now.order.items (k + 1)) (range_with_len 0 (length packages.now))) }
    ensures ids { IfOk result (λ v. All (λ n. n.id.now
        ≡ slice_index_or (map (λ p. p.id.now) packages.now) n.place []) v.items) }
{
    let mut found = Vec::new(alloc);
    for (place, package) in packages.iter().enumerate() {
        if reached.has(place + 1) {
            found.push(Named {
                id: package.id,
                place,
            })?;
        }
    }
    Ok(found)
}

fn places_of(alloc: Global, named: &[Named]) -> Result<Vec<usize>, AllocError>
    ensures { IfOk result (λ v. v.items ≡ map (λ n. n.place) named.now) }
{
    named.iter().map(|package| package.place).collect(alloc)
}

// For each of this many packages, whether it was reached.
fn marks_of(alloc: Global, count: usize, reached: &Reached) -> Result<Vec<bool>, AllocError>
    requires { count < 2 ^ 63 }
    ensures { IfOk result (λ v. v.items ≡ map (λ k.
        among reached.now.order.items (k + 1)) (range_with_len 0 count)) }
{
    let mut marks = Vec::new(alloc);
    for package in 0..count {
        marks.push(reached.has(package + 1))?;
    }
    Ok(marks)
}

/// For each package of a document, in its order, whether it ships: the same packages that `shipped`
/// returns by their places.
pub fn ships(alloc: Global, document: &Document) -> Result<Vec<bool>, AllocError>
    ensures { IfOk result (λ v. AreShippingMarks (document_text document.now) v.items) }
{
    let reached = shipping(alloc, document)?;
    let marks = marks_of(alloc, document.packages.as_slice().len(), &reached)?;
    Ok(marks)
}

/// The first of the marks of `ships`, `false` if there is none, and those behind it.
pub fn first_mark(marks: &[bool]) -> (bool, &[bool])
    ensures first { result.0 ≡ slice_index_or marks.now 0 false }
    ensures behind { result.1.now ≡ drop 1 marks.now }
{
    match marks.split_first() {
        Some((mark, behind)) => (*mark, behind),
        None => (false, marks),
    }
}

/// The places of the packages that a document ships, by their identifiers.
///
/// The document itself ships; so does each package, if no DESCRIBES or DESCRIBED_BY (SPDX 2.3,
/// clause 11.1) between elements of the document involves the document. What an element describes,
/// contains, depends on or links ships with it.
pub fn shipped(alloc: Global, document: &Document) -> Result<Vec<usize>, AllocError>
    ensures { IfOk result (λ v. AreShipped (document_text document.now) v.items) }
{
    let reached = shipping(alloc, document)?;
    let mut named = packages_in(alloc, document.packages.as_slice(), &reached)?;
    named.sort_by_key(|package| package.id)?;
    let places = places_of(alloc, &named)?;
    Ok(places)
}
