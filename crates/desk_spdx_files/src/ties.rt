//! The ends of relationships that are needed.

ghost use Rattle.std.specs.Prelude.{◌≡◌, ◌++◌, OnOk, codes};
ghost use Rattle.serde_json.specs.View.{view, items_view};
ghost use Rattle.desk_base.specs.Borrowed.{texts};
ghost use Rattle.desk_spdx_files.specs.Texts.{items_of, texts_by};
ghost use Rattle.desk_spdx_files.specs.Files.{needed_ends, needs_left, needs_right, one_if, ships_left, ships_right};

use crate::texts::{items_of, word_in};
use serde_json::Value;
use std::alloc::AllocError;

// Whether the right element ships with the left one.
fn ships_right(kind: &str) -> bool
    ensures { result ≡ ships_right kind.now }
{
    match kind {
        "DESCRIBES" | "CONTAINS" | "DEPENDS_ON" | "STATIC_LINK" | "DYNAMIC_LINK" => true,
        _ => false,
    }
}

// Whether the left element ships with the right one.
fn ships_left(kind: &str) -> bool
    ensures { result ≡ ships_left kind.now }
{
    match kind {
        "DESCRIBED_BY" | "CONTAINED_BY" | "DEPENDENCY_OF" | "RUNTIME_DEPENDENCY_OF" => true,
        _ => false,
    }
}

// Whether a relationship needs its left end.
fn needs_left(kind: &str, coded: bool) -> bool
    ensures { result ≡ needs_left coded kind.now }
{
    ships_right(kind) || kind == "DESCRIBED_BY" || coded && kind == "CONTAINED_BY"
}

// Whether a relationship needs its right end.
fn needs_right(kind: &str, coded: bool) -> bool
    ensures { result ≡ needs_right coded kind.now }
{
    ships_left(kind) || kind == "DESCRIBES" || coded && kind == "CONTAINS"
}

// Adds a text, if it is wanted.
fn add_if<'a>(found: &mut Vec<&'a str>, wanted: bool, text: &'a str) -> Result<(), AllocError>
    ensures { OnOk result (texts found.new.items
        ≡ texts found.old.items ++ one_if wanted text.now) }
{
    if wanted {
        found.push(text)?;
    }
    Ok(())
}

// Adds the ends that a relationship needs.
fn add_ends<'a>(found: &mut Vec<&'a str>, value: &'a Value, coded: bool) -> Result<(), AllocError>
    ensures { OnOk result (texts found.new.items
        ≡ texts found.old.items ++ needed_ends coded (view value.now)) }
{
    let kind = word_in(value, "relationshipType");
    let is_left = needs_left(kind, coded);
    let is_right = needs_right(kind, coded);
    add_if(found, is_left, word_in(value, "spdxElementId"))?;
    add_if(found, is_right, word_in(value, "relatedSpdxElement"))
}

// Adds the ends that relationships need.
fn add_all_ends<'a>(
    found: &mut Vec<&'a str>,
    list: &'a [Value],
    coded: bool,
) -> Result<(), AllocError>
    ensures { OnOk result (texts found.new.items
        ≡ texts found.old.items ++ texts_by (needed_ends coded) (items_view list.now)) }
{
    for value in list {
        add_ends(found, value, coded)?;
    }
    Ok(())
}

/// Adds the ends that the relationships of the document need.
pub(crate) fn add_tied<'a>(
    found: &mut Vec<&'a str>,
    value: &'a Value,
    coded: bool,
) -> Result<(), AllocError>
    ensures { OnOk result (texts found.new.items ≡ texts found.old.items
        ++ texts_by (needed_ends coded) (items_of (codes "relationships") (view value.now))) }
{
    add_all_ends(found, items_of(value, "relationships"), coded)
}
