//! All components of a document, and what contains each.

ghost use Rattle.std.specs.Prelude.{◌≡◌, ◌++◌, ◌∷◌, [], IfOk, OnOk, Option, codes, map, option_and_then, option_map};
ghost use Rattle.std.specs.String.{string_bytes};
ghost use Rattle.serde_json.specs.Find.{as_array, get};
ghost use Rattle.serde_json.specs.View.{view, items_view};
ghost use Rattle.desk_spdx_json.specs.Steps.{member_at};
ghost use Rattle.desk_spdx_json.specs.Values.{items_steps};
ghost use Rattle.desk_cyclonedx.specs.Placed.{all_placed, from_root, id_of, listed_of, owner_by, placed_from, placed_here, placed_text, root_of};

use crate::names::{component_id, place_id};
use desk_spdx_json::{item_at, member_at, word_in};
use serde_json::Value;
use std::alloc::{AllocError, Global};

const DOCUMENT_ID: &str = "SPDXRef-DOCUMENT";

const ROOT_AT: &str = "/metadata/component";
/// How deep components are in one another at most.
pub(crate) const MOST_DEEP: usize = 64;

/// A component.
#[derive(Drop)]
pub(crate) struct Placed<'a> {
    /// Its place, a JSON pointer.
    pub(crate) at: String,
    /// Its identifier.
    pub(crate) id: String,
    /// The identifier of what contains it.
    pub(crate) owner: String,
    /// How deep others may be in it.
    pub(crate) depth: usize,
    /// Its value.
    pub(crate) value: &'a Value,
}

// The identifier of a component.
fn id_of(alloc: Global, at: &str, value: &Value) -> Result<String, AllocError>
    ensures { IfOk result (λ id. string_bytes id ≡ id_of at.now (view value.now)) }
{
    if value.get("bom-ref").is_some() {
        return component_id(alloc, word_in(value, "bom-ref"));
    }
    place_id(alloc, at)
}

// A component without those in it.
fn placed_here<'a>(
    alloc: Global,
    depth: usize,
    owner: &str,
    at: &str,
    value: &'a Value,
) -> Result<Placed<'a>, AllocError>
    ensures { IfOk result (λ p. placed_text p
        ≡ placed_here depth owner.now at.now (view value.now)) }
{
    let id = id_of(alloc, at, value)?;
    let owner = String::from_str(alloc, owner)?;
    let at = String::from_str(alloc, at)?;
    Ok(Placed {
        at,
        id,
        owner,
        depth,
        value,
    })
}

// The list in the member `components`.
fn listed(value: &Value) -> Option<&Vec<Value>>
    ensures { option_map (λ l. items_view l.now.items) result
        ≡ option_and_then as_array (get (codes "components") (view value.now)) }
{
    value.get("components").and_then(Value::as_array)
}

// Adds a component and those in it.
#[cycle(placing)]
fn add_placed<'a>(
    alloc: Global,
    found: &mut Vec<Placed<'a>>,
    depth: usize,
    owner: &str,
    at: &str,
    value: &'a Value,
) -> Result<(), AllocError>
    ensures { OnOk result (map placed_text found.new.items ≡ map placed_text found.old.items
        ++ placed_from depth owner.now at.now (view value.now)) }
{
    found.push(placed_here(alloc, depth, owner, at, value)?)?;
    if depth == 0 {
        return Ok(());
    }
    let id = id_of(alloc, at, value)?;
    let place = member_at(alloc, at, "components")?;
    add_listed(alloc, found, depth - 1, &id, &place, listed(value))
}

// Adds the components of a list, if there is one, and those in them.
#[cycle(placing)]
fn add_listed<'a>(
    alloc: Global,
    found: &mut Vec<Placed<'a>>,
    depth: usize,
    owner: &str,
    at: &str,
    list: Option<&'a Vec<Value>>,
) -> Result<(), AllocError>
    ensures { OnOk result (map placed_text found.new.items ≡ map placed_text found.old.items
        ++ listed_of (placed_from depth owner.now) at.now
        (option_map (λ l. items_view l.now.items) list.entry)) }
{
    match list {
        Some(list) => add_all(alloc, found, depth, owner, at, list.as_slice()),
        None => Ok(()),
    }
}

// Adds the components of a list and those in them.
#[cycle(placing)]
fn add_all<'a>(
    alloc: Global,
    found: &mut Vec<Placed<'a>>,
    depth: usize,
    owner: &str,
    at: &str,
    list: &'a [Value],
) -> Result<(), AllocError>
    ensures { OnOk result (map placed_text found.new.items ≡ map placed_text found.old.items
        ++ items_steps (placed_from depth owner.now) at.now 0 (items_view list.now)) }
{
    for (i, value) in list.iter().enumerate() {
        let place = item_at(alloc, at, i)?;
        add_placed(alloc, found, depth, owner, &place, value)?;
    }
    Ok(())
}

/// The component that the document is about.
pub(crate) fn root_of(value: &Value) -> Option<&Value>
    ensures { option_map (λ v. view v.now) result ≡ root_of (view value.now) }
{
    value
        .get("metadata")
        .and_then(|metadata| metadata.get("component"))
}

// What contains the listed components.
fn owner_by(alloc: Global, root: Option<&Value>) -> Result<String, AllocError>
    ensures { IfOk result (λ id. string_bytes id
        ≡ owner_by (option_map (λ v. view v.now) root.entry)) }
{
    match root {
        Some(root) => id_of(alloc, ROOT_AT, root),
        None => String::from_str(alloc, DOCUMENT_ID),
    }
}

// Adds the component that the document is about and those in it.
fn add_root<'a>(
    alloc: Global,
    found: &mut Vec<Placed<'a>>,
    root: Option<&'a Value>,
) -> Result<(), AllocError>
    ensures { OnOk result (map placed_text found.new.items ≡ map placed_text found.old.items
        ++ from_root (option_map (λ v. view v.now) root.entry)) }
{
    match root {
        Some(root) => add_placed(alloc, found, MOST_DEEP, DOCUMENT_ID, ROOT_AT, root),
        None => Ok(()),
    }
}

/// All components of a document.
pub(crate) fn all_placed<'a>(alloc: Global, value: &'a Value) -> Result<Vec<Placed<'a>>, AllocError>
    ensures { IfOk result (λ found. map placed_text found.items ≡ all_placed (view value.now)) }
{
    let mut found = Vec::new(alloc);
    let root = root_of(value);
    add_root(alloc, &mut found, root)?;
    let owner = owner_by(alloc, root)?;
    add_listed(
        alloc,
        &mut found,
        MOST_DEEP,
        &owner,
        "/components",
        listed(value),
    )?;
    Ok(found)
}
