//! The steps of a component.

ghost use Rattle.std.specs.Prelude.{◌≡◌, ◌++◌, ◌∷◌, [], IfOk, OnOk, codes, map, option_and_then, option_map};
ghost use Rattle.std.specs.String.{string_bytes};
ghost use Rattle.serde_json.specs.Find.{as_array, get};
ghost use Rattle.serde_json.specs.View.{view, items_view};
ghost use Rattle.desk_base.specs.Borrowed.{texts};
ghost use Rattle.desk_spdx_json.specs.Elements.{element_text};
ghost use Rattle.desk_spdx_json.specs.Members.{member_text};
ghost use Rattle.desk_spdx_json.specs.Steps.{member_at};
ghost use Rattle.desk_cyclonedx.specs.Components.{component_element, component_members, component_steps, elements_of, excluded_ids, full_name, head_steps, is_excluded, licence_elements, licence_steps, nested_fault, placed_elements, rest_steps, text_faults, text_if, text_in, tie_kind, tie_steps};
ghost use Rattle.desk_cyclonedx.specs.Placed.{placed_text};

use crate::licences::{add_list, add_list_elements, add_name_fault};
use crate::placed::Placed;
use desk_fields::Tag;
use desk_spdx_json::{
    Element, Form, Kind, Member, Steps, What, add_object, member_at, relationship_text, word_in,
};
use serde_json::Value;
use std::alloc::{AllocError, Global};

// An optional member.
macro_rules! perhaps {
    ($key:literal, $form:expr) => {
        Member {
            key: $key,
            form: $form,
            is_needed: false,
        }
    };
}

const COMPONENT_MEMBERS: [Member; 10] = [
    perhaps!("version", Form::OneLine(Tag::PackageVersion)),
    perhaps!("copyright", Form::Copyright(Tag::PackageCopyright)),
    perhaps!("purl", Form::LeftOut(Kind::ExternalReference)),
    perhaps!("externalReferences", Form::LeftOut(Kind::ExternalReference)),
    perhaps!("name", Form::Elsewhere),
    perhaps!("group", Form::Elsewhere),
    perhaps!("bom-ref", Form::Elsewhere),
    perhaps!("scope", Form::Elsewhere),
    perhaps!("licenses", Form::Elsewhere),
    perhaps!("components", Form::Elsewhere),
];

/// The name of a component after its group, if it has one.
pub(crate) fn full_name(alloc: Global, value: &Value) -> Result<String, AllocError>
    ensures { IfOk result (λ name. string_bytes name ≡ full_name (view value.now)) }
{
    let (group, name) = (word_in(value, "group"), word_in(value, "name"));
    if group.is_empty() {
        return String::from_str(alloc, name);
    }
    format!(in alloc; "{group}/{name}")
}

// Adds what is wrong with a member that must be a text, if it is there.
fn add_text_if(
    alloc: Global,
    steps: &mut Steps<'_>,
    at: &str,
    found: Option<&Value>,
) -> Result<(), AllocError>
    ensures { OnOk result (steps.new ≡ steps.old
        ++ text_if at.now (option_map (λ v. view v.now) found.entry)) }
{
    match found {
        Some(found) if found.as_str().is_none() => steps.add(alloc, at, What::BadType),
        _ => Ok(()),
    }
}

// The same for the member with a key.
fn add_text_in(
    alloc: Global,
    steps: &mut Steps<'_>,
    at: &str,
    value: &Value,
    key: &str,
) -> Result<(), AllocError>
    ensures { OnOk result (steps.new ≡ steps.old ++ text_in at.now (view value.now) key.now) }
{
    let place = member_at(alloc, at, key)?;
    add_text_if(alloc, steps, &place, value.get(key))
}

// Adds what is wrong with the texts of a component.
fn add_text_faults(
    alloc: Global,
    steps: &mut Steps<'_>,
    at: &str,
    value: &Value,
) -> Result<(), AllocError>
    ensures { OnOk result (steps.new ≡ steps.old ++ text_faults at.now (view value.now)) }
{
    let place = member_at(alloc, at, "name")?;
    add_name_fault(alloc, steps, &place, value.get("name"))?;
    add_text_in(alloc, steps, at, value, "group")?;
    add_text_in(alloc, steps, at, value, "bom-ref")?;
    add_text_in(alloc, steps, at, value, "scope")
}

// Adds the first fields of a package.
fn add_head(alloc: Global, steps: &mut Steps<'_>, placed: &Placed<'_>) -> Result<(), AllocError>
    ensures { OnOk result (steps.new ≡ steps.old ++ head_steps (placed_text placed.now)) }
{
    let at = placed.at.as_str();
    steps.add(alloc, "", What::Blank)?;
    let place = member_at(alloc, at, "name")?;
    let name = full_name(alloc, placed.value)?;
    steps.add(alloc, &place, What::Composed(Tag::PackageName, name))?;
    let id = String::from_str(alloc, placed.id.as_str())?;
    steps.add(alloc, at, What::Composed(Tag::Identifier, id))?;
    steps.add(
        alloc,
        at,
        What::OneLine(Tag::DownloadLocation, "NOASSERTION"),
    )?;
    steps.add(alloc, at, What::OneLine(Tag::FilesAnalyzed, "false"))
}

// Adds the steps of a component's licences.
fn add_licences<'a>(
    alloc: Global,
    steps: &mut Steps<'a>,
    at: &str,
    found: Option<&'a Value>,
) -> Result<(), AllocError>
    ensures { OnOk result (steps.new ≡ steps.old
        ++ licence_steps at.now (option_map (λ v. view v.now) found.entry)) }
{
    let Some(found) = found else {
        return Ok(());
    };
    match found.as_array() {
        Some(list) => add_list(alloc, steps, at, list.as_slice()),
        None => steps.add(alloc, at, What::BadType),
    }
}

/// Adds what is wrong with a list of components.
pub(crate) fn add_nested_fault(
    alloc: Global,
    steps: &mut Steps<'_>,
    depth: usize,
    at: &str,
    found: Option<&Value>,
) -> Result<(), AllocError>
    ensures { OnOk result (steps.new ≡ steps.old
        ++ nested_fault depth at.now (option_map (λ v. view v.now) found.entry)) }
{
    let Some(found) = found else {
        return Ok(());
    };
    if found.as_array().is_none() {
        return steps.add(alloc, at, What::BadType);
    }
    if depth == 0 {
        return steps.add(alloc, at, What::BadValue);
    }
    Ok(())
}

fn is_excluded(value: &Value) -> bool
    ensures { result ≡ is_excluded (view value.now) }
{
    word_in(value, "scope") == "excluded"
}

fn tie_kind(owner: &str) -> &'static str
    ensures { result.now ≡ tie_kind owner.now }
{
    if owner == "SPDXRef-DOCUMENT" {
        "DESCRIBES"
    } else {
        "CONTAINS"
    }
}

// Adds that its owner has a component, unless it is excluded.
fn add_tie(alloc: Global, steps: &mut Steps<'_>, placed: &Placed<'_>) -> Result<(), AllocError>
    ensures { OnOk result (steps.new ≡ steps.old ++ tie_steps (placed_text placed.now)) }
{
    if is_excluded(placed.value) {
        return Ok(());
    }
    let owner = placed.owner.as_str();
    let text = relationship_text(alloc, owner, tie_kind(owner), placed.id.as_str())?;
    steps.add(
        alloc,
        placed.at.as_str(),
        What::Composed(Tag::Relationship, text),
    )
}

// Adds the steps of a component behind its licences.
fn add_rest<'a>(alloc: Global, steps: &mut Steps<'a>, placed: &Placed<'a>) -> Result<(), AllocError>
    ensures { OnOk result (steps.new ≡ steps.old ++ rest_steps (placed_text placed.now)) }
{
    let at = placed.at.as_str();
    add_object(alloc, steps, at, placed.value, &COMPONENT_MEMBERS)?;
    let place = member_at(alloc, at, "components")?;
    let nested = placed.value.get("components");
    add_nested_fault(alloc, steps, placed.depth, &place, nested)?;
    add_tie(alloc, steps, placed)
}

// Adds the steps of a component.
fn add_component<'a>(
    alloc: Global,
    steps: &mut Steps<'a>,
    placed: &Placed<'a>,
) -> Result<(), AllocError>
    ensures { OnOk result (steps.new ≡ steps.old ++ component_steps (placed_text placed.now)) }
{
    let at = placed.at.as_str();
    add_text_faults(alloc, steps, at, placed.value)?;
    add_head(alloc, steps, placed)?;
    let place = member_at(alloc, at, "licenses")?;
    add_licences(alloc, steps, &place, placed.value.get("licenses"))?;
    add_rest(alloc, steps, placed)
}

// A component as an element.
fn component_element<'a>(alloc: Global, placed: &Placed<'a>) -> Result<Element<'a>, AllocError>
    ensures { IfOk result (λ e. element_text e ≡ component_element (placed_text placed.now)) }
{
    let at = placed.at.clone()?;
    let id = placed.id.clone()?;
    let mut steps = Steps::new(alloc);
    add_component(alloc, &mut steps, placed)?;
    Ok(Element { at, id, steps })
}

// Adds the licences with texts of a component.
fn add_licence_elements<'a>(
    alloc: Global,
    elements: &mut Vec<Element<'a>>,
    at: &str,
    list: Option<&'a Vec<Value>>,
) -> Result<(), AllocError>
    ensures { OnOk result (map element_text elements.new.items
        ≡ map element_text elements.old.items
        ++ licence_elements at.now (option_map (λ l. items_view l.now.items) list.entry)) }
{
    match list {
        Some(list) => add_list_elements(alloc, elements, at, list.as_slice()),
        None => Ok(()),
    }
}

// The list of a component's licences.
fn licences_in(value: &Value) -> Option<&Vec<Value>>
    ensures { option_map (λ l. items_view l.now.items) result
        ≡ option_and_then as_array (get (codes "licenses") (view value.now)) }
{
    value.get("licenses").and_then(Value::as_array)
}

// Adds a component, and its licences with texts.
fn add_elements<'a>(
    alloc: Global,
    elements: &mut Vec<Element<'a>>,
    placed: &Placed<'a>,
) -> Result<(), AllocError>
    ensures { OnOk result (map element_text elements.new.items
        ≡ map element_text elements.old.items ++ placed_elements (placed_text placed.now)) }
{
    elements.push(component_element(alloc, placed)?)?;
    let place = member_at(alloc, placed.at.as_str(), "licenses")?;
    add_licence_elements(alloc, elements, &place, licences_in(placed.value))
}

/// The elements of all components.
pub(crate) fn elements_of<'a>(
    alloc: Global,
    placed: &[Placed<'a>],
) -> Result<Vec<Element<'a>>, AllocError>
    ensures { IfOk result (λ es. map element_text es.items
        ≡ elements_of (map placed_text placed.now)) }
{
    let mut elements = Vec::new(alloc);
    for one in placed {
        add_elements(alloc, &mut elements, one)?;
    }
    Ok(elements)
}

// Adds the identifier of a component that is excluded.
fn add_excluded<'p>(ids: &mut Vec<&'p str>, placed: &'p Placed<'_>) -> Result<(), AllocError>
    ensures { OnOk result (texts ids.new.items
        ≡ texts ids.old.items ++ excluded_ids (placed_text placed.now ∷ [])) }
{
    if is_excluded(placed.value) {
        ids.push(placed.id.as_str())?;
    }
    Ok(())
}

/// The identifiers of the components that are excluded.
pub(crate) fn excluded_ids<'p>(
    alloc: Global,
    placed: &'p [Placed<'_>],
) -> Result<Vec<&'p str>, AllocError>
    ensures { IfOk result (λ ids. texts ids.items ≡ excluded_ids (map placed_text placed.now)) }
{
    let mut ids = Vec::new(alloc);
    for one in placed {
        add_excluded(&mut ids, one)?;
    }
    Ok(ids)
}
