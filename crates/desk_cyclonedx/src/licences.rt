//! The licences of a component.

ghost use Rattle.std.specs.Prelude.{◌≡◌, ◌==◌, ◌++◌, ◌∷◌, [], ℕ, List, IfOk, OnOk, Option, codes, map, option_map};
ghost use Rattle.std.specs.String.{string_bytes};
ghost use Rattle.serde_json.specs.Find.{get, as_str};
ghost use Rattle.serde_json.specs.View.{view, items_view};
ghost use Rattle.desk_spdx_json.specs.Elements.{element_text};
ghost use Rattle.desk_spdx_json.specs.Members.{member_text};
ghost use Rattle.desk_spdx_json.specs.Steps.{member_at};
ghost use Rattle.desk_spdx_json.specs.Values.{items_steps, text_fault};
ghost use Rattle.desk_cyclonedx.specs.Names.{is_licence_id};
ghost use Rattle.desk_cyclonedx.specs.Licences.{choice_steps, expression_members, extracted_by, extracted_element, count, id_fault, is_concluded, item_elements, item_steps, joined_onto, licence_members, licence_of, licence_term, licence_text, license_steps, list_steps, may_stand, name_fault, named_term, plain_content, term_of, terms_steps, text_left, with_licence, with_term};

use crate::names::{is_licence_id, reference_of};
use desk_fields::Tag;
use desk_spdx_json::{
    Element, Form, Kind, Member, Steps, What, add_object, item_at, member_at, word_in,
};
use serde_json::Value;
use std::alloc::{AllocError, Global};

// An optional member that is written elsewhere.
macro_rules! elsewhere {
    ($key:literal) => {
        Member {
            key: $key,
            form: Form::Elsewhere,
            is_needed: false,
        }
    };
}

const LICENCE_MEMBERS: [Member; 4] = [
    elsewhere!("id"),
    elsewhere!("name"),
    elsewhere!("acknowledgement"),
    elsewhere!("text"),
];

const EXPRESSION_MEMBERS: [Member; 2] = [elsewhere!("expression"), elsewhere!("acknowledgement")];

// The object in the member `license`, or the item itself.
fn licence_of(value: &Value) -> &Value
    ensures { view result.now ≡ licence_of (view value.now) }
{
    value.get("license").unwrap_or(value)
}

// Whether a licence was concluded.
fn is_concluded(value: &Value) -> bool
    ensures { result ≡ is_concluded (view value.now) }
{
    word_in(licence_of(value), "acknowledgement") == "concluded"
}

// The text of a licence, if it isn't encoded.
fn plain_content(value: &Value) -> Option<&str>
    ensures { option_map (λ t. t.now) result ≡ plain_content (view value.now) }
{
    if value.get("encoding").is_some() {
        return None;
    }
    value.get("content").and_then(Value::as_str)
}

// The text that belongs to a licence which is named and has no SPDX identifier.
fn licence_text(licence: &Value) -> Option<&str>
    ensures { option_map (λ t. t.now) result ≡ licence_text (view licence.now) }
{
    if licence.get("id").is_some() || is_licence_id(word_in(licence, "name")) {
        return None;
    }
    licence.get("text").and_then(plain_content)
}

// Adds a name as a term.
fn named_term(alloc: Global, name: &str, licence: &Value) -> Result<String, AllocError>
    ensures { IfOk result (λ t. string_bytes t ≡ named_term name.now (view licence.now)) }
{
    if is_licence_id(name) {
        return String::from_str(alloc, name);
    }
    reference_of(alloc, name, licence_text(licence))
}

// The identifier of a licence, or its name as a term.
fn licence_term(alloc: Global, licence: &Value) -> Result<String, AllocError>
    ensures { IfOk result (λ t. string_bytes t ≡ licence_term (view licence.now)) }
{
    if licence.get("id").is_some() {
        return String::from_str(alloc, word_in(licence, "id"));
    }
    named_term(alloc, word_in(licence, "name"), licence)
}

// The expression, or the term of a licence.
fn term_of(alloc: Global, value: &Value) -> Result<String, AllocError>
    ensures { IfOk result (λ t. string_bytes t ≡ term_of (view value.now)) }
{
    if value.get("expression").is_some() {
        return String::from_str(alloc, word_in(value, "expression"));
    }
    licence_term(alloc, licence_of(value))
}

// Adds a term.
fn add_term(text: &mut String, term: &str) -> Result<(), AllocError>
    ensures { OnOk result (string_bytes text.new ≡ with_term (string_bytes text.old) term.now) }
{
    if !text.is_empty() {
        text.push_str(" AND ")?;
    }
    text.push_str(term)
}

// Adds the term of a licence, if that was concluded, or declared, as is asked for.
fn add_licence(
    alloc: Global,
    text: &mut String,
    concluded: bool,
    value: &Value,
) -> Result<(), AllocError>
    ensures { OnOk result (string_bytes text.new
        ≡ with_licence concluded (string_bytes text.old) (view value.now)) }
{
    if is_concluded(value) != concluded {
        return Ok(());
    }
    let term = term_of(alloc, value)?;
    add_term(text, term.as_str())
}

// The terms of licences, joined by AND.
fn joined(alloc: Global, concluded: bool, list: &[Value]) -> Result<String, AllocError>
    ensures { IfOk result (λ text. string_bytes text
        ≡ joined_onto concluded [] (items_view list.now)) }
{
    let mut text = String::new(alloc);
    for value in list {
        add_licence(alloc, &mut text, concluded, value)?;
    }
    Ok(text)
}

// Adds the line of the concluded or the declared licences.
fn add_terms(
    alloc: Global,
    steps: &mut Steps<'_>,
    at: &str,
    tag: Tag,
    terms: String,
) -> Result<(), AllocError>
    ensures { OnOk result (steps.new
        ≡ steps.old ++ terms_steps at.now tag (string_bytes terms)) }
{
    if terms.is_empty() {
        return Ok(());
    }
    steps.add(alloc, at, What::Composed(tag, terms))
}

// Leaves out a text that isn't written.
fn leave_text(alloc: Global, steps: &mut Steps<'_>, licence: &Value) -> Result<(), AllocError>
    ensures { OnOk result (steps.new ≡ steps.old ++ text_left (view licence.now)) }
{
    if licence.get("text").is_some() && licence_text(licence).is_none() {
        return steps.add(alloc, "", What::LeftOut(Kind::Field));
    }
    Ok(())
}

/// Adds what is wrong with a name.
pub(crate) fn add_name_fault(
    alloc: Global,
    steps: &mut Steps<'_>,
    at: &str,
    name: Option<&Value>,
) -> Result<(), AllocError>
    ensures { OnOk result (steps.new
        ≡ steps.old ++ name_fault at.now (option_map (λ v. view v.now) name.entry)) }
{
    match name {
        Some(name) if name.as_str().is_some() => Ok(()),
        Some(_) => steps.add(alloc, at, What::BadType),
        None => steps.add(alloc, at, What::Missing),
    }
}

// Adds what is wrong with a text.
fn add_id_text_fault(
    alloc: Global,
    steps: &mut Steps<'_>,
    at: &str,
    id: &Value,
) -> Result<(), AllocError>
    ensures { OnOk result (steps.new ≡ steps.old
        ++ text_fault at.now is_licence_id (as_str (view id.now))) }
{
    match id.as_str() {
        Some(text) if is_licence_id(text) => Ok(()),
        Some(_) => steps.add(alloc, at, What::BadValue),
        None => steps.add(alloc, at, What::BadType),
    }
}

// Adds what is wrong with the id of a licence, or with its name.
fn add_id_fault(
    alloc: Global,
    steps: &mut Steps<'_>,
    at: &str,
    licence: &Value,
) -> Result<(), AllocError>
    ensures { OnOk result (steps.new ≡ steps.old
        ++ id_fault at.now (view licence.now) (get (codes "id") (view licence.now))) }
{
    match licence.get("id") {
        Some(id) => {
            let place = member_at(alloc, at, "id")?;
            add_id_text_fault(alloc, steps, &place, id)
        }
        None => {
            let place = member_at(alloc, at, "name")?;
            add_name_fault(alloc, steps, &place, licence.get("name"))
        }
    }
}

// Adds the steps of the object in the member `license`.
fn add_license<'a>(
    alloc: Global,
    steps: &mut Steps<'a>,
    at: &str,
    licence: Option<&'a Value>,
) -> Result<(), AllocError>
    ensures { OnOk result (steps.new ≡ steps.old
        ++ license_steps at.now (option_map (λ v. view v.now) licence.entry)) }
{
    let Some(licence) = licence else {
        return steps.add(alloc, at, What::Missing);
    };
    add_object(alloc, steps, at, licence, &LICENCE_MEMBERS)?;
    add_id_fault(alloc, steps, at, licence)?;
    leave_text(alloc, steps, licence)
}

// Adds what is wrong with an expression.
fn add_expression_fault(
    alloc: Global,
    steps: &mut Steps<'_>,
    alone: bool,
    at: &str,
    expression: &Value,
) -> Result<(), AllocError>
    ensures { OnOk result (steps.new ≡ steps.old
        ++ text_fault at.now (may_stand alone) (as_str (view expression.now))) }
{
    match expression.as_str() {
        Some(text) if alone && !text.is_empty() => Ok(()),
        Some(_) => steps.add(alloc, at, What::BadValue),
        None => steps.add(alloc, at, What::BadType),
    }
}

// Adds the steps of an item of the list.
fn add_item<'a>(
    alloc: Global,
    steps: &mut Steps<'a>,
    alone: bool,
    at: &str,
    value: &'a Value,
) -> Result<(), AllocError>
    ensures { OnOk result (steps.new ≡ steps.old ++ item_steps alone at.now (view value.now)) }
{
    match value.get("expression") {
        Some(expression) => {
            add_object(alloc, steps, at, value, &EXPRESSION_MEMBERS)?;
            let place = member_at(alloc, at, "expression")?;
            add_expression_fault(alloc, steps, alone, &place, expression)
        }
        None => {
            let place = member_at(alloc, at, "license")?;
            add_license(alloc, steps, &place, value.get("license"))
        }
    }
}

// Adds the steps of each item of the list.
fn add_items<'a>(
    alloc: Global,
    steps: &mut Steps<'a>,
    alone: bool,
    at: &str,
    list: &'a [Value],
) -> Result<(), AllocError>
    ensures { OnOk result (steps.new ≡ steps.old
        ++ items_steps (item_steps alone) at.now 0 (items_view list.now)) }
{
    for (i, value) in list.iter().enumerate() {
        let place = item_at(alloc, at, i)?;
        add_item(alloc, steps, alone, &place, value)?;
    }
    Ok(())
}

fn is_alone(list: &[Value]) -> bool
    ensures { result ≡ (count (items_view list.now) == 1) }
{
    list.len() == 1
}

/// Adds the steps of a list of licences.
pub(crate) fn add_list<'a>(
    alloc: Global,
    steps: &mut Steps<'a>,
    at: &str,
    list: &'a [Value],
) -> Result<(), AllocError>
    ensures { OnOk result (steps.new ≡ steps.old ++ list_steps at.now (items_view list.now)) }
{
    let terms = joined(alloc, true, list)?;
    add_terms(alloc, steps, at, Tag::PackageConcluded, terms)?;
    let terms = joined(alloc, false, list)?;
    add_terms(alloc, steps, at, Tag::PackageDeclared, terms)?;
    add_items(alloc, steps, is_alone(list), at, list)
}

// The element of a licence with its text.
fn extracted_element<'a>(
    alloc: Global,
    at: String,
    id: String,
    text: &'a str,
) -> Result<Element<'a>, AllocError>
    ensures { IfOk result (λ e. element_text e
        ≡ extracted_element (string_bytes at) (string_bytes id) text.now) }
{
    let mut steps = Steps::new(alloc);
    steps.add(alloc, at.as_str(), What::Blank)?;
    let written = id.clone()?;
    steps.add(
        alloc,
        at.as_str(),
        What::Composed(Tag::LicenseIdentifier, written),
    )?;
    let place = member_at(alloc, at.as_str(), "text")?;
    steps.add(
        alloc,
        place.as_str(),
        What::InText(Tag::ExtractedText, text),
    )?;
    Ok(Element { at, id, steps })
}

// Adds the element of a licence, if it has a text.
fn add_extracted<'a>(
    alloc: Global,
    elements: &mut Vec<Element<'a>>,
    at: &str,
    licence: &'a Value,
) -> Result<(), AllocError>
    ensures { OnOk result (map element_text elements.new.items
        ≡ map element_text elements.old.items
        ++ extracted_by at.now (view licence.now) (licence_text (view licence.now))) }
{
    let Some(text) = licence_text(licence) else {
        return Ok(());
    };
    let id = reference_of(alloc, word_in(licence, "name"), Some(text))?;
    let at = String::from_str(alloc, at)?;
    elements.push(extracted_element(alloc, at, id, text)?)?;
    Ok(())
}

// Adds the element of an item of the list.
fn add_item_element<'a>(
    alloc: Global,
    elements: &mut Vec<Element<'a>>,
    at: &str,
    value: &'a Value,
) -> Result<(), AllocError>
    ensures { OnOk result (map element_text elements.new.items
        ≡ map element_text elements.old.items ++ item_elements at.now (view value.now)) }
{
    if value.get("expression").is_some() {
        return Ok(());
    }
    let place = member_at(alloc, at, "license")?;
    add_extracted(alloc, elements, &place, licence_of(value))
}

/// Adds the elements of a list of licences.
pub(crate) fn add_list_elements<'a>(
    alloc: Global,
    elements: &mut Vec<Element<'a>>,
    at: &str,
    list: &'a [Value],
) -> Result<(), AllocError>
    ensures { OnOk result (map element_text elements.new.items
        ≡ map element_text elements.old.items
        ++ items_steps item_elements at.now 0 (items_view list.now)) }
{
    for (i, value) in list.iter().enumerate() {
        let place = item_at(alloc, at, i)?;
        add_item_element(alloc, elements, &place, value)?;
    }
    Ok(())
}
