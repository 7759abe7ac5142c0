//! The steps of a document.

ghost use Rattle.std.specs.Prelude.{◌≡◌, ◌++◌, ℕ, List, IfOk, OnOk, codes, map};
ghost use Rattle.serde_json.specs.Find.{get};
ghost use Rattle.serde_json.specs.View.{view, items_view};
ghost use Rattle.desk_base.specs.Borrowed.{texts, texts_in};
ghost use Rattle.desk_spdx_json.specs.Steps.{member_at};
ghost use Rattle.desk_spdx_json.specs.Elements.{element_text, merged};
ghost use Rattle.desk_spdx_json.specs.Values.{if_array, items_steps};
ghost use Rattle.desk_spdx_json.specs.Documents.{creation_steps, all_parts, elements_by, is_describing, target_of, targets_in, targets, described_steps, in_document};
ghost use Rattle.desk_spdx_json.specs.Files.{steps_in, steps_with};
ghost use Rattle.desk_spdx_json.specs.Kept.{kept_at, kept_relationship, kept_steps};
ghost use Rattle.desk_base.specs.TextSets.{IsSetOf, has_text};

use crate::elements::{Element, merged};
use crate::members::{CREATION_MEMBERS, DOCUMENT_MEMBERS};
use crate::parts::{Part, add_no_list, add_object, add_parts, add_relationships, list_key};
use crate::steps::{Steps, What, item_at, member_at};
use crate::ties::add_tie;
use desk_base::text_set;
use desk_spdx_files::{DOCUMENT_ID, Files, idle_by, word_in};
use serde_json::Value;
use std::alloc::{AllocError, Global};
use std::collections::BTreeSet;

// Adds how the document was created.
fn add_creation<'a>(
    alloc: Global,
    steps: &mut Steps<'a>,
    at: &str,
    value: &'a Value,
) -> Result<(), AllocError>
    ensures { OnOk result (steps.new ≡ steps.old
        ++ creation_steps (member_at at.now (codes "creationInfo")) (get (codes "creationInfo") (view value.now))) }
{
    let place = member_at(alloc, at, "creationInfo")?;
    match value.get("creationInfo") {
        Some(creation) => add_object(alloc, steps, &place, creation, &CREATION_MEMBERS),
        None => Ok(()),
    }
}

// Adds the parts of one kind in the document.
fn add_list<'a>(
    alloc: Global,
    elements: &mut Vec<Element<'a>>,
    part: Part,
    at: &str,
    idle: &BTreeSet<&str>,
    value: &'a Value,
) -> Result<(), AllocError>
    ensures { OnOk result (map element_text elements.new.items ≡ map element_text elements.old.items
        ++ all_parts (kept_steps (has_text idle.now)) part at.now (view value.now)) }
{
    let key = list_key(part);
    let place = member_at(alloc, at, key)?;
    let Some(parts) = value.get(key) else {
        return Ok(());
    };
    match parts.as_array() {
        Some(list) => add_parts(alloc, elements, part, &place, idle, list.as_slice()),
        None => add_no_list(alloc, elements, &place),
    }
}

// The elements of the document.
fn elements_by<'a>(
    alloc: Global,
    at: &str,
    idle: &BTreeSet<&str>,
    value: &'a Value,
) -> Result<Vec<Element<'a>>, AllocError>
    ensures { IfOk result (λ es. map element_text es.items
        ≡ elements_by (kept_steps (has_text idle.now)) at.now (view value.now)) }
{
    let mut found = Vec::new(alloc);
    add_list(alloc, &mut found, Part::File, at, idle, value)?;
    add_list(alloc, &mut found, Part::Snippet, at, idle, value)?;
    add_list(alloc, &mut found, Part::Package, at, idle, value)?;
    add_list(alloc, &mut found, Part::Extracted, at, idle, value)?;
    Ok(found)
}

// Adds the steps of the elements of the document.
fn add_elements<'a>(
    alloc: Global,
    steps: &mut Steps<'a>,
    at: &str,
    idle: &BTreeSet<&str>,
    value: &'a Value,
) -> Result<(), AllocError>
    ensures { OnOk result (steps.new ≡ steps.old
        ++ merged (elements_by (kept_steps (has_text idle.now)) at.now (view value.now))) }
{
    let elements = elements_by(alloc, at, idle, value)?;
    steps.append(merged(alloc, elements)?)
}

// Adds the relationships of the document.
fn add_all_relationships<'a>(
    alloc: Global,
    steps: &mut Steps<'a>,
    at: &str,
    idle: &BTreeSet<&str>,
    value: &'a Value,
) -> Result<(), AllocError>
    ensures { OnOk result (steps.new ≡ steps.old ++ if_array (kept_relationship (has_text idle.now))
        (member_at at.now (codes "relationships")) (get (codes "relationships") (view value.now))) }
{
    let place = member_at(alloc, at, "relationships")?;
    let Some(relationships) = value.get("relationships") else {
        return Ok(());
    };
    match relationships.as_array() {
        Some(list) => add_relationships(alloc, steps, &place, idle, list.as_slice()),
        None => steps.add(alloc, &place, What::BadType),
    }
}

// Whether a relationship says that the document describes an element.
fn is_describing(value: &Value) -> bool
    ensures { result ≡ is_describing (view value.now) }
{
    word_in(value, "spdxElementId") == DOCUMENT_ID
        && word_in(value, "relationshipType") == "DESCRIBES"
}

// Adds the element that a relationship says the document describes.
fn add_target<'a>(found: &mut Vec<&'a str>, value: &'a Value) -> Result<(), AllocError>
    ensures { OnOk result (texts found.new.items
        ≡ texts found.old.items ++ target_of (view value.now)) }
{
    if is_describing(value) {
        found.push(word_in(value, "relatedSpdxElement"))?;
    }
    Ok(())
}

// The elements that relationships say the document describes.
fn targets_in<'a>(alloc: Global, list: &'a [Value]) -> Result<Vec<&'a str>, AllocError>
    ensures { IfOk result (λ v. texts_in v ≡ targets_in (items_view list.now)) }
{
    let mut found = Vec::new(alloc);
    for value in list {
        add_target(&mut found, value)?;
    }
    Ok(found)
}

// The elements that the document's relationships say it describes.
fn targets<'a>(alloc: Global, value: &'a Value) -> Result<Vec<&'a str>, AllocError>
    ensures { IfOk result (λ v. texts_in v ≡ targets (view value.now)) }
{
    match value.get("relationships").and_then(Value::as_array) {
        Some(list) => targets_in(alloc, list.as_slice()),
        None => Ok(Vec::new(alloc)),
    }
}

// Adds that the document describes an element, unless the set has that element.
fn add_described(
    alloc: Global,
    steps: &mut Steps<'_>,
    at: &str,
    listed: &BTreeSet<&str>,
    value: &Value,
) -> Result<(), AllocError>
    ensures { (ids : List (List ℕ)) → IsSetOf ids listed.now
        → OnOk result (steps.new ≡ steps.old ++ described_steps ids at.now (view value.now)) }
{
    if let Some(id) = value.as_str() {
        if listed.contains(id) {
            return Ok(());
        }
    }
    add_tie(alloc, steps, at, DOCUMENT_ID, "DESCRIBES", value)
}

// Adds that the document describes each element of a list.
fn add_described_items(
    alloc: Global,
    steps: &mut Steps<'_>,
    at: &str,
    listed: &BTreeSet<&str>,
    list: &[Value],
) -> Result<(), AllocError>
    ensures { (ids : List (List ℕ)) → IsSetOf ids listed.now
        → OnOk result (steps.new
        ≡ steps.old ++ items_steps (described_steps ids) at.now 0 (items_view list.now)) }
{
    for (i, value) in list.iter().enumerate() {
        let place = item_at(alloc, at, i)?;
        add_described(alloc, steps, &place, listed, value)?;
    }
    Ok(())
}

// Adds what the document describes.
fn add_all_described(
    alloc: Global,
    steps: &mut Steps<'_>,
    at: &str,
    value: &Value,
) -> Result<(), AllocError>
    ensures { OnOk result (steps.new ≡ steps.old
        ++ if_array (described_steps (targets (view value.now)))
        (member_at at.now (codes "documentDescribes"))
        (get (codes "documentDescribes") (view value.now))) }
{
    let Some(described) = value.get("documentDescribes") else {
        return Ok(());
    };
    let place = member_at(alloc, at, "documentDescribes")?;
    let Some(list) = described.as_array() else {
        return steps.add(alloc, &place, What::BadType);
    };
    let listed = targets(alloc, value)?;
    let listed = text_set(alloc, listed.as_slice())?;
    add_described_items(alloc, steps, &place, &listed, list.as_slice())
}

// Adds the steps of a document at a place, without its idle files.
fn add_kept<'a>(
    alloc: Global,
    steps: &mut Steps<'a>,
    at: &str,
    idle: &BTreeSet<&str>,
    value: &'a Value,
) -> Result<(), AllocError>
    ensures { OnOk result (steps.new
        ≡ steps.old ++ kept_at (has_text idle.now) at.now (view value.now)) }
{
    add_object(alloc, steps, at, value, &DOCUMENT_MEMBERS)?;
    add_creation(alloc, steps, at, value)?;
    add_elements(alloc, steps, at, idle, value)?;
    add_all_described(alloc, steps, at, value)?;
    add_all_relationships(alloc, steps, at, idle, value)
}

// Adds the steps of a document at a place.
fn add_document<'a>(
    alloc: Global,
    steps: &mut Steps<'a>,
    at: &str,
    files: Files,
    value: &'a Value,
) -> Result<(), AllocError>
    ensures { OnOk result (steps.new ≡ steps.old ++ steps_in files at.now (view value.now)) }
{
    let idle = idle_by(alloc, files, value)?;
    add_kept(alloc, steps, at, &idle, value)
}

// Adds the steps of a document, or of the one in its member `sbom`.
fn add_steps<'a>(
    alloc: Global,
    steps: &mut Steps<'a>,
    files: Files,
    value: &'a Value,
) -> Result<(), AllocError>
    ensures { OnOk result (steps.new
        ≡ steps.old ++ in_document (steps_in files) (view value.now)) }
{
    if value.get("spdxVersion").is_some() {
        return add_document(alloc, steps, "", files, value);
    }
    match value.get("sbom") {
        Some(inner) => add_document(alloc, steps, "/sbom", files, inner),
        None => add_document(alloc, steps, "", files, value),
    }
}

/// The steps of a document with these files, in the order of the lines, or `AllocError` if no memory
/// is left.
pub fn document_steps<'a>(
    alloc: Global,
    value: &'a Value,
    files: Files,
) -> Result<Steps<'a>, AllocError>
    ensures { IfOk result (λ steps. steps ≡ steps_with files (view value.now)) }
{
    let mut steps = Steps::new(alloc);
    add_steps(alloc, &mut steps, files, value)?;
    Ok(steps)
}
