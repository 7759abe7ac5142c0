//! The steps of a document.

ghost use Rattle.std.specs.Prelude.{◌≡◌, ◌++◌, ◌∷◌, [], ℕ, List, IfOk, OnOk, Option, codes, map, option_map};
ghost use Rattle.std.specs.String.{string_bytes};
ghost use Rattle.desk_fields.specs.declared.tag.Tag.TheVariants as tags;
ghost use Rattle.desk_tagvalue.specs.Drafts.{one_line};
ghost use Rattle.serde_json.specs.Find.{get};
ghost use Rattle.serde_json.specs.View.{view, items_view};
ghost use Rattle.desk_base.specs.TextSets.{IsSetOf};
ghost use Rattle.desk_spdx_json.specs.Elements.{merged};
ghost use Rattle.desk_spdx_json.specs.Values.{if_array, items_steps};
ghost use Rattle.desk_cyclonedx.specs.Boms.{bom_faults, bom_lines, bom_steps, dependency_head, dependency_line, dependency_steps, head_steps, is_bom, is_serial, is_version, metadata_steps, name_by, namespace_of, needed_fault, parts_steps, target_steps, version_fault, version_of, version_text};
ghost use Rattle.desk_cyclonedx.specs.Components.{elements_of};
ghost use Rattle.desk_cyclonedx.specs.Placed.{all_placed, placed_text};

use crate::components::{add_nested_fault, elements_of, excluded_ids, full_name};
use crate::licences::add_name_fault;
use crate::names::component_id;
use crate::placed::{MOST_DEEP, Placed, all_placed, root_of};
use desk_base::text_set;
use desk_fields::Tag;
use desk_spdx_json::{
    Form, Kind, Member, Steps, What, add_object, item_at, member_at, merged, relationship_text,
    word_in,
};
use serde_json::Value;
use std::alloc::{AllocError, Global};
use std::collections::BTreeSet;

// An optional member.
macro_rules! perhaps {
    ($key:literal, $form:expr) => {
        Member {
            key: $key,
            form: $form,
            is_needed: false,
        }
    };
}

const BOM_MEMBERS: [Member; 11] = [
    perhaps!("externalReferences", Form::LeftOut(Kind::ExternalReference)),
    perhaps!("annotations", Form::LeftOut(Kind::Annotation)),
    perhaps!("services", Form::LeftOut(Kind::Field)),
    perhaps!("vulnerabilities", Form::LeftOut(Kind::Field)),
    perhaps!("bomFormat", Form::Elsewhere),
    perhaps!("specVersion", Form::Elsewhere),
    perhaps!("serialNumber", Form::Elsewhere),
    perhaps!("version", Form::Elsewhere),
    perhaps!("metadata", Form::Elsewhere),
    perhaps!("components", Form::Elsewhere),
    perhaps!("dependencies", Form::Elsewhere),
];

const METADATA_MEMBERS: [Member; 2] = [
    perhaps!("timestamp", Form::OneLine(Tag::Created)),
    perhaps!("component", Form::Elsewhere),
];

const DEPENDENCY_MEMBERS: [Member; 2] = [
    perhaps!("ref", Form::Elsewhere),
    perhaps!("dependsOn", Form::Elsewhere),
];

/// Whether a value is a CycloneDX document.
pub fn is_bom(value: &Value) -> bool
    ensures { result ≡ is_bom (view value.now) }
{
    word_in(value, "bomFormat") == "CycloneDX"
}

fn is_version(text: &str) -> bool
    ensures { result ≡ is_version text.now }
{
    text == "1.4" || text == "1.5" || text == "1.6"
}

fn is_serial(text: &str) -> bool
    ensures { result ≡ is_serial text.now }
{
    text.as_bytes().starts_with(b"urn:uuid:")
}

// Adds what is wrong with the version of the format.
fn add_version_fault(
    alloc: Global,
    steps: &mut Steps<'_>,
    at: &str,
    found: Option<&Value>,
) -> Result<(), AllocError>
    ensures { OnOk result (steps.new ≡ steps.old
        ++ needed_fault at.now is_version (option_map (λ v. view v.now) found.entry)) }
{
    let Some(found) = found else {
        return steps.add(alloc, at, What::Missing);
    };
    match found.as_str() {
        Some(text) if is_version(text) => Ok(()),
        Some(_) => steps.add(alloc, at, What::BadValue),
        None => steps.add(alloc, at, What::BadType),
    }
}

// Adds what is wrong with the serial number.
fn add_serial_fault(
    alloc: Global,
    steps: &mut Steps<'_>,
    at: &str,
    found: Option<&Value>,
) -> Result<(), AllocError>
    ensures { OnOk result (steps.new ≡ steps.old
        ++ needed_fault at.now is_serial (option_map (λ v. view v.now) found.entry)) }
{
    let Some(found) = found else {
        return steps.add(alloc, at, What::Missing);
    };
    match found.as_str() {
        Some(text) if is_serial(text) => Ok(()),
        Some(_) => steps.add(alloc, at, What::BadValue),
        None => steps.add(alloc, at, What::BadType),
    }
}

// The number of a version of a document.
fn version_of(found: Option<&Value>) -> Option<u64>
    ensures { result ≡ version_of (option_map (λ v. view v.now) found.entry) }
{
    match found {
        Some(found) => found.as_u64(),
        None => Some(1),
    }
}

// Adds that it must be a number.
fn add_number_fault(
    alloc: Global,
    steps: &mut Steps<'_>,
    version: Option<u64>,
) -> Result<(), AllocError>
    ensures { OnOk result (steps.new ≡ steps.old ++ version_fault version) }
{
    match version {
        Some(_) => Ok(()),
        None => steps.add(alloc, "/version", What::BadType),
    }
}

// Adds what is wrong with the document's own members.
fn add_faults(alloc: Global, steps: &mut Steps<'_>, value: &Value) -> Result<(), AllocError>
    ensures { OnOk result (steps.new ≡ steps.old ++ bom_faults (view value.now)) }
{
    add_version_fault(alloc, steps, "/specVersion", value.get("specVersion"))?;
    add_serial_fault(alloc, steps, "/serialNumber", value.get("serialNumber"))?;
    add_number_fault(alloc, steps, version_of(value.get("version")))
}

// The name of a document.
fn name_by(alloc: Global, value: &Value, root: Option<&Value>) -> Result<String, AllocError>
    ensures { IfOk result (λ name. string_bytes name
        ≡ name_by (view value.now) (option_map (λ v. view v.now) root.entry)) }
{
    match root {
        Some(root) => full_name(alloc, root),
        None => String::from_str(alloc, word_in(value, "serialNumber")),
    }
}

// The number of a version as it is written.
fn version_text(alloc: Global, version: Option<u64>) -> Result<String, AllocError>
    ensures { IfOk result (λ text. string_bytes text ≡ version_text version) }
{
    match version {
        Some(version) => format!(in alloc; "{version}"),
        None => Ok(String::new(alloc)),
    }
}

// The namespace of a document.
fn namespace_of(alloc: Global, value: &Value) -> Result<String, AllocError>
    ensures { IfOk result (λ text. string_bytes text ≡ namespace_of (view value.now)) }
{
    let version = version_text(alloc, version_of(value.get("version")))?;
    let (serial, version) = (word_in(value, "serialNumber"), version.as_str());
    format!(in alloc; "{serial}/{version}")
}

// Adds the document's own lines.
fn add_lines(alloc: Global, steps: &mut Steps<'_>, value: &Value) -> Result<(), AllocError>
    ensures { OnOk result (steps.new ≡ steps.old ++ bom_lines (view value.now)) }
{
    steps.add(alloc, "", What::OneLine(Tag::Version, "SPDX-2.3"))?;
    steps.add(alloc, "", What::OneLine(Tag::DataLicense, "CC0-1.0"))?;
    steps.add(
        alloc,
        "",
        What::OneLine(Tag::Identifier, "SPDXRef-DOCUMENT"),
    )?;
    let name = name_by(alloc, value, root_of(value))?;
    let name = What::Composed(Tag::DocumentName, name);
    steps.add(alloc, "/metadata/component/name", name)?;
    let namespace = namespace_of(alloc, value)?;
    let namespace = What::Composed(Tag::DocumentNamespace, namespace);
    steps.add(alloc, "/serialNumber", namespace)?;
    steps.add(
        alloc,
        "",
        What::OneLine(Tag::Creator, "Tool: licence-desk-1"),
    )
}

// Adds the steps of `metadata`, if it is there.
fn add_metadata<'a>(
    alloc: Global,
    steps: &mut Steps<'a>,
    found: Option<&'a Value>,
) -> Result<(), AllocError>
    ensures { OnOk result (steps.new ≡ steps.old
        ++ metadata_steps (option_map (λ v. view v.now) found.entry)) }
{
    match found {
        Some(found) => add_object(alloc, steps, "/metadata", found, &METADATA_MEMBERS),
        None => Ok(()),
    }
}

// That a component depends on another one.
fn dependency_text(
    alloc: Global,
    excluded: &BTreeSet<&str>,
    left: &str,
    right: &str,
) -> Result<String, AllocError>
    ensures { (ids : List (List ℕ)) → IsSetOf ids excluded.now → IfOk result (λ text.
        one_line tags.Relationship (string_bytes text) ≡ dependency_line ids left.now right.now) }
{
    if excluded.contains(right) {
        return relationship_text(alloc, right, "DEV_DEPENDENCY_OF", left);
    }
    relationship_text(alloc, left, "DEPENDS_ON", right)
}

// Adds an item of `dependsOn`.
fn add_target(
    alloc: Global,
    steps: &mut Steps<'_>,
    excluded: &BTreeSet<&str>,
    left: &str,
    at: &str,
    value: &Value,
) -> Result<(), AllocError>
    ensures { (ids : List (List ℕ)) → IsSetOf ids excluded.now → OnOk result (steps.new
        ≡ steps.old ++ target_steps ids left.now at.now (view value.now)) }
{
    let Some(reference) = value.as_str() else {
        return steps.add(alloc, at, What::BadType);
    };
    let right = component_id(alloc, reference)?;
    let text = dependency_text(alloc, excluded, left, right.as_str())?;
    steps.add(alloc, at, What::Composed(Tag::Relationship, text))
}

// Adds the items of `dependsOn`.
fn add_targets(
    alloc: Global,
    steps: &mut Steps<'_>,
    excluded: &BTreeSet<&str>,
    left: &str,
    at: &str,
    list: &[Value],
) -> Result<(), AllocError>
    ensures { (ids : List (List ℕ)) → IsSetOf ids excluded.now → OnOk result (steps.new
        ≡ steps.old ++ items_steps (target_steps ids left.now) at.now 0 (items_view list.now)) }
{
    for (i, value) in list.iter().enumerate() {
        let place = item_at(alloc, at, i)?;
        add_target(alloc, steps, excluded, left, &place, value)?;
    }
    Ok(())
}

// Adds the array of what a component depends on, if it is there.
fn add_depends_on(
    alloc: Global,
    steps: &mut Steps<'_>,
    excluded: &BTreeSet<&str>,
    left: &str,
    at: &str,
    found: Option<&Value>,
) -> Result<(), AllocError>
    ensures { (ids : List (List ℕ)) → IsSetOf ids excluded.now → OnOk result (steps.new
        ≡ steps.old ++ if_array (target_steps ids left.now) at.now
        (option_map (λ v. view v.now) found.entry)) }
{
    let Some(found) = found else {
        return Ok(());
    };
    match found.as_array() {
        Some(list) => add_targets(alloc, steps, excluded, left, at, list.as_slice()),
        None => steps.add(alloc, at, What::BadType),
    }
}

// Adds what is wrong with a dependency, and what is left out of it.
fn add_dependency_head<'a>(
    alloc: Global,
    steps: &mut Steps<'a>,
    at: &str,
    value: &'a Value,
) -> Result<(), AllocError>
    ensures { OnOk result (steps.new ≡ steps.old
        ++ dependency_head at.now (view value.now)) }
{
    add_object(alloc, steps, at, value, &DEPENDENCY_MEMBERS)?;
    let place = member_at(alloc, at, "ref")?;
    add_name_fault(alloc, steps, &place, value.get("ref"))
}

// Adds a dependency.
fn add_dependency<'a>(
    alloc: Global,
    steps: &mut Steps<'a>,
    excluded: &BTreeSet<&str>,
    at: &str,
    value: &'a Value,
) -> Result<(), AllocError>
    ensures { (ids : List (List ℕ)) → IsSetOf ids excluded.now → OnOk result (steps.new
        ≡ steps.old ++ dependency_steps ids at.now (view value.now)) }
{
    add_dependency_head(alloc, steps, at, value)?;
    let left = component_id(alloc, word_in(value, "ref"))?;
    let place = member_at(alloc, at, "dependsOn")?;
    add_depends_on(
        alloc,
        steps,
        excluded,
        &left,
        &place,
        value.get("dependsOn"),
    )
}

// Adds each dependency of a list.
fn add_dependencies<'a>(
    alloc: Global,
    steps: &mut Steps<'a>,
    excluded: &BTreeSet<&str>,
    at: &str,
    list: &'a [Value],
) -> Result<(), AllocError>
    ensures { (ids : List (List ℕ)) → IsSetOf ids excluded.now → OnOk result (steps.new
        ≡ steps.old ++ items_steps (dependency_steps ids) at.now 0 (items_view list.now)) }
{
    for (i, value) in list.iter().enumerate() {
        let place = item_at(alloc, at, i)?;
        add_dependency(alloc, steps, excluded, &place, value)?;
    }
    Ok(())
}

// Adds the dependencies of a document, if they are there.
fn add_dependencies_in<'a>(
    alloc: Global,
    steps: &mut Steps<'a>,
    excluded: &BTreeSet<&str>,
    at: &str,
    found: Option<&'a Value>,
) -> Result<(), AllocError>
    ensures { (ids : List (List ℕ)) → IsSetOf ids excluded.now → OnOk result (steps.new
        ≡ steps.old ++ if_array (dependency_steps ids) at.now
        (option_map (λ v. view v.now) found.entry)) }
{
    let Some(found) = found else {
        return Ok(());
    };
    match found.as_array() {
        Some(list) => add_dependencies(alloc, steps, excluded, at, list.as_slice()),
        None => steps.add(alloc, at, What::BadType),
    }
}

// Adds the steps of all components.
fn add_components<'a>(
    alloc: Global,
    steps: &mut Steps<'a>,
    placed: &[Placed<'a>],
) -> Result<(), AllocError>
    ensures { OnOk result (steps.new
        ≡ steps.old ++ merged (elements_of (map placed_text placed.now))) }
{
    let elements = elements_of(alloc, placed)?;
    steps.append(merged(alloc, elements)?)
}

// Adds the components of a document and its dependencies.
fn add_parts<'a>(alloc: Global, steps: &mut Steps<'a>, value: &'a Value) -> Result<(), AllocError>
    ensures { OnOk result (steps.new ≡ steps.old ++ parts_steps (view value.now)) }
{
    let placed = all_placed(alloc, value)?;
    add_components(alloc, steps, placed.as_slice())?;
    let excluded = excluded_ids(alloc, placed.as_slice())?;
    let excluded = text_set(alloc, excluded.as_slice())?;
    let found = value.get("dependencies");
    add_dependencies_in(alloc, steps, &excluded, "/dependencies", found)
}

// Adds the document's own steps.
fn add_head<'a>(alloc: Global, steps: &mut Steps<'a>, value: &'a Value) -> Result<(), AllocError>
    ensures { OnOk result (steps.new ≡ steps.old ++ head_steps (view value.now)) }
{
    add_object(alloc, steps, "", value, &BOM_MEMBERS)?;
    add_faults(alloc, steps, value)?;
    add_lines(alloc, steps, value)?;
    add_metadata(alloc, steps, value.get("metadata"))?;
    add_nested_fault(
        alloc,
        steps,
        MOST_DEEP,
        "/components",
        value.get("components"),
    )
}

/// The steps of a document, in the order of the lines, or `AllocError` if no memory is left.
pub fn bom_steps<'a>(alloc: Global, value: &'a Value) -> Result<Steps<'a>, AllocError>
    ensures { IfOk result (λ steps. steps ≡ bom_steps (view value.now)) }
{
    let mut steps = Steps::new(alloc);
    add_head(alloc, &mut steps, value)?;
    add_parts(alloc, &mut steps, value)?;
    Ok(steps)
}
