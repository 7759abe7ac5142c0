//! The steps of a document's parts.

ghost use Rattle.std.specs.Prelude.{◌≡◌, ◌++◌, ◌∷◌, [], IfOk, OnOk, Some, map};
ghost use Rattle.std.specs.List.{flat_map};
ghost use Rattle.std.specs.String.{string_bytes};
ghost use Rattle.serde_json.specs.View.{view, items_view, members_view};
ghost use Rattle.desk_tagvalue.specs.Drafts.{blank};
ghost use Rattle.desk_spdx_json.specs.declared.parts.Part.TheVariants as parts;
ghost use Rattle.desk_spdx_json.specs.Steps.{step, put};
ghost use Rattle.desk_spdx_json.specs.Elements.{element_text};
ghost use Rattle.desk_spdx_json.specs.Members.{member_text};
ghost use Rattle.desk_spdx_json.specs.Values.{items_steps};
ghost use Rattle.desk_spdx_json.specs.Parts.{member_steps, is_known, unknown_step, unknown_steps, object_steps, words_of, relationship_steps, element_by, list_elements, id_key, list_key, no_list};
ghost use Rattle.desk_base.specs.TextSets.{has_text};
ghost use Rattle.desk_spdx_json.specs.Kept.{kept_relationship, kept_steps};

use crate::composed::add_word_fault;
use crate::contained::add_contents;
use crate::elements::Element;
use crate::members::{
    EXTRACTED_MEMBERS, FILE_MEMBERS, Member, PACKAGE_MEMBERS, RELATIONSHIP_MEMBERS, SNIPPET_MEMBERS,
};
use crate::steps::{Kind, Steps, What, item_at, member_at};
use crate::ties::relationship_text;
use crate::values::add_value;
use desk_fields::Tag;
use desk_spdx_files::word_in;
use serde_json::{Map, Value};
use std::alloc::{AllocError, Global};
use std::collections::BTreeSet;

/// A kind of part.
#[derive(Clone, Copy)]
pub enum Part {
    /// A file (clause 8).
    File,
    /// A snippet (clause 9).
    Snippet,
    /// A package (clause 7).
    Package,
    /// An extracted licence (clause 10).
    Extracted,
}

// Adds the steps of a member.
fn add_member<'a>(
    alloc: Global,
    steps: &mut Steps<'a>,
    at: &str,
    value: &'a Value,
    member: &Member,
) -> Result<(), AllocError>
    ensures { OnOk result (steps.new
        ≡ steps.old ++ member_steps at.now (view value.now) (member_text member.now)) }
{
    let place = member_at(alloc, at, member.key)?;
    match value.get(member.key) {
        Some(found) => add_value(alloc, steps, &place, member.form, found),
        None if member.is_needed => steps.add(alloc, &place, What::Missing),
        None => Ok(()),
    }
}

// Adds the steps of some members.
fn add_members<'a>(
    alloc: Global,
    steps: &mut Steps<'a>,
    at: &str,
    value: &'a Value,
    members: &[Member],
) -> Result<(), AllocError>
    ensures { OnOk result (steps.new ≡ steps.old
        ++ flat_map (member_steps at.now (view value.now)) (map member_text members.now)) }
{
    for member in members {
        add_member(alloc, steps, at, value, member)?;
    }
    Ok(())
}

fn is_known(members: &[Member], key: &str) -> bool
    ensures { result ≡ is_known (map member_text members.now) key.now }
{
    for member in members {
        if key == member.key {
            return true;
        }
    }
    false
}

// Leaves out a member that isn't in the list.
fn leave_unknown(
    alloc: Global,
    steps: &mut Steps<'_>,
    members: &[Member],
    key: &str,
) -> Result<(), AllocError>
    ensures { OnOk result (steps.new
        ≡ steps.old ++ unknown_step (map member_text members.now) key.now) }
{
    if is_known(members, key) {
        return Ok(());
    }
    steps.add(alloc, "", What::LeftOut(Kind::Field))
}

// Leaves out all members that aren't in the list.
fn leave_all_unknown(
    alloc: Global,
    steps: &mut Steps<'_>,
    members: &[Member],
    object: &Map<String, Value>,
) -> Result<(), AllocError>
    ensures { OnOk result (steps.new ≡ steps.old
        ++ unknown_steps (map member_text members.now) (members_view object.now.entries)) }
{
    for (key, _value) in object {
        leave_unknown(alloc, steps, members, key.as_str())?;
    }
    Ok(())
}

/// Adds the steps of an object that has these members.
pub fn add_object<'a>(
    alloc: Global,
    steps: &mut Steps<'a>,
    at: &str,
    value: &'a Value,
    members: &[Member],
) -> Result<(), AllocError>
    ensures { OnOk result (steps.new ≡ steps.old
        ++ object_steps at.now (map member_text members.now) (view value.now)) }
{
    let Some(object) = value.as_object() else {
        return steps.add(alloc, at, What::BadType);
    };
    add_members(alloc, steps, at, value, members)?;
    leave_all_unknown(alloc, steps, members, object)
}

// Adds the words of a relationship.
fn add_words(
    alloc: Global,
    steps: &mut Steps<'_>,
    at: &str,
    value: &Value,
) -> Result<(), AllocError>
    ensures { OnOk result (steps.new
        ≡ steps.old ++ step at.now (put (words_of (view value.now))) ∷ []) }
{
    let left = word_in(value, "spdxElementId");
    let kind = word_in(value, "relationshipType");
    let right = word_in(value, "relatedSpdxElement");
    let text = relationship_text(alloc, left, kind, right)?;
    steps.add(alloc, at, What::Composed(Tag::Relationship, text))
}

// Adds a relationship.
fn add_relationship<'a>(
    alloc: Global,
    steps: &mut Steps<'a>,
    at: &str,
    value: &'a Value,
) -> Result<(), AllocError>
    ensures { OnOk result (steps.new ≡ steps.old ++ relationship_steps at.now (view value.now)) }
{
    add_object(alloc, steps, at, value, &RELATIONSHIP_MEMBERS)?;
    add_word_fault(alloc, steps, at, value, "spdxElementId")?;
    add_word_fault(alloc, steps, at, value, "relationshipType")?;
    add_word_fault(alloc, steps, at, value, "relatedSpdxElement")?;
    add_words(alloc, steps, at, value)
}

// Adds an object that has these members, after a blank line.
fn add_element<'a>(
    alloc: Global,
    steps: &mut Steps<'a>,
    at: &str,
    value: &'a Value,
    members: &[Member],
) -> Result<(), AllocError>
    ensures { OnOk result (steps.new ≡ steps.old ++ step [] (put blank)
        ∷ object_steps at.now (map member_text members.now) (view value.now)) }
{
    steps.add(alloc, "", What::Blank)?;
    add_object(alloc, steps, at, value, members)
}

// Adds a package.
fn add_package<'a>(
    alloc: Global,
    steps: &mut Steps<'a>,
    at: &str,
    idle: &BTreeSet<&str>,
    value: &'a Value,
) -> Result<(), AllocError>
    ensures { OnOk result (steps.new ≡ steps.old
        ++ kept_steps (has_text idle.now) parts.Package at.now (view value.now)) }
{
    add_element(alloc, steps, at, value, &PACKAGE_MEMBERS)?;
    add_contents(alloc, steps, at, idle, value)
}

// Adds a file, or that it is left out.
fn add_file<'a>(
    alloc: Global,
    steps: &mut Steps<'a>,
    at: &str,
    idle: &BTreeSet<&str>,
    value: &'a Value,
) -> Result<(), AllocError>
    ensures { OnOk result (steps.new ≡ steps.old
        ++ kept_steps (has_text idle.now) parts.File at.now (view value.now)) }
{
    if idle.contains(word_in(value, "SPDXID")) {
        return steps.add(alloc, at, What::LeftOut(Kind::File));
    }
    add_element(alloc, steps, at, value, &FILE_MEMBERS)
}

// Adds a part.
fn add_part<'a>(
    alloc: Global,
    steps: &mut Steps<'a>,
    part: Part,
    at: &str,
    idle: &BTreeSet<&str>,
    value: &'a Value,
) -> Result<(), AllocError>
    ensures { OnOk result (steps.new
        ≡ steps.old ++ kept_steps (has_text idle.now) part at.now (view value.now)) }
{
    match part {
        Part::File => add_file(alloc, steps, at, idle, value),
        Part::Snippet => add_element(alloc, steps, at, value, &SNIPPET_MEMBERS),
        Part::Package => add_package(alloc, steps, at, idle, value),
        Part::Extracted => add_element(alloc, steps, at, value, &EXTRACTED_MEMBERS),
    }
}

// The member that has the identifier of a part.
fn id_key(part: Part) -> &'static str
    ensures { result.now ≡ id_key part }
{
    match part {
        Part::Extracted => "licenseId",
        _ => "SPDXID",
    }
}

/// The member of a document that lists such parts.
pub(crate) fn list_key(part: Part) -> &'static str
    ensures { result.now ≡ list_key part }
{
    match part {
        Part::File => "files",
        Part::Snippet => "snippets",
        Part::Package => "packages",
        Part::Extracted => "hasExtractedLicensingInfos",
    }
}

// A part as an element.
fn element_of<'a>(
    alloc: Global,
    part: Part,
    at: String,
    idle: &BTreeSet<&str>,
    value: &'a Value,
) -> Result<Element<'a>, AllocError>
    ensures { IfOk result (λ e. element_text e
        ≡ element_by (kept_steps (has_text idle.now)) part (string_bytes at) (view value.now)) }
{
    let id = String::from_str(alloc, word_in(value, id_key(part)))?;
    let mut steps = Steps::new(alloc);
    add_part(alloc, &mut steps, part, at.as_str(), idle, value)?;
    Ok(Element { at, id, steps })
}

/// Adds a list that is none, as an element without an identifier.
pub(crate) fn add_no_list(
    alloc: Global,
    elements: &mut Vec<Element<'_>>,
    at: &str,
) -> Result<(), AllocError>
    ensures { OnOk result (map element_text elements.new.items
        ≡ map element_text elements.old.items ++ no_list at.now ∷ []) }
{
    let mut steps = Steps::new(alloc);
    steps.add(alloc, at, What::BadType)?;
    let id = String::new(alloc);
    let at = String::from_str(alloc, at)?;
    elements.push(Element { at, id, steps })?;
    Ok(())
}

/// Adds each part of a list.
pub(crate) fn add_parts<'a>(
    alloc: Global,
    elements: &mut Vec<Element<'a>>,
    part: Part,
    at: &str,
    idle: &BTreeSet<&str>,
    list: &'a [Value],
) -> Result<(), AllocError>
    ensures { OnOk result (map element_text elements.new.items ≡ map element_text elements.old.items
        ++ list_elements (element_by (kept_steps (has_text idle.now)) part) at.now
        (Some (items_view list.now))) }
{
    for (i, value) in list.iter().enumerate() {
        let place = item_at(alloc, at, i)?;
        elements.push(element_of(alloc, part, place, idle, value)?)?;
    }
    Ok(())
}

// Adds a relationship, unless an idle file is at one of its ends.
fn add_kept_relationship<'a>(
    alloc: Global,
    steps: &mut Steps<'a>,
    at: &str,
    idle: &BTreeSet<&str>,
    value: &'a Value,
) -> Result<(), AllocError>
    ensures { OnOk result (steps.new
        ≡ steps.old ++ kept_relationship (has_text idle.now) at.now (view value.now)) }
{
    let left = word_in(value, "spdxElementId");
    let right = word_in(value, "relatedSpdxElement");
    if idle.contains(left) || idle.contains(right) {
        return Ok(());
    }
    add_relationship(alloc, steps, at, value)
}

/// Adds each relationship of a list that has no idle file.
pub(crate) fn add_relationships<'a>(
    alloc: Global,
    steps: &mut Steps<'a>,
    at: &str,
    idle: &BTreeSet<&str>,
    list: &'a [Value],
) -> Result<(), AllocError>
    ensures { OnOk result (steps.new ≡ steps.old
        ++ items_steps (kept_relationship (has_text idle.now)) at.now 0 (items_view list.now)) }
{
    for (i, value) in list.iter().enumerate() {
        let place = item_at(alloc, at, i)?;
        add_kept_relationship(alloc, steps, &place, idle, value)?;
    }
    Ok(())
}
