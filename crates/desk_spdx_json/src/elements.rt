//! The elements of a document, each of which is written once. Tools write an element several times,
//! such as a package once for each folder that it is in.

ghost use Rattle.std.specs.Prelude.{◌≡◌, ◌++◌, IfOk, OnOk, Some, map};
ghost use Rattle.std.specs.String.{string_bytes};
ghost use Rattle.desk_tagvalue.specs.Drafts.{in_text, one_line, spelled, text_of_lines};
ghost use Rattle.desk_spdx_json.specs.Steps.{lines_in, step_text};
ghost use Rattle.desk_spdx_json.specs.Elements.{ElementText, element_text, merged, read_of, seen_in, seen_text, steps_beside, Keeps};

use crate::steps::{Step, Steps, What};
use desk_fields::Tag;
use std::alloc::{AllocError, Global};
use std::collections::BTreeMap;

/// An element of a document.
#[derive(Drop)]
pub struct Element<'a> {
    /// Its place, a JSON pointer.
    pub at: String,
    /// Its identifier.
    pub id: String,
    /// Its steps.
    pub steps: Steps<'a>,
}

/// What is kept of an element.
#[derive(Drop)]
pub(crate) struct Seen {
    /// Its place.
    pub(crate) at: String,
    /// The text of its lines.
    pub(crate) text: String,
}

// Adds the text of a field on one line.
fn add_one_line(out: &mut String, tag: Tag, value: &str) -> Result<(), AllocError>
    ensures { OnOk result (string_bytes out.new
        ≡ string_bytes out.old ++ spelled (one_line tag value.now)) }
{
    let name = tag.name();
    write!(out, "{name}: {value}\n")
}

// Adds the text of a field in `<text>`.
fn add_in_text(out: &mut String, tag: Tag, value: &str) -> Result<(), AllocError>
    ensures { OnOk result (string_bytes out.new
        ≡ string_bytes out.old ++ spelled (in_text tag value.now)) }
{
    let name = tag.name();
    write!(out, "{name}: <text>{value}</text>\n")
}

// Adds the text of a step, if it writes a line.
fn add_text(out: &mut String, step: &Step) -> Result<(), AllocError>
    ensures { OnOk result (string_bytes out.new
        ≡ string_bytes out.old ++ text_of_lines (lines_in (step_text step.now))) }
{
    match &step.what {
        What::Blank => out.push_str("\n"),
        What::OneLine(tag, text) => add_one_line(out, *tag, *text),
        What::InText(tag, text) => add_in_text(out, *tag, *text),
        What::Composed(tag, text) => add_one_line(out, *tag, text.as_str()),
        _ => Ok(()),
    }
}

// What the desk reads of an element with these steps.
fn read_of(alloc: Global, steps: &[Step]) -> Result<String, AllocError>
    ensures { IfOk result (λ text. string_bytes text ≡ read_of (map step_text steps.now)) }
{
    let mut text = String::new(alloc);
    for step in steps {
        add_text(&mut text, step)?;
    }
    Ok(text)
}

// Adds the steps of an element that has the identifier of an earlier one.
fn add_again<'a>(
    alloc: Global,
    steps: &mut Steps<'a>,
    first: &Seen,
    at: &str,
    text: &str,
    own: Steps<'a>,
) -> Result<(), AllocError>
    ensures { (e : ElementText) → e.at ≡ at.now → e.steps ≡ own.entry → read_of e.steps ≡ text.now
        → OnOk result (steps.new ≡ steps.old ++ steps_beside e (Some (seen_text first.now))) }
{
    if first.text.as_str() == text {
        return steps.append_unwritten(own);
    }
    let first_at = first.at.clone()?;
    steps.add(alloc, at, What::Differs(first_at))
}

// Adds the steps of an element, and keeps it if it is the first one with its identifier.
fn add_once<'a>(
    alloc: Global,
    steps: &mut Steps<'a>,
    seen: &mut BTreeMap<String, Seen>,
    element: Element<'a>,
) -> Result<(), AllocError>
    ensures steps { OnOk result (steps.new ≡ steps.old ++ steps_beside
        (element_text element.entry) (seen_in seen.old (string_bytes element.entry.id))) }
    ensures keeps { OnOk result (Keeps (element_text element.entry) seen.old seen.new) }
{
    let Element { at, id, steps: own } = element;
    let text = read_of(alloc, own.as_slice())?;
    match seen.get(id.as_str()) {
        Some(first) => add_again(alloc, steps, first, at.as_str(), text.as_str(), own),
        None => {
            seen.insert(id, Seen { at, text })?;
            steps.append(own)
        }
    }
}

/// The steps of elements, each of which is written once. The only error is lack of memory.
pub fn merged<'a>(alloc: Global, elements: Vec<Element<'a>>) -> Result<Steps<'a>, AllocError>
    ensures { IfOk result (λ steps. steps ≡ merged (map element_text elements.entry.items)) }
{
    let mut steps = Steps::new(alloc);
    let mut seen = BTreeMap::new(alloc);
    for element in elements {
        add_once(alloc, &mut steps, &mut seen, element)?;
    }
    Ok(steps)
}
