//! The steps of a member's value.

ghost use Rattle.std.specs.Prelude.{◌≡◌, ◌++◌, ◌∷◌, [], OnOk, option_map};
ghost use Rattle.desk_tagvalue.specs.Drafts.{one_line, in_text};
ghost use Rattle.serde_json.specs.Find.{as_str, as_bool, as_array};
ghost use Rattle.serde_json.specs.View.{view, items_view};
ghost use Rattle.desk_spdx_json.specs.Steps.{what_text};
ghost use Rattle.desk_spdx_json.specs.Values.{line_what, copyright_line, flag_text, left_items, left_steps, value_steps};

use crate::composed::add_code;
use crate::items::{Item, add_array};
use crate::members::Form;
use crate::steps::{Kind, Steps, What};
use crate::words::is_keyword;
use desk_fields::Tag;
use serde_json::Value;
use std::alloc::{AllocError, Global};

/// A text on one line.
pub(crate) fn one_line(tag: Tag, value: &Value) -> What<'_>
    ensures { what_text result ≡ line_what (one_line tag) (as_str (view value.now)) }
{
    match value.as_str() {
        Some(text) => What::OneLine(tag, text),
        None => What::BadType,
    }
}

// A text in `<text>`.
fn in_text(tag: Tag, value: &Value) -> What<'_>
    ensures { what_text result ≡ line_what (in_text tag) (as_str (view value.now)) }
{
    match value.as_str() {
        Some(text) => What::InText(tag, text),
        None => What::BadType,
    }
}

// A copyright.
fn copyright(tag: Tag, value: &Value) -> What<'_>
    ensures { what_text result ≡ line_what (copyright_line tag) (as_str (view value.now)) }
{
    match value.as_str() {
        Some(text) if is_keyword(text) => What::OneLine(tag, text),
        Some(text) => What::InText(tag, text),
        None => What::BadType,
    }
}

// A flag.
fn flag(tag: Tag, value: &Value) -> What<'_>
    ensures { what_text result
        ≡ line_what (one_line tag) (option_map flag_text (as_bool (view value.now))) }
{
    match value.as_bool() {
        Some(true) => What::OneLine(tag, "true"),
        Some(false) => What::OneLine(tag, "false"),
        None => What::BadType,
    }
}

// Leaves out each item of a list.
fn leave_items(
    alloc: Global,
    steps: &mut Steps<'_>,
    kind: Kind,
    list: &[Value],
) -> Result<(), AllocError>
    ensures { OnOk result (steps.new ≡ steps.old ++ left_items kind (items_view list.now)) }
{
    for _value in list {
        steps.add(alloc, "", What::LeftOut(kind))?;
    }
    Ok(())
}

// Leaves out each item of an array, or another value.
fn leave_out(
    alloc: Global,
    steps: &mut Steps<'_>,
    kind: Kind,
    value: &Value,
) -> Result<(), AllocError>
    ensures { OnOk result (steps.new ≡ steps.old ++ left_steps kind (as_array (view value.now))) }
{
    match value.as_array() {
        Some(list) => leave_items(alloc, steps, kind, list.as_slice()),
        None => steps.add(alloc, "", What::LeftOut(kind)),
    }
}

/// Adds the steps of a member's value.
pub(crate) fn add_value<'a>(
    alloc: Global,
    steps: &mut Steps<'a>,
    at: &str,
    form: Form,
    value: &'a Value,
) -> Result<(), AllocError>
    ensures { OnOk result (steps.new ≡ steps.old ++ value_steps at.now form (view value.now)) }
{
    match form {
        Form::OneLine(tag) => steps.add(alloc, at, one_line(tag, value)),
        Form::InText(tag) => steps.add(alloc, at, in_text(tag, value)),
        Form::Copyright(tag) => steps.add(alloc, at, copyright(tag, value)),
        Form::Flag(tag) => steps.add(alloc, at, flag(tag, value)),
        Form::Texts(tag) => add_array(alloc, steps, at, Item::Text(tag), value),
        Form::Checksums(tag) => add_array(alloc, steps, at, Item::Checksum(tag), value),
        Form::Code(tag) => add_code(alloc, steps, at, tag, value),
        Form::LeftOut(kind) => leave_out(alloc, steps, kind, value),
        Form::Elsewhere => Ok(()),
    }
}
