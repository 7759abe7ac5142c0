//! The steps of arrays, item by item.

ghost use Rattle.std.specs.Prelude.{◌≡◌, ◌++◌, OnOk};
ghost use Rattle.serde_json.specs.Find.{as_array, get};
ghost use Rattle.serde_json.specs.View.{view, items_view};
ghost use Rattle.desk_spdx_json.specs.Steps.{member_at};
ghost use Rattle.desk_spdx_json.specs.Values.{if_array, in_array, items_steps};
ghost use Rattle.desk_spdx_json.specs.Items.{item_steps};

use crate::composed::{add_checksum, add_name_fault};
use crate::steps::{Steps, What, item_at, member_at};
use crate::values::one_line;
use desk_fields::Tag;
use serde_json::Value;
use std::alloc::{AllocError, Global};

/// What an item of an array is.
#[derive(Clone, Copy)]
pub(crate) enum Item {
    /// A text, which is written on a line.
    Text(Tag),
    Checksum(Tag),
    /// The name of a file that a verification code excludes; it is only checked.
    Name,
}

// Adds the steps of an item.
fn add_item<'a>(
    alloc: Global,
    steps: &mut Steps<'a>,
    at: &str,
    item: Item,
    value: &'a Value,
) -> Result<(), AllocError>
    ensures { OnOk result (steps.new
        ≡ steps.old ++ item_steps item at.now (view value.now)) }
{
    match item {
        Item::Text(tag) => steps.add(alloc, at, one_line(tag, value)),
        Item::Checksum(tag) => add_checksum(alloc, steps, at, tag, value),
        Item::Name => add_name_fault(alloc, steps, at, value),
    }
}

// Adds the steps of each item of a list.
fn add_items<'a>(
    alloc: Global,
    steps: &mut Steps<'a>,
    at: &str,
    item: Item,
    list: &'a [Value],
) -> Result<(), AllocError>
    ensures { OnOk result (steps.new
        ≡ steps.old ++ items_steps (item_steps item) at.now 0 (items_view list.now)) }
{
    for (i, value) in list.iter().enumerate() {
        let place = item_at(alloc, at, i)?;
        add_item(alloc, steps, &place, item, value)?;
    }
    Ok(())
}

/// Adds the steps of an array.
pub(crate) fn add_array<'a>(
    alloc: Global,
    steps: &mut Steps<'a>,
    at: &str,
    item: Item,
    value: &'a Value,
) -> Result<(), AllocError>
    ensures { OnOk result (steps.new
        ≡ steps.old ++ in_array (item_steps item) at.now (as_array (view value.now))) }
{
    match value.as_array() {
        Some(list) => add_items(alloc, steps, at, item, list.as_slice()),
        None => steps.add(alloc, at, What::BadType),
    }
}

/// Adds the steps of the array in a member, if the member is there.
pub(crate) fn add_array_in<'a>(
    alloc: Global,
    steps: &mut Steps<'a>,
    at: &str,
    key: &str,
    item: Item,
    value: &'a Value,
) -> Result<(), AllocError>
    ensures { OnOk result (steps.new ≡ steps.old
        ++ if_array (item_steps item) (member_at at.now key.now)
        (get key.now (view value.now))) }
{
    let Some(array) = value.get(key) else {
        return Ok(());
    };
    let place = member_at(alloc, at, key)?;
    add_array(alloc, steps, &place, item, array)
}
