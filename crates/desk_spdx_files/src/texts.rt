//! Texts in a JSON value.

ghost use Rattle.std.specs.Prelude.{◌≡◌, ◌++◌, OnOk};
ghost use Rattle.serde_json.specs.Find.{as_str};
ghost use Rattle.serde_json.specs.View.{view, items_view};
ghost use Rattle.desk_base.specs.Borrowed.{texts};
ghost use Rattle.desk_spdx_files.specs.Texts.{id_in, ids_of, items_of, listed_in, text_itself, text_or_empty, texts_by, word_in};

use serde_json::Value;
use std::alloc::AllocError;

/// The text of a member, or an empty one.
pub fn word_in<'a>(value: &'a Value, key: &str) -> &'a str
    ensures { result.now ≡ word_in key.now (view value.now) }
{
    match value.get(key) {
        Some(member) => member.as_str().unwrap_or(""),
        None => "",
    }
}

/// The text of a value, or an empty one.
pub fn text_or_empty(value: &Value) -> &str
    ensures { result.now ≡ text_or_empty (as_str (view value.now)) }
{
    value.as_str().unwrap_or("")
}

/// The items of the list in a member, if there is one.
pub(crate) fn items_of<'a>(value: &'a Value, key: &str) -> &'a [Value]
    ensures { items_view result.now ≡ items_of key.now (view value.now) }
{
    match value.get(key).and_then(Value::as_array) {
        Some(list) => list.as_slice(),
        None => &[],
    }
}

// Adds the identifiers of elements.
fn add_ids<'a>(found: &mut Vec<&'a str>, list: &'a [Value], key: &str) -> Result<(), AllocError>
    ensures { OnOk result (texts found.new.items
        ≡ texts found.old.items ++ texts_by (id_in key.now) (items_view list.now)) }
{
    for value in list {
        found.push(word_in(value, key))?;
    }
    Ok(())
}

/// Adds the identifiers of the elements in a member.
pub(crate) fn add_ids_of<'a>(
    found: &mut Vec<&'a str>,
    value: &'a Value,
    list: &str,
    key: &str,
) -> Result<(), AllocError>
    ensures { OnOk result (texts found.new.items
        ≡ texts found.old.items ++ ids_of list.now key.now (view value.now)) }
{
    add_ids(found, items_of(value, list), key)
}

// Adds identifiers that are listed.
fn add_listed<'a>(found: &mut Vec<&'a str>, list: &'a [Value]) -> Result<(), AllocError>
    ensures { OnOk result (texts found.new.items
        ≡ texts found.old.items ++ texts_by text_itself (items_view list.now)) }
{
    for value in list {
        found.push(text_or_empty(value))?;
    }
    Ok(())
}

/// Adds the identifiers that a member lists.
pub(crate) fn add_listed_in<'a>(
    found: &mut Vec<&'a str>,
    value: &'a Value,
    list: &str,
) -> Result<(), AllocError>
    ensures { OnOk result (texts found.new.items
        ≡ texts found.old.items ++ listed_in list.now (view value.now)) }
{
    add_listed(found, items_of(value, list))
}
