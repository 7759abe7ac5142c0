//! The values of a catalogue's tables.

ghost use Rattle.std.specs.Prelude.{◌≡◌, ℕ, List, IfOk, false, option_map, map};
ghost use Rattle.std.specs.Str.{bytes_eq};
ghost use Rattle.toml.specs.Data.{get_member};
ghost use Rattle.toml.specs.View.{view, table_view, items_view};
ghost use Rattle.desk_tokens.specs.Words.{begins_like_reference};
ghost use Rattle.desk_catalogue.specs.Values.{is_id, is_text_id, is_title, id_of, title_of, strings, texts_of};

use desk_base::{are_shown, is_idstring_of_bytes, limits};
use std::alloc::{AllocError, Global};
use toml::{Table, Value};

/// The value at a key.
pub(crate) fn member<'a>(table: &'a Table, key: &str) -> Option<&'a Value>
    ensures { option_map (λ v. view v.now) result ≡ get_member key.now (table_view table.now) }
{
    table.get(key)
}

/// Takes the value at a key out of a table.
pub(crate) fn take_member(table: &mut Table, key: &str) -> Option<Value>
    ensures value { option_map view result ≡ get_member key.now (table_view table.old) }
    ensures others { (other : List ℕ) → bytes_eq key.now other ≡ false
        → get_member other (table_view table.new) ≡ get_member other (table_view table.old) }
{
    table.remove(key)
}

fn is_id(text: &str) -> bool
    ensures { result ≡ is_id text.now }
{
    is_idstring_of_bytes(text.as_bytes()) && text.len() <= limits::ID_BYTES
}

/// Whether a text begins like a reference.
pub(crate) fn begins_like_reference(text: &str) -> bool
    ensures { result ≡ begins_like_reference text.now }
{
    let bytes = text.as_bytes();
    bytes.starts_with(b"LicenseRef-") || bytes.starts_with(b"DocumentRef-")
}

/// Whether a text is an id that may have a text.
pub(crate) fn is_text_id(text: &str) -> bool
    ensures { result ≡ is_text_id text.now }
{
    is_idstring_of_bytes(text.as_bytes()) && !begins_like_reference(text)
}

fn is_title(text: &str) -> bool
    ensures { result ≡ is_title text.now }
{
    1 <= text.len() && text.len() <= limits::TITLE_BYTES && are_shown(text.as_bytes())
}

/// The idstring of a form or of a duty's code.
pub(crate) fn id_of(value: &Value) -> Option<&str>
    ensures { option_map (λ text. text.now) result ≡ id_of (view value.now) }
{
    match value.as_str() {
        Some(text) if is_id(text) => Some(text),
        _ => None,
    }
}

/// The title of a duty.
pub(crate) fn title_of(value: &Value) -> Option<&str>
    ensures { option_map (λ text. text.now) result ≡ title_of (view value.now) }
{
    match value.as_str() {
        Some(text) if is_title(text) => Some(text),
        _ => None,
    }
}

fn strings<'a>(alloc: Global, values: &'a [Value]) -> Result<Option<Vec<&'a str>>, AllocError>
    ensures { IfOk result (λ r. option_map (λ v. map (λ text. text.now) v.items) r
        ≡ strings (items_view values.now)) }
{
    let mut texts = Vec::new(alloc);
    for value in values {
        match value.as_str() {
            Some(text) => texts.push(text)?,
            None => return Ok(None),
        }
    }
    Ok(Some(texts))
}

/// The texts of a list that has nothing else.
pub(crate) fn texts_of(alloc: Global, value: &Value) -> Result<Option<Vec<&str>>, AllocError>
    ensures { IfOk result (λ r. option_map (λ v. map (λ text. text.now) v.items) r
        ≡ texts_of (view value.now)) }
{
    match value.as_array() {
        Some(values) => strings(alloc, values.as_slice()),
        None => Ok(None),
    }
}
