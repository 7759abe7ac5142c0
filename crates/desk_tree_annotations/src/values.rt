//! The values of an annotation's keys.

ghost use Rattle.std.specs.Prelude.{◌≡◌, IfOk, option_map, map, codes};
ghost use Rattle.toml.specs.Data.{get_member, as_integer};
ghost use Rattle.toml.specs.View.{view, table_view, items_view};
ghost use Rattle.desk_tree_annotations.specs.Right.{Reading, IsRight};
ghost use Rattle.desk_tree_annotations.specs.Values.{strings, texts_of, texts_at, precedence_text, precedence_of, is_version};

use crate::annotation::Precedence;
use desk_base::{Items, TextList};
use desk_tree_patterns::Glob;
use std::alloc::{AllocError, Global};
use toml::{Table, Value};

/// The value at a key.
pub(crate) fn member<'a>(table: &'a Table, key: &str) -> Option<&'a Value>
    ensures { option_map (λ v. view v.now) result ≡ get_member key.now (table_view table.now) }
{
    table.get(key)
}

/// Whether a value is the whole number 1.
pub(crate) fn is_version(value: Option<&Value>) -> bool
    ensures { result ≡ is_version (option_map (λ v. view v.now) value.entry) }
{
    match value {
        Some(value) => value.as_integer() == Some(1),
        None => false,
    }
}

// The texts of a list that holds nothing else.
fn strings(alloc: Global, values: &[Value]) -> Result<Option<TextList>, AllocError>
    ensures { IfOk result (λ r. r ≡ strings (items_view values.now)) }
{
    let mut texts = TextList::new(alloc);
    for value in values {
        match value.as_str() {
            Some(text) => texts.push(text)?,
            None => return Ok(None),
        }
    }
    Ok(Some(texts))
}

/// The texts of a value, which is a text or a list of texts.
pub(crate) fn texts_of(alloc: Global, value: &Value) -> Result<Option<TextList>, AllocError>
    ensures { IfOk result (λ r. r ≡ texts_of (view value.now)) }
{
    if let Some(text) = value.as_str() {
        let mut texts = TextList::new(alloc);
        texts.push(text)?;
        return Ok(Some(texts));
    }
    match value.as_array() {
        Some(values) => strings(alloc, values.as_slice()),
        None => Ok(None),
    }
}

/// The texts at a key, or none if it is absent.
pub(crate) fn texts_at(
    alloc: Global,
    table: &Table,
    key: &str,
) -> Result<Option<TextList>, AllocError>
    ensures { IfOk result (λ r. r ≡ texts_at (get_member key.now (table_view table.now))) }
{
    match member(table, key) {
        Some(value) => texts_of(alloc, value),
        None => Ok(Some(TextList::new(alloc))),
    }
}

/// The text of a precedence, or `closest` if there is none.
pub(crate) fn precedence_text(table: &Table) -> Option<&str>
    ensures { option_map (λ text. text.now) result
        ≡ precedence_text (get_member (codes "precedence") (table_view table.now)) }
{
    match member(table, "precedence") {
        Some(value) => value.as_str(),
        None => Some("closest"),
    }
}

/// The precedence that a text names.
pub(crate) fn precedence_of(text: &str) -> Option<Precedence>
    ensures { result ≡ precedence_of text.now }
{
    if text == "closest" {
        return Some(Precedence::Closest);
    }
    if text == "aggregate" {
        return Some(Precedence::Aggregate);
    }
    if text == "override" {
        return Some(Precedence::Override);
    }
    None
}

/// The patterns that these texts are.
pub(crate) fn globs(alloc: Global, listed: &TextList) -> Result<Items<Glob>, AllocError>
    ensures { (r : Reading) → IsRight r → IfOk result (λ v. v ≡ map r.pieces listed.now) }
{
    let mut globs = Items::new(alloc);
    for place in 0..listed.len() {
        let glob = Glob::parse(alloc, listed.at(place))?;
        globs.push(glob)?;
    }
    Ok(globs)
}
