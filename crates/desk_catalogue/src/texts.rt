//! The texts of licences and exceptions in a catalogue.

ghost use Rattle.std.specs.Prelude.{◌≡◌, [], IfOk, codes, option_map};
ghost use Rattle.toml.specs.Data.{get_member};
ghost use Rattle.toml.specs.View.{view, table_view, items_view};
ghost use Rattle.desk_catalogue.specs.Reading.{each, text_of, text_of_keys, text_at, with_text, licence_texts_of};
ghost use Rattle.desk_catalogue.specs.Shown.{Gives};

use crate::catalogue::LicenceText;
use crate::entries::take_tables;
use crate::values::{is_text_id, take_member};
use desk_base::{Items, Key, Text};
use desk_model::{CatalogueFault, CataloguePart};
use std::alloc::{AllocError, Global};
use std::collections::BTreeSet;
use toml::{Table, Value};

// The text for an id, if it may have one.
fn text_of(index: usize, licence: Text, body: Text) -> Result<LicenceText, CatalogueFault>
    ensures { result ≡ text_of index licence body }
{
    if is_text_id(licence.as_str()) {
        Ok(LicenceText { licence, body })
    } else {
        Err(CatalogueFault::BadTerm(CataloguePart::Text, index))
    }
}

// The text that the values of its keys give.
fn text_of_keys(
    index: usize,
    licence: Option<Value>,
    body: Option<Value>,
) -> Result<LicenceText, CatalogueFault>
    ensures { result ≡ text_of_keys index (option_map view licence) (option_map view body) }
{
    let (Some(licence), Some(body)) = (licence, body) else {
        return Err(CatalogueFault::Missing(CataloguePart::Text, index));
    };
    match (licence, body) {
        (Value::String(licence), Value::String(body)) => {
            text_of(index, Text::from(licence), Text::from(body))
        }
        _ => Err(CatalogueFault::BadKind(CataloguePart::Text, index)),
    }
}

// The text of a table.
fn text_at(index: usize, value: Value) -> Result<LicenceText, CatalogueFault>
    ensures { result ≡ text_at index (view value) }
{
    let Value::Table(mut table) = value else {
        return Err(CatalogueFault::BadKind(CataloguePart::Text, index));
    };
    let licence = take_member(&mut table, "licence");
    let body = take_member(&mut table, "body");
    text_of_keys(index, licence, body)
}

// The texts of a list, if no id occurs twice.
fn each_text(
    alloc: Global,
    values: Vec<Value>,
) -> Result<Result<Items<LicenceText>, CatalogueFault>, AllocError>
    ensures { IfOk result (Gives (each with_text [] 0 (items_view values.items)) (λ texts. texts)) }
{
    let mut texts = Items::new(alloc);
    let mut seen = BTreeSet::new(alloc);
    for value in values {
        let index = texts.as_slice().len();
        match text_at(index, value) {
            Ok(text) => {
                if !seen.insert(Key::folded(alloc, text.licence.as_str())?)? {
                    return Ok(Err(CatalogueFault::Twice(CataloguePart::Text, index)));
                }
                texts.push(text)?;
            }
            Err(fault) => return Ok(Err(fault)),
        }
    }
    Ok(Ok(texts))
}

/// The texts, in their order. They are taken out of the table, so that no body is in memory twice.
pub(crate) fn texts_of(
    alloc: Global,
    table: &mut Table,
) -> Result<Result<Items<LicenceText>, CatalogueFault>, AllocError>
    ensures { IfOk result (Gives (licence_texts_of (get_member (codes "text") (table_view table.old)))
        (λ texts. texts)) }
{
    match take_tables(alloc, table, "text", CataloguePart::Text) {
        Ok(values) => each_text(alloc, values),
        Err(fault) => Ok(Err(fault)),
    }
}
