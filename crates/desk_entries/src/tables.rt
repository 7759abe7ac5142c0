//! Entries as tables of TOML.

ghost use Rattle.std.specs.Prelude.{◌≡◌, ◌++◌, ◌∷◌, [], List, codes, map, IfOk, OnOk};
ghost use Rattle.std.specs.BTreeMap.{insert_entry};
ghost use Rattle.std.specs.String.{string_bytes, string_cmp};
ghost use Rattle.toml.specs.Data.{string, table};
ghost use Rattle.toml.specs.View.{items_view, table_view, view};
ghost use Rattle.desk_entries.specs.Written.{text_document, text_items, text_members};

use desk_model::LicenceText;
use std::alloc::{AllocError, Global};
use toml::{Table, Value};

// A text as a value.
fn string_value(alloc: Global, text: &str) -> Result<Value, AllocError>
    ensures { IfOk result (λ v. view v ≡ string text.now) }
{
    Ok(Value::String(String::from_str(alloc, text)?))
}

// A text with its keys.
fn text_table(alloc: Global, text: &LicenceText) -> Result<Table, AllocError>
    ensures { IfOk result (λ t. table_view t ≡ text_members text.now) }
{
    let mut table = Table::new(alloc);
    let licence = string_value(alloc, text.title.as_str())?;
    table.insert(String::from_str(alloc, "licence")?, licence)?;
    let body = string_value(alloc, text.body.as_str())?;
    table.insert(String::from_str(alloc, "body")?, body)?;
    Ok(table)
}

// The tables of some texts.
fn text_values(alloc: Global, texts: &[LicenceText]) -> Result<Vec<Value>, AllocError>
    ensures { IfOk result (λ vs. items_view vs.items ≡ text_items texts.now) }
{
    let mut values = Vec::with_capacity(alloc, texts.len())?;
    for text in texts {
        values.push(Value::Table(text_table(alloc, text)?))?;
    }
    Ok(values)
}

/// A document with some texts. The only error is lack of memory.
pub(crate) fn text_document(alloc: Global, texts: &[LicenceText]) -> Result<Table, AllocError>
    ensures { IfOk result (λ t. table_view t ≡ text_document texts.now) }
{
    let mut table = Table::new(alloc);
    let values = text_values(alloc, texts)?;
    table.insert(String::from_str(alloc, "text")?, Value::Array(values))?;
    Ok(table)
}
