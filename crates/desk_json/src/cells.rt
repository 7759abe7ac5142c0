//! Lists of numbers and texts as JSON.

ghost use Rattle.std.specs.Prelude.{◌≡◌, IfOk, map};
ghost use Rattle.serde_json.specs.Data.{string};
ghost use Rattle.serde_json.specs.View.{view};
ghost use Rattle.desk_json.specs.Parts.{list, term_list};
ghost use Rattle.desk_json.specs.Cells.{cell_data};

use desk_base::Text;
use serde_json::{Value, json};
use std::alloc::{AllocError, Global};

/// A value of a list.
#[derive(Clone, Copy)]
pub(crate) enum Cell<'a> {
    Number(u64),
    Text(&'a str),
    Texts(&'a [Text]),
}

fn text_value(alloc: Global, text: &str) -> Result<Value, AllocError>
    ensures { IfOk result (λ v. view v ≡ string text.now) }
{
    json!(in alloc; text)
}

/// A list of texts.
pub(crate) fn texts(alloc: Global, texts: &[Text]) -> Result<Value, AllocError>
    ensures { IfOk result (λ v. view v ≡ term_list texts.now) }
{
    let mut values = Vec::new(alloc);
    for text in texts {
        values.push(text_value(alloc, text.as_str())?)?;
    }
    Ok(Value::Array(values))
}

fn cell_value(alloc: Global, cell: &Cell<'_>) -> Result<Value, AllocError>
    ensures { IfOk result (λ v. view v ≡ cell_data cell.now) }
{
    match *cell {
        Cell::Number(number) => json!(in alloc; number),
        Cell::Text(text) => text_value(alloc, text),
        Cell::Texts(list) => texts(alloc, list),
    }
}

/// A list of these values.
pub(crate) fn list(alloc: Global, cells: &[Cell<'_>]) -> Result<Value, AllocError>
    ensures { IfOk result (λ v. view v ≡ list (map cell_data cells.now)) }
{
    let mut values = Vec::new(alloc);
    for cell in cells {
        values.push(cell_value(alloc, cell)?)?;
    }
    Ok(Value::Array(values))
}
