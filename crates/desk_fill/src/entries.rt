//! The tables of a part of a file.

ghost use Rattle.std.specs.Prelude.{◌≡◌, nat_le};
ghost use Rattle.toml.specs.Data.{get_member};
ghost use Rattle.toml.specs.View.{view, table_view, items_view};
ghost use Rattle.std.specs.Option.{option_map};
ghost use Rattle.desk_fill.specs.Reading.{count, if_few, most_entries, tables_of};
ghost use Rattle.desk_fill.specs.Shown.{Gives};

use crate::fault::{Flaw, Part};
use crate::limits;
use std::alloc::Global;
use toml::Value;

// Whether there are no more tables than there may be.
fn are_few(values: &[Value]) -> bool
    ensures { result ≡ nat_le (count (items_view values.now)) most_entries }
{
    values.len() <= limits::FILL_ENTRIES
}

// The tables of a part, if they aren't too many.
fn if_few(values: Vec<Value>, part: Part) -> Result<Vec<Value>, Flaw>
    ensures { Gives (if_few part (items_view values.items)) (λ few. items_view few.items) result }
{
    if are_few(values.as_slice()) {
        Ok(values)
    } else {
        Err(Flaw::NoList(part))
    }
}

/// The entries of a part; a part that is absent has none.
pub(crate) fn tables_of(alloc: Global, value: Option<Value>, part: Part) -> Result<Vec<Value>, Flaw>
    ensures { Gives (tables_of part (option_map view value)) (λ values. items_view values.items) result }
{
    match value {
        None => Ok(Vec::new(alloc)),
        Some(Value::Array(values)) => if_few(values, part),
        Some(_) => Err(Flaw::NoList(part)),
    }
}
