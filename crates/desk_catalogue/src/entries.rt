//! The tables of a part of a catalogue.

ghost use Rattle.std.specs.Prelude.{◌≡◌};
ghost use Rattle.toml.specs.Data.{get_member};
ghost use Rattle.toml.specs.View.{table_view, items_view};
ghost use Rattle.desk_catalogue.specs.Reading.{tables_of};
ghost use Rattle.desk_catalogue.specs.Shown.{Gives};

use crate::values::{member, take_member};
use desk_model::{CatalogueFault, CataloguePart};
use std::alloc::Global;
use toml::{Table, Value};

/// The entries of a part; a part that is absent has none.
pub(crate) fn tables_of<'a>(
    table: &'a Table,
    key: &str,
    part: CataloguePart,
) -> Result<&'a [Value], CatalogueFault>
    ensures { Gives (tables_of part (get_member key.now (table_view table.now))) (λ values.
        items_view values.now) result }
{
    match member(table, key) {
        None => Ok(&[]),
        Some(value) => match value.as_array() {
            Some(values) => Ok(values.as_slice()),
            None => Err(CatalogueFault::BadKind(part, 0)),
        },
    }
}

/// Takes the entries of a part out of a table; a part that is absent has none.
pub(crate) fn take_tables(
    alloc: Global,
    table: &mut Table,
    key: &str,
    part: CataloguePart,
) -> Result<Vec<Value>, CatalogueFault>
    ensures { Gives (tables_of part (get_member key.now (table_view table.old))) (λ values.
        items_view values.items) result }
{
    match take_member(table, key) {
        None => Ok(Vec::new(alloc)),
        Some(Value::Array(values)) => Ok(values),
        Some(_) => Err(CatalogueFault::BadKind(part, 0)),
    }
}
