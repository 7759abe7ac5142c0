//! Whether a database has the desk's tables.

ghost use Rattle.std.specs.Prelude.{◌≡◌, ◌==◌, find, Bool, []};
ghost use Rattle.std.specs.Bool.{Decides};
ghost use Rattle.std.specs.List.{AllByRecursion};
ghost use Rattle.std.specs.Option.{option_copied};
ghost use Rattle.desk_sql_layout.specs.Desk.{HasDesk, HasTable};
ghost use Rattle.desk_sql_adopt.specs.Forms.{table_by};
ghost use Rattle.desk_sql_adopt.specs.Owned.{IsKept, IsOwn};

use crate::forms::{TABLES, TableForm};
use crate::indexes::are_harmless;
use crate::matching::is_declared;
use sqlite_schema::schema::{Schema, Table};
use sqlite_sql::query::GIVEN;

/// The first table in a tree.
fn table_at(tables: &[Table], tree: u32) -> Option<&Table>
    ensures { option_copied result ≡ find (λ t. t.tree == tree) tables.now }
{
    tables.iter().find(|table| table.tree == tree)
}

/// Whether a table is as the form declares it, and the first one in its tree.
fn is_own(tables: &[Table], table: &Table, form: &TableForm, not_null: bool) -> bool
    ensures { Decides result (IsOwn tables.now table.now form.now not_null) }
{
    is_declared(table, form, table.tree, not_null)
        && match table_at(tables, table.tree) {
            Some(first) => is_declared(first, form, table.tree, not_null),
            None => false,
        }
}

/// Whether that is so, with or without NOT NULL at its number.
fn is_own_either_way(tables: &[Table], table: &Table, form: &TableForm) -> bool
    ensures { Decides result ((not_null : Bool) × IsOwn tables.now table.now form.now not_null) }
{
    is_own(tables, table, form, false) || is_own(tables, table, form, true)
}

/// Whether such a table's tree is one of the file's, and no index refuses rows that its keys allow.
fn is_kept(schema: &Schema, table: &Table, form: &TableForm) -> bool
    ensures { Decides result (IsKept schema.now table.now form.now) }
{
    is_own_either_way(schema.tables.as_slice(), table, form)
        && table.tree < GIVEN
        && are_harmless(schema.indexes.as_slice(), table)
}

fn has_table(schema: &Schema, form: &TableForm) -> bool
    ensures { Decides result (HasTable schema.now (table_by form.now)) }
{
    let Some(place) = schema.table_named(form.name.as_bytes()) else {
        return false;
    };
    match schema.tables.get(place) {
        Some(table) => is_kept(schema, table, form),
        None => false,
    }
}

pub(crate) fn has_tables(schema: &Schema, forms: &[TableForm]) -> bool
    ensures { Decides result (AllByRecursion (λ form. HasTable schema.now (table_by form))
        forms.now) }
{
    for form in forms {
        if !has_table(schema, form) {
            return false;
        }
    }
    true
}

/// Whether no table has foreign keys.
pub(crate) fn have_no_references(tables: &[Table]) -> bool
    ensures { Decides result (AllByRecursion (λ t. t.references ≡ []) tables.now) }
{
    for table in tables {
        if !table.references.is_empty() {
            return false;
        }
    }
    true
}

/// Whether a schema has a desk's tables, whatever else it has: each with its columns, its key and
/// its UNIQUE columns, and with no other index that could refuse a row. No table of the schema may
/// have foreign keys.
pub fn has_desk(schema: &Schema) -> bool
    ensures { Decides result (HasDesk schema.now) }
{
    has_tables(schema, &TABLES) && have_no_references(schema.tables.as_slice())
}
