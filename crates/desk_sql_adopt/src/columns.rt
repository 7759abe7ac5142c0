//! Whether a database has the tables of a desk with their columns, whatever else it has.

ghost use Rattle.std.specs.Prelude.{◌≡◌, ◌&&◌, true, List, map};
ghost use Rattle.std.specs.List.{list_all, list_any};
ghost use Rattle.sqlite_schema.specs.Names.{same_name};
ghost use Rattle.desk_sql_adopt.specs.Columns.{has_columns, is_like};
ghost use Rattle.desk_sql_adopt.specs.Forms.{column_by, columns_by, table_by};

use crate::forms::{ColumnForm, TABLES, TableForm};
use sqlite_schema::names::same_name;
use sqlite_schema::schema::{Column, Schema, Table};

/// Whether there is a column with this name.
fn has_named(columns: &[Column], name: &[u8]) -> bool
    ensures { result ≡ list_any (λ other. same_name other.name name.now) columns.now }
{
    columns
        .iter()
        .any(|column| same_name(column.name.as_slice(), name))
}

/// Whether there is a column with the name of this one.
fn has_column(columns: &[Column], form: &ColumnForm) -> bool
    ensures { result ≡ list_any (λ other. same_name other.name (column_by form.now).name)
        columns.now }
{
    match form {
        ColumnForm::NotNull(name, _) => has_named(columns, name.as_bytes()),
        ColumnForm::Nullable(name, _) => has_named(columns, name.as_bytes()),
    }
}

/// Whether there are columns with the names of these.
fn have_columns(columns: &[Column], forms: &[ColumnForm]) -> bool
    ensures { result ≡ list_all (λ column. list_any (λ other. same_name other.name column.name)
        columns.now) (map column_by forms.now) }
{
    for form in forms {
        if !has_column(columns, form) {
            return false;
        }
    }
    true
}

/// Whether there is a column with the name of the number, if a form has one.
fn has_number(columns: &[Column], form: &TableForm) -> bool
    ensures { (others : List ColumnForm) → list_all (λ column. list_any (λ other.
        same_name other.name column.name) columns.now) (columns_by form.now.number true others)
        ≡ (result && list_all (λ column. list_any (λ other. same_name other.name column.name)
        columns.now) (map column_by others)) }
{
    match form.number {
        Some(number) => has_named(columns, number.as_bytes()),
        None => true,
    }
}

fn is_like(table: &Table, form: &TableForm) -> bool
    ensures { result ≡ is_like (table_by form.now) table.now }
{
    let columns = table.columns.as_slice();
    same_name(table.name.as_slice(), form.name.as_bytes())
        && has_number(columns, form)
        && have_columns(columns, form.columns)
}

/// Whether there is a table with the name of this one and with its columns.
fn has_like(tables: &[Table], form: &TableForm) -> bool
    ensures { result ≡ list_any (is_like (table_by form.now)) tables.now }
{
    tables.iter().any(|table| is_like(table, form))
}

/// Whether there are tables with the names of these and with their columns.
fn have_all(tables: &[Table], forms: &[TableForm]) -> bool
    ensures { result ≡ list_all (λ wanted. list_any (is_like wanted) tables.now)
        (map table_by forms.now) }
{
    for form in forms {
        if !has_like(tables, form) {
            return false;
        }
    }
    true
}

/// Whether a schema has all tables of a desk with all their columns, by name. It may have more, and
/// its tables may be declared in another order or in another way.
pub fn has_columns(schema: &Schema) -> bool
    ensures { result ≡ has_columns schema.now }
{
    have_all(schema.tables.as_slice(), &TABLES)
}
