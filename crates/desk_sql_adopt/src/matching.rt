//! Whether what a schema has is as a form declares it.

ghost use Rattle.std.specs.Prelude.{◌≡◌, ◌==◌, true, List, map};
ghost use Rattle.std.specs.Bool.{Decides};
ghost use Rattle.std.specs.List.{list_all};
ghost use Rattle.desk_sql_layout.specs.Layout.{column_of};
ghost use Rattle.desk_sql_adopt.specs.Forms.{HasNoMore, column_by, columns_by, key_by, no_stamps, plain_orders, table_in};

use crate::forms::{ColumnForm, TableForm};
use sqlite_items::Items;
use sqlite_schema::schema::{Column, Kind, Stamps, Table};
use sqlite_value::keys::{Collation, Order};
use sqlite_value::value::Value;

/// What a form declares.
pub(crate) trait Form {
    type Item;

    ghost declared: { Self → Self.Item };

    fn is(&self, item: &Self::Item) -> bool
        ensures { Decides result (item.now ≡ declared self.now) };
}

/// Whether the items are those that the forms declare.
pub(crate) fn are<F: Form>(items: &[F::Item], forms: &[F]) -> bool
    ensures { Decides result (items.now ≡ map F.declared forms.now) }
{
    if items.len() != forms.len() {
        return false;
    }
    for (item, form) in items.iter().zip(forms) {
        if !form.is(item) {
            return false;
        }
    }
    true
}

impl Form for ColumnForm {
    type Item = Column;

    ghost declared = { column_by };

    fn is(&self, column: &Column) -> bool {
        match self {
            ColumnForm::NotNull(name, kind) => is_column(column, name, *kind, true),
            ColumnForm::Nullable(name, kind) => is_column(column, name, *kind, false),
        }
    }
}

fn is_column(column: &Column, name: &str, kind: Kind, not_null: bool) -> bool
    ensures { Decides result (column.now ≡ column_of name.now kind not_null) }
{
    column.name.as_slice() == name.as_bytes()
        && column.kind == kind
        && column.is_strict
        && column.not_null == not_null
        && is_null(&column.default)
        && column.collation == Collation::Binary
}

fn is_null(value: &Value) -> bool
    ensures { Decides result (value.now ≡ Value.Null) }
{
    matches!(value, Value::Null)
}

/// Whether the columns are those of a form, whose number is declared with NOT NULL or without it.
fn are_columns(columns: &[Column], form: &TableForm, not_null: bool) -> bool
    ensures { Decides result (columns.now ≡ columns_by form.now.number not_null form.now.columns.now) }
{
    let Some(number) = form.number else {
        return are(columns, form.columns);
    };
    match columns {
        [first, others @ ..] => {
            is_column(first, number, Kind::Integer, not_null) && are(others, form.columns)
        }
        [] => false,
    }
}

/// The place of the column that is the rowid.
fn key_of(form: &TableForm) -> Option<usize>
    ensures { result ≡ key_by form.now.number }
{
    form.number.map(|_| 0)
}

/// Whether a table is as a form declares it, but in this tree, and whether its number has NOT NULL.
pub(crate) fn is_declared(table: &Table, form: &TableForm, tree: u32, not_null: bool) -> bool
    ensures { Decides result (table.now ≡ table_in form.now tree not_null) }
{
    table.name.as_slice() == form.name.as_bytes()
        && table.tree == tree
        && are_columns(table.columns.as_slice(), form, not_null)
        && table.key == key_of(form)
        && table.primary.as_slice() == form.primary
        && are(table.uniques.as_slice(), form.uniques)
        && are_plain(table.orders.as_slice(), form.uniques)
        && is_plain(table)
}

impl Form for &'static [usize] {
    type Item = Items<usize>;

    ghost declared = { λ places. places.now };

    fn is(&self, places: &Items<usize>) -> bool {
        places.as_slice() == *self
    }
}

#[tactic(auto, using(crate::proofs::Turns::plain_alike))]
/// Whether each of these keys is in the order of its columns.
fn are_plain(orders: &[Order], keys: &[&'static [usize]]) -> bool
    ensures { Decides result (orders.now ≡ plain_orders keys.now) }
{
    orders.len() == keys.len() && have_no_digits(orders)
}

/// Whether each order is that of the columns.
fn have_no_digits(orders: &[Order]) -> bool
    ensures { result ≡ list_all (λ order. order.digits == 0) orders.now }
{
    orders.iter().all(|order| order.digits == 0)
}

/// Whether no default reads the time.
fn is_timeless(stamps: &Stamps) -> bool
    ensures { Decides result (stamps.now ≡ no_stamps) }
{
    stamps.places.is_empty() && stamps.terms.roots.is_empty() && stamps.formats.is_empty()
}

/// Whether a table has nothing but columns and keys.
fn is_plain(table: &Table) -> bool
    ensures { Decides result (HasNoMore table.now) }
{
    table.checks.roots.is_empty()
        && table.references.is_empty()
        && table.computed.is_empty()
        && is_timeless(&table.stamps)
        && !table.is_counted
}
