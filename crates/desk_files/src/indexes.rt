//! The indexes on a desk's tables that could refuse a row. Adoption passes over any other.

ghost use Rattle.std.specs.Prelude.{◌≡◌, ◌==◌, ◌∷◌, find, map};
ghost use Rattle.std.specs.List.{list_all, list_any};
ghost use Rattle.std.specs.Option.{option_copied};
ghost use Rattle.desk_sql_layout.specs.Desk.{includes, is_bytewise, is_harmless};
ghost use Rattle.desk_files.specs.Differences.{is_refused, refused, refused_on};

use sqlite_items::Items;
use sqlite_schema::schema::{Index, Schema, Table};
use sqlite_value::keys::{Collation, Order};

/// How the names of SQLite's own indexes begin.
const OWN: &[u8] = b"sqlite_autoindex_";

/// How many columns an index of a desk's table has at most.
const MAX_COLUMNS: usize = 8;

// Whether each of these columns is compared byte by byte.
fn is_bytewise(columns: &[usize], order: Order) -> bool
    ensures { result ≡ is_bytewise columns.now order }
{
    let mut rest = order;
    for _column in columns {
        if rest.first().collation.code() != 0 {
            return false;
        }
        rest = rest.later();
    }
    true
}

fn has(columns: &[usize], place: usize) -> bool
    ensures { result ≡ list_any (λ other. other == place) columns.now }
{
    columns.iter().any(|other| *other == place)
}

// Whether the columns of a key are among these.
fn includes(columns: &[usize], key: &[usize]) -> bool
    ensures { result ≡ includes columns.now key.now }
{
    key.iter().all(|place| has(columns, *place))
}

// Whether the columns of one of these keys are.
fn include_key(columns: &[usize], keys: &[Items<usize>]) -> bool
    ensures { result ≡ list_any (includes columns.now) keys.now }
{
    keys.iter().any(|key| includes(columns, key.as_slice()))
}

// Whether these columns are a key of the table, or more than that.
fn extend_key(table: &Table, columns: &[usize]) -> bool
    ensures { result ≡ list_any (includes columns.now) (table.now.primary ∷ table.now.uniques) }
{
    includes(columns, table.primary.as_slice()) || include_key(columns, table.uniques.as_slice())
}

fn is_harmless(table: &Table, index: &Index) -> bool
    ensures { result ≡ is_harmless table.now index.now }
{
    let columns = index.columns.as_slice();
    columns.len() <= MAX_COLUMNS
        && (!index.is_unique || (is_bytewise(columns, index.order) && extend_key(table, columns)))
}

// Whether an index of this table may refuse a row, unless it goes with a key of the table: SQLite
// names those itself.
#[tactic(auto, unfolding(crate::specs::Differences::is_refused))]
fn is_refused(table: &Table, index: &Index) -> bool
    ensures { result ≡ is_refused table.now index.now }
{
    index.table == table.tree
        && !index.name.as_slice().starts_with(OWN)
        && !is_harmless(table, index)
}

// The first of these on a table.
fn refused_at<'a>(indexes: &'a [Index], table: &Table) -> Option<&'a Index>
    ensures { option_copied result ≡ find (is_refused table.now) indexes.now }
{
    indexes.iter().find(|index| is_refused(table, index))
}

// The first one on the table of a name.
fn refused_on<'a>(schema: &'a Schema, name: &str) -> Option<&'a Index>
    ensures { option_copied result ≡ refused_on schema.now name.now }
{
    let place = schema.table_named(name.as_bytes())?;
    let table = schema.tables.get(place)?;
    refused_at(schema.indexes.as_slice(), table)
}

/// The first index that could refuse a row, on the tables of these names.
pub(crate) fn refused<'a>(schema: &'a Schema, names: &[&'static str]) -> Option<&'a Index>
    ensures { option_copied result ≡ refused schema.now (map (λ name. name.now) names.now) }
{
    for name in names {
        if let Some(index) = refused_on(schema, name) {
            return Some(index);
        }
    }
    None
}
