//! Whether an index of a table can refuse rows that the table's keys allow.

ghost use Rattle.std.specs.Prelude.{◌≡◌, ◌∷◌, ◌==◌, ◌||◌, not};
ghost use Rattle.std.specs.List.{list_all, list_any};
ghost use Rattle.desk_sql_layout.specs.Desk.{includes, is_bytewise, is_harmless};

use sqlite_items::Items;
use sqlite_schema::schema::{Index, Table};
use sqlite_value::keys::{Collation, Order};

/// How many columns an index has at most.
const MAX_COLUMNS: usize = 8;

/// Whether each of these columns is compared byte by byte.
fn is_bytewise(columns: &[usize], order: Order) -> bool
    ensures { result ≡ is_bytewise columns.now order }
{
    let mut rest = order;
    for _column in columns {
        if rest.first().collation.code() != 0 {
            return false;
        }
        rest = rest.later();
    }
    true
}

fn has(columns: &[usize], place: usize) -> bool
    ensures { result ≡ list_any (λ other. other == place) columns.now }
{
    columns.iter().any(|other| *other == place)
}

/// Whether the columns of a key are among these.
fn includes(columns: &[usize], key: &[usize]) -> bool
    ensures { result ≡ includes columns.now key.now }
{
    key.iter().all(|place| has(columns, *place))
}

/// Whether the columns of one of these keys are.
fn include_key(columns: &[usize], keys: &[Items<usize>]) -> bool
    ensures { result ≡ list_any (includes columns.now) keys.now }
{
    keys.iter().any(|key| includes(columns, key.as_slice()))
}

/// Whether these columns are a key of the table, or more than that.
fn extend_key(table: &Table, columns: &[usize]) -> bool
    ensures { result ≡ list_any (includes columns.now) (table.now.primary ∷ table.now.uniques) }
{
    includes(columns, table.primary.as_slice()) || include_key(columns, table.uniques.as_slice())
}

fn is_harmless(table: &Table, index: &Index) -> bool
    ensures { result ≡ is_harmless table.now index.now }
{
    let columns = index.columns.as_slice();
    columns.len() <= MAX_COLUMNS
        && (!index.is_unique || (is_bytewise(columns, index.order) && extend_key(table, columns)))
}

/// Whether no index of a table refuses a row that the keys of the table allow.
pub(crate) fn are_harmless(indexes: &[Index], table: &Table) -> bool
    ensures { result ≡ list_all (λ index. not (index.table == table.now.tree)
        || is_harmless table.now index) indexes.now }
{
    indexes.iter().all(|index| index.table != table.tree || is_harmless(table, index))
}
