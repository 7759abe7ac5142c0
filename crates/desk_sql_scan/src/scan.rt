//! All rows of a table.

ghost use Rattle.std.specs.Prelude.{◌≡◌, ℕ, IfErr, IfOk, map};
ghost use Rattle.std.specs.List.{AllByRecursion};
ghost use Rattle.sqlite_value.specs.Order.{Row as Cells};
ghost use Rattle.desk_sql_layout.specs.Causes.{IsRow};
ghost use Rattle.desk_sql_scan.specs.Causes.{AreCells};
ghost use Rattle.desk_sql_scan.specs.Cells.{columns_of};
ghost use Rattle.desk_sql_scan.specs.Scanning.{Lists};

use crate::source::Source;
use desk_base::Items;
use desk_model::Fault;
use desk_snapshot::Listed;
use desk_sorted::Keyed;
use sqlite::Row;
use std::alloc::Global;

/// A row of one of the desk's tables as it is.
pub(crate) trait Stored: Sized {
    /// How many columns the table has.
    ghost width: { ℕ };

    /// The cells of the row.
    ghost cells: { Self → Cells };

    /// The row with these cells.
    fn read(alloc: Global, row: &Row) -> Result<Self, Fault>
        ensures value { IfOk result (λ found. columns_of width row.now ≡ cells found) }
        ensures cause { IfErr result (λ fault. (x : Self) → row.now ≡ cells x → IsRow row.now
            → fault ≡ Fault.Memory) };
}

/// The rows whose cells these are. Each is dropped as soon as it is read, so that no table is held
/// twice.
fn read_all<T: Stored + Drop>(alloc: Global, rows: Vec<Row>) -> Result<Vec<T>, Fault>
    ensures value { IfOk result (λ found.
        map (columns_of T.width) rows.items ≡ map T.cells found.items) }
    ensures cause { IfErr result (λ fault. AllByRecursion (AreCells T.cells) rows.items
        → fault ≡ Fault.Memory) }
{
    let mut found = Vec::with_capacity(alloc, rows.len())?;
    for row in rows {
        found.push(T::read(alloc, &row)?)?;
    }
    Ok(found)
}

/// The same, as a list that is searched by its keys.
fn read_listed<T: Stored + Keyed + Drop>(alloc: Global, rows: Vec<Row>) -> Result<Listed<T>, Fault>
    ensures value { IfOk result (λ found. map (columns_of T.width) rows.items ≡ map T.cells found) }
    ensures cause { IfErr result (λ fault. AllByRecursion (AreCells T.cells) rows.items
        → fault ≡ Fault.Memory) }
{
    let mut found = Listed::with_capacity(alloc, rows.len())?;
    for row in rows {
        found.push(T::read(alloc, &row)?)?;
    }
    Ok(found)
}

/// The rows that a query shows.
pub(crate) fn items<T: Stored + Drop, R: Source>(
    alloc: Global,
    source: &mut R,
    sql: &str,
) -> Result<Items<T>, Fault>
    requires { R.is_ready source.old }
    ensures { Lists R.Source sql.now T.width T.cells source.old source.new result }
{
    let rows = source.query(sql)?;
    let found = read_all(alloc, rows)?;
    Ok(Items::from_vec(found))
}

/// The rows that a query shows, as a list that is searched by its keys.
pub(crate) fn list<T: Stored + Keyed + Drop, R: Source>(
    alloc: Global,
    source: &mut R,
    sql: &str,
) -> Result<Listed<T>, Fault>
    requires { R.is_ready source.old }
    ensures { Lists R.Source sql.now T.width T.cells source.old source.new result }
{
    let rows = source.query(sql)?;
    read_listed(alloc, rows)
}
