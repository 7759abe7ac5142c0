//! Rows as the desk knows them.

ghost use Rattle.std.specs.Prelude.{◌≡◌, IfErr, IfOk, List, map, slice_get};
ghost use Rattle.std.specs.List.{AllByRecursion};
ghost use Rattle.desk_sql_layout.specs.Causes.{IsRow};

use desk_model::Fault;
use sqlite::Row;
use std::alloc::Global;

/// A row of one of the desk's tables.
pub trait ReadRow: Sized {
    ghost use Rattle.sqlite_value.specs.Order.{Row as Cells};

    /// The cells that a query shows of it.
    ghost cells: { Self → Cells };

    /// Its days exist.
    ghost has_days: { Self → Type 0 } = { λ _. Unit {0} };

    /// Reads it from the cells that a query shows of it.
    fn read(alloc: Global, row: &Row) -> Result<Self, Fault>
        ensures value { IfOk result (λ found. (x : Self) → row.now ≡ cells x → found ≡ x) }
        ensures cause { IfErr result (λ fault. (x : Self) → row.now ≡ cells x → IsRow row.now
            → has_days x → fault ≡ Fault.Memory) };
}

/// All rows.
pub fn read_all<T: ReadRow + Drop>(alloc: Global, rows: &[Row]) -> Result<Vec<T>, Fault>
    ensures value { IfOk result (λ found. (xs : List T) → rows.now ≡ map T.ReadRow.cells xs
        → found.items ≡ xs) }
    ensures cause { IfErr result (λ fault. (xs : List T) → rows.now ≡ map T.ReadRow.cells xs
        → AllByRecursion IsRow rows.now → AllByRecursion T.ReadRow.has_days xs
        → fault ≡ Fault.Memory) }
{
    let mut found = Vec::new(alloc);
    for row in rows {
        found.push(T::read(alloc, row)?)?;
    }
    Ok(found)
}

/// The first row, if there is one.
pub fn read_first<T: ReadRow + Drop>(alloc: Global, rows: &[Row]) -> Result<Option<T>, Fault>
    ensures value { IfOk result (λ found. (xs : List T) → rows.now ≡ map T.ReadRow.cells xs
        → found ≡ slice_get xs 0) }
    ensures cause { IfErr result (λ fault. (xs : List T) → rows.now ≡ map T.ReadRow.cells xs
        → AllByRecursion IsRow rows.now → AllByRecursion T.ReadRow.has_days xs
        → fault ≡ Fault.Memory) }
{
    match rows.first() {
        Some(row) => Ok(Some(T::read(alloc, row)?)),
        None => Ok(None),
    }
}
