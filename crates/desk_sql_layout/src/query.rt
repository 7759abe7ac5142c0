//! A query of the database.

ghost use Rattle.std.specs.Prelude.{◌≡◌, ◌+◌, ℕ, List, min, false, IfErr, IfOk, slice_get};
ghost use Rattle.desk_sql_layout.specs.Cells.{number};
ghost use Rattle.sqlite.specs.Given.{HasGiven};
ghost use Rattle.sqlite.specs.Held.{state};
ghost use Rattle.sqlite.specs.State.{HasCleanDisk, IsUnchanged, Shown};
ghost use Rattle.sqlite.specs.Values.{bound, bound_value};
ghost use Rattle.sqlite_value.specs.Order.{Row as Cells};
ghost use Rattle.sqlite_value.specs.Value.{owned};
ghost use Rattle.sqlite_value.specs.declared.value.Value.TheVariants.{Text as Words};
ghost use Rattle.desk_access.specs.Seen.{Looked};
ghost use Rattle.desk_sql_layout.specs.Held.{seen_of};
ghost use Rattle.desk_sql_layout.specs.Queried.{Queries, ReadsQuery};
ghost use Rattle.desk_sql_layout.specs.Streamed.{FailsToReadOn, ReadsOn};

use crate::fault::fault_of;
use crate::read::{ReadRow, read_first};
use desk_model::Fault;
use sqlite::{Alter, Connection, Row, Rows};
use sqlite_value::value::ValueRef;
use std::alloc::Global;

/// The rows of a query that changes nothing.
pub fn query<S: Alter>(
    conn: &mut Connection<S>,
    sql: &str,
    params: &[ValueRef<'_>],
) -> Result<Vec<Row>, Fault>
    ensures { Queries S.Store sql.now (bound params.now) conn.old conn.new result
        (λ rows. Shown sql.now (bound params.now) (state S.Store conn.old)
        (state S.Store conn.new) rows.items)
        (λ t. Unit {0}) }
{
    match conn.query_all(sql, params) {
        Ok(rows) => Ok(rows),
        Err(error) => Err(fault_of(&error)),
    }
}

/// Reads the next row of a query, if there is one.
fn read_next<S: Alter, T: ReadRow + Drop>(
    alloc: Global,
    rows: &mut Rows<'_, S>,
) -> Result<Option<T>, Fault>
    ensures same_reference { rows.new.conn.ghost_name ≡ rows.old.conn.ghost_name }
    ensures reads { HasCleanDisk (state S.Store rows.new.conn.now)
        → IfOk result (λ found. IsUnchanged (state S.Store rows.old.conn.now)
        (state S.Store rows.new.conn.now)
        × ((sql : List ℕ) (params : Cells) (given : List Cells)
        → HasGiven S.Store sql params rows.old.conn.now given
        → ReadsOn S.Store T.ReadRow.cells sql params rows.old.conn.now rows.new.conn.now given
        found)) }
    ensures kept { Looked (seen_of (state S.Store rows.old.conn.now))
        (seen_of (state S.Store rows.new.conn.now)) result }
    ensures cause { HasCleanDisk (state S.Store rows.new.conn.now)
        → IfErr result (λ fault. (sql : List ℕ) (params : Cells) (given : List Cells)
        → HasGiven S.Store sql params rows.old.conn.now given
        → FailsToReadOn S.Store T.ReadRow.cells T.ReadRow.has_days sql params
        rows.old.conn.now rows.new.conn.now given fault) }
    ensures limit { rows.new.conn.now.step_limit ≡ rows.old.conn.now.step_limit }
    ensures mode { rows.old.conn.now.in_transaction ≡ false
        → rows.new.conn.now.in_transaction ≡ false }
{
    if let Err(error) = rows.advance() {
        return Err(fault_of(&error));
    }
    match rows.get() {
        Some(row) => Ok(Some(T::read(alloc, row)?)),
        None => Ok(None),
    }
}

/// The rows of a query that changes nothing, each read before the next one, so that none is kept as
/// cells.
pub fn read_rows<S: Alter, T: ReadRow + Drop>(
    alloc: Global,
    conn: &mut Connection<S>,
    sql: &str,
    params: &[ValueRef<'_>],
) -> Result<Vec<T>, Fault>
    ensures { ReadsQuery S.Store T.ReadRow.cells T.ReadRow.has_days
        (λ found rows. found.items ≡ rows) sql.now (bound params.now) conn.old conn.new result }
{
    let mut found = Vec::new(alloc);
    let mut rows = match conn.query(sql, params) {
        Ok(rows) => rows,
        Err(error) => return Err(fault_of(&error)),
    };
    'rows: for _ in 0..u64::MAX {
        match read_next(alloc, &mut rows)? {
            Some(row) => found.push(row)?,
            None => return Ok(found),
        }
    }
    // No memory holds that many rows.
    Err(Fault::Memory)
}

/// The first row of a query that changes nothing, if there is one.
pub fn read_one<S: Alter, T: ReadRow + Drop>(
    alloc: Global,
    conn: &mut Connection<S>,
    sql: &str,
    params: &[ValueRef<'_>],
) -> Result<Option<T>, Fault>
    ensures { ReadsQuery S.Store T.ReadRow.cells T.ReadRow.has_days
        (λ found rows. found ≡ slice_get rows 0) sql.now (bound params.now) conn.old conn.new result }
{
    let rows = query(conn, sql, params)?;
    read_first(alloc, &rows)
}

/// A text in the form that a query takes.
pub fn text<'a>(text: &'a str) -> ValueRef<'a>
    ensures { bound_value (owned result) ≡ Words text.now }
{
    ValueRef::Text(text.as_bytes())
}

/// A number in the form that a query takes. If this many things are numbered from 1, every number
/// beyond the last is replaced by the number after the last.
pub fn among(n: u64, count: u32) -> ValueRef<'static>
    ensures { bound_value (owned result) ≡ number (min n (count + 1)) }
{
    let past = u64::from(count) + 1;
    ValueRef::Int(n.min(past) as i64)
}
