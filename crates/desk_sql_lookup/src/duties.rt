//! Duties and their changes.

ghost use Rattle.std.specs.Prelude.{◌≡◌, IfErr, IfOk, IfSome, filter, map, length};
ghost use Rattle.desk_history.specs.FromTables.{duty_found};
ghost use Rattle.desk_sql_layout.specs.Cells.{duty_cells};
ghost use Rattle.desk_model.specs.Keys.{is_duty, is_duty_of};
ghost use Rattle.desk_sql_lookup.specs.LookUps.{LooksUp, LooksUpIf};

use desk_model::{DutyRow, Fault};
use desk_sql_layout::columns::ROWS;
use desk_sql_layout::query::{among, read_one, read_rows, text};
use sqlite::{Alter, Connection};
use std::alloc::Global;

/// A duty, if it has this number.
fn with_number(found: Option<DutyRow>, number: u64) -> Result<Option<DutyRow>, Fault>
    ensures kept { IfOk result (λ kept. kept ≡ found) }
    ensures same { IfOk result (λ kept. IfSome kept (λ row. row.number ≡ number)) }
    ensures cause { IfErr result (λ _. ¬ IfSome found (λ row. row.number ≡ number)) }
{
    match found {
        Some(row) if u64::from(row.number) != number => Err(ROWS),
        found => Ok(found),
    }
}

/// The duty with a number, if there are this many duties.
pub fn duty<S: Alter>(
    alloc: Global,
    conn: &mut Connection<S>,
    duties: u32,
    number: u64,
) -> Result<Option<DutyRow>, Fault>
    ensures looks { LooksUpIf S.Store (λ t. length t.duty ≡ duties) conn.old conn.new
        result (λ found t. found ≡ duty_found t number) }
    ensures same { IfOk result (λ found. IfSome found (λ row. row.number ≡ number)) }
{
    let found = read_one(
        alloc,
        conn,
        "SELECT number, release, document, package, term, code, rule, state FROM duty WHERE number = ?1 ORDER BY number",
        &[among(number, duties)],
    )?;
    with_number(found, number)
}

/// The duties of a release, by number.
pub fn duties_of<S: Alter>(
    alloc: Global,
    conn: &mut Connection<S>,
    release: &str,
) -> Result<Vec<DutyRow>, Fault>
    ensures { LooksUp S.Store conn.old conn.new result (λ found t.
        found.items ≡ filter (is_duty_of release.now) t.duty) }
{
    read_rows(
        alloc,
        conn,
        "SELECT number, release, document, package, term, code, rule, state FROM duty WHERE release = ?1 ORDER BY number",
        &[text(release)],
    )
}
