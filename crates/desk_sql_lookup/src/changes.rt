//! The changes of duties.

ghost use Rattle.std.specs.Prelude.{◌≡◌, IfErr, IfOk, List, filter, map, length};
ghost use Rattle.std.specs.List.{AllByRecursion};
ghost use Rattle.desk_history.specs.FromTables.{steps_found};
ghost use Rattle.desk_sql_layout.specs.Cells.{change_cells};
ghost use Rattle.desk_model.specs.Keys.{is_change_of};
ghost use Rattle.desk_model.specs.Queries.{last_day};
ghost use Rattle.desk_model.specs.declared.row.ChangeRow.{ChangeRow as Change};
ghost use Rattle.desk_sql_layout.specs.Shown.{EndsOnDay, day_cells, ending_cells};
ghost use Rattle.desk_sql_lookup.specs.Waivers.{AreSteps, taken, waivers_in};
ghost use Rattle.desk_sql_layout.specs.Causes.{HasDay, IsRow};
ghost use Rattle.desk_sql_lookup.specs.LookUps.{LooksUp, LooksUpIf};

use desk_base::Day;
use desk_model::{ChangeRow, Fault};
use desk_sql_layout::columns::{day_at, number_at};
use desk_sql_layout::query::{among, query};
use desk_sql_layout::read::read_all;
use desk_sql_layout::rows::{Waiver, read_change};
use desk_sql_layout::values::number;
use sqlite::{Alter, Connection, Row};
use std::alloc::Global;

fn select_steps<S: Alter>(
    conn: &mut Connection<S>,
    duties: u32,
    duty: u64,
) -> Result<Vec<Row>, Fault>
    ensures { LooksUp S.Store conn.old conn.new result (λ rows t.
        length t.duty ≡ duties → length rows.items ≡ steps_found t duty) }
{
    query(
        conn,
        "SELECT step FROM change WHERE duty = ?1",
        &[among(duty, duties)],
    )
}

/// How many changes a duty has, if there are this many duties.
pub fn steps<S: Alter>(conn: &mut Connection<S>, duties: u32, duty: u64) -> Result<u64, Fault>
    ensures { LooksUp S.Store conn.old conn.new result (λ found t.
        length t.duty ≡ duties → found ≡ steps_found t duty) }
{
    let rows = select_steps(conn, duties, duty)?;
    Ok(rows.len() as u64)
}

fn select_changes_of<S: Alter>(
    conn: &mut Connection<S>,
    duties: u32,
    duty: u64,
) -> Result<Vec<Row>, Fault>
    ensures { LooksUp S.Store conn.old conn.new result (λ rows t.
        length t.duty ≡ duties → (rows.items ≡ map change_cells
        (filter (is_change_of duty) t.changes)) × AreSteps (filter (is_change_of duty) t.changes)) }
{
    query(
        conn,
        "SELECT duty, step, day, word, body FROM change WHERE duty = ?1 ORDER BY duty, step",
        &[among(duty, duties)],
    )
}

fn select_waivers_of<S: Alter>(
    conn: &mut Connection<S>,
    duties: u32,
    duty: u64,
) -> Result<Vec<Row>, Fault>
    ensures { LooksUp S.Store conn.old conn.new result (λ rows t.
        length t.duty ≡ duties → rows.items
        ≡ map ending_cells (waivers_in (filter (is_change_of duty) t.changes))) }
{
    query(
        conn,
        "SELECT step, last_day FROM waiver WHERE duty = ?1 ORDER BY duty, step",
        &[among(duty, duties)],
    )
}

type RowsOfTwo = (Vec<Row>, Vec<Row>);

/// The rows of a duty's changes, and of the waivers among them.
fn select_both<S: Alter>(
    conn: &mut Connection<S>,
    duties: u32,
    duty: u64,
) -> Result<RowsOfTwo, Fault>
    ensures { LooksUp S.Store conn.old conn.new result (λ both t. length t.duty ≡ duties
        → (both.0.items ≡ map change_cells (filter (is_change_of duty) t.changes))
        × AreSteps (filter (is_change_of duty) t.changes)
        × (both.1.items ≡ map ending_cells (waivers_in (filter (is_change_of duty) t.changes)))) }
{
    let changes = select_changes_of(conn, duties, duty)?;
    let waivers = select_waivers_of(conn, duties, duty)?;
    Ok((changes, waivers))
}

/// The last day of a step's waiver, if that is the first of these, and the remaining waivers.
fn take_waiver(waivers: &[Waiver], step: u32) -> (Option<Day>, &[Waiver])
    ensures { (result.0, result.1.now) ≡ taken step waivers.now }
{
    match waivers {
        [waiver, rest @ ..] if waiver.step == step => (Some(waiver.last_day), rest),
        _ => (None, waivers),
    }
}

/// Changes, with their last days from waivers in the order of steps.
fn with_waivers(alloc: Global, rows: &[Row], waivers: &[Waiver]) -> Result<Vec<ChangeRow>, Fault>
    ensures value { IfOk result (λ found. (xs : List Change) → AreSteps xs
        → rows.now ≡ map change_cells xs
        → waivers.now ≡ waivers_in xs → found.items ≡ xs) }
    ensures cause { IfErr result (λ fault. (xs : List Change) → rows.now ≡ map change_cells xs
        → AllByRecursion IsRow rows.now → AllByRecursion HasDay xs → fault ≡ Fault.Memory) }
{
    let mut found = Vec::new(alloc);
    let mut left = waivers;
    for row in rows {
        let (last_day, rest) = take_waiver(left, number_at(row, 1)?);
        left = rest;
        found.push(read_change(alloc, row, last_day)?)?;
    }
    Ok(found)
}

/// Changes, from the rows of two tables.
fn read_changes(alloc: Global, rows: &[Row], ends: &[Row]) -> Result<Vec<ChangeRow>, Fault>
    ensures value { IfOk result (λ found. (xs : List Change) → AreSteps xs
        → rows.now ≡ map change_cells xs
        → ends.now ≡ map ending_cells (waivers_in xs) → found.items ≡ xs) }
    ensures cause { IfErr result (λ fault. (xs : List Change) → rows.now ≡ map change_cells xs
        → ends.now ≡ map ending_cells (waivers_in xs) → AllByRecursion IsRow rows.now
        → AllByRecursion IsRow ends.now → AllByRecursion HasDay xs
        → AllByRecursion EndsOnDay (waivers_in xs) → fault ≡ Fault.Memory) }
{
    let waivers: Vec<Waiver> = read_all(alloc, ends)?;
    with_waivers(alloc, rows, &waivers)
}

/// The changes of a duty, by step, if there are this many duties.
pub fn changes_of<S: Alter>(
    alloc: Global,
    conn: &mut Connection<S>,
    duties: u32,
    duty: u64,
) -> Result<Vec<ChangeRow>, Fault>
    ensures { LooksUpIf S.Store (λ t. length t.duty ≡ duties) conn.old conn.new result (λ found t.
        found.items ≡ filter (is_change_of duty) t.changes) }
{
    let (changes, ends) = select_both(conn, duties, duty)?;
    read_changes(alloc, &changes, &ends)
}

fn select_days_of<S: Alter>(conn: &mut Connection<S>, duty: u32) -> Result<Vec<Row>, Fault>
    ensures { LooksUp S.Store conn.old conn.new result (λ rows t.
        rows.items ≡ map day_cells (filter (is_change_of duty) t.changes)) }
{
    query(
        conn,
        "SELECT day FROM change WHERE duty = ?1 ORDER BY duty, step",
        &[number(duty)],
    )
}

/// The day of the last of some changes.
#[tactic(auto, using(crate::proofs::LastDay::last_none))]
fn last_of(rows: &[Row]) -> Result<Option<Day>, Fault>
    ensures value { IfOk result (λ day. (xs : List Change) → rows.now ≡ map day_cells xs
        → day ≡ last_day xs) }
    ensures cause { IfErr result (λ fault. (xs : List Change) → rows.now ≡ map day_cells xs
        → AllByRecursion IsRow rows.now → AllByRecursion HasDay xs → fault ≡ Fault.Memory) }
{
    match rows.last() {
        Some(row) => Ok(Some(day_at(row, 0)?)),
        None => Ok(None),
    }
}

/// The day of a duty's last change, if it has one.
pub fn last_day<S: Alter>(conn: &mut Connection<S>, duty: u32) -> Result<Option<Day>, Fault>
    ensures { LooksUp S.Store conn.old conn.new result (λ found t.
        found ≡ last_day (filter (is_change_of duty) t.changes)) }
{
    let rows = select_days_of(conn, duty)?;
    last_of(&rows)
}
