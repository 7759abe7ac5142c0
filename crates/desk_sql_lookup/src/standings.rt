//! The standings of duties.

ghost use Rattle.std.specs.Prelude.{◌≡◌, false, OnOk, filter, map, length};
ghost use Rattle.std.specs.List.{filter_map, last_or};
ghost use Rattle.std.specs.Option.{option_and_then};
ghost use Rattle.desk_history.specs.FromTables.{ended_found, standings_found};
ghost use Rattle.desk_sql_layout.specs.Cells.{duty_cells};
ghost use Rattle.desk_model.specs.Keys.{is_duty_of};
ghost use Rattle.desk_model.specs.Names.{duty_state_name};
ghost use Rattle.desk_sql_lookup.specs.Standings.{and_some, ended_standing, has_end_before, standing_by, stands_at, state_row};
ghost use Rattle.desk_sql_lookup.specs.LookUps.{LooksUp, LooksUpIf};

use crate::changes::{changes_of, steps};
use crate::runs::standings_from;
use desk_base::Day;
use desk_model::{ChangeRow, DutyRow, DutyState, Fault, Standing};
use desk_sql_layout::query::{read_rows, text};
use desk_sql_layout::rows::StateRow;
use desk_sql_layout::values::duty_state;
use sqlite::{Alter, Connection};
use std::alloc::{AllocError, Global};

/// The standing of a duty.
fn standing<S: Alter>(
    conn: &mut Connection<S>,
    duties: u32,
    row: &StateRow,
) -> Result<Standing, Fault>
    ensures { LooksUp S.Store conn.old conn.new result (λ found t.
        length t.duty ≡ duties → found ≡ standing_by t row.now) }
{
    let steps = steps(conn, duties, u64::from(row.number))?;
    Ok(Standing {
        number: row.number,
        state: row.state,
        steps,
    })
}

/// The standings of duties, each looked up separately.
fn each_standing<S: Alter>(
    alloc: Global,
    conn: &mut Connection<S>,
    duties: u32,
    rows: &[StateRow],
) -> Result<Vec<Standing>, Fault>
    ensures { LooksUp S.Store conn.old conn.new result (λ found t.
        length t.duty ≡ duties → found.items ≡ map (standing_by t) rows.now) }
{
    let mut found = Vec::new(alloc);
    for row in rows {
        found.push(standing(conn, duties, row)?)?;
    }
    Ok(found)
}

/// The standings of duties. Those that a freeze raised have consecutive numbers, so their changes
/// are looked up together.
fn standings<S: Alter>(
    alloc: Global,
    conn: &mut Connection<S>,
    duties: u32,
    rows: &[StateRow],
) -> Result<Vec<Standing>, Fault>
    ensures { LooksUp S.Store conn.old conn.new result (λ found t.
        length t.duty ≡ duties → found.items ≡ map (standing_by t) rows.now) }
{
    let Some(first) = rows.first() else {
        return Ok(Vec::new(alloc));
    };
    match standings_from(alloc, conn, first.number, rows)? {
        Some(found) => Ok(found),
        None => each_standing(alloc, conn, duties, rows),
    }
}

/// The numbers and the states of the duties of a release, by number.
fn states_of<S: Alter>(
    alloc: Global,
    conn: &mut Connection<S>,
    release: &str,
) -> Result<Vec<StateRow>, Fault>
    ensures { LooksUp S.Store conn.old conn.new result (λ found t.
        found.items ≡ map state_row (filter (is_duty_of release.now) t.duty)) }
{
    read_rows(
        alloc,
        conn,
        "SELECT number, state FROM duty WHERE release = ?1 ORDER BY number",
        &[text(release)],
    )
}

/// The standings of the duties of a release, by number, if there are this many duties.
pub fn standings_of<S: Alter>(
    alloc: Global,
    conn: &mut Connection<S>,
    duties: u32,
    release: &str,
) -> Result<Vec<Standing>, Fault>
    ensures { LooksUp S.Store conn.old conn.new result (λ found t.
        length t.duty ≡ duties → found.items ≡ standings_found t release.now) }
{
    let rows = states_of(alloc, conn, release)?;
    standings(alloc, conn, duties, &rows)
}

/// The duties that are waived, by number.
fn waived_duties<S: Alter>(alloc: Global, conn: &mut Connection<S>) -> Result<Vec<DutyRow>, Fault>
    ensures { LooksUp S.Store conn.old conn.new result (λ found t.
        found.items ≡ filter (stands_at (duty_state_name DutyState.Waived)) t.duty) }
{
    read_rows(
        alloc,
        conn,
        "SELECT number, release, document, package, term, code, rule, state FROM duty WHERE state = ?1 ORDER BY number",
        &[duty_state(DutyState::Waived)],
    )
}

/// The last day of the last change, if it is a waiver that ends.
fn end_of(changes: &[ChangeRow]) -> Option<Day>
    ensures { result ≡ option_and_then (λ change. change.last_day) (last_or None changes.now) }
{
    match changes.last() {
        Some(change) => change.last_day,
        None => None,
    }
}

/// Whether the last change is a waiver whose last day is before this one.
fn has_end_before(changes: &[ChangeRow], day: Day) -> bool
    ensures { result ≡ has_end_before day changes.now }
{
    match end_of(changes) {
        Some(last) => last.as_bytes().cmp(day.as_bytes()).is_lt(),
        None => false,
    }
}

/// The standing of a duty, if its last change is a waiver whose last day is before this one.
fn standing_if_ended<S: Alter>(
    alloc: Global,
    conn: &mut Connection<S>,
    duties: u32,
    row: &DutyRow,
    day: Day,
) -> Result<Option<Standing>, Fault>
    ensures { LooksUpIf S.Store (λ t. length t.duty ≡ duties) conn.old conn.new result (λ found t.
        found ≡ ended_standing t day row.now) }
{
    let changes = changes_of(alloc, conn, duties, u64::from(row.number))?;
    if has_end_before(&changes, day) {
        Ok(Some(Standing {
            number: row.number,
            state: row.state,
            steps: changes.len() as u64,
        }))
    } else {
        Ok(None)
    }
}

fn push_some(found: &mut Vec<Standing>, standing: Option<Standing>) -> Result<(), AllocError>
    ensures { OnOk result (found.new.items ≡ and_some found.old.items standing) }
{
    if let Some(standing) = standing {
        found.push(standing)?;
    }
    Ok(())
}

fn ended_among<S: Alter>(
    alloc: Global,
    conn: &mut Connection<S>,
    duties: u32,
    rows: &[DutyRow],
    day: Day,
) -> Result<Vec<Standing>, Fault>
    ensures { LooksUpIf S.Store (λ t. length t.duty ≡ duties) conn.old conn.new result (λ found t.
        found.items ≡ filter_map (ended_standing t day) rows.now) }
{
    let mut found = Vec::new(alloc);
    for row in rows {
        let standing = standing_if_ended(alloc, conn, duties, row, day)?;
        push_some(&mut found, standing)?;
    }
    Ok(found)
}

/// The standings of the duties whose waivers have a last day before this one, by number, if there
/// are this many duties.
pub fn ended<S: Alter>(
    alloc: Global,
    conn: &mut Connection<S>,
    duties: u32,
    day: Day,
) -> Result<Vec<Standing>, Fault>
    ensures { LooksUpIf S.Store (λ t. length t.duty ≡ duties) conn.old conn.new result (λ found t.
        found.items ≡ ended_found t day) }
{
    let rows = waived_duties(alloc, conn)?;
    ended_among(alloc, conn, duties, &rows, day)
}
