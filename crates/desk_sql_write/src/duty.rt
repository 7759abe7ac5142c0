//! Duties and their changes.

ghost use Rattle.std.specs.Prelude.{◌≡◌, ◌≢◌, ◌∷◌, [], filter, map, length, IfOk, MatchOption, true, false, ◌+◌};
ghost use Rattle.std.specs.List.{flat_map};
ghost use Rattle.sqlite.specs.Held.{state};
ghost use Rattle.sqlite.specs.Values.{bound};
ghost use Rattle.desk_model.specs.Lists.{updated};
ghost use Rattle.desk_model.specs.States.{state_after};
ghost use Rattle.desk_model.specs.Tables.{with_duty_state, moved_by};
ghost use Rattle.desk_model.specs.Moves.{is_waiver};
ghost use Rattle.desk_sql_layout.specs.Cells.{duty_cells, change_cells, waiver_cells};
ghost use Rattle.desk_sql_layout.specs.Held.{rows_of};
ghost use Rattle.desk_sql_layout.specs.Layout.{duty_table, change_table, waiver_table};
ghost use Rattle.desk_sql_write.specs.Runs.{IsRun, is_numbered};
ghost use Rattle.desk_sql_write.specs.Turning.{Adds, Turns, with_steps};

use crate::adding::{Added, AddedInEights, add_all, add_in_eights};
use crate::statement::execute;
use desk_model::{ChangeRow, DutyRow, DutyState, Fault};
use desk_sql_layout::values::{day, day_or_null, duty_state, number, text, word};
use sqlite::{Alter, Transaction};
use sqlite_value::value::ValueRef;
use std::alloc::{AllocError, Global};

fn duty_values<'a>(row: &'a DutyRow) -> [ValueRef<'a>; 8]
    ensures { bound result ≡ duty_cells row.now }
{
    [
        number(row.number),
        text(&row.release),
        number(row.document),
        text(&row.package_id),
        text(&row.term),
        text(&row.code),
        text(&row.rule),
        duty_state(row.state),
    ]
}

/// The values of duties, one duty after another.
fn values_of_duties<'a>(alloc: Global, rows: &'a [DutyRow]) -> Result<Vec<ValueRef<'a>>, AllocError>
    ensures { IfOk result (λ values. bound values.items ≡ flat_map duty_cells rows.now) }
{
    let mut values = Vec::new(alloc);
    for row in rows {
        values.extend_from_slice(&duty_values(row))?;
    }
    Ok(values)
}

impl AddedInEights for DutyRow {
    ghost tree = { duty_table.tree };

    ghost cells = { duty_cells };

    fn add_one<S: Alter>(&self, tx: &mut Transaction<'_, S>) -> Result<(), Fault> {
        execute(
            tx,
            "INSERT INTO duty VALUES (?1, ?2, ?3, ?4, ?5, ?6, ?7, ?8)",
            &duty_values(self),
        )
    }

    fn add_eight<S: Alter>(
        alloc: Global,
        tx: &mut Transaction<'_, S>,
        rows: &[DutyRow],
    ) -> Result<(), Fault> {
        let values = values_of_duties(alloc, rows)?;
        execute(
            tx,
            "INSERT INTO duty VALUES (?, ?, ?, ?, ?, ?, ?, ?), (?, ?, ?, ?, ?, ?, ?, ?), (?, ?, ?, ?, ?, ?, ?, ?), (?, ?, ?, ?, ?, ?, ?, ?), (?, ?, ?, ?, ?, ?, ?, ?), (?, ?, ?, ?, ?, ?, ?, ?), (?, ?, ?, ?, ?, ?, ?, ?), (?, ?, ?, ?, ?, ?, ?, ?)",
            values.as_slice(),
        )
    }
}

/// The values of a change, in the order of its columns.
fn change_values<'a>(row: &'a ChangeRow) -> [ValueRef<'a>; 5]
    ensures { bound result ≡ change_cells row.now }
{
    [
        number(row.duty),
        number(row.step),
        day(&row.day),
        word(row.word),
        text(&row.body),
    ]
}

/// The values of changes, one change after another.
fn values_of_changes<'a>(
    alloc: Global,
    rows: &'a [ChangeRow],
) -> Result<Vec<ValueRef<'a>>, AllocError>
    ensures { IfOk result (λ values. bound values.items ≡ flat_map change_cells rows.now) }
{
    let mut values = Vec::new(alloc);
    for row in rows {
        values.extend_from_slice(&change_values(row))?;
    }
    Ok(values)
}

impl AddedInEights for ChangeRow {
    ghost tree = { change_table.tree };

    ghost cells = { change_cells };

    fn add_one<S: Alter>(&self, tx: &mut Transaction<'_, S>) -> Result<(), Fault> {
        execute(
            tx,
            "INSERT INTO change VALUES (?1, ?2, ?3, ?4, ?5)",
            &change_values(self),
        )
    }

    fn add_eight<S: Alter>(
        alloc: Global,
        tx: &mut Transaction<'_, S>,
        rows: &[ChangeRow],
    ) -> Result<(), Fault> {
        let values = values_of_changes(alloc, rows)?;
        execute(
            tx,
            "INSERT INTO change VALUES (?, ?, ?, ?, ?), (?, ?, ?, ?, ?), (?, ?, ?, ?, ?), (?, ?, ?, ?, ?), (?, ?, ?, ?, ?), (?, ?, ?, ?, ?), (?, ?, ?, ?, ?), (?, ?, ?, ?, ?)",
            values.as_slice(),
        )
    }
}

fn waiver_values<'a>(row: &'a ChangeRow) -> [ValueRef<'a>; 3]
    ensures { bound result ≡ waiver_cells row.now }
{
    [
        number(row.duty),
        number(row.step),
        day_or_null(&row.last_day),
    ]
}

/// The last day of a change, if it is a waiver that ends.
impl Added for ChangeRow {
    ghost tree = { waiver_table.tree };

    ghost rows = { λ row. map waiver_cells (filter is_waiver (row ∷ [])) };

    fn add<S: Alter>(&self, _alloc: Global, tx: &mut Transaction<'_, S>) -> Result<(), Fault> {
        match self.last_day {
            Some(_) => execute(
                tx,
                "INSERT INTO waiver VALUES (?1, ?2, ?3)",
                &waiver_values(self),
            ),
            None => Ok(()),
        }
    }
}

/// The greatest difference between the numbers of a run's duties: the database keeps all rows that
/// a statement changes, and takes longer if there are many.
const LONGEST: u32 = 1_000;

/// Duties with consecutive numbers that changes leave in one state, and the changes before these.
#[derive(Clone, Copy)]
struct Run<'a> {
    before: &'a [ChangeRow],
    first: u32,
    last: u32,
    to: DutyState,
}

/// Whether a change extends a run to the front: it is of the duty before the first, and leaves it
/// in the state in which the run leaves its duties.
fn goes_before(row: &ChangeRow, first: u32, to: DutyState) -> bool
    ensures next { result ≡ true → row.now.duty + 1 ≡ first }
    ensures state { result ≡ true → state_after row.now.word ≡ to }
    ensures apart { result ≡ false → row.now.duty + 1 ≡ first → state_after row.now.word ≢ to }
{
    row.duty < first && first - row.duty == 1 && row.word.state_after() == to
}

/// The last run of changes, if there are any, as far as one statement takes it.
fn last_run<'a>(rows: &'a [ChangeRow]) -> Option<Run<'a>>
    ensures { MatchOption result (rows.now ≡ [])
        (λ run. IsRun rows.now run.before.now run.first run.last run.to) }
{
    let (last, front) = rows.split_last()?;
    let to = last.word.state_after();
    let mut first = last.duty;
    let mut before = front;
    while let Some((row, front)) = before.split_last() {
        if last.duty - first >= LONGEST || !goes_before(row, first, to) {
            break;
        }
        first = row.duty;
        before = front;
    }
    Some(Run {
        before,
        first,
        last: last.duty,
        to,
    })
}

/// Sets the state of the duties with numbers from the first to the last.
fn set_run<S: Alter>(
    tx: &mut Transaction<'_, S>,
    first: u32,
    last: u32,
    to: DutyState,
) -> Result<(), Fault>
    ensures same_reference { tx.new.conn.ghost_name ≡ tx.old.conn.ghost_name }
    ensures sets { Turns rows_of (λ t. rows_of (record t {
      duty = updated (is_numbered first last) (with_duty_state to) t.duty;
    })) 0 (state S.Store tx.old.conn.now) (state S.Store tx.new.conn.now) result }
{
    execute(
        tx,
        "UPDATE duty SET state = ?3 WHERE number >= ?1 AND number <= ?2",
        &[number(first), number(last), duty_state(to)],
    )
}

/// Sets the state of each duty, the last ones first, by one statement for each run.
pub(crate) fn set_duties<S: Alter>(
    tx: &mut Transaction<'_, S>,
    rows: &[ChangeRow],
) -> Result<(), Fault>
    ensures same_reference { tx.new.conn.ghost_name ≡ tx.old.conn.ghost_name }
    ensures sets { Turns rows_of (λ t. rows_of (record t { duty = moved_by rows.now t.duty })) 0
        (state S.Store tx.old.conn.now) (state S.Store tx.new.conn.now) result }
{
    let mut left = rows;
    while let Some(these) = last_run(left) {
        set_run(tx, these.first, these.last, these.to)?;
        left = these.before;
    }
    Ok(())
}

/// Adds changes, and the last days of waivers that end.
pub(crate) fn add_steps<S: Alter>(
    alloc: Global,
    tx: &mut Transaction<'_, S>,
    rows: &[ChangeRow],
) -> Result<(), Fault>
    ensures same_reference { tx.new.conn.ghost_name ≡ tx.old.conn.ghost_name }
    ensures adds { Adds (with_steps rows.now) (length rows.now + length rows.now)
        (state S.Store tx.old.conn.now) (state S.Store tx.new.conn.now) result }
{
    add_in_eights(alloc, tx, rows)?;
    add_all(alloc, tx, rows)
}
