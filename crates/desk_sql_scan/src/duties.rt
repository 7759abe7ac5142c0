//! Duties with their changes, and the last days of waivers.

ghost use Rattle.std.specs.Prelude.{◌≡◌, map, filter};
ghost use Rattle.desk_sql_layout.specs.Layout.{duty_table, change_table, waiver_table};
ghost use Rattle.desk_snapshot.specs.Orders.{change_order, waiver_order};
ghost use Rattle.desk_snapshot.specs.Tables.{duty_stored, change_stored, waiver_stored};
ghost use Rattle.desk_sql_scan.specs.Cells.{stored_duty_cells, stored_change_cells, stored_waiver_cells};
ghost use Rattle.desk_sql_scan.specs.Orders.{duty_order};
ghost use Rattle.desk_sql_scan.specs.Parts.{HasDuties, OfDuties};
ghost use Rattle.desk_sql_scan.specs.Scanning.{Scans};
ghost use Rattle.desk_sql_scan.specs.Scans.{IsScan};
ghost use Rattle.desk_model.specs.Moves.{is_waiver};

use crate::columns::number_at;
use crate::scan::{Stored, items, list};
use crate::source::Source;
use desk_base::Items;
use desk_model::Fault;
use desk_snapshot::{Listed, StoredChange, StoredDuty, StoredWaiver};
use desk_sql_layout::columns::text_at;
use sqlite::Row;
use std::alloc::Global;

impl Stored for StoredDuty {
    ghost width = { 8 };

    ghost cells = { stored_duty_cells };

    fn read(alloc: Global, row: &Row) -> Result<StoredDuty, Fault> {
        Ok(StoredDuty {
            number: number_at(row, 0)?,
            release: text_at(alloc, row, 1)?,
            document: number_at(row, 2)?,
            package_id: text_at(alloc, row, 3)?,
            term: text_at(alloc, row, 4)?,
            code: text_at(alloc, row, 5)?,
            rule: text_at(alloc, row, 6)?,
            state: text_at(alloc, row, 7)?,
        })
    }
}

/// All duties, by number.
fn duty_rows<R: Source>(alloc: Global, source: &mut R) -> Result<Items<StoredDuty>, Fault>
    requires { R.is_ready source.old }
    ensures { Scans R.Source source.old source.new result
        (IsScan duty_table stored_duty_cells duty_order)
        (λ rows t. rows ≡ map duty_stored t.duty) }
{
    items(
        alloc,
        source,
        "SELECT number, release, document, package, term, code, rule, state FROM duty ORDER BY number",
    )
}

impl Stored for StoredChange {
    ghost width = { 5 };

    ghost cells = { stored_change_cells };

    fn read(alloc: Global, row: &Row) -> Result<StoredChange, Fault> {
        Ok(StoredChange {
            duty: number_at(row, 0)?,
            step: number_at(row, 1)?,
            day: text_at(alloc, row, 2)?,
            word: text_at(alloc, row, 3)?,
            body: text_at(alloc, row, 4)?,
        })
    }
}

/// All changes, by duty and step.
fn change_rows<R: Source>(alloc: Global, source: &mut R) -> Result<Listed<StoredChange>, Fault>
    requires { R.is_ready source.old }
    ensures { Scans R.Source source.old source.new result
        (IsScan change_table stored_change_cells change_order)
        (λ rows t. rows ≡ map change_stored t.changes) }
{
    list(
        alloc,
        source,
        "SELECT duty, step, day, word, body FROM change ORDER BY +duty, step",
    )
}

impl Stored for StoredWaiver {
    ghost width = { 3 };

    ghost cells = { stored_waiver_cells };

    fn read(alloc: Global, row: &Row) -> Result<StoredWaiver, Fault> {
        Ok(StoredWaiver {
            duty: number_at(row, 0)?,
            step: number_at(row, 1)?,
            last_day: text_at(alloc, row, 2)?,
        })
    }
}

/// The last days of all waivers that end, by duty and step.
fn waiver_rows<R: Source>(alloc: Global, source: &mut R) -> Result<Listed<StoredWaiver>, Fault>
    requires { R.is_ready source.old }
    ensures { Scans R.Source source.old source.new result
        (IsScan waiver_table stored_waiver_cells waiver_order)
        (λ rows t. rows ≡ map waiver_stored (filter is_waiver t.changes)) }
{
    list(
        alloc,
        source,
        "SELECT duty, step, last_day FROM waiver ORDER BY +duty, step",
    )
}

/// Duties with their changes, and the last days of waivers.
#[derive(Drop)]
pub(crate) struct DutyPart {
    pub(crate) changes: Listed<StoredChange>,
    pub(crate) duty: Items<StoredDuty>,
    pub(crate) waiver: Listed<StoredWaiver>,
}

/// Duties with their changes, and the last days of waivers.
pub(crate) fn duties<R: Source>(alloc: Global, source: &mut R) -> Result<DutyPart, Fault>
    requires { R.is_ready source.old }
    ensures { Scans R.Source source.old source.new result HasDuties OfDuties }
{
    Ok(DutyPart {
        changes: change_rows(alloc, source)?,
        duty: duty_rows(alloc, source)?,
        waiver: waiver_rows(alloc, source)?,
    })
}
