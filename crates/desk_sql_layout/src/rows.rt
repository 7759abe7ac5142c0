//! The cells of each row.

ghost use Rattle.std.specs.Prelude.{◌≡◌, IfErr, IfOk, List, map};
ghost use Rattle.std.specs.List.{AllByRecursion};
ghost use Rattle.desk_sql_layout.specs.Causes.{HasDay, IsRow};
ghost use Rattle.desk_sql_layout.specs.Cells.{attached_cells, change_cells, choice_cells};
ghost use Rattle.desk_sql_layout.specs.Cells.{conclusion_cells, duty_cells, frozen_cells};
ghost use Rattle.desk_sql_layout.specs.Cells.{package_cells, release_cells};
ghost use Rattle.desk_model.specs.declared.row.ChangeRow.{ChangeRow as Change};
ghost use Rattle.desk_model.specs.declared.row.DutyRow.{DutyRow as Duty};
ghost use Rattle.desk_model.specs.declared.row.ReleaseRow.{ReleaseRow as Release};
ghost use Rattle.desk_sql_layout.specs.Shown.{EndsOnDay, bytes_cells, ending_cells};
ghost use Rattle.desk_sql_layout.specs.Shown.{known_cells, number_cells, state_cells, text_cells};

use crate::columns::{
    bytes_at, day_at, duty_state_at, flag_at, number_at, profile_at, release_state_at, text_at,
    text_or_null_at, word_at,
};
use crate::read::{ReadRow, read_all};
use desk_base::{Day, Items, Profile, Text};
use desk_model::{
    AttachedRow, ChangeRow, ChoiceRow, ConclusionRow, DutyRow, DutyState, Fault, FrozenRow,
    PackageRow, ReleaseRow,
};
use sqlite::Row;
use std::alloc::Global;

impl ReadRow for u32 {
    ghost cells = { number_cells };

    fn read(_alloc: Global, row: &Row) -> Result<u32, Fault> {
        number_at(row, 0)
    }
}

impl ReadRow for Text {
    ghost cells = { text_cells };

    fn read(alloc: Global, row: &Row) -> Result<Text, Fault> {
        text_at(alloc, row, 0)
    }
}

impl ReadRow for Items<u8> {
    ghost cells = { bytes_cells };

    fn read(alloc: Global, row: &Row) -> Result<Items<u8>, Fault> {
        bytes_at(alloc, row, 0)
    }
}

impl ReadRow for (u32, Profile) {
    ghost cells = { known_cells };

    fn read(_alloc: Global, row: &Row) -> Result<(u32, Profile), Fault> {
        Ok((number_at(row, 0)?, profile_at(row, 1)?))
    }
}

impl ReadRow for PackageRow {
    ghost cells = { package_cells };

    fn read(alloc: Global, row: &Row) -> Result<PackageRow, Fault> {
        Ok(PackageRow {
            document: number_at(row, 0)?,
            id: text_at(alloc, row, 1)?,
            name: text_at(alloc, row, 2)?,
            version: text_or_null_at(alloc, row, 3)?,
            concluded: text_or_null_at(alloc, row, 4)?,
            copyright: text_or_null_at(alloc, row, 5)?,
            shipped: flag_at(row, 6)?,
        })
    }
}

impl ReadRow for ReleaseRow {
    ghost cells = { release_cells };

    fn read(alloc: Global, row: &Row) -> Result<ReleaseRow, Fault> {
        Ok(ReleaseRow {
            name: text_at(alloc, row, 0)?,
            place: number_at(row, 1)?,
            form: text_at(alloc, row, 2)?,
            state: release_state_at(row, 3)?,
            revision: u64::from(number_at(row, 4)?),
        })
    }
}

impl ReadRow for AttachedRow {
    ghost cells = { attached_cells };

    fn read(alloc: Global, row: &Row) -> Result<AttachedRow, Fault> {
        Ok(AttachedRow {
            release: text_at(alloc, row, 0)?,
            document: number_at(row, 1)?,
        })
    }
}

impl ReadRow for ChoiceRow {
    ghost cells = { choice_cells };

    fn read(alloc: Global, row: &Row) -> Result<ChoiceRow, Fault> {
        Ok(ChoiceRow {
            release: text_at(alloc, row, 0)?,
            document: number_at(row, 1)?,
            package_id: text_at(alloc, row, 2)?,
            term: text_at(alloc, row, 3)?,
        })
    }
}

impl ReadRow for FrozenRow {
    ghost cells = { frozen_cells };

    fn read(alloc: Global, row: &Row) -> Result<FrozenRow, Fault> {
        Ok(FrozenRow {
            release: text_at(alloc, row, 0)?,
            document: number_at(row, 1)?,
            package_id: text_at(alloc, row, 2)?,
            term: text_at(alloc, row, 3)?,
            rule: text_at(alloc, row, 4)?,
        })
    }
}

impl ReadRow for ConclusionRow {
    ghost cells = { conclusion_cells };

    fn read(alloc: Global, row: &Row) -> Result<ConclusionRow, Fault> {
        Ok(ConclusionRow {
            document: number_at(row, 0)?,
            package_id: text_at(alloc, row, 1)?,
            expression: text_at(alloc, row, 2)?,
        })
    }
}

impl ReadRow for DutyRow {
    ghost cells = { duty_cells };

    fn read(alloc: Global, row: &Row) -> Result<DutyRow, Fault> {
        Ok(DutyRow {
            number: number_at(row, 0)?,
            release: text_at(alloc, row, 1)?,
            document: number_at(row, 2)?,
            package_id: text_at(alloc, row, 3)?,
            term: text_at(alloc, row, 4)?,
            code: text_at(alloc, row, 5)?,
            rule: text_at(alloc, row, 6)?,
            state: duty_state_at(row, 7)?,
        })
    }
}

/// The number and the state of a duty.
#[derive(Drop)]
pub struct StateRow {
    /// The duty's number.
    pub number: u32,
    /// Its state.
    pub state: DutyState,
}

impl ReadRow for StateRow {
    ghost cells = { state_cells };

    fn read(_alloc: Global, row: &Row) -> Result<StateRow, Fault> {
        Ok(StateRow {
            number: number_at(row, 0)?,
            state: duty_state_at(row, 1)?,
        })
    }
}

/// The releases whose cells these rows are, in the order of the columns of their table.
pub fn read_releases(alloc: Global, rows: &[Row]) -> Result<Vec<ReleaseRow>, Fault>
    ensures value { IfOk result (λ found. (releases : List Release)
        → rows.now ≡ map release_cells releases
        → found.items ≡ releases) }
    ensures cause { IfErr result (λ fault. (releases : List Release)
        → rows.now ≡ map release_cells releases → AllByRecursion IsRow rows.now
        → fault ≡ Fault.Memory) }
{
    read_all(alloc, rows)
}

/// The duties whose cells these rows are, in the order of the columns of their table.
pub fn read_duties(alloc: Global, rows: &[Row]) -> Result<Vec<DutyRow>, Fault>
    ensures value { IfOk result (λ found. (duties : List Duty) → rows.now ≡ map duty_cells duties
        → found.items ≡ duties) }
    ensures cause { IfErr result (λ fault. (duties : List Duty)
        → rows.now ≡ map duty_cells duties → AllByRecursion IsRow rows.now
        → fault ≡ Fault.Memory) }
{
    read_all(alloc, rows)
}

/// The last day of the waiver at a step.
#[derive(Drop)]
pub struct Waiver {
    /// The step of the duty at which it was waived.
    pub step: u32,
    /// The last day of the waiver.
    pub last_day: Day,
}

impl ReadRow for Waiver {
    ghost cells = { ending_cells };

    ghost has_days = { EndsOnDay };

    fn read(_alloc: Global, row: &Row) -> Result<Waiver, Fault> {
        Ok(Waiver {
            step: number_at(row, 0)?,
            last_day: day_at(row, 1)?,
        })
    }
}

/// A change, with the last day that another table has for it.
pub fn read_change(alloc: Global, row: &Row, last_day: Option<Day>) -> Result<ChangeRow, Fault>
    ensures value { IfOk result (λ found. (x : Change) → row.now ≡ change_cells x
        → found ≡ record x { last_day = last_day }) }
    ensures cause { IfErr result (λ fault. (x : Change) → row.now ≡ change_cells x → IsRow row.now
        → HasDay x → fault ≡ Fault.Memory) }
{
    Ok(ChangeRow {
        duty: number_at(row, 0)?,
        step: number_at(row, 1)?,
        day: day_at(row, 2)?,
        word: word_at(row, 3)?,
        body: text_at(alloc, row, 4)?,
        last_day,
    })
}
