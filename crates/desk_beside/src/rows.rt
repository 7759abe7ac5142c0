//! The rows of releases and duties as the desk knows them.

ghost use Rattle.std.specs.Prelude.{◌≡◌, ◌≢◌, ◌<◌, ◌^◌, ℕ, pos, IfErr, IfOk, List, map};
ghost use Rattle.std.specs.List.{AllByRecursion};
ghost use Rattle.desk_model.specs.declared.row.DutyRow.{DutyRow as Duty};
ghost use Rattle.desk_model.specs.declared.row.ReleaseRow.{ReleaseRow as Release};
ghost use Rattle.desk_snapshot.specs.Tables.{duty_stored, release_stored};
ghost use Rattle.desk_beside.specs.Beside.{IsSmallDuty, IsSmallRelease};
ghost use Rattle.desk_model.specs.declared.command.StoreFault.TheVariants.{Database as DatabaseFault, Rows};

use desk_base::Text;
use desk_model::{DutyRow, DutyState, Fault, ReleaseRow, ReleaseState, StoreFault};
use desk_snapshot::{StoredDuty, StoredRelease};
use std::alloc::Global;

/// The fault of rows that no desk's tables have.
pub(crate) const ROWS: Fault = Fault::Store(StoreFault::Rows);

/// A number of 32 bits.
fn number_of(stored: i64) -> Result<u32, Fault>
    ensures value { IfOk result (λ number. stored ≡ pos number) }
    ensures rows { IfErr result (λ fault. fault ≡ Fault.Store Rows) }
    ensures cause { IfErr result (λ fault. (n : ℕ) → stored ≡ pos n → n < 2 ^ 32
        → fault ≡ Fault.Memory) }
{
    match u32::try_from(stored) {
        Ok(number) => Ok(number),
        Err(_) => Err(ROWS),
    }
}

/// The revision of a release: a whole number, not below 0.
fn revision_of(stored: i64) -> Result<u64, Fault>
    ensures value { IfOk result (λ number. stored ≡ pos number) }
    ensures rows { IfErr result (λ fault. fault ≡ Fault.Store Rows) }
    ensures cause { IfErr result (λ fault. (n : ℕ) → stored ≡ pos n → fault ≡ Fault.Memory) }
{
    match u64::try_from(stored) {
        Ok(number) => Ok(number),
        Err(_) => Err(ROWS),
    }
}

fn release_of(alloc: Global, row: &StoredRelease) -> Result<ReleaseRow, Fault>
    ensures value { IfOk result (λ found. row.now ≡ release_stored found) }
    ensures only { IfErr result (λ fault. fault ≢ Fault.Store DatabaseFault) }
    ensures cause { IfErr result (λ fault. (x : Release) → row.now ≡ release_stored x
        → IsSmallRelease x → fault ≡ Fault.Memory) }
{
    Ok(ReleaseRow {
        name: Text::of(alloc, row.name.as_str())?,
        place: number_of(row.place)?,
        form: Text::of(alloc, row.form.as_str())?,
        state: ReleaseState::named(row.state.as_str()).ok_or(ROWS)?,
        revision: revision_of(row.revision)?,
    })
}

/// The releases whose rows these are.
pub(crate) fn releases_of(alloc: Global, rows: &[StoredRelease]) -> Result<Vec<ReleaseRow>, Fault>
    ensures value { IfOk result (λ found. rows.now ≡ map release_stored found.items) }
    ensures only { IfErr result (λ fault. fault ≢ Fault.Store DatabaseFault) }
    ensures cause { IfErr result (λ fault. (xs : List Release) → rows.now ≡ map release_stored xs
        → AllByRecursion IsSmallRelease xs → fault ≡ Fault.Memory) }
{
    let mut found = Vec::with_capacity(alloc, rows.len())?;
    for row in rows {
        found.push(release_of(alloc, row)?)?;
    }
    Ok(found)
}

fn duty_of(alloc: Global, row: &StoredDuty) -> Result<DutyRow, Fault>
    ensures value { IfOk result (λ found. row.now ≡ duty_stored found) }
    ensures only { IfErr result (λ fault. fault ≢ Fault.Store DatabaseFault) }
    ensures cause { IfErr result (λ fault. (x : Duty) → row.now ≡ duty_stored x → IsSmallDuty x
        → fault ≡ Fault.Memory) }
{
    Ok(DutyRow {
        number: number_of(row.number)?,
        release: Text::of(alloc, row.release.as_str())?,
        document: number_of(row.document)?,
        package_id: Text::of(alloc, row.package_id.as_str())?,
        term: Text::of(alloc, row.term.as_str())?,
        code: Text::of(alloc, row.code.as_str())?,
        rule: Text::of(alloc, row.rule.as_str())?,
        state: DutyState::named(row.state.as_str()).ok_or(ROWS)?,
    })
}

/// The duties whose rows these are.
pub(crate) fn duties_of(alloc: Global, rows: &[StoredDuty]) -> Result<Vec<DutyRow>, Fault>
    ensures value { IfOk result (λ found. rows.now ≡ map duty_stored found.items) }
    ensures only { IfErr result (λ fault. fault ≢ Fault.Store DatabaseFault) }
    ensures cause { IfErr result (λ fault. (xs : List Duty) → rows.now ≡ map duty_stored xs
        → AllByRecursion IsSmallDuty xs → fault ≡ Fault.Memory) }
{
    let mut found = Vec::with_capacity(alloc, rows.len())?;
    for row in rows {
        found.push(duty_of(alloc, row)?)?;
    }
    Ok(found)
}
