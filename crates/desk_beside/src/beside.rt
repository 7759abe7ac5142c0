//! What is kept beside the rows of a snapshot.

ghost use Rattle.std.specs.Prelude.{◌≡◌, ◌≢◌, pos, true, find, is_some, IfErr, IfOk, IfSome};
ghost use Rattle.std.specs.Option.{option_and_then, option_copied};
ghost use Rattle.std.specs.Ordering.{int_eq};
ghost use Rattle.std.specs.Result.{result_ok};
ghost use Rattle.desk_model.specs.History.{forms_in};
ghost use Rattle.desk_model.specs.Readings.{Readings};
ghost use Rattle.desk_model.specs.Tables.{Tables};
ghost use Rattle.desk_snapshot.specs.Reports.{IsReport};
ghost use Rattle.desk_tally.specs.Kept.{AreKept, are_countable};
ghost use Rattle.desk_texts.specs.Right.{AreRight};
ghost use Rattle.desk_beside.specs.Beside.{AreFew, CanKeep, HasNumbers, IsAudited, IsBeside, ShowsTables, report_of};
ghost use Rattle.desk_model.specs.declared.command.StoreFault.TheVariants.{Database as DatabaseFault, Rows};

use crate::counts::{Counts, counts_of};
use crate::numbers::has_numbers;
use crate::rows::{ROWS, duties_of, releases_of};
use desk_access::texts::Texts;
use desk_audit::judge;
use desk_base::{Items, Text};
use desk_model::{DutyRow, Fault, ReleaseRow};
use desk_snapshot::{AuditFault, AuditReport, Snapshot, StoredCatalogue};
use desk_tally::Tallies;
use desk_texts::Standard;
use std::alloc::Global;

/// What a store keeps beside the rows of a desk's tables.
#[derive(Drop)]
pub struct Beside {
    /// How many rows some of the tables have.
    pub counts: Counts,
    /// The forms of the catalogue in force.
    pub forms: Items<Text>,
    /// How many duties of each release are in each state.
    pub tallies: Tallies,
}

/// What an audit finds of rows.
#[derive(Drop)]
pub enum Audited {
    /// They are sound, and this is kept beside them.
    Sound(Beside),
    /// They don't meet this condition, but they meet those before it.
    Unsound(AuditFault),
}

/// The revision with a number.
fn revision_in(rows: &[StoredCatalogue], number: u32) -> Option<&StoredCatalogue>
    ensures { option_copied result ≡ find (λ row. int_eq row.revision (pos number)) rows.now }
{
    rows.iter().find(|row| row.revision == i64::from(number))
}

/// The forms of the catalogue in a revision, or none if there is no revision.
fn forms_of(alloc: Global, revision: Option<&StoredCatalogue>) -> Result<Items<Text>, Fault>
    ensures value { (w : Readings) → AreRight w → IfOk result (λ forms. forms ≡ forms_in
        (option_and_then (λ row. result_ok (w.catalogue row.body)) (option_copied revision.entry))) }
    ensures only { IfErr result (λ fault. fault ≢ Fault.Store DatabaseFault) }
    ensures cause { (w : Readings) → AreRight w → IfErr result (λ fault.
        IfSome (option_copied revision.entry) (λ row.
        is_some (result_ok (w.catalogue row.body)) ≡ true) → fault ≡ Fault.Memory) }
{
    let Some(revision) = revision else {
        return Ok(Items::new(alloc));
    };
    match Standard.catalogue(alloc, revision.body.as_str())? {
        Ok(catalogue) => Ok(catalogue.forms),
        Err(_) => Err(ROWS),
    }
}

/// The tallies of these releases and duties.
fn tallies_of(alloc: Global, releases: &[ReleaseRow], duties: &[DutyRow]) -> Result<Tallies, Fault>
    ensures kept { IfOk result (λ tallies. (t : Tables) → releases.now ≡ t.releases
        → duties.now ≡ t.duty → AreKept tallies t) }
    ensures only { IfErr result (λ fault. fault ≢ Fault.Store DatabaseFault) }
    ensures cause { are_countable releases.now duties.now ≡ true
        → IfErr result (λ fault. fault ≡ Fault.Memory) }
{
    match Tallies::counted(alloc, releases, duties)? {
        Some(tallies) => Ok(tallies),
        None => Err(ROWS),
    }
}

/// The tallies of a snapshot's releases and duties.
fn tallies_in(alloc: Global, snapshot: &Snapshot) -> Result<Tallies, Fault>
    ensures kept { IfOk result (λ tallies. (t : Tables) → ShowsTables snapshot.now t
        → AreKept tallies t) }
    ensures only { IfErr result (λ fault. fault ≢ Fault.Store DatabaseFault) }
    ensures cause { IfErr result (λ fault. (w : Readings) (t : Tables) → ShowsTables snapshot.now t
        → CanKeep w t → fault ≡ Fault.Memory) }
{
    let releases = releases_of(alloc, snapshot.releases.as_slice())?;
    let duties = duties_of(alloc, snapshot.duty.as_slice())?;
    tallies_of(alloc, &releases, &duties)
}

/// What is kept beside the rows of a snapshot, if they have no number below 0 and can be counted.
fn beside_of(alloc: Global, snapshot: &Snapshot) -> Result<Beside, Fault>
    ensures kept { IfOk result (λ kept. (t : Tables) → ShowsTables snapshot.now t → IsBeside kept t) }
    ensures numbers { IfOk result (λ kept. HasNumbers snapshot.now) }
    ensures only { IfErr result (λ fault. fault ≢ Fault.Store DatabaseFault) }
    ensures cause { IfErr result (λ fault. (w : Readings) → AreRight w → (t : Tables)
        → ShowsTables snapshot.now t → CanKeep w t → AreFew snapshot.now → HasNumbers snapshot.now
        → fault ≡ Fault.Memory) }
{
    if !has_numbers(snapshot) {
        return Err(ROWS);
    }
    let counts = counts_of(snapshot)?;
    let revision = revision_in(snapshot.catalogue.as_slice(), counts.revisions);
    let forms = forms_of(alloc, revision)?;
    let tallies = tallies_in(alloc, snapshot)?;
    Ok(Beside {
        counts,
        forms,
        tallies,
    })
}

/// Audits the rows of a snapshot, and returns what is kept beside them if they are sound, or else
/// the first of the ten conditions that they don't meet.
///
/// The fault is that no memory was left, or that sound rows aren't a desk's: a number is below 0 in
/// a column where the ten conditions allow any number.
pub fn beside_if_sound(alloc: Global, snapshot: &Snapshot) -> Result<Audited, Fault>
    ensures report { IfOk result (λ found. (w : Readings) → AreRight w
        → IsReport w snapshot.now (report_of found)) }
    ensures kept { IfOk result (IsAudited snapshot.now) }
    ensures only { IfErr result (λ fault. fault ≢ Fault.Store DatabaseFault) }
    ensures rows { IfErr result (λ fault. fault ≡ Fault.Store Rows
        → (w : Readings) → AreRight w → IsReport w snapshot.now AuditReport.Sound) }
    ensures cause { IfErr result (λ fault. (w : Readings) → AreRight w → (t : Tables)
        → ShowsTables snapshot.now t → CanKeep w t → AreFew snapshot.now → HasNumbers snapshot.now
        → fault ≡ Fault.Memory) }
{
    match judge(alloc, snapshot)? {
        AuditReport::Sound => Ok(Audited::Sound(beside_of(alloc, snapshot)?)),
        AuditReport::Unsound(fault) => Ok(Audited::Unsound(fault)),
    }
}
