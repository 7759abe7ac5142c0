//! How many rows some of the tables have.

ghost use Rattle.std.specs.Prelude.{◌≡◌, ◌<◌, ◌^◌, IfErr, IfOk, length};
ghost use Rattle.desk_beside.specs.Beside.{AreFew};
ghost use Rattle.desk_model.specs.declared.command.StoreFault.TheVariants.{Rows};

use crate::rows::ROWS;
use desk_model::Fault;
use desk_snapshot::Snapshot;

/// How many revisions, documents, releases and duties there are.
#[derive(Clone, Copy, PartialEq, Eq)]
pub struct Counts {
    /// The revisions of the catalogue.
    pub revisions: u32,
    /// The documents.
    pub documents: u32,
    /// The releases.
    pub releases: u32,
    /// The duties of all releases.
    pub duties: u32,
}

/// A number of rows, if it has 32 bits.
fn count_of(rows: usize) -> Result<u32, Fault>
    ensures value { IfOk result (λ count. rows ≡ count) }
    ensures rows { IfErr result (λ fault. fault ≡ Fault.Store Rows) }
    ensures cause { rows < 2 ^ 32 → IfErr result (λ fault. fault ≡ Fault.Memory) }
{
    match u32::try_from(rows) {
        Ok(count) => Ok(count),
        Err(_) => Err(ROWS),
    }
}

/// How many rows a snapshot has.
pub(crate) fn counts_of(snapshot: &Snapshot) -> Result<Counts, Fault>
    ensures revisions { IfOk result (λ counts. length snapshot.now.catalogue ≡ counts.revisions) }
    ensures documents { IfOk result (λ counts. length snapshot.now.document ≡ counts.documents) }
    ensures releases { IfOk result (λ counts. length snapshot.now.releases ≡ counts.releases) }
    ensures duties { IfOk result (λ counts. length snapshot.now.duty ≡ counts.duties) }
    ensures rows { IfErr result (λ fault. fault ≡ Fault.Store Rows) }
    ensures cause { AreFew snapshot.now → IfErr result (λ fault. fault ≡ Fault.Memory) }
{
    Ok(Counts {
        revisions: count_of(snapshot.catalogue.as_slice().len())?,
        documents: count_of(snapshot.document.as_slice().len())?,
        releases: count_of(snapshot.releases.as_slice().len())?,
        duties: count_of(snapshot.duty.as_slice().len())?,
    })
}
