//! How many rows some of the tables have after a change.

ghost use Rattle.std.specs.Prelude.{◌≡◌, IfNone, IfSome};
ghost use Rattle.desk_store.specs.Counting.{HasCount, counts_after};

use desk_beside::Counts;
use desk_model::Change;

/// The counts after a change, if there is room for them.
pub(crate) fn counts_after(change: &Change, counts: Counts) -> Option<Counts>
    ensures after { IfSome result (λ after. after ≡ counts_after change.now counts) }
    ensures none { IfNone result (¬ HasCount change.now counts) }
{
    let mut after = counts;
    match change {
        Change::Loaded { .. } => after.revisions = counts.revisions.checked_add(1)?,
        Change::Imported { .. } => after.documents = counts.documents.checked_add(1)?,
        Change::Opened(_) => after.releases = counts.releases.checked_add(1)?,
        Change::Froze { duties, .. } => {
            let more = u32::try_from(duties.as_slice().len()).ok()?;
            after.duties = counts.duties.checked_add(more)?;
        }
        _ => {}
    }
    Some(after)
}
