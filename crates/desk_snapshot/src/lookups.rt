//! What the rows of a snapshot say about a document and about a change.

ghost use Rattle.std.specs.Prelude.{◌≡◌};
ghost use Rattle.std.specs.Option.{option_copied};
ghost use Rattle.desk_snapshot.specs.Changes.{last_day_at};
ghost use Rattle.desk_snapshot.specs.Conditions.{profile_at};

use crate::keys::{ByDocument, ByStep};
use crate::rows::StoredChange;
use crate::snapshot::Snapshot;
use desk_model::Profile;

/// The profile that the licence expressions of a document are read by. Each document of a desk has
/// one.
pub fn profile_at(snapshot: &Snapshot, document: i64) -> Profile
    ensures { result ≡ profile_at snapshot.now document }
{
    match snapshot.reading.find(&ByDocument { document }) {
        Some(row) if row.profile == 2 => Profile::Either,
        _ => Profile::Capitals,
    }
}

/// The last day of a change, if that is a waiver that ends.
pub fn last_day_at<'a>(snapshot: &'a Snapshot, change: &StoredChange) -> Option<&'a str>
    ensures { option_copied result ≡ last_day_at snapshot.now change.now }
{
    let step = ByStep {
        duty: change.duty,
        step: change.step,
    };
    match snapshot.waiver.find(&step) {
        Some(waiver) => Some(waiver.last_day.as_str()),
        None => None,
    }
}
