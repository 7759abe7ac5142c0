//! The conclusion in force for a package.

ghost use Rattle.std.specs.Prelude.{◌≡◌, IfOk};
ghost use Rattle.desk_model.specs.Readings.{Readings};
ghost use Rattle.desk_snapshot.specs.Conditions.{conclusion_at};
ghost use Rattle.desk_audit_texts.specs.InForce.{IsRead};

use desk_access::texts::Texts;
use desk_model::Profile;
use desk_snapshot::{ByPackage, Snapshot, StoredPackage, profile_at};
use std::alloc::{AllocError, Global};

/// The expression that is in force for a package, if there is one: that of the office's conclusion,
/// or else of its own field.
pub(crate) fn in_force<T: Texts>(
    alloc: Global,
    texts: &T,
    snapshot: &Snapshot,
    row: &StoredPackage,
) -> Result<Option<T::Expression>, AllocError>
    ensures { (w : Readings) → T.are_right w
        → IfOk result (IsRead T.is_of w (conclusion_at w snapshot.now row.now)) }
{
    let key = ByPackage {
        document: row.document,
        package_id: row.id.as_str(),
    };
    if let Some(conclusion) = snapshot.conclusion.find(&key) {
        return texts.expression(alloc, Profile::Capitals, conclusion.expression.as_str());
    }
    let Some(field) = &row.concluded else {
        return Ok(None);
    };
    let profile = profile_at(snapshot, row.document);
    texts.expression(alloc, profile, field.as_str())
}
