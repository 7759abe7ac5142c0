//! The packages that a release ships.

ghost use Rattle.std.specs.Prelude.{◌≡◌, IfOk, IfErr};
ghost use Rattle.desk_model.specs.Faults.{MayFail};
ghost use Rattle.desk_model.specs.Raised.{shipped_of};
ghost use Rattle.desk_access.specs.Seen.{Looked, OfRows};

use desk_access::store::Store;
use desk_model::{AttachedRow, Fault, PackageRow};
use std::alloc::Global;

#[tactic(auto, using(desk_access::proofs::Chains::same_then_kept, desk_access::proofs::Chains::same_then_same))]
/// The packages that attached documents ship.
pub fn shipped_packages<S: Store>(
    alloc: Global,
    store: &mut S,
    attached: &[AttachedRow],
) -> Result<Vec<PackageRow>, Fault>
    ensures found { IfOk result (λ rows.
        OfRows (λ t. rows.items ≡ shipped_of attached.now t.packages)
        (S.seen store.old) (S.seen store.new)) }
    ensures kept { Looked (S.seen store.old) (S.seen store.new) result }
    ensures fault { IfErr result (MayFail S.tells) }
{
    let mut all = Vec::new(alloc);
    for row in attached {
        let mut more = store.shipped(row.document)?;
        all.append(&mut more)?;
    }
    Ok(all)
}
