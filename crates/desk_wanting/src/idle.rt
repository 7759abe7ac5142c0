//! Attached documents that ship no package.

ghost use Rattle.std.specs.Prelude.{◌≡◌, ◌++◌, ◌∷◌, [], IfOk, IfErr, OnOk, filter, map, if◌then◌else◌};
ghost use Rattle.desk_model.specs.Faults.{MayFail};
ghost use Rattle.desk_access.specs.Seen.{Looked, OfRows};
ghost use Rattle.desk_wanting.specs.Idle.{idle_found, ships_nothing};

use desk_access::store::Store;
use desk_base::Text;
use desk_model::{AttachedRow, Fault};
use std::alloc::{AllocError, Global};

/// Whether a document ships no package.
fn ships_nothing<S: Store>(store: &mut S, document: u32) -> Result<bool, Fault>
    ensures found { IfOk result (λ nothing. OfRows (λ t.
        nothing ≡ ships_nothing t.packages document) (S.seen store.old) (S.seen store.new)) }
    ensures kept { Looked (S.seen store.old) (S.seen store.new) result }
    ensures fault { IfErr result (MayFail S.tells) }
{
    Ok(store.shipped(document)?.is_empty())
}

/// Adds a number, if it counts.
fn add_number(numbers: &mut Vec<u32>, number: u32, counts: bool) -> Result<(), AllocError>
    ensures { OnOk result (numbers.new.items
        ≡ numbers.old.items ++ (if counts then number ∷ [] else [])) }
{
    if !counts {
        return Ok(());
    }
    numbers.push(number)?;
    Ok(())
}

#[tactic(auto, using(desk_access::proofs::Chains::same_then_kept, desk_access::proofs::Chains::same_then_same))]
/// The numbers of those documents that ship no package.
fn idle_among<S: Store>(
    alloc: Global,
    store: &mut S,
    attached: &[AttachedRow],
) -> Result<Vec<u32>, Fault>
    ensures found { IfOk result (λ numbers. OfRows (λ t. numbers.items
        ≡ filter (ships_nothing t.packages) (map (λ row. row.document) attached.now))
        (S.seen store.old) (S.seen store.new)) }
    ensures kept { Looked (S.seen store.old) (S.seen store.new) result }
    ensures fault { IfErr result (MayFail S.tells) }
{
    let mut numbers = Vec::new(alloc);
    for row in attached {
        let nothing = ships_nothing(store, row.document)?;
        add_number(&mut numbers, row.document, nothing)?;
    }
    Ok(numbers)
}

/// The numbers, from 1, of the documents that are attached to a release and ship no package, in the
/// order of its documents. They raise no duty, and no refusal names them. If there is no such
/// release, there are none.
///
/// # Errors
///
/// The store's fault, or out of memory.
pub fn idle_documents<S: Store>(
    alloc: Global,
    store: &mut S,
    release: &Text,
) -> Result<Vec<u32>, Fault>
    ensures found { IfOk result (λ numbers. OfRows (λ t. numbers.items ≡ idle_found t release.now)
        (S.seen store.old) (S.seen store.new)) }
    ensures kept { Looked (S.seen store.old) (S.seen store.new) result }
    ensures fault { IfErr result (MayFail S.tells) }
{
    let attached = store.attached(release.as_str())?;
    idle_among(alloc, store, attached.as_slice())
}
