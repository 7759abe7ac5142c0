//! The sole choices of a release.

ghost use Rattle.std.specs.Prelude.{◌≡◌, IfOk, IfErr};
ghost use Rattle.std.specs.List.{filter_map};
ghost use Rattle.std.specs.Result.{result_map_both};
ghost use Rattle.desk_model.specs.Readings.{Readings};
ghost use Rattle.desk_model.specs.Faults.{MayFail};
ghost use Rattle.desk_access.specs.Seen.{Looked, OfRows};
ghost use Rattle.desk_history.specs.FromTables.{shipped_found, state_found};
ghost use Rattle.desk_wanting.specs.Sole.{release_refusal, sole_choice_found, sole_choices_found};

use crate::sole_choice::{SoleChoice, sole_choices_for};
use desk_access::store::Store;
use desk_access::texts::Texts;
use desk_base::Text;
use desk_model::{Fault, Refusal};
use desk_packages::{shipped_packages, unready};
use std::alloc::Global;

/// The refusal of a choice for any package of a release, if there is one.
fn release_refusal<S: Store>(store: &mut S, release: &Text) -> Result<Option<Refusal>, Fault>
    ensures found { IfOk result (λ refusal.
        OfRows (λ t. refusal ≡ release_refusal (state_found t release.now))
        (S.seen store.old) (S.seen store.new)) }
    ensures kept { Looked (S.seen store.old) (S.seen store.new) result }
    ensures fault { IfErr result (MayFail S.tells) }
{
    match store.release(release.as_str())? {
        Some(row) => Ok(unready(row.state)),
        None => Ok(Some(Refusal::UnknownRelease)),
    }
}

/// The sole choices for the packages that a release ships.
fn shipped_choices<T: Texts, S: Store>(
    alloc: Global,
    texts: &T,
    store: &mut S,
    release: &Text,
) -> Result<Vec<SoleChoice>, Fault>
    ensures found { (w : Readings) → T.are_right w → IfOk result (λ choices.
        OfRows (λ t. choices.items
        ≡ filter_map (sole_choice_found w t release.now) (shipped_found t release.now))
        (S.seen store.old) (S.seen store.new)) }
    ensures kept { Looked (S.seen store.old) (S.seen store.new) result }
    ensures fault { IfErr result (MayFail S.tells) }
{
    let attached = store.attached(release.as_str())?;
    let packages = shipped_packages(alloc, store, attached.as_slice())?;
    sole_choices_for(alloc, texts, store, release, packages.as_slice())
}

/// The choices of a release that leave nothing to choose: for each package that it ships, by
/// document and id, the minimal set of terms under which its conclusion in force is true, if there
/// is only one and nothing is chosen yet. A package without a conclusion, or whose sets aren't
/// listed because there are too many, is left out. If there is no such release, or it isn't open,
/// the refusal of a choice.
///
/// # Errors
///
/// The store's fault, or out of memory.
pub fn sole_choices<T: Texts, S: Store>(
    alloc: Global,
    texts: &T,
    store: &mut S,
    release: &Text,
) -> Result<Result<Vec<SoleChoice>, Refusal>, Fault>
    ensures found { (w : Readings) → T.are_right w → IfOk result (λ told.
        OfRows (λ t. result_map_both (λ choices. choices.items) (λ refusal. refusal) told
        ≡ sole_choices_found w t release.now)
        (S.seen store.old) (S.seen store.new)) }
    ensures kept { Looked (S.seen store.old) (S.seen store.new) result }
    ensures fault { IfErr result (MayFail S.tells) }
{
    match release_refusal(store, release)? {
        Some(refusal) => Ok(Err(refusal)),
        None => Ok(Ok(shipped_choices(alloc, texts, store, release)?)),
    }
}
