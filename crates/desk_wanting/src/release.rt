//! What stands in the way of a freeze of a release.

ghost use Rattle.std.specs.Prelude.{◌≡◌, ◌∷◌, [], IfOk, IfErr};
ghost use Rattle.desk_model.specs.Readings.{Readings};
ghost use Rattle.desk_model.specs.Faults.{MayFail};
ghost use Rattle.desk_model.specs.declared.command.Fault.TheVariants.{Memory};
ghost use Rattle.desk_access.specs.Seen.{Looked, OfRows};
ghost use Rattle.desk_wanting.specs.Obstacles.{open_wanting, wanting_found};

use crate::package::refusals_of;
use crate::told::told_once;
use desk_access::store::Store;
use desk_access::texts::Texts;
use desk_base::Text;
use desk_model::{Fault, Refusal};
use desk_packages::{shipped_packages, unready};
use std::alloc::Global;

/// A list of one refusal.
fn alone(alloc: Global, refusal: Refusal) -> Result<Vec<Refusal>, Fault>
    ensures found { IfOk result (λ refusals. refusals.items ≡ refusal ∷ []) }
    ensures fault { IfErr result (λ fault. fault ≡ Memory) }
{
    let mut refusals = Vec::new(alloc);
    refusals.push(refusal)?;
    Ok(refusals)
}

/// What keeps an open release with this form from being frozen, in the order in which a freeze
/// meets it.
///
/// # Errors
///
/// The store's fault, or out of memory.
pub fn open_wanting<T: Texts, S: Store>(
    alloc: Global,
    texts: &T,
    store: &mut S,
    release: &Text,
    form: &Text,
) -> Result<Vec<Refusal>, Fault>
    ensures found { (w : Readings) → T.are_right w → IfOk result (λ refusals.
        OfRows (λ t. refusals.items ≡ open_wanting w t release.now form.now)
        (S.seen store.old) (S.seen store.new)) }
    ensures kept { Looked (S.seen store.old) (S.seen store.new) result }
    ensures fault { IfErr result (MayFail S.tells) }
{
    let attached = store.attached(release.as_str())?;
    if attached.is_empty() {
        return alone(alloc, Refusal::EmptyRelease);
    }
    let packages = shipped_packages(alloc, store, attached.as_slice())?;
    let refusals = refusals_of(alloc, texts, store, release, form, packages.as_slice())?;
    told_once(alloc, refusals)
}

/// Everything that keeps a release from being frozen, in the order in which a freeze meets it. If
/// there is no such release, or it isn't open, or no document is attached, that is the only
/// refusal. Otherwise these are the refusals for each package that it ships, by document and id:
/// NoConclusion, NoChoice, NotAdopted for each chosen reference without an adoption, unless the
/// list already names that reference of the document, and NoRule for each other chosen term without
/// a rule in the release's form. The limit of duties isn't checked.
///
/// # Errors
///
/// The store's fault, or out of memory.
pub fn wanting<T: Texts, S: Store>(
    alloc: Global,
    texts: &T,
    store: &mut S,
    release: &Text,
) -> Result<Vec<Refusal>, Fault>
    ensures found { (w : Readings) → T.are_right w → IfOk result (λ refusals.
        OfRows (λ t. refusals.items ≡ wanting_found w t release.now)
        (S.seen store.old) (S.seen store.new)) }
    ensures kept { Looked (S.seen store.old) (S.seen store.new) result }
    ensures fault { IfErr result (MayFail S.tells) }
{
    let Some(row) = store.release(release.as_str())? else {
        return alone(alloc, Refusal::UnknownRelease);
    };
    if let Some(refusal) = unready(row.state) {
        return alone(alloc, refusal);
    }
    open_wanting(alloc, texts, store, release, &row.form)
}
