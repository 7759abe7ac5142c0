//! The refusals for the packages that a release ships.

ghost use Rattle.std.specs.Prelude.{◌≡◌, ◌++◌, ◌∷◌, [], Option, is_some, IfOk, IfErr, OnOk};
ghost use Rattle.std.specs.List.{flat_map};
ghost use Rattle.desk_model.specs.Readings.{Readings};
ghost use Rattle.desk_model.specs.Faults.{MayFail};
ghost use Rattle.desk_model.specs.Answers.{unchosen, unconcluded};
ghost use Rattle.desk_model.specs.declared.reading.Conclusion.{Conclusion as Concluded};
ghost use Rattle.desk_access.specs.Seen.{Looked, OfRows};
ghost use Rattle.desk_history.specs.FromTables.{refusals_found};
ghost use Rattle.desk_model.specs.Obstacles.{applying};

use crate::term::{add_refusal, add_term_refusals, is_found};
use desk_access::store::Store;
use desk_access::texts::Texts;
use desk_base::Text;
use desk_model::{Fault, PackageRow, Refusal};
use desk_packages::conclusion_of;
use std::alloc::{AllocError, Global};

fn no_conclusion(row: &PackageRow, is_concluded: bool) -> Result<Option<Refusal>, AllocError>
    ensures { (conclusion : Option Concluded) → is_concluded ≡ is_some conclusion
        → IfOk result (λ refusal. refusal ≡ unconcluded conclusion row.now) }
{
    if is_concluded {
        return Ok(None);
    }
    Ok(Some(Refusal::NoConclusion {
        document: row.document,
        package_id: row.id.clone()?,
    }))
}

fn no_choice(row: &PackageRow, terms: &[Text]) -> Result<Option<Refusal>, AllocError>
    ensures { IfOk result (λ refusal. refusal ≡ unchosen row.now terms.now) }
{
    if !terms.is_empty() {
        return Ok(None);
    }
    Ok(Some(Refusal::NoChoice {
        document: row.document,
        package_id: row.id.clone()?,
    }))
}

/// Adds the refusals for a package if it has no conclusion, or if no terms are chosen for it.
fn add_bare(
    row: &PackageRow,
    is_concluded: bool,
    terms: &[Text],
    refusals: &mut Vec<Refusal>,
) -> Result<(), AllocError>
    ensures { (conclusion : Option Concluded) → is_concluded ≡ is_some conclusion
        → OnOk result (refusals.new.items ≡ refusals.old.items
        ++ applying (unconcluded conclusion row.now ∷ unchosen row.now terms.now ∷ [])) }
{
    add_refusal(refusals, no_conclusion(row, is_concluded)?)?;
    add_refusal(refusals, no_choice(row, terms)?)
}

/// Adds the refusals for a package that a release with this form ships.
fn add_package_refusals<T: Texts, S: Store>(
    alloc: Global,
    texts: &T,
    store: &mut S,
    release: &Text,
    form: &Text,
    row: &PackageRow,
    refusals: &mut Vec<Refusal>,
) -> Result<(), Fault>
    ensures found { (w : Readings) → T.are_right w → OnOk result (OfRows (λ t. refusals.new.items
        ≡ refusals.old.items ++ refusals_found w t release.now form.now row.now)
        (S.seen store.old) (S.seen store.new)) }
    ensures kept { Looked (S.seen store.old) (S.seen store.new) result }
    ensures fault { IfErr result (MayFail S.tells) }
{
    let is_concluded = is_found(conclusion_of(alloc, texts, store, row)?);
    let terms = store.chosen(release.as_str(), row.document, row.id.as_str())?;
    add_bare(row, is_concluded, terms.as_slice(), refusals)?;
    add_term_refusals(alloc, texts, store, form, row, terms.as_slice(), refusals)
}

#[tactic(auto, using(desk_access::proofs::Chains::same_then_kept, desk_access::proofs::Chains::same_then_same))]
/// The refusals for packages that a release with this form ships, in their order.
pub(crate) fn refusals_of<T: Texts, S: Store>(
    alloc: Global,
    texts: &T,
    store: &mut S,
    release: &Text,
    form: &Text,
    packages: &[PackageRow],
) -> Result<Vec<Refusal>, Fault>
    ensures found { (w : Readings) → T.are_right w → IfOk result (λ refusals.
        OfRows (λ t. refusals.items
        ≡ flat_map (refusals_found w t release.now form.now) packages.now)
        (S.seen store.old) (S.seen store.new)) }
    ensures kept { Looked (S.seen store.old) (S.seen store.new) result }
    ensures fault { IfErr result (MayFail S.tells) }
{
    let mut refusals = Vec::new(alloc);
    for row in packages {
        add_package_refusals(alloc, texts, store, release, form, row, &mut refusals)?;
    }
    Ok(refusals)
}
