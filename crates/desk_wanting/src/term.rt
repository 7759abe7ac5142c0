//! The refusals for the terms that are chosen for a package.

ghost use Rattle.std.specs.Prelude.{◌≡◌, ◌++◌, [], is_some, IfOk, IfErr, OnOk};
ghost use Rattle.std.specs.List.{cons_option, filter_map};
ghost use Rattle.desk_model.specs.Readings.{Readings};
ghost use Rattle.desk_model.specs.Faults.{MayFail};
ghost use Rattle.desk_model.specs.Answers.{unadopted};
ghost use Rattle.desk_history.specs.FromTables.{rules_found};
ghost use Rattle.desk_access.specs.Seen.{Looked, OfRows};
ghost use Rattle.desk_model.specs.Obstacles.{term_refusals, unruled_alone};

use desk_access::store::Store;
use desk_access::texts::Texts;
use desk_base::Text;
use desk_model::{Fault, PackageRow, Refusal};
use desk_packages::{no_rule, not_adopted, rule_adopted};
use std::alloc::{AllocError, Global};

/// Adds a refusal, if it applies.
pub(crate) fn add_refusal(
    refusals: &mut Vec<Refusal>,
    refusal: Option<Refusal>,
) -> Result<(), AllocError>
    ensures { OnOk result (refusals.new.items ≡ refusals.old.items ++ cons_option refusal []) }
{
    if let Some(refusal) = refusal {
        refusals.push(refusal)?;
    }
    Ok(())
}

/// Adds the refusals for the references without an adoption among the terms of a document.
#[tactic(auto, using(desk_access::proofs::Chains::same_then_kept, desk_access::proofs::Chains::same_then_same))]
fn add_unadopted<T: Texts, S: Store>(
    alloc: Global,
    texts: &T,
    store: &mut S,
    document: u32,
    terms: &[Text],
    refusals: &mut Vec<Refusal>,
) -> Result<(), Fault>
    ensures found { (w : Readings) → T.are_right w → OnOk result (OfRows (λ t. refusals.new.items
        ≡ refusals.old.items ++ filter_map (unadopted w t.adoption document) terms.now)
        (S.seen store.old) (S.seen store.new)) }
    ensures kept { Looked (S.seen store.old) (S.seen store.new) result }
    ensures fault { IfErr result (MayFail S.tells) }
{
    for term in terms {
        let refusal = not_adopted(alloc, texts, store, document, term)?;
        add_refusal(refusals, refusal)?;
    }
    Ok(())
}

/// Whether something was found.
pub(crate) fn is_found<F: Drop>(found: Option<F>) -> bool
    ensures { result ≡ is_some found }
{
    found.is_some()
}

/// The refusal for a term of a package that has no rule and isn't a reference without an adoption.
fn unruled_alone<T: Texts, S: Store>(
    alloc: Global,
    texts: &T,
    store: &mut S,
    form: &Text,
    row: &PackageRow,
    term: &Text,
) -> Result<Option<Refusal>, Fault>
    ensures found { (w : Readings) → T.are_right w → IfOk result (λ refusal.
        OfRows (λ t. refusal ≡ unruled_alone w t.adoption (rules_found t) form.now row.now term.now)
        (S.seen store.old) (S.seen store.new)) }
    ensures kept { Looked (S.seen store.old) (S.seen store.new) result }
    ensures fault { IfErr result (MayFail S.tells) }
{
    if is_found(rule_adopted(alloc, texts, store, form, row.document, term)?) {
        return Ok(None);
    }
    if is_found(not_adopted(alloc, texts, store, row.document, term)?) {
        return Ok(None);
    }
    Ok(Some(no_rule(row, term)?))
}

#[tactic(auto, using(desk_access::proofs::Chains::same_then_kept, desk_access::proofs::Chains::same_then_same))]
/// Adds the refusals for the terms of a package without a rule, except references without an
/// adoption.
fn add_unruled<T: Texts, S: Store>(
    alloc: Global,
    texts: &T,
    store: &mut S,
    form: &Text,
    row: &PackageRow,
    terms: &[Text],
    refusals: &mut Vec<Refusal>,
) -> Result<(), Fault>
    ensures found { (w : Readings) → T.are_right w → OnOk result (OfRows (λ t. refusals.new.items
        ≡ refusals.old.items
        ++ filter_map (unruled_alone w t.adoption (rules_found t) form.now row.now) terms.now)
        (S.seen store.old) (S.seen store.new)) }
    ensures kept { Looked (S.seen store.old) (S.seen store.new) result }
    ensures fault { IfErr result (MayFail S.tells) }
{
    for term in terms {
        let refusal = unruled_alone(alloc, texts, store, form, row, term)?;
        add_refusal(refusals, refusal)?;
    }
    Ok(())
}

/// Adds the refusals for the terms of a package: first those for references without an adoption,
/// then those for other terms without a rule.
pub(crate) fn add_term_refusals<T: Texts, S: Store>(
    alloc: Global,
    texts: &T,
    store: &mut S,
    form: &Text,
    row: &PackageRow,
    terms: &[Text],
    refusals: &mut Vec<Refusal>,
) -> Result<(), Fault>
    ensures found { (w : Readings) → T.are_right w → OnOk result (OfRows (λ t. refusals.new.items
        ≡ refusals.old.items
        ++ term_refusals w t.adoption (rules_found t) form.now terms.now row.now)
        (S.seen store.old) (S.seen store.new)) }
    ensures kept { Looked (S.seen store.old) (S.seen store.new) result }
    ensures fault { IfErr result (MayFail S.tells) }
{
    add_unadopted(alloc, texts, store, row.document, terms, refusals)?;
    add_unruled(alloc, texts, store, form, row, terms, refusals)
}
