//! The texts that a release needs: those that the terms name which its packages may ship under.

ghost use Rattle.std.specs.Prelude.{◌≡◌, IfErr, IfOk, OnOk, map};
ghost use Rattle.std.specs.List.{flat_map};
ghost use Rattle.desk_model.specs.Bills.{first_uses, texts_named};
ghost use Rattle.desk_model.specs.Faults.{MayFail};
ghost use Rattle.desk_model.specs.Gaps.{conclusion_terms, terms_named};
ghost use Rattle.desk_model.specs.Readings.{Readings};
ghost use Rattle.desk_access.specs.Seen.{Looked, OfRows};
ghost use Rattle.desk_bills.specs.Billing.{Adds};
ghost use Rattle.desk_bills.specs.Lacking.{named_by, needed_of, terms_found};

use crate::texts::{Named, add_term, first_uses};
use desk_access::store::Store;
use desk_access::texts::Texts;
use desk_base::{Items, Text};
use desk_model::{Conclusion, Fault, PackageRow, TextOf};
use desk_packages::conclusion_of;
use std::alloc::{AllocError, Global};

/// The terms of a document whose texts are needed for a package.
#[derive(Drop)]
pub(crate) struct Needed {
    /// The number of the document, from 1.
    document: u32,
    /// The terms, printed.
    terms: Items<Text>,
}

/// The distinct terms of a conclusion that is an expression.
fn conclusion_terms<T: Texts>(
    alloc: Global,
    texts: &T,
    conclusion: &Conclusion,
) -> Result<Items<Text>, AllocError>
    ensures { (w : Readings) → T.are_right w
        → IfOk result (λ terms. terms ≡ conclusion_terms w conclusion.now) }
{
    match texts.expression(alloc, conclusion.profile, conclusion.text.as_str())? {
        Some(expression) => texts.terms(alloc, &expression),
        None => Ok(Items::new(alloc)),
    }
}

/// The terms that a package may ship under: those chosen for it, or else all of its conclusion.
fn possible_terms<T: Texts, S: Store>(
    alloc: Global,
    texts: &T,
    store: &mut S,
    release: &Text,
    row: &PackageRow,
) -> Result<Items<Text>, Fault>
    ensures found { (w : Readings) → T.are_right w → IfOk result (λ terms.
        OfRows (λ t. terms ≡ terms_found w t release.now row.now)
        (S.seen store.old) (S.seen store.new)) }
    ensures kept { Looked (S.seen store.old) (S.seen store.new) result }
    ensures fault { IfErr result (MayFail S.tells) }
{
    let chosen = store.chosen(release.as_str(), row.document, row.id.as_str())?;
    if !chosen.is_empty() {
        return Ok(Items::from_vec(chosen));
    }
    match conclusion_of(alloc, texts, store, row)? {
        Some(conclusion) => Ok(conclusion_terms(alloc, texts, &conclusion)?),
        None => Ok(Items::new(alloc)),
    }
}

/// What is needed for a package.
fn needed_of<T: Texts, S: Store>(
    alloc: Global,
    texts: &T,
    store: &mut S,
    release: &Text,
    row: &PackageRow,
) -> Result<Needed, Fault>
    ensures found { (w : Readings) → T.are_right w → IfOk result (λ needed.
        OfRows (λ t. needed ≡ needed_of w t release.now row.now)
        (S.seen store.old) (S.seen store.new)) }
    ensures kept { Looked (S.seen store.old) (S.seen store.new) result }
    ensures fault { IfErr result (MayFail S.tells) }
{
    let terms = possible_terms(alloc, texts, store, release, row)?;
    Ok(Needed {
        document: row.document,
        terms,
    })
}

#[tactic(auto, using(desk_access::proofs::Chains::same_then_kept, desk_access::proofs::Chains::same_then_same))]
/// What is needed for each package.
pub(crate) fn needed_for<T: Texts, S: Store>(
    alloc: Global,
    texts: &T,
    store: &mut S,
    release: &Text,
    rows: Vec<PackageRow>,
) -> Result<Vec<Needed>, Fault>
    ensures found { (w : Readings) → T.are_right w → IfOk result (λ needed.
        OfRows (λ t. needed.items ≡ map (needed_of w t release.now) rows.items)
        (S.seen store.old) (S.seen store.new)) }
    ensures kept { Looked (S.seen store.old) (S.seen store.new) result }
    ensures fault { IfErr result (MayFail S.tells) }
{
    let mut needed = Vec::new(alloc);
    for row in rows {
        let one = needed_of(alloc, texts, store, release, &row)?;
        needed.push(one)?;
    }
    Ok(needed)
}

/// Adds the texts that terms of a document name.
fn add_needed<'a, T: Texts>(
    alloc: Global,
    texts: &T,
    needed: &'a Needed,
    named: &mut Named<'a>,
) -> Result<(), AllocError>
    ensures { (w : Readings) → T.are_right w
        → OnOk result (Adds w (named_by w needed.now) named.old named.new) }
{
    for term in needed.terms.as_slice() {
        add_term(alloc, texts, needed.document, term, named)?;
    }
    Ok(())
}

/// The texts that are needed, in the order of first use, each once.
pub(crate) fn texts_needed<T: Texts>(
    alloc: Global,
    texts: &T,
    needed: &[Needed],
) -> Result<Vec<TextOf>, AllocError>
    ensures { (w : Readings) → T.are_right w → IfOk result (λ uses.
        uses.items ≡ first_uses (flat_map (named_by w) needed.now)) }
{
    let mut named = Named::new(alloc);
    for one in needed {
        add_needed(alloc, texts, one, &mut named)?;
    }
    first_uses(alloc, named.texts)
}
