//! The sole choices for packages.

ghost use Rattle.std.specs.Prelude.{◌≡◌, ◌++◌, [], IfOk, IfErr, OnOk};
ghost use Rattle.std.specs.List.{cons_option, filter_map};
ghost use Rattle.desk_model.specs.Readings.{Readings};
ghost use Rattle.desk_model.specs.Faults.{MayFail};
ghost use Rattle.desk_access.specs.Seen.{Looked, OfRows};
ghost use Rattle.desk_wanting.specs.Sole.{choice_of, sole_choice_found};

use crate::listing::sole_terms;
use desk_access::store::Store;
use desk_access::texts::Texts;
use desk_base::{Items, Text};
use desk_model::{Fault, PackageRow};
use std::alloc::{AllocError, Global};

/// The terms to choose for a package whose conclusion is true under only one minimal set.
#[derive(Drop)]
pub struct SoleChoice {
    /// The number of the package's document, from 1.
    pub document: u32,
    /// Its SPDXID.
    pub package_id: Text,
    /// The terms of the set, printed, in order.
    pub terms: Items<Text>,
}

fn choice_of(row: &PackageRow, terms: Items<Text>) -> Result<SoleChoice, AllocError>
    ensures { IfOk result (λ choice. choice ≡ choice_of row.now terms) }
{
    Ok(SoleChoice {
        document: row.document,
        package_id: row.id.clone()?,
        terms,
    })
}

/// The sole choice for a package that a release ships, if nothing is chosen for it.
fn sole_choice<T: Texts, S: Store>(
    alloc: Global,
    texts: &T,
    store: &mut S,
    release: &Text,
    row: &PackageRow,
) -> Result<Option<SoleChoice>, Fault>
    ensures found { (w : Readings) → T.are_right w → IfOk result (λ choice.
        OfRows (λ t. choice ≡ sole_choice_found w t release.now row.now)
        (S.seen store.old) (S.seen store.new)) }
    ensures kept { Looked (S.seen store.old) (S.seen store.new) result }
    ensures fault { IfErr result (MayFail S.tells) }
{
    let chosen = store.chosen(release.as_str(), row.document, row.id.as_str())?;
    if !chosen.is_empty() {
        return Ok(None);
    }
    match sole_terms(alloc, texts, store, row)? {
        Some(terms) => Ok(Some(choice_of(row, terms)?)),
        None => Ok(None),
    }
}

/// Adds a choice, if there is one.
fn add_choice(choices: &mut Vec<SoleChoice>, choice: Option<SoleChoice>) -> Result<(), AllocError>
    ensures { OnOk result (choices.new.items ≡ choices.old.items ++ cons_option choice []) }
{
    if let Some(choice) = choice {
        choices.push(choice)?;
    }
    Ok(())
}

#[tactic(auto, using(desk_access::proofs::Chains::same_then_kept, desk_access::proofs::Chains::same_then_same))]
/// The sole choices for packages that a release ships, in their order.
pub(crate) fn sole_choices_for<T: Texts, S: Store>(
    alloc: Global,
    texts: &T,
    store: &mut S,
    release: &Text,
    packages: &[PackageRow],
) -> Result<Vec<SoleChoice>, Fault>
    ensures found { (w : Readings) → T.are_right w → IfOk result (λ choices.
        OfRows (λ t. choices.items ≡ filter_map (sole_choice_found w t release.now) packages.now)
        (S.seen store.old) (S.seen store.new)) }
    ensures kept { Looked (S.seen store.old) (S.seen store.new) result }
    ensures fault { IfErr result (MayFail S.tells) }
{
    let mut choices = Vec::new(alloc);
    for row in packages {
        let choice = sole_choice(alloc, texts, store, release, row)?;
        add_choice(&mut choices, choice)?;
    }
    Ok(choices)
}
