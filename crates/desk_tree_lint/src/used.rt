//! The licences and exceptions that the covered files use.

ghost use Rattle.std.specs.Prelude.{◌≡◌, ◌⊎◌, ◌↔◌, ◌++◌, ℕ, List, OnOk, IfOk, Contains, map};
ghost use Rattle.desk_model.specs.Texts.{sorted_set};
ghost use Rattle.desk_tree_infos.specs.Firsts.{first_in, firsts_of};
ghost use Rattle.desk_tree_infos.specs.declared.infos.FileInfo.{FileInfo};
ghost use Rattle.desk_tree_infos.specs.declared.information.Subject.TheVariants.{Licences};
ghost use Rattle.desk_tree_lint.specs.Used.{term_keys, keys_in, Uses, IsUsedIn, IsFirstUsed, AreUsed};

use desk_base::TextList;
use desk_expr::{Term, parse, terms, unless_memory};
use desk_tree_annotations::SharedText;
use desk_tree_gather::First;
use std::alloc::{AllocError, Global};

// Adds the keys of a term.
fn add_term(keys: &mut TextList, term: &Term) -> Result<(), AllocError>
    ensures { OnOk result (keys.new ≡ keys.old ++ term_keys term.now) }
{
    keys.push(term.key.as_str())?;
    match &term.exception {
        Some(exception) => keys.push(exception.as_str()),
        None => Ok(()),
    }
}

// Adds the keys of terms.
fn add_keys(keys: &mut TextList, terms: &[Term]) -> Result<(), AllocError>
    ensures { OnOk result (keys.new ≡ keys.old ++ keys_in terms.now) }
{
    for term in terms {
        add_term(keys, term)?;
    }
    Ok(())
}

// Adds the keys that a licence uses.
fn add_used(alloc: Global, keys: &mut TextList, licence: &str) -> Result<(), AllocError>
    ensures { OnOk result ((key : List ℕ) → Contains keys.new key
        ↔ (Contains keys.old key ⊎ Uses licence.now key)) }
{
    match parse(alloc, licence) {
        Ok(expression) => {
            let found = terms(alloc, &expression)?;
            add_keys(keys, found.as_slice())
        }
        Err(fault) => {
            unless_memory(fault)?;
            Ok(())
        }
    }
}

// Adds the keys that licences use.
fn add_each(alloc: Global, keys: &mut TextList, licences: &[SharedText]) -> Result<(), AllocError>
    ensures { OnOk result ((key : List ℕ) → Contains keys.new key
        ↔ (Contains keys.old key ⊎ IsUsedIn licences.now key)) }
{
    for licence in licences {
        add_used(alloc, keys, licence.as_str())?;
    }
    Ok(())
}

// The keys that licences of files use, each time that one appears.
fn each_used(alloc: Global, firsts: &[First<'_>]) -> Result<TextList, AllocError>
    ensures { IfOk result (λ keys. (key : List ℕ)
        → Contains keys key ↔ IsFirstUsed (map first_in firsts.now) key) }
{
    let mut keys = TextList::new(alloc);
    for first in firsts {
        add_each(alloc, &mut keys, first.texts.as_slice())?;
    }
    Ok(keys)
}

/// The keys that files use, each time that one appears.
pub(crate) fn used_keys(alloc: Global, firsts: &[First<'_>]) -> Result<TextList, AllocError>
    ensures { (infos : List FileInfo) → map first_in firsts.now ≡ firsts_of Licences infos
        → IfOk result (λ keys. AreUsed infos (sorted_set keys)) }
{
    each_used(alloc, firsts)
}
