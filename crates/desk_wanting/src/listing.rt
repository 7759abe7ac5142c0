//! Listings with only one set.

ghost use Rattle.std.specs.Prelude.{◌≡◌, ℕ, List, IfOk, IfErr, Ok, map};
ghost use Rattle.desk_base.specs.declared.profile.Profile.{Profile};
ghost use Rattle.desk_model.specs.Readings.{Readings};
ghost use Rattle.desk_model.specs.Faults.{MayFail};
ghost use Rattle.desk_access.specs.Seen.{Looked, OfRows};
ghost use Rattle.desk_history.specs.FromTables.{conclusion_found};
ghost use Rattle.desk_wanting.specs.Sole.{sole_set, sole_terms};

use desk_access::store::Store;
use desk_access::texts::Texts;
use desk_base::{Items, Text};
use desk_model::{Fault, PackageRow};
use desk_packages::{InForce, in_force};
use std::alloc::{AllocError, Global};

/// The only one of these sets, if there is just one.
fn sole_of(sets: Items<Items<Text>>) -> Option<Items<Text>>
    ensures { result ≡ sole_set (Ok sets) }
{
    let mut sets = sets.into_vec();
    if sets.len() != 1 {
        return None;
    }
    sets.pop()
}

/// The set of terms under which an expression is true, if its listing has only one.
fn sole_set<T: Texts>(
    alloc: Global,
    texts: &T,
    expression: &T::Expression,
) -> Result<Option<Items<Text>>, AllocError>
    ensures { (w : Readings) → T.are_right w → (profile : Profile) (text : List ℕ)
        → T.is_of profile text expression.now
        → IfOk result (λ set. set ≡ sole_set (w.alternatives profile text)) }
{
    match texts.alternatives(alloc, expression)? {
        Ok(sets) => Ok(sole_of(sets)),
        Err(_) => Ok(None),
    }
}

/// The set of terms under which the conclusion in force for a package is true, if its listing has
/// only one.
pub(crate) fn sole_terms<T: Texts, S: Store>(
    alloc: Global,
    texts: &T,
    store: &mut S,
    row: &PackageRow,
) -> Result<Option<Items<Text>>, Fault>
    ensures found { (w : Readings) → T.are_right w → IfOk result (λ set.
        OfRows (λ t. set ≡ sole_terms w (conclusion_found w t row.now))
        (S.seen store.old) (S.seen store.new)) }
    ensures kept { Looked (S.seen store.old) (S.seen store.new) result }
    ensures fault { IfErr result (MayFail S.tells) }
{
    match in_force(alloc, texts, store, row)? {
        InForce::Expression(expression) => Ok(sole_set(alloc, texts, &expression)?),
        InForce::NoExpression | InForce::Nothing => Ok(None),
    }
}
