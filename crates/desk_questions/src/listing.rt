//! The sets of terms under which a package's conclusion in force is true.

ghost use Rattle.std.specs.Prelude.{◌≡◌, ℕ, List, IfOk, IfErr, map};
ghost use Rattle.desk_base.specs.declared.profile.Profile.{Profile};
ghost use Rattle.desk_model.specs.Readings.{Readings};
ghost use Rattle.desk_model.specs.Faults.{MayFail};
ghost use Rattle.desk_model.specs.Listings.{list_refusal, rule_cost, term_cost};
ghost use Rattle.desk_access.specs.Seen.{Looked, OfRows};
ghost use Rattle.desk_history.specs.FromTables.{conclusion_found, queried_from, rules_found};
ghost use Rattle.desk_questions.specs.Found.{IsFound, listed, listed_found, priced, priced_by, priced_found};

use desk_access::store::Store;
use desk_access::texts::Texts;
use desk_base::{Items, Text, limits};
use desk_model::{Answer, Fault, ListFault, PackageRow, Query, Refusal, Rule};
use desk_packages::{InForce, in_force, rule_adopted};
use std::alloc::{AllocError, Global};

fn list_refusal(fault: ListFault) -> Refusal
    ensures { result ≡ list_refusal fault }
{
    match fault {
        ListFault::TooManyTerms => Refusal::TooManyTerms,
        ListFault::TooMany => Refusal::TooMany,
    }
}

fn no_conclusion(row: PackageRow) -> Answer
    ensures { result ≡ Answer.Refused (Refusal.NoConclusion row.document row.id) }
{
    Answer::Refused(Refusal::NoConclusion {
        document: row.document,
        package_id: row.id,
    })
}

/// The sets of an expression, or why they aren't listed.
fn list_sets<T: Texts>(
    alloc: Global,
    texts: &T,
    expression: &T::Expression,
) -> Result<Answer, AllocError>
    ensures { (w : Readings) → T.are_right w → (profile : Profile) (text : List ℕ)
        → T.is_of profile text expression.now
        → IfOk result (λ answer. answer ≡ listed (w.alternatives profile text)) }
{
    match texts.alternatives(alloc, expression)? {
        Ok(sets) => Ok(Answer::Alternatives(sets)),
        Err(fault) => Ok(Answer::Refused(list_refusal(fault))),
    }
}

/// A package of a document, or why there is none.
fn package_of<S: Store>(
    store: &mut S,
    document: u64,
    package_id: &Text,
) -> Result<Result<PackageRow, Refusal>, Fault>
    ensures found { IfOk result (λ found.
        OfRows (λ t. IsFound t document package_id.now found) (S.seen store.old)
        (S.seen store.new)) }
    ensures kept { Looked (S.seen store.old) (S.seen store.new) result }
    ensures fault { IfErr result (MayFail S.tells) }
{
    if store.document(document)?.is_none() {
        return Ok(Err(Refusal::UnknownDocument));
    }
    match store.package_row(document, package_id.as_str())? {
        Some(row) => Ok(Ok(row)),
        None => Ok(Err(Refusal::UnknownPackage)),
    }
}

/// The minimal sets of terms under which the conclusion in force for a package is true, if it has
/// one.
fn listed_for<T: Texts, S: Store>(
    alloc: Global,
    texts: &T,
    store: &mut S,
    row: PackageRow,
) -> Result<Answer, Fault>
    ensures answer { (w : Readings) → T.are_right w → IfOk result (λ answer.
        OfRows (λ t. answer ≡ listed_found w t row) (S.seen store.old) (S.seen store.new)) }
    ensures kept { Looked (S.seen store.old) (S.seen store.new) result }
    ensures fault { IfErr result (MayFail S.tells) }
{
    match in_force(alloc, texts, store, &row)? {
        InForce::Expression(expression) => Ok(list_sets(alloc, texts, &expression)?),
        InForce::NoExpression => Ok(Answer::Alternatives(Items::new(alloc))),
        InForce::Nothing => Ok(no_conclusion(row)),
    }
}

/// The minimal sets of terms under which the conclusion in force for a package is true, in the
/// order of sets.
pub fn alternatives<T: Texts, S: Store>(
    alloc: Global,
    texts: &T,
    store: &mut S,
    document: u64,
    package_id: &Text,
) -> Result<Answer, Fault>
    ensures answer { (w : Readings) → T.are_right w → IfOk result (λ answer.
        OfRows (λ t. answer ≡ queried_from w t (Query.Alternatives document package_id.now))
        (S.seen store.old) (S.seen store.new)) }
    ensures kept { Looked (S.seen store.old) (S.seen store.new) result }
    ensures fault { IfErr result (MayFail S.tells) }
{
    match package_of(store, document, package_id)? {
        Ok(row) => listed_for(alloc, texts, store, row),
        Err(refusal) => Ok(Answer::Refused(refusal)),
    }
}

fn rule_cost(rule: &Rule) -> u64
    ensures { result ≡ rule_cost rule.now }
{
    (rule.codes.as_slice().len() as u64).min(limits::TERM_COST)
}

/// How many duties the adopted form of a term of a document owes in a form, if it has a rule.
fn term_cost<T: Texts, S: Store>(
    alloc: Global,
    texts: &T,
    store: &mut S,
    form: &Text,
    document: u32,
    term: &Text,
) -> Result<Option<u64>, Fault>
    ensures found { (w : Readings) → T.are_right w → IfOk result (λ cost.
        OfRows (λ t. cost ≡ term_cost w t.adoption (rules_found t) form.now document term.now)
        (S.seen store.old) (S.seen store.new)) }
    ensures kept { Looked (S.seen store.old) (S.seen store.new) result }
    ensures fault { IfErr result (MayFail S.tells) }
{
    match rule_adopted(alloc, texts, store, form, document, term)? {
        Some(rule) => Ok(Some(rule_cost(&rule))),
        None => Ok(None),
    }
}

#[tactic(auto, using(desk_access::proofs::Chains::same_then_kept, desk_access::proofs::Chains::same_then_same))]
/// What each of these terms of a document costs in a form.
fn term_costs<T: Texts, S: Store>(
    alloc: Global,
    texts: &T,
    store: &mut S,
    form: &Text,
    document: u32,
    terms: &[Text],
) -> Result<Vec<Option<u64>>, Fault>
    ensures found { (w : Readings) → T.are_right w → IfOk result (λ costs.
        OfRows (λ t. costs.items
        ≡ map (term_cost w t.adoption (rules_found t) form.now document) terms.now)
        (S.seen store.old) (S.seen store.new)) }
    ensures kept { Looked (S.seen store.old) (S.seen store.new) result }
    ensures fault { IfErr result (MayFail S.tells) }
{
    let mut costs = Vec::new(alloc);
    for term in terms {
        let cost = term_cost(alloc, texts, store, form, document, term)?;
        costs.push(cost)?;
    }
    Ok(costs)
}

/// The cheapest set of terms under which an expression is true, given what its terms of a document
/// cost in a form.
fn price<T: Texts, S: Store>(
    alloc: Global,
    texts: &T,
    store: &mut S,
    form: &Text,
    document: u32,
    expression: &T::Expression,
) -> Result<Answer, Fault>
    ensures answer { (w : Readings) → T.are_right w → (profile : Profile) (text : List ℕ)
        → T.is_of profile text expression.now → IfOk result (λ answer.
        OfRows (λ t. answer ≡ priced (w.cheapest profile text
        (term_cost w t.adoption (rules_found t) form.now document)))
        (S.seen store.old) (S.seen store.new)) }
    ensures kept { Looked (S.seen store.old) (S.seen store.new) result }
    ensures fault { IfErr result (MayFail S.tells) }
{
    let terms = texts.terms(alloc, expression)?;
    let costs = term_costs(alloc, texts, store, form, document, terms.as_slice())?;
    match texts.cheapest(alloc, expression, costs.as_slice())? {
        Ok(found) => Ok(Answer::Cheapest(found)),
        Err(fault) => Ok(Answer::Refused(list_refusal(fault))),
    }
}

/// The cheapest set of terms under which the conclusion in force for a package is true, if it has
/// one.
fn priced_by<T: Texts, S: Store>(
    alloc: Global,
    texts: &T,
    store: &mut S,
    form: &Text,
    row: PackageRow,
) -> Result<Answer, Fault>
    ensures answer { (w : Readings) → T.are_right w → IfOk result (λ answer.
        OfRows (λ t. answer ≡ priced_by w t form.now row) (S.seen store.old) (S.seen store.new)) }
    ensures kept { Looked (S.seen store.old) (S.seen store.new) result }
    ensures fault { IfErr result (MayFail S.tells) }
{
    match in_force(alloc, texts, store, &row)? {
        InForce::Expression(expression) => {
            price(alloc, texts, store, form, row.document, &expression)
        }
        InForce::NoExpression => Ok(Answer::Cheapest(None)),
        InForce::Nothing => Ok(no_conclusion(row)),
    }
}

/// The cheapest set of terms under which the conclusion in force for a package is true, if the
/// catalogue in force has the form and the package has a conclusion.
fn priced_for<T: Texts, S: Store>(
    alloc: Global,
    texts: &T,
    store: &mut S,
    form: &Text,
    row: PackageRow,
) -> Result<Answer, Fault>
    ensures answer { (w : Readings) → T.are_right w → IfOk result (λ answer.
        OfRows (λ t. answer ≡ priced_found w t form.now row) (S.seen store.old)
        (S.seen store.new)) }
    ensures kept { Looked (S.seen store.old) (S.seen store.new) result }
    ensures fault { IfErr result (MayFail S.tells) }
{
    if !store.has_form(form.as_str())? {
        return Ok(Answer::Refused(Refusal::UnknownForm));
    }
    priced_by(alloc, texts, store, form, row)
}

/// Of the sets of terms under which the conclusion in force for a package is true, the one that
/// owes the fewest duties in a form.
pub fn cheapest<T: Texts, S: Store>(
    alloc: Global,
    texts: &T,
    store: &mut S,
    document: u64,
    package_id: &Text,
    form: &Text,
) -> Result<Answer, Fault>
    ensures answer { (w : Readings) → T.are_right w → IfOk result (λ answer.
        OfRows (λ t. answer ≡ queried_from w t (Query.Cheapest document package_id.now form.now))
        (S.seen store.old) (S.seen store.new)) }
    ensures kept { Looked (S.seen store.old) (S.seen store.new) result }
    ensures fault { IfErr result (MayFail S.tells) }
{
    match package_of(store, document, package_id)? {
        Ok(row) => priced_for(alloc, texts, store, form, row),
        Err(refusal) => Ok(Answer::Refused(refusal)),
    }
}
