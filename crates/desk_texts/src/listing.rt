//! The sets of terms under which an expression is true, as printed.

ghost use Rattle.std.specs.Prelude.{◌≡◌, ℕ, List, Option, IfOk, map};
ghost use Rattle.desk_expr.specs.Tree.{Tree};
ghost use Rattle.std.specs.List.Sorted.{IsStrictlySortedBy};
ghost use Rattle.std.proofs.Props.{props};
ghost use Rattle.desk_expr.specs.Occurring.{term_order};
ghost use Rattle.desk_expr.specs.Printing.{printed_term};
ghost use Rattle.desk_alts.specs.Faults.{IsFaultOf};
ghost use Rattle.desk_model.specs.Listings.{IsCost};
ghost use Rattle.desk_texts.specs.Listings.{AreTermTexts, IsListFault, IsListing, IsPriced, cost_at, cost_within};

use desk_alts::{AltFault, Cost, TermSet, TermTable};
use desk_base::{Items, Text, limits};
use desk_expr::{Expr, Term, print_term};
use desk_model::{Cheapest, ListFault};
use std::alloc::{AllocError, Global};

/// Why an expression isn't listed, or an error if it is that no memory was left.
fn list_fault(fault: AltFault) -> Result<ListFault, AllocError>
    ensures { IfOk result (λ told. (e : Tree) → IsFaultOf e fault → IsListFault e told) }
{
    match fault {
        AltFault::TooManyTerms => Ok(ListFault::TooManyTerms),
        AltFault::TooMany => Ok(ListFault::TooMany),
        AltFault::Memory(error) => Err(error),
    }
}

fn printed_term(alloc: Global, term: &Term) -> Result<Text, AllocError>
    ensures { IfOk result (λ text. text ≡ printed_term term.now) }
{
    let printed = print_term(alloc, term)?;
    Text::of(alloc, printed.as_str())
}

fn printed_terms(alloc: Global, terms: &[Term]) -> Result<Items<Text>, AllocError>
    ensures { IfOk result (λ texts. texts ≡ map printed_term terms.now) }
{
    let mut texts = Vec::with_capacity(alloc, terms.len())?;
    for term in terms {
        texts.push(printed_term(alloc, term)?)?;
    }
    Ok(Items::from_vec(texts))
}

fn printed_sets(alloc: Global, sets: &[TermSet]) -> Result<Items<Items<Text>>, AllocError>
    ensures { IfOk result (λ texts. texts ≡ map (map printed_term) sets.now) }
{
    let mut texts = Vec::with_capacity(alloc, sets.len())?;
    for set in sets {
        texts.push(printed_terms(alloc, set.terms())?)?;
    }
    Ok(Items::from_vec(texts))
}

/// The minimal sets of terms of an expression.
pub(crate) fn alternatives(
    alloc: Global,
    expr: &Expr,
) -> Result<Result<Items<Items<Text>>, ListFault>, AllocError>
    ensures { IfOk result (IsListing expr.now) }
{
    match desk_alts::alternatives(alloc, expr) {
        Ok(sets) => Ok(Ok(printed_sets(alloc, sets.as_slice())?)),
        Err(fault) => Ok(Err(list_fault(fault)?)),
    }
}

/// The distinct terms of an expression, in order.
pub(crate) fn terms(alloc: Global, expr: &Expr) -> Result<Items<Text>, AllocError>
    ensures { IfOk result (AreTermTexts expr.now) }
{
    let table = TermTable::of(alloc, expr)?;
    printed_terms(alloc, table.terms())
}

/// The costs of an expression's terms, each at its term's place.
#[derive(Drop)]
struct Costs<'c> {
    table: &'c TermTable,
    costs: &'c [Option<u64>],
    ghost ordered: { IsStrictlySortedBy term_order table.now } by { Prim.hlevel props },
}

impl Costs<'_> {
    /// The cost at a term's place.
    fn at_place(&self, term: &Term) -> Option<u64>
        ensures { result ≡ cost_at self.now.table.now self.now.costs.now term.now }
    {
        let place = self.table.place(term)?;
        match self.costs.get(place) {
            Some(cost) => *cost,
            None => None,
        }
    }
}

impl Cost for Costs<'_> {
    ghost cost_of = { λ c t. cost_within c.table.now c.costs.now t };

    fn cost(&self, term: &Term) -> Option<u64> {
        match self.at_place(term) {
            Some(cost) => Some(cost.min(limits::TERM_COST)),
            None => None,
        }
    }
}

/// The cheapest set of terms of an expression. The costs are those of its distinct terms in order,
/// each at most 1,000,000.
pub(crate) fn cheapest(
    alloc: Global,
    expr: &Expr,
    costs: &[Option<u64>],
) -> Result<Result<Option<Cheapest>, ListFault>, AllocError>
    ensures { (cost : List ℕ → Option ℕ) → IsCost cost
        → ((terms : List (List ℕ)) → AreTermTexts expr.now terms → costs.now ≡ map cost terms)
        → IfOk result (IsPriced cost expr.now) }
{
    let table = TermTable::of(alloc, expr)?;
    let by_place = Costs {
        table: &table,
        costs,
    };
    match desk_alts::cheapest(alloc, expr, &by_place) {
        Ok(Some(choice)) => Ok(Ok(Some(Cheapest {
            cost: choice.cost,
            terms: printed_terms(alloc, choice.set.terms())?,
        }))),
        Ok(None) => Ok(Ok(None)),
        Err(fault) => Ok(Err(list_fault(fault)?)),
    }
}
