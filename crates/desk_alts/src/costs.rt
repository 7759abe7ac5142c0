//! The cheapest set of terms that satisfies an expression.

ghost use Rattle.std.specs.Prelude.{◌≡◌, ◌≤◌, ℕ, Option, length, IfOk, IfErr, OnOk, IfSome, IfNone};
ghost use Rattle.desk_expr.specs.declared.term.Term.{Term};
ghost use Rattle.desk_alts.specs.Faults.{IsListable, IsFaultOf};
ghost use Rattle.desk_alts.specs.Costs.{HasCosts, set_cost, IsCheapest, HasNoCosts, IsLeastOf};

use crate::fault::AltFault;
use crate::listing::alternatives;
use crate::sets::TermSet;
use desk_expr::{Expr, Term};
use std::alloc::Global;

/// What a term costs.
pub trait Cost {
    ghost cost_of: { Self → Term → Option ℕ };

    /// The cost of a term, at most 1,000,000, if it has one. The call allocates nothing.
    fn cost(&self, term: &Term) -> Option<u64>
        ensures value { result ≡ cost_of self.now term.now }
        ensures bound { IfSome result (λ cost. cost ≤ 1000000) };
}

/// A set of terms, and the sum of their costs.
#[derive(Drop)]
pub struct Choice {
    /// The sum of the terms' costs.
    pub cost: u64,
    /// The set.
    pub set: TermSet,
}

// The sum of the costs of a set's terms, if each has one.
fn price<C: Cost>(set: &TermSet, cost: &C) -> Option<u64>
    ensures some { IfSome result (λ sum. HasCosts (C.cost_of cost.now) set.now
        × (sum ≡ set_cost (C.cost_of cost.now) set.now)) }
    ensures none { IfNone result (HasCosts (C.cost_of cost.now) set.now → ⊥) }
{
    let terms = set.terms();
    let mut sum = 0;
    for term in terms {
        sum += cost.cost(term)?;
    }
    Some(sum)
}

// The place and the cost of the first set of least cost.
fn least<C: Cost>(sets: &[TermSet], cost: &C) -> Option<(usize, u64)>
    ensures { IsLeastOf (C.cost_of cost.now) sets.now (length sets.now) result }
{
    let mut best = None;
    for (at, set) in sets.iter().enumerate() {
        if let Some(price) = price(set, cost) {
            best = match best {
                Some((first, least)) if least <= price => Some((first, least)),
                _ => Some((at, price)),
            };
        }
    }
    best
}

/// The cheapest set of terms that satisfies an expression, among the sets whose terms all have a
/// cost: no other, minimal or not, costs less, and of sets with the same cost it is the first in
/// the order of sets. `None` means that there is no such set.
///
/// An expression is refused as `alternatives` refuses it.
pub fn cheapest<C: Cost>(alloc: Global, expr: &Expr, cost: &C) -> Result<Option<Choice>, AltFault>
    ensures choice { IfOk result (λ found. IfSome found (λ c.
        IsCheapest (C.cost_of cost.now) expr.now c.cost c.set)) }
    ensures none { IfOk result (λ found. IfNone found (HasNoCosts (C.cost_of cost.now) expr.now)) }
    ensures listable { OnOk result (IsListable expr.now) }
    ensures fault { IfErr result (IsFaultOf expr.now) }
{
    let mut sets = alternatives(alloc, expr)?;
    match least(&sets, cost) {
        Some((at, cost)) => Ok(Some(Choice {
            cost,
            set: sets.swap_remove(at),
        })),
        None => Ok(None),
    }
}
