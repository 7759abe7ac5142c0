//! A table of the terms of an expression.

ghost use Rattle.std.specs.Prelude.{◌≡◌, ℕ, List, slice_get, Some, IfOk, IfSome, IfNone, Contains};
ghost use Rattle.std.specs.List.Sorted.{IsStrictlySortedBy};
ghost use Rattle.desk_expr.specs.Occurring.{term_order, AreTermsOf};

use desk_expr::{Expr, Term, terms};
use std::alloc::{AllocError, Global};
use std::marker::Model;

/// The distinct terms of an expression, in the order of terms.
#[derive(Drop)]
pub struct TermTable {
    terms: Vec<Term>,
}

impl Model for TermTable {
    ghost use Rattle.std.specs.Prelude.{List};
    ghost use Rattle.std.specs.List.Sorted.{IsStrictlySortedBy};
    ghost use Rattle.desk_expr.specs.declared.term.Term.{Term};
    ghost use Rattle.desk_expr.specs.Occurring.{term_order};

    ghost Value = { List Term };

    ghost view = { λ t. t.terms.items };

    ghost invariant = { λ t. IsStrictlySortedBy term_order t.terms.items };
}

impl TermTable {
    /// The table of an expression.
    pub fn of(alloc: Global, expr: &Expr) -> Result<TermTable, AllocError>
        ensures { IfOk result (AreTermsOf expr.now) }
    {
        let terms = terms(alloc, expr)?;
        Ok(TermTable { terms })
    }

    /// The terms, in order.
    pub fn terms(&self) -> &[Term]
        ensures terms { result.now ≡ self.now }
        ensures ordered { IsStrictlySortedBy term_order self.now }
    {
        self.terms.as_slice()
    }

    /// The index of a term among the terms. The search allocates nothing.
    pub fn place(&self, term: &Term) -> Option<usize>
        ensures found { IfSome result (λ k. slice_get self.now k ≡ Some term.now) }
        ensures none { IfNone result (Contains self.now term.now → ⊥) }
    {
        self.terms().binary_search(term).ok()
    }
}
