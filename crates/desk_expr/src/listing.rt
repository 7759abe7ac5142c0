//! The terms of an expression.

ghost use Rattle.std.specs.Prelude.{◌≡◌, ◌↔◌, All, IfOk, IsTrue, OnOk, OnErr, ◌++◌};
ghost use Rattle.desk_expr.specs.Occurring.{leaves, AreTermsOf};
ghost use Rattle.desk_expr.specs.Words.{is_term};

use crate::expr::{Expr, Node};
use crate::term::Term;
use std::alloc::{AllocError, Global};

impl Expr {
    // Adds the terms from the left, each as often as it occurs.
    fn collect_terms(&self, terms: &mut Vec<Term>) -> Result<(), AllocError>
        ensures added { OnOk result (terms.new.items ≡ terms.old.items ++ leaves self.now) }
        ensures well_formed { OnOk result (All (λ t. IsTrue (is_term t)) terms.old.items
            → All (λ t. IsTrue (is_term t)) terms.new.items) }
    {
        match &self.node {
            Node::One(leaf) => {
                terms.push(leaf.term().clone()?)?;
            }
            Node::All(parts) => {
                for part in parts {
                    part.collect_terms(terms)?;
                }
            }
            Node::Any(parts) => {
                for part in parts {
                    part.collect_terms(terms)?;
                }
            }
        }
        Ok(())
    }
}

/// The distinct terms of the expression, in the order of terms.
pub fn terms(alloc: Global, expr: &Expr) -> Result<Vec<Term>, AllocError>
    ensures terms { IfOk result (λ v. AreTermsOf expr.now v.items) }
    ensures well_formed { IfOk result (λ v. All (λ t. IsTrue (is_term t)) v.items) }
{
    let mut terms = Vec::new(alloc);
    expr.collect_terms(&mut terms)?;
    terms.sort()?;
    terms.dedup();
    Ok(terms)
}
