//! The minimal sets of terms of an expression.

ghost use Rattle.std.specs.Prelude.{◌≡◌, ◌≤◌, List, length, IfOk, IfErr, OnOk, Contains, All, Any};
ghost use Rattle.std.specs.List.{AllZip};
ghost use Rattle.desk_expr.specs.declared.term.Term.{Term};
ghost use Rattle.desk_expr.specs.Meaning.{Holds, IsSubset};
ghost use Rattle.desk_alts.specs.Sets.{AreAlternatives};
ghost use Rattle.desk_alts.specs.Choices.{IsChoice};
ghost use Rattle.desk_alts.specs.Faults.{IsListable, IsFaultOf};

use crate::fault::AltFault;
use crate::fronts::minimal_sets;
use crate::kept::Kept;
use crate::sets::TermSet;
use crate::table::TermTable;
use desk_base::limits;
use desk_expr::Expr;
use std::alloc::{AllocError, Global};

// The terms of each kept set.
fn sets_of(alloc: Global, table: &TermTable, kept: &Kept) -> Result<Vec<TermSet>, AllocError>
    requires { length table.now ≤ 128 }
    ensures { IfOk result (λ v. AllZip (IsChoice table.now) kept.now v.items) }
{
    let mut sets = Vec::new(alloc);
    for at in 0..kept.len() {
        sets.push(TermSet::chosen(alloc, table, kept.get(at))?)?;
    }
    Ok(sets)
}

/// The minimal sets of an expression, each once, in the order of sets.
///
/// An expression with more than 128 distinct terms is refused as `TooManyTerms`. Otherwise it is
/// refused as `TooMany` if some front of some node has more than 64 minimal sets: a front of an All
/// or Any is one or more of its first parts under the same operator.
pub fn alternatives(alloc: Global, expr: &Expr) -> Result<Vec<TermSet>, AltFault>
    ensures sets { IfOk result (λ v. AreAlternatives expr.now v.items) }
    ensures contained { IfOk result (λ v. (s : List Term) → Holds (Contains s) expr.now
        → Any (λ m. IsSubset m s) v.items) }
    ensures listable { OnOk result (IsListable expr.now) }
    ensures fault { IfErr result (IsFaultOf expr.now) }
{
    let table = TermTable::of(alloc, expr)?;
    if table.terms().len() > limits::LISTED_TERMS {
        return Err(AltFault::TooManyTerms);
    }
    let kept = minimal_sets(alloc, &table, expr)?;
    let mut sets = sets_of(alloc, &table, &kept)?;
    sets.sort()?;
    Ok(sets)
}
