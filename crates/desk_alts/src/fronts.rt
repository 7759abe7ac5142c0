//! The minimal sets of each node, front by front.

ghost use Rattle.std.specs.Prelude.{◌≡◌, IfOk, IfErr, OnOk, Contains, slice_get, Some, length, ◌<◌, ◌≤◌};
ghost use Rattle.desk_expr.specs.Tree.{one};
ghost use Rattle.desk_alts.specs.Choices.{AreMinimal, IsTableFor};
ghost use Rattle.desk_alts.specs.Sets.{HasWideFront};
ghost use Rattle.desk_alts.specs.Faults.{IsWidthFaultOf};

use crate::fault::AltFault;
use crate::kept::Kept;
use crate::masks::Mask;
use crate::table::TermTable;
use desk_base::limits;
use desk_expr::{Expr, Shape, Term};
use std::alloc::{AllocError, Global};

fn place_of(table: &TermTable, term: &Term) -> usize
    requires { Contains table.now term.now }
    ensures { slice_get table.now result ≡ Some term.now }
{
    match table.place(term) {
        Some(place) => place,
        None => unreachable!(),
    }
}

fn leaf_sets(alloc: Global, table: &TermTable, term: &Term) -> Result<Kept, AllocError>
    requires { IsTableFor table.now (one term.now) }
    ensures { IfOk result (AreMinimal table.now (one term.now)) }
{
    let mut kept = Kept::new(alloc);
    kept.insert(Mask::single(place_of(table, term)))?;
    Ok(kept)
}

// Refuses a front with too many minimal sets.
fn check_width(kept: &Kept) -> Result<(), AltFault>
    ensures narrow { OnOk result (length kept.now ≤ 64) }
    ensures wide { IfErr result (λ f. (f ≡ AltFault.TooMany) × (64 < length kept.now)) }
{
    if kept.len() > limits::LISTED_SETS {
        return Err(AltFault::TooMany);
    }
    Ok(())
}

/// The minimal sets of an expression.
pub(crate) fn minimal_sets(alloc: Global, table: &TermTable, expr: &Expr) -> Result<Kept, AltFault>
    requires { IsTableFor table.now expr.now }
    ensures minimal { IfOk result (AreMinimal table.now expr.now) }
    ensures narrow { OnOk result (HasWideFront expr.now → ⊥) }
    ensures wide { IfErr result (IsWidthFaultOf expr.now) }
{
    match expr.shape() {
        Shape::One(term) => Ok(leaf_sets(alloc, table, term)?),
        Shape::All(parts) => {
            let mut kept = Kept::new(alloc);
            kept.insert(Mask { low: 0, high: 0 })?;
            for part in parts {
                let sets = minimal_sets(alloc, table, part)?;
                kept = kept.product(alloc, &sets)?;
                check_width(&kept)?;
            }
            Ok(kept)
        }
        Shape::Any(parts) => {
            let mut kept = Kept::new(alloc);
            for part in parts {
                let sets = minimal_sets(alloc, table, part)?;
                kept.insert_all(&sets)?;
                check_width(&kept)?;
            }
            Ok(kept)
        }
    }
}
