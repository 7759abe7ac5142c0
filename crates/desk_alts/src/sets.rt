//! Sets of terms, and their order.

ghost use Rattle.std.specs.Prelude.{◌≡◌, ◌≤◌, length, IfOk};
ghost use Rattle.std.specs.Ordering.{eq_by_cmp, as_partial_cmp};
ghost use Rattle.std.specs.Cmp.{partial_order_from_own_ties};
ghost use Rattle.std.specs.Cmp.Rules.{comparing};
ghost use Rattle.std.proofs.Common.{rules};
ghost use Rattle.desk_alts.specs.Sets.{IsTermSet, set_order};
ghost use Rattle.desk_alts.specs.SetLaws.{set_total};
ghost use Rattle.desk_alts.specs.Choices.{IsChoice};

use crate::masks::Mask;
use crate::table::TermTable;
use desk_expr::Term;
use std::alloc::{AllocError, Global};
use std::cmp::Ordering;
use std::marker::Model;

/// A set of at most 128 terms, seen as the list of its terms in the order of terms, each once.
///
/// Sets are ordered by size, then by their terms one by one.
#[derive(Drop)]
pub struct TermSet {
    terms: Vec<Term>,
}

impl Model for TermSet {
    ghost use Rattle.std.specs.Prelude.{List, length, ◌≤◌};
    ghost use Rattle.desk_expr.specs.declared.term.Term.{Term};
    ghost use Rattle.desk_alts.specs.Sets.{IsTermSet};

    ghost Value = { List Term };

    ghost view = { λ s. s.terms.items };

    ghost invariant = { λ s. IsTermSet s.terms.items × (length s.terms.items ≤ 128) };
}

impl TermSet {
    /// The terms, in order.
    pub fn terms(&self) -> &[Term]
        ensures terms { result.now ≡ self.now }
        ensures ordered { IsTermSet self.now }
        ensures few { length self.now ≤ 128 }
    {
        self.terms.as_slice()
    }

    /// The terms of a table at the places of a set.
    pub(crate) fn chosen(
        alloc: Global,
        table: &TermTable,
        places: Mask,
    ) -> Result<TermSet, AllocError>
        requires { length table.now ≤ 128 }
        ensures { IfOk result (IsChoice table.now places) }
    {
        let table = table.terms();
        let mut terms = Vec::new(alloc);
        for place in 0..table.len() {
            if places.has(place) {
                terms.push(table[place].clone()?)?;
            }
        }
        Ok(TermSet { terms })
    }
}

impl PartialEq for TermSet {
    ghost eq = { eq_by_cmp set_order };

    ghost laws = { Prim.search (comparing, set_total, rules) };

    fn eq(&self, other: &TermSet) -> bool {
        self.cmp(other).is_eq()
    }
}

impl Eq for TermSet {
    ghost laws = { Prim.search (comparing, set_total, rules) };
}

impl Ord for TermSet {
    ghost cmp = { set_order };

    ghost total = { Prim.search (comparing, set_total, rules) };

    ghost matches_partial_cmp = { Prim.search (comparing, rules) };

    ghost matches_eq = { Prim.search (comparing, rules) };

    fn cmp(&self, other: &TermSet) -> Ordering {
        self.terms
            .len()
            .cmp(&other.terms.len())
            .then(self.terms.cmp(&other.terms))
    }
}

impl PartialOrd for TermSet {
    ghost partial_cmp = { as_partial_cmp set_order };

    ghost laws = { partial_order_from_own_ties (Prim.search (comparing, set_total, rules))
        (Prim.search (comparing, rules)) };

    fn partial_cmp(&self, other: &TermSet) -> Option<Ordering> {
        Some(self.cmp(other))
    }
}
