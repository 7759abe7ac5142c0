//! Whether a choice of terms satisfies an expression, and whether each of them is needed.
//!
//! No memory is allocated. First `listed.rt` notes where each term of the expression is listed, so
//! with `n` leaves, up to 1,024, and `m` chosen terms `holds` makes about `(n + m) * log n`
//! comparisons. `check_choice` skips copies and leaves out the other terms 64 at a time, at the
//! latest up to the first that isn't in the expression: at most about `n * n` comparisons more.

ghost use Rattle.std.specs.Prelude.{◌≡◌, ◌↔◌, ◌≢◌, ◌<◌, ◌≤◌, ℕ, length, slice_get, Some, IsTrue, IfSome, IfNone, Contains};
ghost use Rattle.std.specs.Int.{bit_at};
ghost use Rattle.desk_expr.specs.declared.term.Term.{Term};
ghost use Rattle.desk_expr.specs.Meaning.{Holds, Without, CanGo, IsMinimal, IsFirst};
ghost use Rattle.desk_alts.specs.Marks.{Marks};
ghost use Rattle.desk_alts.specs.Listed.{IsNoted};
ghost use Rattle.desk_alts.specs.Rounds.{AreWithin, IsFirstToGo};

use crate::listed::{Listed, own_terms, places_of};
use desk_expr::{Expr, Shape, Term};

/// How well a choice of terms satisfies an expression.
#[derive(Clone, Copy, PartialEq, Eq)]
pub enum Verdict {
    /// It doesn't satisfy the expression.
    NotEnough,
    /// It does so even without the term at this place, the first such place, counted from 0.
    Superfluous(usize),
    /// It satisfies the expression, and no smaller set of its terms does.
    Minimal,
}

// Whether the chosen terms satisfy the expression.
fn holds_in(expr: &Expr, listed: Listed<'_>) -> bool
    requires { IsNoted listed.chosen.now listed.own.now listed.places.now }
    ensures { IsTrue result ↔ Holds (Contains listed.entry.chosen.now) expr.now }
{
    match expr.shape() {
        Shape::One(term) => listed.contains(term),
        Shape::All(parts) => {
            for part in parts {
                if !holds_in(part, listed) {
                    return false;
                }
            }
            true
        }
        Shape::Any(parts) => {
            for part in parts {
                if holds_in(part, listed) {
                    return true;
                }
            }
            false
        }
    }
}

// Bit k says whether the chosen terms without the one at candidate k satisfy the expression.
fn holds_without(expr: &Expr, listed: Listed<'_>, candidates: &[usize]) -> u64
    requires noted { IsNoted listed.chosen.now listed.own.now listed.places.now }
    requires few { length candidates.now ≤ 64 }
    requires within { AreWithin listed.chosen.now candidates.now }
    ensures { Marks result listed.entry.chosen.now candidates.now (λ gone.
        Holds (Without listed.entry.chosen.now gone) expr.now) }
{
    match expr.shape() {
        Shape::One(term) => {
            if listed.contains(term) {
                others(listed.chosen, candidates, term)
            } else {
                0
            }
        }
        Shape::All(parts) => {
            let mut marks = u64::MAX;
            for part in parts {
                marks &= holds_without(part, listed, candidates);
            }
            marks
        }
        Shape::Any(parts) => {
            let mut marks = 0;
            for part in parts {
                marks |= holds_without(part, listed, candidates);
            }
            marks
        }
    }
}

fn is_same(one: &Term, other: &Term) -> bool
    ensures { IsTrue result ↔ (one.now ≡ other.now) }
{
    one == other
}

// Bit k says whether the term at candidate k is another one than this.
fn others(chosen: &[Term], candidates: &[usize], term: &Term) -> u64
    requires few { length candidates.now ≤ 64 }
    requires within { AreWithin chosen.now candidates.now }
    ensures { Marks result chosen.now candidates.now (λ gone. term.now ≢ gone) }
{
    let mut marks = 0;
    for (k, place) in candidates.iter().enumerate() {
        let candidate = &chosen[*place];
        if !is_same(term, candidate) {
            marks |= 1 << k;
        }
    }
    marks
}

// The first of this many bits that is set.
fn first_mark(marks: u64, size: usize) -> Option<usize>
    requires { size ≤ 64 }
    ensures found { IfSome result (λ k. (k < size) × (bit_at marks k ≡ 1)) }
    ensures first { IfSome result (λ k. (j : ℕ) → j < k → bit_at marks j ≢ 1) }
    ensures none { IfNone result ((j : ℕ) → j < size → bit_at marks j ≢ 1) }
{
    for k in 0..size {
        if (marks >> k) & 1 == 1 {
            return Some(k);
        }
    }
    None
}

// The first candidate whose term can be left out.
fn first_to_go(expr: &Expr, listed: Listed<'_>, candidates: &[usize]) -> Option<usize>
    requires noted { IsNoted listed.chosen.now listed.own.now listed.places.now }
    requires few { length candidates.now ≤ 64 }
    requires within { AreWithin listed.chosen.now candidates.now }
    ensures found { IfSome result (IsFirstToGo listed.entry.chosen.now expr.now candidates.now) }
    ensures none { IfNone result ((j place : ℕ) → slice_get candidates.now j ≡ Some place
        → CanGo listed.entry.chosen.now expr.now place → ⊥) }
{
    let marks = holds_without(expr, listed, candidates);
    let first = first_mark(marks, candidates.len())?;
    Some(candidates[first])
}

/// Whether the chosen terms satisfy the expression. The list is taken as the set of its terms.
pub fn holds(expr: &Expr, chosen: &[Term]) -> bool
    ensures { IsTrue result ↔ Holds (Contains chosen.now) expr.now }
{
    let own = own_terms(expr);
    let places = places_of(chosen, own.as_slice());
    let listed = Listed {
        chosen,
        own: own.as_slice(),
        places: &places,
    };
    holds_in(expr, listed)
}

/// Whether the chosen terms satisfy the expression and each of them is needed. The list is taken as
/// the set of its terms, so leaving out a term leaves out all its copies.
pub fn check_choice(expr: &Expr, chosen: &[Term]) -> Verdict
    ensures not_enough { (result ≡ Verdict.NotEnough) ↔ ¬ Holds (Contains chosen.now) expr.now }
    ensures superfluous { (i : ℕ) → result ≡ Verdict.Superfluous i
        → IsFirst (CanGo chosen.now expr.now) i }
    ensures minimal { (result ≡ Verdict.Minimal) ↔ IsMinimal chosen.now expr.now }
{
    let own = own_terms(expr);
    let places = places_of(chosen, own.as_slice());
    let listed = Listed {
        chosen,
        own: own.as_slice(),
        places: &places,
    };
    if !holds_in(expr, listed) {
        return Verdict::NotEnough;
    }
    let mut from = 0;
    while from < chosen.len() {
        let (candidates, next) = listed.round(from);
        if let Some(place) = first_to_go(expr, listed, candidates.as_slice()) {
            return Verdict::Superfluous(place);
        }
        from = next;
    }
    Verdict::Minimal
}
