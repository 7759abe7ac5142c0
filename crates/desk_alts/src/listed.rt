//! Where the terms of an expression are listed.

ghost use Rattle.std.specs.Prelude.{◌≡◌, ◌↔◌, ◌<◌, ◌≤◌, ℕ, length, slice_get, Some, IsTrue, IfSome, IfNone, Contains};
ghost use Rattle.desk_alts.specs.Listed.{is_below, lower_in, own_at, Names, IsOwn, IsNoted};
ghost use Rattle.desk_alts.specs.Rounds.{IsCopy, IsRound};

use arrayvec::ArrayVec;
use desk_expr::{Expr, Shape, Term};

// An expression that was read has at most this many terms. Further terms of a larger one are looked
// up in the list itself.
const OWN: usize = 1024;

/// A list of terms, and the first place in it of each term of an expression.
#[derive(Clone, Copy)]
pub(crate) struct Listed<'a> {
    pub(crate) chosen: &'a [Term],
    /// The terms of the expression, sorted. Which terms these are affects only the speed.
    pub(crate) own: &'a [Option<&'a Term>],
    /// The first place of each of them, or the length of the list if it isn't there.
    pub(crate) places: &'a [usize],
}

impl Listed<'_> {
    // The place that is noted for a term, if it is one of the expression's terms.
    fn noted_place(self, term: &Term) -> Option<usize>
        requires { IsNoted self.chosen.now self.own.now self.places.now }
        ensures there { IfSome result (λ place. place < length self.entry.chosen.now
            → slice_get self.entry.chosen.now place ≡ Some term.now) }
        ensures told { IfSome result (λ place. Contains self.entry.chosen.now term.now
            → place < length self.entry.chosen.now) }
    {
        let slot = find(self.own, term)?;
        Some(self.places[slot])
    }

    /// Whether a term is listed.
    pub(crate) fn contains(self, term: &Term) -> bool
        requires { IsNoted self.chosen.now self.own.now self.places.now }
        ensures { IsTrue result ↔ Contains self.entry.chosen.now term.now }
    {
        match self.noted_place(term) {
            Some(place) => place < self.chosen.len(),
            None => contains(self.chosen, term),
        }
    }

    /// Whether the term at a place is known to be listed before it too.
    pub(crate) fn is_copy(self, place: usize) -> bool
        requires noted { IsNoted self.chosen.now self.own.now self.places.now }
        requires within { place < length self.chosen.now }
        ensures { IsTrue result → IsCopy self.entry.chosen.now place }
    {
        match self.noted_place(&self.chosen[place]) {
            Some(first) => first < place,
            None => false,
        }
    }

    /// The places of the next terms that aren't known to be copies, at most 64, and the place after
    /// them at which the list continues.
    pub(crate) fn round(self, from: usize) -> (ArrayVec<usize, 64>, usize)
        requires noted { IsNoted self.chosen.now self.own.now self.places.now }
        requires within { from < length self.chosen.now }
        ensures onward { (from < result.1) × (result.1 ≤ length self.entry.chosen.now) }
        ensures round { IsRound self.entry.chosen.now from result.1 result.0.items }
    {
        let mut candidates = ArrayVec::new();
        let mut next = from;
        while next < self.chosen.len() && !candidates.is_full() {
            if !self.is_copy(next) {
                candidates.push(next);
            }
            next += 1;
        }
        (candidates, next)
    }
}

fn add_own<'a>(expr: &'a Expr, own: &mut ArrayVec<Option<&'a Term>, OWN>) {
    match expr.shape() {
        Shape::One(term) => {
            if !own.is_full() {
                own.push(Some(term));
            }
        }
        Shape::All(parts) => {
            for part in parts {
                add_own(part, own);
            }
        }
        Shape::Any(parts) => {
            for part in parts {
                add_own(part, own);
            }
        }
    }
}

/// The terms of the expression, sorted.
pub(crate) fn own_terms(expr: &Expr) -> ArrayVec<Option<&Term>, OWN> {
    let mut own = ArrayVec::new();
    add_own(expr, &mut own);
    own.sort_unstable();
    own
}

fn contains(chosen: &[Term], term: &Term) -> bool
    ensures { IsTrue result ↔ Contains chosen.now term.now }
{
    chosen.contains(term)
}

fn is_below(own: &Option<&Term>, term: &Term) -> bool
    ensures { result ≡ is_below own.now term.now }
{
    match own {
        Some(known) => *known < term,
        None => false,
    }
}

fn names(own: &Option<&Term>, term: &Term) -> bool
    ensures { IsTrue result ↔ Names own.now term.now }
{
    match own {
        Some(known) => *known == term,
        None => false,
    }
}

// How many of the sorted terms are below this one, by binary search.
fn lower(own: &[Option<&Term>], term: &Term) -> usize
    ensures within { result ≤ length own.now }
    ensures value { result ≡ lower_in own.now term.now }
{
    let mut low = 0;
    let mut high = own.len();
    while low < high {
        let middle = low + (high - low) / 2;
        if is_below(&own[middle], term) {
            low = middle + 1;
        } else {
            high = middle;
        }
    }
    low
}

// The place of a term among the sorted ones.
fn find(own: &[Option<&Term>], term: &Term) -> Option<usize>
    ensures some { IfSome result
        (λ slot. (slot ≡ lower_in own.now term.now) × (slot < length own.now)
        × IsOwn own.now term.now) }
    ensures none { IfNone result (IsOwn own.now term.now → ⊥) }
{
    let slot = lower(own, term);
    if slot < own.len() && names(&own[slot], term) {
        Some(slot)
    } else {
        None
    }
}

/// The first place in the list of each term of the expression.
pub(crate) fn places_of(chosen: &[Term], own: &[Option<&Term>]) -> [usize; OWN]
    requires { length own.now ≤ 1024 }
    ensures { IsNoted chosen.now own.now result }
{
    let mut places = [chosen.len(); OWN];
    for (place, term) in chosen.iter().enumerate() {
        if let Some(slot) = find(own, term) {
            if place < places[slot] {
                places[slot] = place;
            }
        }
    }
    places
}
