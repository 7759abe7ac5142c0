//! Arrows between numbered places, and the least set of places that is closed under them.

ghost use Rattle.std.specs.Prelude.{◌≡◌, ◌<◌, ◌≤◌, ◌++◌, ◌∷◌, [], ℕ, List, Contains, All, IfOk, OnOk, false, length, count_by, map, slice_index_or, replicate};
ghost use Rattle.std.specs.List.{AllWithin};
ghost use Rattle.std.specs.List.Sorted.{IsNonDecreasingBy};
ghost use Rattle.desk_bom.specs.Marks.{among, added, added_all, IsLeastFrom};
ghost use Rattle.desk_bom.specs.Targets.{AreTargets, Ascend};
ghost use Rattle.desk_bom.specs.Shipping.{arrow_between};

use std::alloc::{AllocError, Global};

/// An arrow from one place to another. Arrows are ordered by where they come from, then by where
/// they lead.
#[derive(Clone, Copy, PartialEq, Eq, PartialOrd, Ord)]
pub(crate) struct Arrow {
    pub from: usize,
    pub to: usize,
}

/// The arrow between two places, if both are there.
pub(crate) fn arrow_between(from: Option<usize>, to: Option<usize>) -> Option<Arrow>
    ensures { result ≡ arrow_between from to }
{
    match (from, to) {
        (Some(from), Some(to)) => Some(Arrow { from, to }),
        _ => None,
    }
}

/// The places that a walk has reached, in order, each of them also marked.
#[derive(Drop)]
pub(crate) struct Reached {
    marks: Vec<bool>,
    order: Vec<usize>,
    ghost same: { (a : ℕ) → slice_index_or marks.items a false ≡ among order.items a },
    ghost number: { length order.items ≡ count_by (λ b. b) marks.items },
}

impl Reached {
    /// A walk over this many places that has reached none of them.
    pub(crate) fn new(alloc: Global, count: usize) -> Result<Reached, AllocError>
        ensures order { IfOk result (λ r. r.order.items ≡ []) }
        ensures count { IfOk result (λ r. length r.marks.items ≡ count) }
    {
        Ok(Reached {
            marks: vec![in alloc; false; count]?,
            order: Vec::new(alloc),
        })
    }

    /// Whether a place was reached.
    pub(crate) fn has(&self, place: usize) -> bool
        ensures { result ≡ among self.now.order.items place }
    {
        self.marks.get(place).copied().unwrap_or(false)
    }

    /// Reaches a place.
    pub(crate) fn add(&mut self, place: usize) -> Result<(), AllocError>
        requires { place < length self.old.marks.items }
        ensures order { OnOk result (self.new.order.items ≡ added place self.old.order.items) }
        ensures count { length self.new.marks.items ≡ length self.old.marks.items }
    {
        if self.marks[place] {
            return Ok(());
        }
        self.order.push(place)?;
        self.marks[place] = true;
        Ok(())
    }

    // Reaches what arrows lead to.
    fn add_all(&mut self, arrows: &[Arrow]) -> Result<(), AllocError>
        requires { All (λ x. x.to < length self.old.marks.items) arrows.now }
        ensures order { OnOk result (self.new.order.items
            ≡ added_all (map (λ x. x.to) arrows.now) self.old.order.items) }
        ensures count { length self.new.marks.items ≡ length self.old.marks.items }
    {
        for arrow in arrows {
            self.add(arrow.to)?;
        }
        Ok(())
    }

    /// Reaches everything that the arrows lead to, step by step, from what was reached. They are
    /// sorted by where they come from.
    pub(crate) fn walk(&mut self, arrows: &[Arrow]) -> Result<(), AllocError>
        requires sorted { IsNonDecreasingBy (λ x. x.from) arrows.now }
        requires within { All (λ x. x.to < length self.old.marks.items) arrows.now }
        ensures { OnOk result (IsLeastFrom (among self.old.order.items) arrows.now
            (among self.new.order.items)) }
    {
        for done in 0..self.marks.len() {
            if done < self.order.len() {
                let place = self.order[done];
                self.add_all(targets(arrows, place))?;
            }
        }
        Ok(())
    }
}

// How many arrows come from no higher place. They come first.
fn count_upto(arrows: &[Arrow], place: usize) -> usize
    requires { IsNonDecreasingBy (λ x. x.from) arrows.now }
    ensures within { result ≤ length arrows.now }
    ensures upto { AllWithin (λ x. x.from ≤ place) arrows.now 0 result }
    ensures above { AllWithin (λ x. place < x.from) arrows.now result (length arrows.now) }
{
    let mut count = 0;
    for arrow in arrows {
        if arrow.from > place {
            return count;
        }
        count += 1;
    }
    count
}

/// The arrows that come from a place. Callers go over all of them, so their end is found by going
/// over them too.
pub(crate) fn targets(arrows: &[Arrow], place: usize) -> &[Arrow]
    requires { IsNonDecreasingBy (λ x. x.from) arrows.now }
    ensures targets { AreTargets arrows.now place result.now }
    ensures order { Ascend arrows.now → Ascend result.now }
{
    let start = arrows.partition_point(|arrow| arrow.from < place);
    let rest = &arrows[start..];
    &rest[..count_upto(rest, place)]
}
