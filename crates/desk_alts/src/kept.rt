//! Sets that are kept in two columns, none of them a subset of another one.

ghost use Rattle.std.specs.Prelude.{◌≡◌, ◌<◌, ◌↔◌, ◌⊎◌, ◌++◌, ◌∷◌, [], List, length, IsTrue, IfOk, OnOk, slice_index_or, remove};
ghost use Rattle.desk_alts.specs.declared.masks.Mask.{Mask};
ghost use Rattle.desk_alts.specs.Masks.{IsAbove, AreApart, IsSubset, Adds, union_masks};

use crate::covering::covers;
use crate::masks::{Mask, Union};
use std::alloc::{AllocError, Global};
use std::marker::Model;

#[derive(Drop)]
pub(crate) struct Kept {
    lows: Vec<u64>,
    highs: Vec<u64>,
}

impl Model for Kept {
    ghost use Rattle.std.specs.Prelude.{◌≡◌, List, length};
    ghost use Rattle.desk_alts.specs.declared.masks.Mask.{Mask};
    ghost use Rattle.desk_alts.specs.Masks.{masks};

    ghost Value = { List Mask };

    ghost view = { λ k. masks k.lows.items k.highs.items };

    ghost invariant = { λ k. length k.lows.items ≡ length k.highs.items };
}

impl Kept {
    pub(crate) fn new(alloc: Global) -> Kept
        ensures { result ≡ [] }
    {
        Kept {
            lows: Vec::new(alloc),
            highs: Vec::new(alloc),
        }
    }

    pub(crate) fn len(&self) -> usize
        ensures { result ≡ length self.now }
    {
        self.lows.len()
    }

    pub(crate) fn get(&self, at: usize) -> Mask
        requires { at < length self.now }
        ensures { result ≡ slice_index_or self.now at result }
    {
        Mask {
            low: self.lows[at],
            high: self.highs[at],
        }
    }

    fn covers(&self, mask: Mask) -> bool
        ensures { IsTrue result ↔ IsAbove self.now mask }
    {
        covers(
            mask.low,
            mask.high,
            self.lows.as_slice(),
            self.highs.as_slice(),
        )
    }

    fn push(&mut self, mask: Mask) -> Result<(), AllocError>
        ensures { OnOk result (self.new ≡ self.old ++ mask ∷ []) }
    {
        self.lows.push(mask.low)?;
        match self.highs.push(mask.high) {
            Ok(()) => Ok(()),
            Err(_) => {
                self.lows.pop();
                Err(AllocError)
            }
        }
    }

    fn remove(&mut self, at: usize)
        requires { at < length self.old }
        ensures { self.new ≡ remove self.old at }
    {
        self.lows.remove(at);
        self.highs.remove(at);
    }

    /// Keeps the set, unless a subset of it is kept, and drops the kept sets that it is a subset
    /// of.
    pub(crate) fn insert(&mut self, mask: Mask) -> Result<(), AllocError>
        requires { AreApart self.old }
        ensures apart { OnOk result (AreApart self.new) }
        ensures exact { OnOk result (Adds self.old self.new (IsSubset mask)) }
    {
        if self.covers(mask) {
            return Ok(());
        }
        let mut at = 0;
        while at < self.len() {
            if mask.is_subset(self.get(at)) {
                self.remove(at);
            } else {
                at += 1;
            }
        }
        self.push(mask)
    }

    /// Inserts each of the other sets.
    pub(crate) fn insert_all(&mut self, other: &Kept) -> Result<(), AllocError>
        requires { AreApart self.old }
        ensures apart { OnOk result (AreApart self.new) }
        ensures exact { OnOk result (Adds self.old self.new (IsAbove other.now)) }
    {
        for at in 0..other.len() {
            self.insert(other.get(at))?;
        }
        Ok(())
    }

    // Adds the unions of the set and each of these.
    fn add_unions(&self, mask: Mask, unions: &mut Vec<Union>) -> Result<(), AllocError>
        ensures { OnOk result (Adds (union_masks unions.old.items) (union_masks unions.new.items)
            (λ m.
            IsSubset mask m × IsAbove self.now m)) }
    {
        for at in 0..self.len() {
            unions.push(Union::of(mask, self.get(at)))?;
        }
        Ok(())
    }

    // The unions of one of these sets and one of the others.
    fn unions(&self, alloc: Global, other: &Kept) -> Result<Vec<Union>, AllocError>
        ensures { IfOk result (λ v. (m : Mask) → IsAbove (union_masks v.items) m
            ↔ (IsAbove self.now m × IsAbove other.now m)) }
    {
        let mut unions = Vec::new(alloc);
        for at in 0..self.len() {
            other.add_unions(self.get(at), &mut unions)?;
        }
        Ok(unions)
    }

    // Inserts each of the unions.
    fn insert_unions(&mut self, unions: &[Union]) -> Result<(), AllocError>
        requires { AreApart self.old }
        ensures apart { OnOk result (AreApart self.new) }
        ensures exact { OnOk result (Adds self.old self.new (IsAbove (union_masks unions.now))) }
    {
        for union in unions {
            self.insert(union.mask)?;
        }
        Ok(())
    }

    /// The minimal ones among the unions of one of these sets and one of the others.
    ///
    /// The small unions come first, so no union is kept that a later one is a subset of: there are
    /// never more kept than at the end.
    pub(crate) fn product(&self, alloc: Global, other: &Kept) -> Result<Kept, AllocError>
        ensures apart { IfOk result (λ k. AreApart k) }
        ensures exact { IfOk result (λ k. (m : Mask) → IsAbove k m
            ↔ (IsAbove self.now m × IsAbove other.now m)) }
    {
        let mut unions = self.unions(alloc, other)?;
        unions.sort_unstable();
        let mut kept = Kept::new(alloc);
        kept.insert_unions(&unions)?;
        Ok(kept)
    }
}
