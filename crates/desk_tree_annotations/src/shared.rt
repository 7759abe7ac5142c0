//! Texts with several holders.

ghost use Rattle.std.specs.Prelude.{◌≡◌, ◌<◌, ◌==◌, [], IfOk, length, nat_eq, slice_index_or};
ghost use Rattle.std.specs.Ordering.{nat_cmp, as_partial_cmp};
ghost use Rattle.std.specs.Cmp.{partial_order_from_own_ties};
ghost use Rattle.std.specs.Cmp.Rules.{comparing};
ghost use Rattle.std.specs.Cmp.Lexicographic.{slice_cmp, pointwise};
ghost use Rattle.std.proofs.Common.{rules};

use desk_base::TextList;
use std::alloc::{AllocError, Global};
use std::cmp::Ordering;
use std::marker::Model;
use std::rc::Rc;

/// A list of texts that may have several holders, seen as that list.
#[derive(Drop)]
pub struct SharedTexts {
    list: Rc<TextList>,
}

impl Model for SharedTexts {
    ghost use Rattle.std.specs.Prelude.{List, ℕ};

    ghost Value = { List (List ℕ) };

    ghost view = { λ t. t.list.value };
}

impl SharedTexts {
    /// The texts of a list, which keep their place in memory.
    pub fn of(alloc: Global, list: TextList) -> Result<SharedTexts, AllocError>
        ensures { IfOk result (λ t. t ≡ list) }
    {
        let list = Rc::new(alloc, list)?;
        Ok(SharedTexts { list })
    }

    /// How many texts there are.
    pub fn len(&self) -> usize
        ensures { result ≡ length self.now }
    {
        self.list.len()
    }

    /// Whether there are none.
    pub fn is_empty(&self) -> bool
        ensures { result ≡ (length self.now == 0) }
    {
        self.len() == 0
    }

    /// The text at a place, from 0.
    pub fn at(&self, place: usize) -> &str
        requires { place < length self.now }
        ensures { result.now ≡ slice_index_or self.now place [] }
    {
        self.list.at(place)
    }

    /// The text at a place, from 0, which holds the whole list.
    pub fn share(&self, place: usize) -> Result<SharedText, AllocError>
        requires { place < length self.now }
        ensures { IfOk result (λ t. t ≡ slice_index_or self.now place []) }
    {
        Ok(SharedText {
            list: self.list.clone()?,
            place,
        })
    }
}

/// A text that may have several holders, seen as its bytes and ordered by them: one of a shared
/// list. A clone takes no memory for the text: what a REUSE.toml says about many files is kept
/// once.
#[derive(Drop)]
pub struct SharedText {
    list: Rc<TextList>,
    place: usize,
}

impl Model for SharedText {
    ghost use Rattle.std.specs.Prelude.{◌<◌, [], List, ℕ, length, slice_index_or};

    ghost Value = { List ℕ };

    ghost view = { λ t. slice_index_or t.list.value t.place [] };

    ghost invariant = { λ t. t.place < length t.list.value };
}

impl SharedText {
    /// A copy of the text.
    pub fn of(alloc: Global, text: &str) -> Result<SharedText, AllocError>
        ensures { IfOk result (λ t. t ≡ text.now) }
    {
        let mut list = TextList::new(alloc);
        list.push(text)?;
        Ok(SharedText {
            list: Rc::new(alloc, list)?,
            place: 0,
        })
    }

    /// The text itself.
    pub fn as_str(&self) -> &str
        ensures { result.now ≡ self.now }
    {
        self.list.at(self.place)
    }
}

impl Clone for SharedText {
    ghost is_clone = { λ a b. b ≡ a };

    fn clone(&self) -> Result<SharedText, AllocError> {
        Ok(SharedText {
            list: self.list.clone()?,
            place: self.place,
        })
    }
}

impl PartialEq for SharedText {
    ghost eq = { pointwise nat_eq };

    ghost laws = { Prim.search (comparing, rules) };

    fn eq(&self, other: &SharedText) -> bool {
        self.as_str() == other.as_str()
    }
}

impl Eq for SharedText {
    ghost laws = { Prim.search (comparing, rules) };
}

impl Ord for SharedText {
    ghost cmp = { slice_cmp nat_cmp };

    ghost total = { Prim.search (comparing, rules) };

    ghost matches_partial_cmp = { Prim.search (comparing, rules) };

    ghost matches_eq = { Prim.search (comparing, rules) };

    fn cmp(&self, other: &SharedText) -> Ordering {
        self.as_str().cmp(other.as_str())
    }
}

impl PartialOrd for SharedText {
    ghost partial_cmp = { as_partial_cmp (slice_cmp nat_cmp) };

    ghost laws = { partial_order_from_own_ties (Prim.search (comparing, rules))
        (Prim.search (comparing, rules)) };

    fn partial_cmp(&self, other: &SharedText) -> Option<Ordering> {
        Some(self.cmp(other))
    }
}
