//! Sets of at most 128 places.

ghost use Rattle.std.specs.Prelude.{◌≡◌, ◌↔◌, ◌<◌, IsTrue};
ghost use Rattle.desk_alts.specs.declared.masks.Mask.{Mask};
ghost use Rattle.desk_alts.specs.Masks.{united, IsSubset};
ghost use Rattle.desk_alts.specs.Choices.{HasPlace};

use crate::covering::is_within;

/// A set of places: bit k of `low` is place k, and bit k of `high` is place 64 + k.
#[derive(Clone, Copy, PartialEq, Eq, PartialOrd, Ord)]
pub(crate) struct Mask {
    pub(crate) low: u64,
    pub(crate) high: u64,
}

/// A union of two sets, after the number of its places, so that small ones come first.
#[derive(Clone, Copy, PartialEq, Eq, PartialOrd, Ord)]
pub(crate) struct Union {
    size: u32,
    pub(crate) mask: Mask,
}

impl Union {
    pub(crate) fn of(one: Mask, other: Mask) -> Union
        ensures { result.mask ≡ united one other }
    {
        let mask = one.union_with(other);
        Union {
            size: mask.low.count_ones() + mask.high.count_ones(),
            mask,
        }
    }
}

impl Mask {
    /// The set of one place.
    pub(crate) fn single(place: usize) -> Mask
        requires { place < 128 }
        ensures { (m : Mask) → IsSubset result m ↔ HasPlace m place }
    {
        if place < 64 {
            Mask {
                low: 1 << place,
                high: 0,
            }
        } else {
            Mask {
                low: 0,
                high: 1 << (place - 64),
            }
        }
    }

    pub(crate) fn has(self, place: usize) -> bool
        requires { place < 128 }
        ensures { IsTrue result ↔ HasPlace self place }
    {
        if place < 64 {
            (self.low >> place) & 1 == 1
        } else {
            (self.high >> (place - 64)) & 1 == 1
        }
    }

    pub(crate) fn is_subset(self, other: Mask) -> bool
        ensures { IsTrue result ↔ IsSubset self other }
    {
        is_within(self.low, other.low) && is_within(self.high, other.high)
    }

    pub(crate) fn union_with(self, other: Mask) -> Mask
        ensures { result ≡ united self other }
    {
        Mask {
            low: self.low | other.low,
            high: self.high | other.high,
        }
    }
}
