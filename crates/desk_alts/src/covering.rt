//! Whether some kept set is a subset of a set.

ghost use Rattle.std.specs.Prelude.{◌≡◌, ℕ, ◌+◌, ◌<◌, ◌≤◌, ◌↔◌, length, IsTrue, slice_index};
ghost use Rattle.desk_alts.specs.Masks.{IsWithin, IsCovered, IsCoveredBetween};

use std::simd::prelude::*;

const LANES: usize = 8;

pub(crate) fn is_within(a: u64, b: u64) -> bool
    ensures { IsTrue result ↔ IsWithin a b }
{
    a & b == a
}

// Compares eight kept masks at once.
fn covers_eight(low: u64, high: u64, lows: &[u64], highs: &[u64], at: usize) -> bool
    requires in_lows { at + LANES ≤ length lows.now }
    requires in_highs { at + LANES ≤ length highs.now }
    ensures { IsTrue result ↔ IsCoveredBetween low high lows.now highs.now at (at + LANES) }
{
    let outside_low = u64x8::from_slice(&lows[at..]) & u64x8::splat(!low);
    let outside_high = u64x8::from_slice(&highs[at..]) & u64x8::splat(!high);
    (outside_low | outside_high)
        .simd_eq(u64x8::splat(0))
        .to_bitmask()
        != 0
}

/// Whether some kept mask has no bit outside (low, high).
pub fn covers(low: u64, high: u64, lows: &[u64], highs: &[u64]) -> bool
    requires { length lows.now ≡ length highs.now }
    ensures { IsTrue result ↔ IsCovered low high lows.now highs.now }
{
    let mut at = 0;
    while lows.len() - at >= LANES {
        if covers_eight(low, high, lows, highs, at) {
            return true;
        }
        at += LANES;
    }
    for k in at..lows.len() {
        if is_within(lows[k], low) && is_within(highs[k], high) {
            return true;
        }
    }
    false
}
