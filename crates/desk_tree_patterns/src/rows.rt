//! The search for a match if the other one goes back too often: it goes over the path from its end
//! to its beginning.
//!
//! A place of a pattern is before one of its literal bytes or at its end. A row has, for each place,
//! whether the pieces from there on match what was seen of the path. So a search takes a step for
//! each byte of the path and each place, and many places at a time.

ghost use Rattle.std.specs.Prelude.{◌≡◌, ◌≢◌, ◌↔◌, ◌<◌, ◌+◌, ◌&&◌, ◌||◌, ◌==◌, ℕ, length, get_or, set, false, true, IsTrue, IfOk};
ghost use Rattle.desk_tree_patterns.specs.Glob.{IsMatch};
ghost use Rattle.desk_tree_patterns.specs.Parts.{pieces};
ghost use Rattle.desk_tree_patterns.specs.Rows.{Spread, doubled};

use crate::glob::{Part, Star};
use std::alloc::{AllocError, Global};

// For each place, whether a star is there, and whether `**` is.
#[derive(Drop)]
struct Stars {
    any: Vec<bool>,
    double: Vec<bool>,
}

// Puts a star at a place.
fn mark(stars: &mut Stars, at: usize, star: Star)
    requires any { at < length stars.old.any.items }
    requires double { at < length stars.old.double.items }
    ensures any { stars.new.any.items ≡ set stars.old.any.items at true }
    ensures double { stars.new.double.items ≡ doubled star at stars.old.double.items }
{
    stars.any[at] = true;
    if let Star::Double = star {
        stars.double[at] = true;
    }
}

// The stars at each place of a pattern.
fn stars_of(alloc: Global, parts: &[Part], bytes: &[u8]) -> Result<Stars, AllocError>
    ensures { IfOk result (Spread bytes.now parts.now) }
{
    let places = bytes.len() + 1;
    let mut stars = Stars {
        any: vec![in alloc; false; places]?,
        double: vec![in alloc; false; places]?,
    };
    let mut at = 0;
    for part in parts {
        at += (part.before as usize).min(bytes.len() - at);
        mark(&mut stars, at, part.star);
    }
    Ok(stars)
}

// For each place, whether a star there takes this byte.
fn staying(stars: &Stars, byte: u8) -> &[bool]
    ensures slash { byte ≡ 47 → result.now ≡ stars.now.double.items }
    ensures other { byte ≢ 47 → result.now ≡ stars.now.any.items }
{
    if byte == b'/' {
        stars.double.as_slice()
    } else {
        stars.any.as_slice()
    }
}

// The row of a text with one more byte before it. A place stays if a star there takes the byte.
fn put_before(row: &mut [bool], stays: &[bool], bytes: &[u8], byte: u8)
    requires row { length row.old ≡ length bytes.now + 1 }
    requires stays { length stays.now ≡ length bytes.now + 1 }
    ensures len { length row.new ≡ length row.old }
    ensures each { (p : ℕ) → p < length bytes.now → get_or row.new p false
        ≡ ((get_or row.old p false && get_or stays.now p false)
        || (get_or row.old (p + 1) false && (get_or bytes.now p 0 == byte))) }
    ensures last { get_or row.new (length bytes.now) false
        ≡ (get_or row.old (length bytes.now) false && get_or stays.now (length bytes.now) false) }
{
    let end = bytes.len();
    for place in 0..end {
        let stays_here = row[place] & stays[place];
        row[place] = stays_here | (row[place + 1] & (bytes[place] == byte));
    }
    row[end] = row[end] & stays[end];
}

/// Whether the path divides into stretches, one for each piece in order. Takes memory for the row
/// and the stars.
pub(crate) fn matches_by_rows(
    alloc: Global,
    parts: &[Part],
    bytes: &[u8],
    path: &[u8],
) -> Result<bool, AllocError>
    ensures { IfOk result (λ found. IsTrue found ↔ IsMatch (pieces bytes.now parts.now) path.now) }
{
    let stars = stars_of(alloc, parts, bytes)?;
    let mut row = vec![in alloc; false; bytes.len()]?;
    row.push(true)?;
    let mut rest = path;
    while let Some((byte, before)) = rest.split_last() {
        let stays = staying(&stars, *byte);
        put_before(row.as_mut_slice(), stays, bytes, *byte);
        rest = before;
    }
    Ok(row[0])
}
