//! The search for a match: from left to right, with two places to go back to.
//!
//! The last `*` can always replace an earlier one in the same name, and the last `**` all wildcards
//! before it: what an earlier one could reach with a longer stretch, the last one reaches too. So
//! no other place is kept.
//!
//! A `**` acts like a `*` within the name where it begins, and goes on to the next name only if no
//! match begins in this one.
//!
//! The bytes between two stars are a run, which is found as a whole: after a star the search
//! continues at once where the next run first occurs or, for the last run, where it would end the
//! text. Each `*` also looks for the end of its name, many bytes at a time.
//!
//! So a pattern without `**` takes about as many steps as it and the path have bytes. What follows
//! a `**`, up to the next one, may be tried from each name; a search that goes back so often is
//! abandoned, and `rows.rt` finds the answer.

ghost use Rattle.std.specs.Prelude.{◌≡◌, ◌≢◌, ◌↔◌, ◌<◌, ◌≤◌, ◌+◌, ℕ, List, length, take, drop, slice_index, All, Some, IsTrue, IfSome, IfNone, IfOk};
ghost use Rattle.memchr.specs.Find.{OccursAt};
ghost use Rattle.desk_tree_patterns.specs.Glob.{IsMatch};
ghost use Rattle.desk_tree_patterns.specs.Parts.{pieces, first_run, later_bytes};
ghost use Rattle.desk_tree_patterns.specs.Steps.{spot, back, state, Longer, NoLonger, IsBehindName, Further, NoFurther, Stuck, Spent, Ends, IsFound, SettlesInName, SettlesInPath, GoesOn, GoesBack, Goes};

use crate::glob::{Part, Star};
use crate::rows::matches_by_rows;
use memchr::{memchr, memmem};
use std::alloc::{AllocError, Global};

// How many places are tried one by one before a search of many at once is worth starting.
const NEAR: usize = 16;

// Parts that are still to be found, with their literal bytes, in the text that is left.
#[derive(Clone, Copy)]
struct Place<'a> {
    parts: &'a [Part],
    bytes: &'a [u8],
    text: &'a [u8],
}

// The place of a search, and the places after its last `*` and after the last `**` before that.
#[derive(Clone, Copy)]
struct Search<'a> {
    here: Place<'a>,
    name: Option<Place<'a>>,
    path: Option<Place<'a>>,
}

// The place after a `*` that takes one more byte.
fn longer_name<'a>(place: Option<Place<'a>>) -> Option<Place<'a>>
    ensures some { IfSome result (λ r. Longer (back place.entry) (spot r)) }
    ensures none { IfNone result (NoLonger (back place.entry)) }
{
    let place = place?;
    let (byte, text) = place.text.split_first()?;
    if *byte == b'/' {
        return None;
    }
    Some(Place {
        parts: place.parts,
        bytes: place.bytes,
        text,
    })
}

// The text after the first `/`.
fn behind_name(text: &[u8]) -> Option<&[u8]>
    ensures some { IfSome result (λ r. IsBehindName text.now r.now) }
    ensures none { IfNone result ((rest : List ℕ) → IsBehindName text.now rest → ⊥) }
{
    let Some(slash) = memchr(b'/', text) else {
        return None;
    };
    Some(&text[slash + 1..])
}

// The place after a `**` that also takes the rest of a name and its `/`.
fn next_name<'a>(place: Option<Place<'a>>) -> Option<Place<'a>>
    ensures some { IfSome result (λ r. Further (back place.entry) (spot r)) }
    ensures none { IfNone result (NoFurther (back place.entry)) }
{
    let place = place?;
    let Some(text) = behind_name(place.text) else {
        return None;
    };
    Some(Place {
        parts: place.parts,
        bytes: place.bytes,
        text,
    })
}

// The literal bytes before the next star, and those after it.
fn split_run<'a>(place: Place<'a>) -> (&'a [u8], &'a [u8])
    ensures run { result.0.now ≡ first_run place.entry.bytes.now place.entry.parts.now }
    ensures later { result.1.now ≡ later_bytes place.entry.bytes.now place.entry.parts.now }
{
    let all = place.bytes.len();
    let length = match place.parts.first() {
        Some(part) => all.min(part.before as usize),
        None => all,
    };
    place.bytes.split_at(length)
}

// How long the name is with which a text begins.
fn name_length(text: &[u8]) -> usize
    ensures within { result ≤ length text.now }
    ensures clear { All (λ b. b ≢ 47) (take result text.now) }
    ensures slash { result < length text.now → slice_index text.now result ≡ 47 }
{
    match memchr(b'/', text) {
        Some(slash) => slash,
        None => text.len(),
    }
}

// The same as `first_place`, if few places have to be tried.
fn near_place(run: &[u8], text: &[u8], end: usize) -> Option<usize>
    requires { end ≤ length text.now }
    ensures within { IfSome result (λ n. n ≤ end) }
    ensures none { IfSome result (λ n. (k : ℕ) → k < n → OccursAt text.now run.now k → ⊥) }
    ensures found { IfSome result (λ n. n < end → OccursAt text.now run.now n) }
{
    let near = end.min(NEAR);
    let mut at = 0;
    while at < near {
        let (_, left) = text.split_at(at);
        if left.starts_with(run) {
            return Some(at);
        }
        at += 1;
    }
    if at == end { Some(end) } else { None }
}

// The first place of a run among those up to `end`, or the end if it is at none of them.
fn first_place(run: &[u8], text: &[u8], end: usize) -> usize
    requires { end ≤ length text.now }
    ensures within { result ≤ end }
    ensures none { (k : ℕ) → k < result → OccursAt text.now run.now k → ⊥ }
    ensures found { result < end → OccursAt text.now run.now result }
{
    if let Some(near) = near_place(run, text, end) {
        return near;
    }
    let (window, _) = text.split_at(text.len().min(end + run.len()));
    match memmem::find(window, run) {
        Some(at) => at,
        None => end,
    }
}

// The place from which a run would end the text, or the end if that comes first or there is none.
fn last_place(run: &[u8], text: &[u8], end: usize) -> usize
    ensures within { result ≤ end }
    ensures none { (k : ℕ) → k < result → k + length run.now ≢ length text.now }
    ensures found { result < end → result + length run.now ≡ length text.now }
{
    match text.len().checked_sub(run.len()) {
        Some(at) => at.min(end),
        None => end,
    }
}

// The first place at which the next run can be, among those up to `end`, or the end.
fn next_place<'a>(place: Place<'a>, end: usize) -> usize
    requires { end ≤ length place.text.now }
    ensures within { result ≤ end }
    ensures none { (k : ℕ) → k < result
        → IsMatch (pieces place.entry.bytes.now place.entry.parts.now) (drop k place.entry.text.now)
        → ⊥ }
{
    let (run, _) = split_run(place);
    if place.parts.is_empty() {
        last_place(run, place.text, end)
    } else {
        first_place(run, place.text, end)
    }
}

// The place this many bytes further on.
fn further<'a>(place: Place<'a>, count: usize) -> Place<'a>
    requires { count ≤ length place.text.now }
    ensures { spot result ≡ record {
      pieces = pieces place.entry.bytes.now place.entry.parts.now;
      text = drop count place.entry.text.now;
    } }
{
    Place {
        parts: place.parts,
        bytes: place.bytes,
        text: place.text.split_at(count).1,
    }
}

// The search after a `*`, or after a `**` that doesn't leave its name.
fn behind_star<'a>(place: Place<'a>, path: Option<Place<'a>>) -> Search<'a>
    ensures { SettlesInName (record {
      here = spot place.entry;
      name = Some (spot place.entry);
      path = back path.entry;
    }) (state result) }
{
    let at = next_place(place, name_length(place.text));
    let here = further(place, at);
    Search {
        here,
        name: Some(here),
        path,
    }
}

// The search after a `**`, in its name or in a later one.
fn behind_stars<'a>(place: Place<'a>) -> Search<'a>
    ensures { SettlesInPath (record {
      here = spot place.entry;
      name = Some (spot place.entry);
      path = Some (spot place.entry);
    }) (state result) }
{
    let at = next_place(place, place.text.len());
    let here = further(place, at);
    Search {
        here,
        name: Some(here),
        path: Some(here),
    }
}

// The search after the next run and the star behind it.
fn forward<'a>(search: Search<'a>) -> Option<Search<'a>>
    requires { IsFound search.here → ⊥ }
    ensures some { IfSome result (λ n. GoesOn (state search.entry) (state n)) }
    ensures none { IfNone result (Stuck (spot search.entry.here)) }
{
    let (run, bytes) = split_run(search.here);
    let Some(text) = search.here.text.strip_prefix(run) else {
        return None;
    };
    let Some((part, parts)) = search.here.parts.split_first() else {
        return None;
    };
    let behind = Place { parts, bytes, text };
    match part.star {
        Star::Single => Some(behind_star(behind, search.path)),
        Star::Double => Some(behind_stars(behind)),
    }
}

// The search after its last `*` takes one more byte, or its last `**` goes on to the next name.
fn backward<'a>(search: Search<'a>) -> Option<Search<'a>>
    ensures some { IfSome result (λ n. GoesBack (state search.entry) (state n)) }
    ensures none { IfNone result (Spent (state search.entry)) }
{
    if let Some(here) = longer_name(search.name) {
        return Some(behind_star(here, search.path));
    }
    let here = next_name(search.path)?;
    Some(behind_stars(here))
}

// The search one star further, or back at one.
fn step<'a>(search: Search<'a>) -> Option<Search<'a>>
    requires { IsFound search.here → ⊥ }
    ensures some { IfSome result (λ n. Goes (state search.entry) (state n)) }
    ensures none { IfNone result (Ends (state search.entry)) }
{
    match forward(search) {
        Some(next) => Some(next),
        None => backward(search),
    }
}

// Whether a last run is all that is left of a text.
fn is_found<'a>(place: Place<'a>) -> bool
    ensures { IsTrue result ↔ IsFound place.entry }
{
    place.parts.is_empty() && place.text == place.bytes
}

/// Whether the path divides into stretches, one for each piece in order. It takes no memory, and at
/// most as many steps as the path has bytes times the pieces of the pattern.
pub(crate) fn matches(parts: &[Part], bytes: &[u8], path: &[u8]) -> bool
    ensures { IsTrue result ↔ IsMatch (pieces bytes.now parts.now) path.now }
{
    let mut search = Search {
        here: Place {
            parts,
            bytes,
            text: path,
        },
        name: None,
        path: None,
    };
    while !is_found(search.here) {
        let Some(next) = step(search) else {
            return false;
        };
        search = next;
    }
    true
}

// What a search finds within this many steps, if it ends by then.
fn found_within(parts: &[Part], bytes: &[u8], path: &[u8], steps: usize) -> Option<bool>
    ensures { IfSome result (λ found. IsTrue found ↔ IsMatch (pieces bytes.now parts.now) path.now) }
{
    let mut search = Search {
        here: Place {
            parts,
            bytes,
            text: path,
        },
        name: None,
        path: None,
    };
    for _ in 0..steps {
        if is_found(search.here) {
            return Some(true);
        }
        let Some(next) = step(search) else {
            return Some(false);
        };
        search = next;
    }
    None
}

/// The same, by at most as many steps as the path has bytes and the pattern stars together, and
/// then by rows.
///
/// It takes memory only if the search hasn't ended after these steps.
pub(crate) fn matches_soon(
    alloc: Global,
    parts: &[Part],
    bytes: &[u8],
    path: &[u8],
) -> Result<bool, AllocError>
    ensures { IfOk result (λ found. IsTrue found ↔ IsMatch (pieces bytes.now parts.now) path.now) }
{
    let steps = path.len().saturating_add(parts.len());
    match found_within(parts, bytes, path, steps) {
        Some(found) => Ok(found),
        None => matches_by_rows(alloc, parts, bytes, path),
    }
}
