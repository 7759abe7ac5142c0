//! Parts of a document in the order of their ids.

ghost use Rattle.std.specs.Prelude.{◌≡◌, ◌≤◌, ◌<◌, IfOk, OnOk, List, ℕ, map, drop, length};
ghost use Rattle.std.proofs.Common.{get_or, Bor};
ghost use Rattle.desk_model.specs.Texts.{text_below};
ghost use Rattle.desk_texts.specs.Documents.{put_by, sorted_by};
ghost use Rattle.desk_texts.specs.Rising.{Rises, IsLower, is_below_first};

use std::alloc::{AllocError, Global};
use std::collections::VecDeque;

/// A part of a document that has an id.
pub(crate) trait Identified {
    /// Its id.
    ghost id_of: { Self → List ℕ };

    fn id(&self) -> &str
        ensures { result.now ≡ id_of self.now };
}

/// Whether the id of a part is below another.
fn is_below<P: Identified>(sorted: &VecDeque<&P>, place: usize, id: &str) -> bool
    requires { place < length sorted.now.items }
    ensures { (d : Bor P) → result
        ≡ text_below (P.id_of (get_or sorted.now.items place d).now) id.now }
{
    sorted[place].id() < id
}

/// How many of the ids are below another, by binary search.
fn lower<P: Identified>(sorted: &VecDeque<&P>, id: &str) -> usize
    requires { Rises (map (λ p. P.id_of p.now) sorted.now.items) }
    ensures { IsLower (map (λ p. P.id_of p.now) sorted.now.items) id.now result }
{
    let mut low = 0;
    let mut high = sorted.len();
    while low < high {
        let middle = low + (high - low) / 2;
        if is_below(sorted, middle, id) {
            low = middle + 1;
        } else {
            high = middle;
        }
    }
    low
}

/// Whether a part is inserted at a place, because there is none with its id.
fn is_new<P: Identified>(sorted: &VecDeque<&P>, place: usize, id: &str) -> bool
    requires { place ≤ length sorted.now.items }
    ensures { result ≡ is_below_first id.now
        (drop place (map (λ p. P.id_of p.now) sorted.now.items)) }
{
    place == sorted.len() || id < sorted[place].id()
}

fn put_by<'s, P: Identified>(sorted: &mut VecDeque<&'s P>, part: &'s P) -> Result<(), AllocError>
    requires { Rises (map (λ p. P.id_of p.now) sorted.old.items) }
    ensures items { OnOk result (map (λ p. p.now) sorted.new.items
        ≡ put_by P.id_of part.now (map (λ p. p.now) sorted.old.items)) }
    ensures rises { OnOk result (Rises (map (λ p. P.id_of p.now) sorted.new.items)) }
{
    let id = part.id();
    if is_new(sorted, 0, id) {
        sorted.push_front(part)?;
        return Ok(());
    }
    let place = lower(sorted, id);
    if is_new(sorted, place, id) {
        sorted.insert(place, part)?;
    }
    Ok(())
}

/// The parts by their ids, each id once. They are inserted from the last to the first, so those of
/// a document that numbers them are inserted near the front, where a `VecDeque` moves few.
pub(crate) fn sorted_by<'s, P: Identified>(
    alloc: Global,
    parts: &'s [P],
) -> Result<VecDeque<&'s P>, AllocError>
    ensures { IfOk result (λ sorted. map (λ p. p.now) sorted.items ≡ sorted_by P.id_of parts.now) }
{
    let mut sorted = VecDeque::new(alloc);
    let mut rest = parts;
    while let Some((part, front)) = rest.split_last() {
        put_by(&mut sorted, part)?;
        rest = front;
    }
    Ok(sorted)
}
