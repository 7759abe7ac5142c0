//! The places of identifiers among others.

ghost use Rattle.std.specs.Prelude.{◌≡◌, ◌<◌, ◌+◌, ℕ, List, Option, IfOk, OnOk, length};
ghost use Rattle.desk_bom.specs.Places.{tail_number, slot_of, place_of, found, Finds};
ghost use Rattle.desk_base.specs.Borrowed.{texts};

use std::alloc::{AllocError, Global};
use std::collections::BTreeMap;

// The number that the last eight bytes of an identifier make, or the last four or two if it has
// fewer.
fn tail_number(id: &str) -> u64
    ensures { result ≡ tail_number id.now }
{
    let bytes = id.as_bytes();
    if let Some(tail) = bytes.last_chunk::<8>() {
        return u64::from_le_bytes(*tail);
    }
    if let Some(tail) = bytes.last_chunk::<4>() {
        return u64::from(u32::from_le_bytes(*tail));
    }
    match bytes.last_chunk::<2>() {
        Some(tail) => u64::from(u16::from_le_bytes(*tail)),
        None => 0,
    }
}

// The slot in which an identifier is looked for first, among this many slots.
fn slot_of(id: &str, slots: usize) -> usize
    requires { 0 < slots }
    ensures { result ≡ slot_of id.now slots }
{
    (tail_number(id) % slots as u64) as usize
}

// Where an identifier is found: at the place that its slot has, otherwise in a tree.
fn find<'a>(
    ids: &[&'a str],
    slots: &[usize],
    tree: &BTreeMap<&'a str, usize>,
    id: &str,
) -> Option<usize>
    requires { 0 < length slots.now }
    ensures { result ≡ found (texts ids.now) slots.now tree.now id.now }
{
    let held = slots[slot_of(id, slots.len())];
    if held < ids.len() && ids[held] == id {
        return Some(held);
    }
    tree.get(id).copied()
}

// Notes an identifier that isn't found yet: in its slot, or in a tree if another one has that slot.
fn add<'a>(
    ids: &[&'a str],
    slots: &mut [usize],
    tree: &mut BTreeMap<&'a str, usize>,
    place: usize,
) -> Result<(), AllocError>
    requires room { 0 < length slots.old }
    requires within { place < length ids.now }
    requires before { Finds place (texts ids.now) slots.old tree.old }
    ensures count { length slots.new ≡ length slots.old }
    ensures finds { OnOk result (Finds (place + 1) (texts ids.now) slots.new tree.new) }
{
    let id = ids[place];
    if find(ids, slots, tree, id).is_some() {
        return Ok(());
    }
    let slot = slot_of(id, slots.len());
    if slots[slot] < ids.len() {
        tree.insert(id, place)?;
    } else {
        slots[slot] = place;
    }
    Ok(())
}

/// The first place of each identifier: in a slot, or in a tree if another one has that slot. So
/// most look-ups end in a slot, and identifiers with the same slot cost no more than they would if
/// there were only a tree.
#[derive(Drop)]
pub(crate) struct Places<'a> {
    ids: Vec<&'a str>,
    slots: Vec<usize>,
    tree: BTreeMap<&'a str, usize>,
    ghost room: { 0 < length slots.items },
    ghost finds: { (id : List ℕ) (place : Option ℕ)
        → found (texts ids.items) slots.items tree id ≡ place
        → place_of id (texts ids.items) ≡ place },
}

impl<'a> Places<'a> {
    /// Notes the places of identifiers.
    pub(crate) fn of(alloc: Global, ids: Vec<&'a str>) -> Result<Places<'a>, AllocError>
        ensures { IfOk result (λ p. p.ids.items ≡ ids.entry.items) }
    {
        let count = ids.len();
        let mut slots = vec![in alloc; count; count.saturating_mul(8).saturating_add(1)]?;
        let mut tree = BTreeMap::new(alloc);
        for place in 0..count {
            add(&ids, &mut slots, &mut tree, place)?;
        }
        Ok(Places { ids, slots, tree })
    }

    /// The first place of an identifier.
    pub(crate) fn get(&self, id: &str) -> Option<usize>
        ensures { result ≡ place_of id.now (texts self.now.ids.items) }
    {
        find(&self.ids, &self.slots, &self.tree, id)
    }
}
