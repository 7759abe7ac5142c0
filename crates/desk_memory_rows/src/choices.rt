//! The choices in force, and the releases that hold one for a package.

ghost use Rattle.std.specs.Prelude.{◌≡◌, ℕ, [], IfErr, OnErr, OnOk, List, Option, filter};
ghost use Rattle.std.specs.Option.{option_copied, option_map};
ghost use Rattle.desk_model.specs.Lists.{put_all};
ghost use Rattle.desk_model.specs.Keys.{below_by, choice_order, is_choice_in, is_choice_of};
ghost use Rattle.desk_model.specs.Tables.{Tables, is_choice_elsewhere, is_other_choice};
ghost use Rattle.desk_history.specs.FromTables.{holder_found};
ghost use Rattle.desk_tally.specs.Kept.{ArePlaces};
ghost use Rattle.desk_sorted.specs.Blocks.{rows_in};
ghost use Rattle.desk_sorted.specs.Sides.{texts_meet};
ghost use Rattle.desk_memory_rows.specs.Holders.{AreHolders, choosing, leaving, withdrawing};
ghost use Rattle.desk_memory_rows.specs.Sides.{choice_side, holder_side};
ghost use Rattle.desk_memory_rows.specs.Splitting.{choice_meets, choice_splits, holder_splits};

use crate::holders::{ByHeld, Holder, drop_choice, drop_choices, note};
use desk_base::{Items, Text};
use desk_model::{ChoiceRow, Fault};
use desk_sorted::{Blocks, Sought, run_in};
use std::alloc::Global;
use std::cmp::Ordering;

/// What is chosen for a package in a release.
#[derive(Clone, Copy)]
pub struct ByPackage<'a> {
    /// The name of the release.
    pub release: &'a str,
    /// The number of the document.
    pub document: u32,
    /// The SPDXID of the package.
    pub id: &'a str,
}

impl Sought<ChoiceRow> for ByPackage<'_> {
    ghost side = { λ key. choice_side key.release.now key.document key.id.now };

    ghost is_at = { λ key. is_choice_of key.release.now key.document key.id.now };

    ghost splits = { λ key. choice_splits key.release.now key.document key.id.now };

    ghost meets = { λ key row. choice_meets key.release.now key.document key.id.now row };

    fn side_of(&self, row: &ChoiceRow) -> Ordering {
        row.release
            .as_str()
            .cmp(self.release)
            .then(row.document.cmp(&self.document))
            .then(row.package_id.as_str().cmp(self.id))
    }
}

/// What is chosen in a release.
#[derive(Clone, Copy)]
pub struct ByHolder<'a> {
    /// The name of the release.
    pub release: &'a str,
}

impl Sought<ChoiceRow> for ByHolder<'_> {
    ghost side = { λ key. holder_side key.release.now };

    ghost is_at = { λ key. is_choice_in key.release.now };

    ghost splits = { λ key. holder_splits key.release.now };

    ghost meets = { λ key row. texts_meet row.release key.release.now };

    fn side_of(&self, row: &ChoiceRow) -> Ordering {
        row.release.as_str().cmp(self.release)
    }
}

/// Removes the release at a place as holder of each of its choices. It goes through them in place,
/// so nothing is allocated.
fn drop_holders(
    holders: &mut Blocks<Holder>,
    rows: &Blocks<ChoiceRow>,
    release: &Text,
    place: Option<u32>,
)
    ensures { rows_in holders.new.blocks.items
        ≡ leaving place (filter (is_choice_in release.now) (rows_in rows.now.blocks.items))
        (rows_in holders.old.blocks.items) }
{
    let Some(place) = place else {
        return;
    };
    let key = ByHolder {
        release: release.as_str(),
    };
    for block in rows.among(&key) {
        drop_choices(holders, place, run_in(block.as_slice(), &key));
    }
}

/// The choices by their key, and the releases that hold one, by package and place.
#[derive(Drop)]
pub struct Choices {
    /// The chosen terms, by release, document, package and term.
    pub rows: Blocks<ChoiceRow>,
    /// The releases that hold a choice, by document, package and place.
    pub holders: Blocks<Holder>,
}

impl Choices {
    /// No choices.
    pub fn new(alloc: Global) -> Choices
        ensures rows { rows_in result.rows.blocks.items ≡ [] }
        ensures holders { rows_in result.holders.blocks.items ≡ [] }
    {
        Choices {
            rows: Blocks::new(alloc),
            holders: Blocks::new(alloc),
        }
    }

    /// Puts the choice for a package in place of an earlier one, in the release at a place.
    pub fn choose(
        &mut self,
        release: &Text,
        place: Option<u32>,
        document: u32,
        package_id: &Text,
        rows: Items<ChoiceRow>,
    ) -> Result<(), Fault>
        ensures ok { OnOk result (rows_in self.new.rows.blocks.items
            ≡ put_all (below_by choice_order) rows
            (filter (is_other_choice release.now document package_id.now)
            (rows_in self.old.rows.blocks.items))) }
        ensures held { OnOk result (rows_in self.new.holders.blocks.items
            ≡ choosing release.now place document package_id.now rows
            (rows_in self.old.holders.blocks.items)) }
        ensures err { OnErr result
            (rows_in self.new.rows.blocks.items ≡ rows_in self.old.rows.blocks.items) }
        ensures held_err { OnErr result (rows_in self.new.holders.blocks.items
            ≡ rows_in self.old.holders.blocks.items) }
        ensures fault { IfErr result (λ fault. fault ≡ Fault.Memory) }
    {
        let rows = rows.into_vec();
        let key = ByPackage {
            release: release.as_str(),
            document,
            id: package_id.as_str(),
        };
        let at = self.rows.make_room(&key, rows.as_slice())?;
        if let Some(place) = place {
            if rows.is_empty() {
                drop_choice(&mut self.holders, release, place, document, package_id);
            } else {
                note(&mut self.holders, release, place, document, package_id)?;
            }
        }
        self.rows.replace(&key, at, rows);
        Ok(())
    }

    /// Drops all choices of the release at a place. If the holders are those of the choices, it is
    /// no longer a holder.
    pub fn withdraw(&mut self, release: &Text, place: Option<u32>)
        ensures rows { rows_in self.new.rows.blocks.items
            ≡ filter (is_choice_elsewhere release.now) (rows_in self.old.rows.blocks.items) }
        ensures let_go { rows_in self.new.holders.blocks.items
            ≡ leaving place (filter (is_choice_in release.now) (rows_in self.old.rows.blocks.items))
            (rows_in self.old.holders.blocks.items) }
        ensures held { (t : Tables) → AreHolders (rows_in self.old.holders.blocks.items) t
            → t.choice ≡ rows_in self.old.rows.blocks.items
            → rows_in self.new.holders.blocks.items
            ≡ withdrawing release.now place (rows_in self.old.holders.blocks.items) }
    {
        drop_holders(&mut self.holders, &self.rows, release, place);
        self.rows.cut(&ByHolder {
            release: release.as_str(),
        });
    }

    /// The first opened release that holds a choice for a package.
    pub fn holder(&self, document: u32, id: &str) -> Option<&Holder>
        ensures { (t : Tables) → ArePlaces t.releases
            → AreHolders (rows_in self.now.holders.blocks.items) t
            → option_map (λ holder. holder.release) (option_copied result)
            ≡ holder_found t document id.now }
    {
        self.holders.find(&ByHeld { document, id })
    }
}
