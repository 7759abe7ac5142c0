//! The releases that hold a choice for a package.

ghost use Rattle.std.specs.Prelude.{◌≡◌, ℕ, ◌==◌, ◌&&◌, not, filter, OnErr, OnOk, IfErr, IfOk};
ghost use Rattle.std.specs.Str.{bytes_eq};
ghost use Rattle.desk_model.specs.Lists.{replaced};
ghost use Rattle.desk_model.specs.Keys.{below_by};
ghost use Rattle.desk_sorted.specs.Blocks.{rows_in};
ghost use Rattle.desk_memory_rows.specs.Holders.{held_side, holder_of, holder_order, holding_side, is_held, is_holding, letting_go};
ghost use Rattle.desk_memory_rows.specs.HolderLaws.{held_meets, held_splits, holder_total, holding_meets, holding_splits};

use desk_base::Text;
use desk_model::{ChoiceRow, Fault};
use desk_sorted::{Blocks, Keyed, Sought};
use std::alloc::AllocError;
use std::cmp::Ordering;

/// A release, with its place among those that were opened, that holds a choice for a package.
#[derive(Drop)]
pub struct Holder {
    /// The number of the document.
    pub document: u32,
    /// The SPDXID of the package.
    pub package_id: Text,
    /// The place of the release in the order of opening, from 1.
    pub place: u32,
    /// The name of the release.
    pub release: Text,
}

impl Keyed for Holder {
    ghost order = { holder_order };

    ghost total = { holder_total };

    fn compare(&self, other: &Self) -> Ordering {
        self.document
            .cmp(&other.document)
            .then(self.package_id.as_str().cmp(other.package_id.as_str()))
            .then(self.place.cmp(&other.place))
            .then(self.release.as_str().cmp(other.release.as_str()))
    }
}

/// The holders of a choice for a package.
#[derive(Clone, Copy)]
pub struct ByHeld<'a> {
    /// The number of the document.
    pub document: u32,
    /// The SPDXID of the package.
    pub id: &'a str,
}

impl Sought<Holder> for ByHeld<'_> {
    ghost side = { λ key. held_side key.document key.id.now };

    ghost is_at = { λ key. is_held key.document key.id.now };

    ghost splits = { λ key. held_splits key.document key.id.now };

    ghost meets = { λ key row. held_meets key.document key.id.now row };

    fn side_of(&self, row: &Holder) -> Ordering {
        row.document
            .cmp(&self.document)
            .then(row.package_id.as_str().cmp(self.id))
    }
}

/// A release as it holds a choice for a package.
#[derive(Clone, Copy)]
pub(crate) struct ByHolding<'a> {
    pub(crate) document: u32,
    pub(crate) id: &'a str,
    pub(crate) place: u32,
    pub(crate) release: &'a str,
}

impl Sought<Holder> for ByHolding<'_> {
    ghost side = { λ key. holding_side key.document key.id.now key.place key.release.now };

    ghost is_at = { λ key. is_holding key.document key.id.now key.place key.release.now };

    ghost splits = { λ key. holding_splits key.document key.id.now key.place key.release.now };

    ghost meets = { λ key row. holding_meets key.document key.id.now key.place key.release.now row };

    fn side_of(&self, row: &Holder) -> Ordering {
        row.document
            .cmp(&self.document)
            .then(row.package_id.as_str().cmp(self.id))
            .then(row.place.cmp(&self.place))
            .then(row.release.as_str().cmp(self.release))
    }
}

fn holder_of(
    release: &Text,
    place: u32,
    document: u32,
    package_id: &Text,
) -> Result<Holder, AllocError>
    ensures { IfOk result (λ holder. holder ≡ holder_of release.now place document package_id.now) }
{
    Ok(Holder {
        document,
        package_id: package_id.clone()?,
        place,
        release: release.clone()?,
    })
}

/// The release no longer holds a choice for the package.
pub fn drop_choice(
    holders: &mut Blocks<Holder>,
    release: &Text,
    place: u32,
    document: u32,
    package_id: &Text,
)
    ensures { rows_in holders.new.blocks.items ≡ filter (λ holder.
        not (is_holding document package_id.now place release.now holder))
        (rows_in holders.old.blocks.items) }
{
    holders.cut(&ByHolding {
        document,
        id: package_id.as_str(),
        place,
        release: release.as_str(),
    });
}

/// The release holds a choice for the package, whether it held one before or not.
pub fn note(
    holders: &mut Blocks<Holder>,
    release: &Text,
    place: u32,
    document: u32,
    package_id: &Text,
) -> Result<(), Fault>
    ensures ok { OnOk result (rows_in holders.new.blocks.items
        ≡ replaced (below_by holder_order) (is_holding document package_id.now place release.now)
        (holder_of release.now place document package_id.now) (rows_in holders.old.blocks.items)) }
    ensures err { OnErr result
        (rows_in holders.new.blocks.items ≡ rows_in holders.old.blocks.items) }
    ensures fault { IfErr result (λ fault. fault ≡ Fault.Memory) }
{
    let holder = holder_of(release, place, document, package_id)?;
    let key = ByHolding {
        document,
        id: package_id.as_str(),
        place,
        release: release.as_str(),
    };
    holders.exchange(&key, holder)?;
    Ok(())
}

/// The release of these choices, at a place, no longer holds any of them.
pub fn drop_choices(holders: &mut Blocks<Holder>, place: u32, rows: &[ChoiceRow])
    ensures { rows_in holders.new.blocks.items
        ≡ letting_go place rows.now (rows_in holders.old.blocks.items) }
{
    for row in rows {
        drop_choice(holders, &row.release, place, row.document, &row.package_id);
    }
}
