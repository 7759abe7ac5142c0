//! The releases that hold a choice for a package, kept beside the rows.

ghost use Rattle.std.specs.Prelude.{◌≡◌, true, false, filter, IfErr, IfOk, IfNone, IfSome, OnOk, None, Some};
ghost use Rattle.desk_history.specs.FromTables.{holder_found};
ghost use Rattle.desk_model.specs.Keys.{below_by, is_choice_in};
ghost use Rattle.desk_model.specs.Lists.{ascends};
ghost use Rattle.desk_model.specs.Tables.{Tables};
ghost use Rattle.desk_sql_lookup.specs.LookUps.{LooksUp};
ghost use Rattle.desk_tally.specs.Kept.{ArePlaces, place_found};
ghost use Rattle.desk_memory_rows.specs.Holders.{AreHolders, choosing, holders_after, leaving};
ghost use Rattle.desk_sorted.specs.Orders.{release_order};
ghost use Rattle.desk_sql_cache.specs.Holding.{AreHoldersOf, IsPlace, have_releases, held_by};

use desk_base::Text;
use desk_memory_rows::{ByHeld, Holder, drop_choice, drop_choices, note};
use desk_model::{Change, ChoiceRow, Fault, ReleaseRow};
use desk_sorted::Blocks;
use sqlite::{Alter, Connection};
use std::alloc::{AllocError, Global};

/// The releases that hold a choice, by package and place.
#[derive(Drop)]
pub struct Holders {
    rows: Blocks<Holder>,
}

/// The place of the release with this name, found by binary search.
fn place_of(releases: &[ReleaseRow], name: &str) -> Option<u32>
    ensures found { IfSome result (IsPlace releases.now name.now) }
    ensures none { IfNone result (ascends (below_by release_order) releases.now ≡ true
        → place_found releases.now name.now ≡ None) }
{
    match releases.binary_search_by(|row| row.name.as_str().cmp(name)) {
        Ok(at) => Some(releases[at].place),
        Err(_) => None,
    }
}

impl Holders {
    /// The holders in the rows of releases and choices, if each choice is in one of the releases.
    fn of(
        alloc: Global,
        releases: &[ReleaseRow],
        choices: &[ChoiceRow],
    ) -> Result<Option<Holders>, Fault>
        ensures held { IfOk result (λ found. IfSome found (λ holders.
            AreHoldersOf releases.now choices.now (held_by holders))) }
        ensures none { IfOk result (λ found. IfNone found
            (ascends (below_by release_order) releases.now ≡ true
            → have_releases releases.now choices.now ≡ false)) }
        ensures fault { IfErr result (λ fault. fault ≡ Fault.Memory) }
    {
        let mut rows = Blocks::new(alloc);
        for row in choices {
            let Some(place) = place_of(releases, row.release.as_str()) else {
                return Ok(None);
            };
            note(
                &mut rows,
                &row.release,
                place,
                row.document,
                &row.package_id,
            )?;
        }
        Ok(Some(Holders { rows }))
    }

    /// The first release opened that holds a choice for a package.
    pub fn first(&self, document: u32, id: &str) -> Result<Option<Text>, AllocError>
        ensures { IfOk result (λ name. (t : Tables) → ArePlaces t.releases
            → AreHolders (held_by self.now) t → name ≡ holder_found t document id.now) }
    {
        match self.rows.find(&ByHeld { document, id }) {
            Some(holder) => Ok(Some(holder.release.clone()?)),
            None => Ok(None),
        }
    }

    /// Changes the holders by the terms, if any, chosen for a package in the release at a place.
    fn choose(
        &mut self,
        release: &Text,
        place: u32,
        document: u32,
        package_id: &Text,
        rows: &[ChoiceRow],
    ) -> Result<(), Fault>
        ensures held { OnOk result (held_by self.new ≡ choosing release.now (Some place) document
            package_id.now rows.now (held_by self.old)) }
        ensures fault { IfErr result (λ fault. fault ≡ Fault.Memory) }
    {
        if rows.is_empty() {
            drop_choice(&mut self.rows, release, place, document, package_id);
            return Ok(());
        }
        note(&mut self.rows, release, place, document, package_id)
    }
}

/// The holders in the rows of a database, if each choice is in a release.
pub fn read_holders<S: Alter>(
    alloc: Global,
    conn: &mut Connection<S>,
) -> Result<Option<Holders>, Fault>
    ensures { LooksUp S.Store conn.old conn.new result (λ found t.
        IfSome found (λ holders. AreHolders (held_by holders) t)
        × IfNone found (have_releases t.releases t.choice ≡ false)) }
{
    let releases = desk_sql_lookup::release_rows(alloc, conn)?;
    let choices = desk_sql_lookup::choices(alloc, conn)?;
    Holders::of(alloc, releases.as_slice(), choices.as_slice())
}

/// The place of the release with this name, if there is one.
pub fn release_place<S: Alter>(
    alloc: Global,
    conn: &mut Connection<S>,
    name: &str,
) -> Result<Option<u32>, Fault>
    ensures { LooksUp S.Store conn.old conn.new result (λ place t.
        place ≡ place_found t.releases name.now) }
{
    match desk_sql_lookup::release(alloc, conn, name)? {
        Some(row) => Ok(Some(row.place)),
        None => Ok(None),
    }
}

/// Changes the holders by the terms, if any, chosen for a package in a release.
fn choose<S: Alter>(
    alloc: Global,
    conn: &mut Connection<S>,
    holders: &mut Holders,
    release: &Text,
    document: u32,
    package_id: &Text,
    rows: &[ChoiceRow],
) -> Result<(), Fault>
    ensures { LooksUp S.Store conn.old conn.new result (λ done t. held_by holders.new
        ≡ choosing release.now (place_found t.releases release.now) document package_id.now
        rows.now (held_by holders.old)) }
{
    match release_place(alloc, conn, release.as_str())? {
        Some(place) => holders.choose(release, place, document, package_id, rows),
        None => Ok(()),
    }
}

/// Changes the holders by the withdrawal of a release, which no longer holds any of its choices.
fn withdraw<S: Alter>(
    alloc: Global,
    conn: &mut Connection<S>,
    holders: &mut Holders,
    release: &Text,
) -> Result<(), Fault>
    ensures { LooksUp S.Store conn.old conn.new result (λ done t. held_by holders.new
        ≡ leaving (place_found t.releases release.now) (filter (is_choice_in release.now) t.choice)
        (held_by holders.old)) }
{
    let Some(place) = release_place(alloc, conn, release.as_str())? else {
        return Ok(());
    };
    let choices = desk_sql_lookup::choices_in(alloc, conn, release.as_str())?;
    drop_choices(&mut holders.rows, place, choices.as_slice());
    Ok(())
}

/// Changes the holders by a change that is to be written.
pub(crate) fn change_holders<S: Alter>(
    alloc: Global,
    conn: &mut Connection<S>,
    holders: &mut Holders,
    change: &Change,
) -> Result<(), Fault>
    ensures { LooksUp S.Store conn.old conn.new result (λ done t.
        held_by holders.new ≡ holders_after change.now t (held_by holders.old)) }
{
    match change {
        Change::Chosen {
            release,
            document,
            package_id,
            rows,
        } => choose(
            alloc,
            conn,
            holders,
            release,
            *document,
            package_id,
            rows.as_slice(),
        ),
        Change::Withdrew { release, .. } => withdraw(alloc, conn, holders, release),
        _ => Ok(()),
    }
}
