//! Releases, and what is attached to them and chosen in them.

ghost use Rattle.std.specs.Prelude.{◌≡◌, ◌<◌, ◌^◌, ◌∷◌, [], filter, IfOk, IfErr};
ghost use Rattle.std.specs.List.{flat_map};
ghost use Rattle.sqlite.specs.Held.{state};
ghost use Rattle.sqlite.specs.Values.{bound};
ghost use Rattle.desk_model.specs.Keys.{is_release};
ghost use Rattle.desk_model.specs.Lists.{updated};
ghost use Rattle.desk_model.specs.Tables.{is_other_choice, is_choice_elsewhere, with_release_state, withdrawn_release};
ghost use Rattle.desk_model.specs.declared.state.ReleaseState.TheVariants.{Frozen};
ghost use Rattle.desk_sql_layout.specs.Cells.{release_cells, attached_cells, choice_cells, frozen_cells};
ghost use Rattle.desk_sql_layout.specs.Held.{rows_of};
ghost use Rattle.desk_sql_layout.specs.Layout.{releases_table, attached_table, choice_table, frozen_table};
ghost use Rattle.desk_sql_write.specs.Turning.{Adds, Turns, with_rows};

use crate::adding::{Added, AddedInEights};
use crate::statement::execute;
use desk_base::Text;
use desk_model::{AttachedRow, ChoiceRow, Fault, FrozenRow, ReleaseRow, ReleaseState, StoreFault};
use desk_sql_layout::values::{number, release_state, text};
use sqlite::{Alter, Transaction};
use sqlite_value::value::ValueRef;
use std::alloc::{AllocError, Global};

fn attached_values<'a>(row: &'a AttachedRow) -> [ValueRef<'a>; 2]
    ensures { bound result ≡ attached_cells row.now }
{
    [text(&row.release), number(row.document)]
}

/// Adds a document that is attached to a release.
pub(crate) fn add_attached<S: Alter>(
    tx: &mut Transaction<'_, S>,
    row: &AttachedRow,
) -> Result<(), Fault>
    ensures same_reference { tx.new.conn.ghost_name ≡ tx.old.conn.ghost_name }
    ensures adds { Adds (with_rows attached_table.tree (attached_cells row.now ∷ [])) 1
        (state S.Store tx.old.conn.now) (state S.Store tx.new.conn.now) result }
{
    execute(
        tx,
        "INSERT INTO attached VALUES (?1, ?2)",
        &attached_values(row),
    )
}

fn choice_values<'a>(row: &'a ChoiceRow) -> [ValueRef<'a>; 4]
    ensures { bound result ≡ choice_cells row.now }
{
    [
        text(&row.release),
        number(row.document),
        text(&row.package_id),
        text(&row.term),
    ]
}

impl Added for ChoiceRow {
    ghost tree = { choice_table.tree };

    ghost rows = { λ row. choice_cells row ∷ [] };

    fn add<S: Alter>(&self, _alloc: Global, tx: &mut Transaction<'_, S>) -> Result<(), Fault> {
        execute(
            tx,
            "INSERT INTO choice VALUES (?1, ?2, ?3, ?4)",
            &choice_values(self),
        )
    }
}

fn frozen_values<'a>(row: &'a FrozenRow) -> [ValueRef<'a>; 5]
    ensures { bound result ≡ frozen_cells row.now }
{
    [
        text(&row.release),
        number(row.document),
        text(&row.package_id),
        text(&row.term),
        text(&row.rule),
    ]
}

/// The values of frozen terms, one term after another.
fn values_of_frozen<'a>(
    alloc: Global,
    rows: &'a [FrozenRow],
) -> Result<Vec<ValueRef<'a>>, AllocError>
    ensures { IfOk result (λ values. bound values.items ≡ flat_map frozen_cells rows.now) }
{
    let mut values = Vec::new(alloc);
    for row in rows {
        values.extend_from_slice(&frozen_values(row))?;
    }
    Ok(values)
}

impl AddedInEights for FrozenRow {
    ghost tree = { frozen_table.tree };

    ghost cells = { frozen_cells };

    fn add_one<S: Alter>(&self, tx: &mut Transaction<'_, S>) -> Result<(), Fault> {
        execute(
            tx,
            "INSERT INTO frozen VALUES (?1, ?2, ?3, ?4, ?5)",
            &frozen_values(self),
        )
    }

    fn add_eight<S: Alter>(
        alloc: Global,
        tx: &mut Transaction<'_, S>,
        rows: &[FrozenRow],
    ) -> Result<(), Fault> {
        let values = values_of_frozen(alloc, rows)?;
        execute(
            tx,
            "INSERT INTO frozen VALUES (?, ?, ?, ?, ?), (?, ?, ?, ?, ?), (?, ?, ?, ?, ?), (?, ?, ?, ?, ?), (?, ?, ?, ?, ?), (?, ?, ?, ?, ?), (?, ?, ?, ?, ?), (?, ?, ?, ?, ?)",
            values.as_slice(),
        )
    }
}

/// The revision as a number of 32 bits, if it is one.
pub(crate) fn small_revision(revision: u64) -> Result<u32, Fault>
    ensures value { IfOk result (λ small. small ≡ revision) }
    ensures large { IfErr result (λ _. revision < 2 ^ 32 → ⊥) }
{
    match u32::try_from(revision) {
        Ok(small) => Ok(small),
        Err(_) => Err(Fault::Store(StoreFault::Rows)),
    }
}

fn release_values<'a>(row: &'a ReleaseRow, revision: u32) -> [ValueRef<'a>; 5]
    requires { revision ≡ row.now.revision }
    ensures { bound result ≡ release_cells row.now }
{
    [
        text(&row.name),
        number(row.place),
        text(&row.form),
        release_state(row.state),
        number(revision),
    ]
}

/// Adds a release.
pub(crate) fn add_release<S: Alter>(
    tx: &mut Transaction<'_, S>,
    row: &ReleaseRow,
) -> Result<(), Fault>
    ensures same_reference { tx.new.conn.ghost_name ≡ tx.old.conn.ghost_name }
    ensures adds { Adds (with_rows releases_table.tree (release_cells row.now ∷ [])) 1
        (state S.Store tx.old.conn.now) (state S.Store tx.new.conn.now) result }
{
    let revision = small_revision(row.revision)?;
    execute(
        tx,
        "INSERT INTO releases VALUES (?1, ?2, ?3, ?4, ?5)",
        &release_values(row, revision),
    )
}

/// Freezes a release with a revision of the catalogue.
pub(crate) fn freeze_release<S: Alter>(
    tx: &mut Transaction<'_, S>,
    name: &Text,
    revision: u32,
) -> Result<(), Fault>
    ensures same_reference { tx.new.conn.ghost_name ≡ tx.old.conn.ghost_name }
    ensures sets { Turns rows_of (λ t. rows_of (record t {
      releases = updated (is_release name.now) (with_release_state Frozen revision) t.releases;
    })) 0 (state S.Store tx.old.conn.now) (state S.Store tx.new.conn.now) result }
{
    execute(
        tx,
        "UPDATE releases SET state = ?2, revision = ?3 WHERE name = ?1",
        &[
            text(name),
            release_state(ReleaseState::Frozen),
            number(revision),
        ],
    )
}

/// Withdraws a release.
pub(crate) fn withdraw_release<S: Alter>(
    tx: &mut Transaction<'_, S>,
    name: &Text,
) -> Result<(), Fault>
    ensures same_reference { tx.new.conn.ghost_name ≡ tx.old.conn.ghost_name }
    ensures sets { Turns rows_of (λ t. rows_of (record t {
      releases = updated (is_release name.now) withdrawn_release t.releases;
    })) 0 (state S.Store tx.old.conn.now) (state S.Store tx.new.conn.now) result }
{
    execute(
        tx,
        "UPDATE releases SET state = ?2 WHERE name = ?1",
        &[text(name), release_state(ReleaseState::Withdrawn)],
    )
}

/// Drops the terms that are chosen for a package.
pub(crate) fn drop_choices<S: Alter>(
    tx: &mut Transaction<'_, S>,
    release: &Text,
    document: u32,
    package_id: &Text,
) -> Result<(), Fault>
    ensures same_reference { tx.new.conn.ghost_name ≡ tx.old.conn.ghost_name }
    ensures drops { Turns rows_of (λ t. rows_of (record t {
      choice = filter (is_other_choice release.now document package_id.now) t.choice;
    })) 0 (state S.Store tx.old.conn.now) (state S.Store tx.new.conn.now) result }
{
    execute(
        tx,
        "DELETE FROM choice WHERE release = ?1 AND document = ?2 AND package = ?3",
        &[text(release), number(document), text(package_id)],
    )
}

/// Drops the terms that are chosen in a release.
pub(crate) fn drop_choices_in<S: Alter>(
    tx: &mut Transaction<'_, S>,
    release: &Text,
) -> Result<(), Fault>
    ensures same_reference { tx.new.conn.ghost_name ≡ tx.old.conn.ghost_name }
    ensures drops { Turns rows_of (λ t. rows_of (record t {
      choice = filter (is_choice_elsewhere release.now) t.choice;
    })) 0 (state S.Store tx.old.conn.now) (state S.Store tx.new.conn.now) result }
{
    execute(
        tx,
        "DELETE FROM choice WHERE release = ?1",
        &[text(release)],
    )
}
