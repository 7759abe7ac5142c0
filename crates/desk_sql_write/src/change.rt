//! What each change writes.

ghost use Rattle.std.specs.Prelude.{◌≡◌, ◌∷◌, [], map, filter, not, length, ◌+◌};
ghost use Rattle.sqlite.specs.Held.{state};
ghost use Rattle.sqlite.specs.State.{Survives};
ghost use Rattle.desk_model.specs.Keys.{is_release, is_conclusion, is_adoption};
ghost use Rattle.desk_model.specs.Lists.{updated};
ghost use Rattle.desk_model.specs.Tables.{applied, is_other_choice, is_choice_elsewhere, with_release_state, withdrawn_release, moved_by};
ghost use Rattle.desk_model.specs.declared.state.ReleaseState.TheVariants.{Frozen};
ghost use Rattle.desk_sql_layout.specs.Cells.{catalogue_cells, rule_cells, choice_cells, conclusion_cells, adoption_cells, frozen_cells};
ghost use Rattle.desk_sql_layout.specs.Held.{rows_of};
ghost use Rattle.desk_sql_layout.specs.Layout.{catalogue_table, rule_table, choice_table, conclusion_table, adoption_table, frozen_table};
ghost use Rattle.desk_sql_write.specs.Replacing.{rows_before, rows_after};
ghost use Rattle.desk_sql_write.specs.Taking.{FailsOnlyAs, FailsOnlyFor, HasSmallRevision, rows_in};
ghost use Rattle.desk_sql_write.specs.Turning.{Adds, Turns, with_rows, with_steps, with_raised, with_document, with_parts};
ghost use Rattle.desk_sql_write.specs.Written.{Writes, WritesAs};

use crate::adding::{add_all, add_in_eights};
use crate::catalogue::add_revision;
use crate::document::{add_document, add_reading};
use crate::duty::{add_steps, set_duties};
use crate::office::{add_adoption, add_conclusion, drop_adoption, drop_conclusion};
use crate::release::{
    add_attached, add_release, drop_choices, drop_choices_in, freeze_release, small_revision,
    withdraw_release,
};
use desk_base::Text;
use desk_model::{
    AdoptionRow, CatalogueRow, Change, ChangeRow, ChoiceRow, ConclusionRow, DocumentRow, DutyRow,
    ExtractedRow, Fault, FrozenRow, PackageRow, RuleRow,
};
use sqlite::{Alter, Transaction};
use std::alloc::Global;

/// Loads a catalogue.
pub(crate) fn load<S: Alter>(
    alloc: Global,
    tx: &mut Transaction<'_, S>,
    row: &CatalogueRow,
    rules: &[RuleRow],
) -> Result<(), Fault>
    ensures same_reference { tx.new.conn.ghost_name ≡ tx.old.conn.ghost_name }
    ensures adds { Adds (λ rows. with_rows rule_table.tree (map rule_cells rules.now)
        (with_rows catalogue_table.tree (catalogue_cells row.now ∷ []) rows)) (1 + length rules.now)
        (state S.Store tx.old.conn.now) (state S.Store tx.new.conn.now) result }
{
    add_revision(tx, row)?;
    add_all(alloc, tx, rules)
}

/// Adds a document, with its profile.
pub(crate) fn add_read_document<S: Alter>(
    tx: &mut Transaction<'_, S>,
    row: &DocumentRow,
) -> Result<(), Fault>
    ensures same_reference { tx.new.conn.ghost_name ≡ tx.old.conn.ghost_name }
    ensures adds { Adds (with_document row.now) 2
        (state S.Store tx.old.conn.now) (state S.Store tx.new.conn.now) result }
{
    add_document(tx, row)?;
    add_reading(tx, row)
}

/// Adds what a document defines.
pub(crate) fn add_parts<S: Alter>(
    alloc: Global,
    tx: &mut Transaction<'_, S>,
    packages: &[PackageRow],
    references: &[ExtractedRow],
) -> Result<(), Fault>
    ensures same_reference { tx.new.conn.ghost_name ≡ tx.old.conn.ghost_name }
    ensures adds { Adds (with_parts packages.now references.now)
        (length packages.now + length references.now)
        (state S.Store tx.old.conn.now) (state S.Store tx.new.conn.now) result }
{
    add_all(alloc, tx, packages)?;
    add_all(alloc, tx, references)
}

/// Imports a document.
pub(crate) fn import<S: Alter>(
    alloc: Global,
    tx: &mut Transaction<'_, S>,
    row: &DocumentRow,
    packages: &[PackageRow],
    references: &[ExtractedRow],
) -> Result<(), Fault>
    ensures same_reference { tx.new.conn.ghost_name ≡ tx.old.conn.ghost_name }
    ensures adds { Adds (λ rows. with_parts packages.now references.now
        (with_document row.now rows))
        (2 + (length packages.now + length references.now))
        (state S.Store tx.old.conn.now) (state S.Store tx.new.conn.now) result }
{
    add_read_document(tx, row)?;
    add_parts(alloc, tx, packages, references)
}

/// Replaces the terms that are chosen for a package.
pub(crate) fn choose<S: Alter>(
    alloc: Global,
    tx: &mut Transaction<'_, S>,
    release: &Text,
    document: u32,
    package_id: &Text,
    rows: &[ChoiceRow],
) -> Result<(), Fault>
    ensures same_reference { tx.new.conn.ghost_name ≡ tx.old.conn.ghost_name }
    ensures makes { Turns rows_of (λ t. with_rows choice_table.tree (map choice_cells rows.now)
        (rows_of (record t {
          choice = filter (is_other_choice release.now document package_id.now) t.choice;
        }))) (length rows.now)
        (state S.Store tx.old.conn.now) (state S.Store tx.new.conn.now) result }
{
    drop_choices(tx, release, document, package_id)?;
    add_all(alloc, tx, rows)
}

/// Replaces an earlier conclusion, if there is one.
pub(crate) fn conclude<S: Alter>(
    tx: &mut Transaction<'_, S>,
    row: &ConclusionRow,
) -> Result<(), Fault>
    ensures same_reference { tx.new.conn.ghost_name ≡ tx.old.conn.ghost_name }
    ensures makes { Turns rows_of (λ t. with_rows conclusion_table.tree
        (conclusion_cells row.now ∷ []) (rows_of (record t {
          conclusion = filter (λ other.
              not (is_conclusion row.now.document row.now.package_id other)) t.conclusion;
        }))) 1
        (state S.Store tx.old.conn.now) (state S.Store tx.new.conn.now) result }
{
    drop_conclusion(tx, row.document, &row.package_id)?;
    add_conclusion(tx, row)
}

/// Replaces an earlier adoption, if there is one.
pub(crate) fn adopt<S: Alter>(tx: &mut Transaction<'_, S>, row: &AdoptionRow) -> Result<(), Fault>
    ensures same_reference { tx.new.conn.ghost_name ≡ tx.old.conn.ghost_name }
    ensures makes { Turns rows_of (λ t. with_rows adoption_table.tree
        (adoption_cells row.now ∷ []) (rows_of (record t {
          adoption = filter (λ other.
              not (is_adoption row.now.document row.now.reference other)) t.adoption;
        }))) 1
        (state S.Store tx.old.conn.now) (state S.Store tx.new.conn.now) result }
{
    drop_adoption(tx, row.document, &row.reference)?;
    add_adoption(tx, row)
}

/// Raises duties.
pub(crate) fn raise<S: Alter>(
    alloc: Global,
    tx: &mut Transaction<'_, S>,
    duties: &[DutyRow],
    changes: &[ChangeRow],
) -> Result<(), Fault>
    ensures same_reference { tx.new.conn.ghost_name ≡ tx.old.conn.ghost_name }
    ensures adds { Adds (with_raised duties.now changes.now)
        (length duties.now + (length changes.now + length changes.now))
        (state S.Store tx.old.conn.now) (state S.Store tx.new.conn.now) result }
{
    add_in_eights(alloc, tx, duties)?;
    add_steps(alloc, tx, changes)
}

/// Adds the terms with which a release is frozen, and raises its duties.
pub(crate) fn add_terms<S: Alter>(
    alloc: Global,
    tx: &mut Transaction<'_, S>,
    frozen: &[FrozenRow],
    duties: &[DutyRow],
    changes: &[ChangeRow],
) -> Result<(), Fault>
    ensures same_reference { tx.new.conn.ghost_name ≡ tx.old.conn.ghost_name }
    ensures adds { Adds (λ rows. with_raised duties.now changes.now
        (with_rows frozen_table.tree (map frozen_cells frozen.now) rows))
        (length frozen.now + (length duties.now + (length changes.now + length changes.now)))
        (state S.Store tx.old.conn.now) (state S.Store tx.new.conn.now) result }
{
    add_in_eights(alloc, tx, frozen)?;
    raise(alloc, tx, duties, changes)
}

/// Freezes a release.
pub(crate) fn freeze<S: Alter>(
    alloc: Global,
    tx: &mut Transaction<'_, S>,
    release: &Text,
    revision: u32,
    frozen: &[FrozenRow],
    duties: &[DutyRow],
    changes: &[ChangeRow],
) -> Result<(), Fault>
    ensures same_reference { tx.new.conn.ghost_name ≡ tx.old.conn.ghost_name }
    ensures makes { Turns rows_of (λ t. with_raised duties.now changes.now
        (with_rows frozen_table.tree (map frozen_cells frozen.now) (rows_of (record t {
          releases = updated (is_release release.now) (with_release_state Frozen revision)
              t.releases;
        })))) (length frozen.now + (length duties.now + (length changes.now + length changes.now)))
        (state S.Store tx.old.conn.now) (state S.Store tx.new.conn.now) result }
{
    freeze_release(tx, release, revision)?;
    add_terms(alloc, tx, frozen, duties, changes)
}

/// Moves duties.
pub(crate) fn move_duties<S: Alter>(
    alloc: Global,
    tx: &mut Transaction<'_, S>,
    changes: &[ChangeRow],
) -> Result<(), Fault>
    ensures same_reference { tx.new.conn.ghost_name ≡ tx.old.conn.ghost_name }
    ensures makes { Turns rows_of (λ t. with_steps changes.now
        (rows_of (record t { duty = moved_by changes.now t.duty })))
        (length changes.now + length changes.now)
        (state S.Store tx.old.conn.now) (state S.Store tx.new.conn.now) result }
{
    set_duties(tx, changes)?;
    add_steps(alloc, tx, changes)
}

/// Drops the terms that are chosen in a release, and moves its duties.
pub(crate) fn clear<S: Alter>(
    alloc: Global,
    tx: &mut Transaction<'_, S>,
    release: &Text,
    changes: &[ChangeRow],
) -> Result<(), Fault>
    ensures same_reference { tx.new.conn.ghost_name ≡ tx.old.conn.ghost_name }
    ensures makes { Turns rows_of (λ t. with_steps changes.now (rows_of (record t {
      choice = filter (is_choice_elsewhere release.now) t.choice;
      duty = moved_by changes.now t.duty;
    }))) (length changes.now + length changes.now)
        (state S.Store tx.old.conn.now) (state S.Store tx.new.conn.now) result }
{
    drop_choices_in(tx, release)?;
    move_duties(alloc, tx, changes)
}

/// Withdraws a release.
pub(crate) fn withdraw<S: Alter>(
    alloc: Global,
    tx: &mut Transaction<'_, S>,
    release: &Text,
    changes: &[ChangeRow],
) -> Result<(), Fault>
    ensures same_reference { tx.new.conn.ghost_name ≡ tx.old.conn.ghost_name }
    ensures makes { Turns rows_of (λ t. with_steps changes.now (rows_of (record t {
      releases = updated (is_release release.now) withdrawn_release t.releases;
      choice = filter (is_choice_elsewhere release.now) t.choice;
      duty = moved_by changes.now t.duty;
    }))) (length changes.now + length changes.now)
        (state S.Store tx.old.conn.now) (state S.Store tx.new.conn.now) result }
{
    withdraw_release(tx, release)?;
    clear(alloc, tx, release, changes)
}

/// Writes a change. What it replaces is dropped first.
pub(crate) fn make<S: Alter>(
    alloc: Global,
    tx: &mut Transaction<'_, S>,
    change: &Change,
) -> Result<(), Fault>
    ensures same_reference { tx.new.conn.ghost_name ≡ tx.old.conn.ghost_name }
    ensures wrote { Writes rows_of (applied change.now) (state S.Store tx.old.conn.now)
        (state S.Store tx.new.conn.now) result }
    ensures cause { HasSmallRevision change.now → FailsOnlyFor rows_of (applied change.now)
        (rows_in change.now) (state S.Store tx.old.conn.now)
        (state S.Store tx.new.conn.now) result }
    ensures survives { Survives (state S.Store tx.old.conn.now) (state S.Store tx.new.conn.now)
        (λ _. ⊥) }
{
    match change {
        Change::Loaded {
            catalogue,
            rules,
            forms: _,
        } => load(alloc, tx, catalogue, rules.as_slice()),
        Change::Imported {
            document,
            packages,
            references,
        } => import(
            alloc,
            tx,
            document,
            packages.as_slice(),
            references.as_slice(),
        ),
        Change::Opened(row) => add_release(tx, row),
        Change::Attached(row) => add_attached(tx, row),
        Change::Chosen {
            release,
            document,
            package_id,
            rows,
        } => choose(alloc, tx, release, *document, package_id, rows.as_slice()),
        Change::Froze {
            release,
            revision,
            frozen,
            duties,
            changes,
        } => freeze(
            alloc,
            tx,
            release,
            small_revision(*revision)?,
            frozen.as_slice(),
            duties.as_slice(),
            changes.as_slice(),
        ),
        Change::Moved { changes } => move_duties(alloc, tx, changes.as_slice()),
        Change::Withdrew { release, changes } => withdraw(alloc, tx, release, changes.as_slice()),
        Change::Concluded(row) => conclude(tx, row),
        Change::Adopted(row) => adopt(tx, row),
    }
}

/// Writes a change. If it is known to replace no row (`is_new`), none is dropped first.
pub fn write_change<S: Alter>(
    alloc: Global,
    tx: &mut Transaction<'_, S>,
    change: &Change,
    is_new: bool,
) -> Result<(), Fault>
    ensures same_reference { tx.new.conn.ghost_name ≡ tx.old.conn.ghost_name }
    ensures wrote { WritesAs (rows_before is_new change.now) (rows_after is_new change.now)
        (state S.Store tx.old.conn.now) (state S.Store tx.new.conn.now) result }
    ensures cause { HasSmallRevision change.now → FailsOnlyAs (rows_before is_new change.now)
        (rows_after is_new change.now) (rows_in change.now) (state S.Store tx.old.conn.now)
        (state S.Store tx.new.conn.now) result }
    ensures survives { Survives (state S.Store tx.old.conn.now) (state S.Store tx.new.conn.now)
        (λ _. ⊥) }
{
    match change {
        Change::Adopted(row) if is_new => add_adoption(tx, row),
        _ => make(alloc, tx, change),
    }
}
