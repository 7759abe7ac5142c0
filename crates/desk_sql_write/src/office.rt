//! What the office concludes and adopts.

ghost use Rattle.std.specs.Prelude.{◌≡◌, ◌∷◌, [], filter, not};
ghost use Rattle.sqlite.specs.Held.{state};
ghost use Rattle.sqlite.specs.Values.{bound};
ghost use Rattle.desk_model.specs.Keys.{is_conclusion, is_adoption};
ghost use Rattle.desk_sql_layout.specs.Cells.{conclusion_cells, adoption_cells};
ghost use Rattle.desk_sql_layout.specs.Held.{rows_of};
ghost use Rattle.desk_sql_layout.specs.Layout.{conclusion_table, adoption_table};
ghost use Rattle.desk_sql_write.specs.Turning.{Adds, Turns, with_rows};

use crate::statement::execute;
use desk_base::Text;
use desk_model::{AdoptionRow, ConclusionRow, Fault};
use desk_sql_layout::values::{number, text};
use sqlite::{Alter, Transaction};
use sqlite_value::value::ValueRef;

fn conclusion_values<'a>(row: &'a ConclusionRow) -> [ValueRef<'a>; 3]
    ensures { bound result ≡ conclusion_cells row.now }
{
    [
        number(row.document),
        text(&row.package_id),
        text(&row.expression),
    ]
}

/// Adds a conclusion.
pub(crate) fn add_conclusion<S: Alter>(
    tx: &mut Transaction<'_, S>,
    row: &ConclusionRow,
) -> Result<(), Fault>
    ensures same_reference { tx.new.conn.ghost_name ≡ tx.old.conn.ghost_name }
    ensures adds { Adds (with_rows conclusion_table.tree (conclusion_cells row.now ∷ [])) 1
        (state S.Store tx.old.conn.now) (state S.Store tx.new.conn.now) result }
{
    execute(
        tx,
        "INSERT INTO conclusion VALUES (?1, ?2, ?3)",
        &conclusion_values(row),
    )
}

fn adoption_values<'a>(row: &'a AdoptionRow) -> [ValueRef<'a>; 3]
    ensures { bound result ≡ adoption_cells row.now }
{
    [
        number(row.document),
        text(&row.reference),
        text(&row.licence),
    ]
}

/// Adds an adoption.
pub(crate) fn add_adoption<S: Alter>(
    tx: &mut Transaction<'_, S>,
    row: &AdoptionRow,
) -> Result<(), Fault>
    ensures same_reference { tx.new.conn.ghost_name ≡ tx.old.conn.ghost_name }
    ensures adds { Adds (with_rows adoption_table.tree (adoption_cells row.now ∷ [])) 1
        (state S.Store tx.old.conn.now) (state S.Store tx.new.conn.now) result }
{
    execute(
        tx,
        "INSERT INTO adoption VALUES (?1, ?2, ?3)",
        &adoption_values(row),
    )
}

/// Drops the conclusion for a package.
pub(crate) fn drop_conclusion<S: Alter>(
    tx: &mut Transaction<'_, S>,
    document: u32,
    package_id: &Text,
) -> Result<(), Fault>
    ensures same_reference { tx.new.conn.ghost_name ≡ tx.old.conn.ghost_name }
    ensures drops { Turns rows_of (λ t. rows_of (record t {
      conclusion = filter (λ row. not (is_conclusion document package_id.now row)) t.conclusion;
    })) 0 (state S.Store tx.old.conn.now) (state S.Store tx.new.conn.now) result }
{
    execute(
        tx,
        "DELETE FROM conclusion WHERE document = ?1 AND package = ?2",
        &[number(document), text(package_id)],
    )
}

/// Drops the licence of a reference.
pub(crate) fn drop_adoption<S: Alter>(
    tx: &mut Transaction<'_, S>,
    document: u32,
    reference: &Text,
) -> Result<(), Fault>
    ensures same_reference { tx.new.conn.ghost_name ≡ tx.old.conn.ghost_name }
    ensures drops { Turns rows_of (λ t. rows_of (record t {
      adoption = filter (λ row. not (is_adoption document reference.now row)) t.adoption;
    })) 0 (state S.Store tx.old.conn.now) (state S.Store tx.new.conn.now) result }
{
    execute(
        tx,
        "DELETE FROM adoption WHERE document = ?1 AND reference = ?2",
        &[number(document), text(reference)],
    )
}
