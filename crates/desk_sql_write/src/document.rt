//! Documents, and what they define.

ghost use Rattle.std.specs.Prelude.{◌≡◌, ◌∷◌, []};
ghost use Rattle.sqlite.specs.Held.{state};
ghost use Rattle.sqlite.specs.Values.{bound};
ghost use Rattle.desk_sql_layout.specs.Cells.{document_cells, reading_cells, package_cells, extracted_cells};
ghost use Rattle.desk_sql_layout.specs.Layout.{document_table, reading_table, package_table, extracted_table};
ghost use Rattle.desk_sql_write.specs.Turning.{Adds, with_rows};

use crate::adding::Added;
use crate::statement::execute;
use desk_model::{DocumentRow, ExtractedRow, Fault, PackageRow};
use desk_sql_layout::values::{flag, number, profile, text, text_or_null};
use sqlite::{Alter, Transaction};
use sqlite_value::value::ValueRef;
use std::alloc::Global;

fn document_values<'a>(row: &'a DocumentRow) -> [ValueRef<'a>; 3]
    ensures { bound result ≡ document_cells row.now }
{
    [
        number(row.number),
        text(&row.namespace),
        ValueRef::Blob(row.bytes.as_slice()),
    ]
}

/// Adds a document.
pub(crate) fn add_document<S: Alter>(
    tx: &mut Transaction<'_, S>,
    row: &DocumentRow,
) -> Result<(), Fault>
    ensures same_reference { tx.new.conn.ghost_name ≡ tx.old.conn.ghost_name }
    ensures adds { Adds (with_rows document_table.tree (document_cells row.now ∷ [])) 1
        (state S.Store tx.old.conn.now) (state S.Store tx.new.conn.now) result }
{
    execute(
        tx,
        "INSERT INTO document VALUES (?1, ?2, ?3)",
        &document_values(row),
    )
}

fn reading_values<'a>(row: &'a DocumentRow) -> [ValueRef<'a>; 2]
    ensures { bound result ≡ reading_cells row.now }
{
    [number(row.number), profile(row.profile)]
}

/// Adds the profile of a document.
pub(crate) fn add_reading<S: Alter>(
    tx: &mut Transaction<'_, S>,
    row: &DocumentRow,
) -> Result<(), Fault>
    ensures same_reference { tx.new.conn.ghost_name ≡ tx.old.conn.ghost_name }
    ensures adds { Adds (with_rows reading_table.tree (reading_cells row.now ∷ [])) 1
        (state S.Store tx.old.conn.now) (state S.Store tx.new.conn.now) result }
{
    execute(
        tx,
        "INSERT INTO reading VALUES (?1, ?2)",
        &reading_values(row),
    )
}

fn package_values<'a>(row: &'a PackageRow) -> [ValueRef<'a>; 7]
    ensures { bound result ≡ package_cells row.now }
{
    [
        number(row.document),
        text(&row.id),
        text(&row.name),
        text_or_null(&row.version),
        text_or_null(&row.concluded),
        text_or_null(&row.copyright),
        flag(row.shipped),
    ]
}

impl Added for PackageRow {
    ghost tree = { package_table.tree };

    ghost rows = { λ row. package_cells row ∷ [] };

    fn add<S: Alter>(&self, _alloc: Global, tx: &mut Transaction<'_, S>) -> Result<(), Fault> {
        execute(
            tx,
            "INSERT INTO package VALUES (?1, ?2, ?3, ?4, ?5, ?6, ?7)",
            &package_values(self),
        )
    }
}

fn reference_values<'a>(row: &'a ExtractedRow) -> [ValueRef<'a>; 3]
    ensures { bound result ≡ extracted_cells row.now }
{
    [
        number(row.document),
        text(&row.reference),
        text_or_null(&row.body),
    ]
}

impl Added for ExtractedRow {
    ghost tree = { extracted_table.tree };

    ghost rows = { λ row. extracted_cells row ∷ [] };

    fn add<S: Alter>(&self, _alloc: Global, tx: &mut Transaction<'_, S>) -> Result<(), Fault> {
        execute(
            tx,
            "INSERT INTO extracted VALUES (?1, ?2, ?3)",
            &reference_values(self),
        )
    }
}
