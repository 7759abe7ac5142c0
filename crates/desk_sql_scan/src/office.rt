//! What the office concluded and adopted.

ghost use Rattle.std.specs.Prelude.{◌≡◌, map};
ghost use Rattle.desk_sql_layout.specs.Layout.{conclusion_table, adoption_table};
ghost use Rattle.desk_snapshot.specs.Orders.{conclusion_order};
ghost use Rattle.desk_snapshot.specs.Tables.{conclusion_stored, adoption_stored};
ghost use Rattle.desk_sql_scan.specs.Cells.{stored_conclusion_cells, stored_adoption_cells};
ghost use Rattle.desk_sql_scan.specs.Orders.{adoption_order};
ghost use Rattle.desk_sql_scan.specs.Parts.{HasOffice, OfOffice};
ghost use Rattle.desk_sql_scan.specs.Scanning.{Scans};
ghost use Rattle.desk_sql_scan.specs.Scans.{IsScan};

use crate::columns::number_at;
use crate::scan::{Stored, items, list};
use crate::source::Source;
use desk_base::Items;
use desk_model::Fault;
use desk_snapshot::{Listed, StoredAdoption, StoredConclusion};
use desk_sql_layout::columns::text_at;
use sqlite::Row;
use std::alloc::Global;

impl Stored for StoredConclusion {
    ghost width = { 3 };

    ghost cells = { stored_conclusion_cells };

    fn read(alloc: Global, row: &Row) -> Result<StoredConclusion, Fault> {
        Ok(StoredConclusion {
            document: number_at(row, 0)?,
            package_id: text_at(alloc, row, 1)?,
            expression: text_at(alloc, row, 2)?,
        })
    }
}

/// All conclusions, by document and package.
fn conclusion_rows<R: Source>(
    alloc: Global,
    source: &mut R,
) -> Result<Listed<StoredConclusion>, Fault>
    requires { R.is_ready source.old }
    ensures { Scans R.Source source.old source.new result
        (IsScan conclusion_table stored_conclusion_cells conclusion_order)
        (λ rows t. rows ≡ map conclusion_stored t.conclusion) }
{
    list(
        alloc,
        source,
        "SELECT document, package, expression FROM conclusion ORDER BY +document, package",
    )
}

impl Stored for StoredAdoption {
    ghost width = { 3 };

    ghost cells = { stored_adoption_cells };

    fn read(alloc: Global, row: &Row) -> Result<StoredAdoption, Fault> {
        Ok(StoredAdoption {
            document: number_at(row, 0)?,
            reference: text_at(alloc, row, 1)?,
            licence: text_at(alloc, row, 2)?,
        })
    }
}

/// All adoptions, by document and reference.
fn adoption_rows<R: Source>(alloc: Global, source: &mut R) -> Result<Items<StoredAdoption>, Fault>
    requires { R.is_ready source.old }
    ensures { Scans R.Source source.old source.new result
        (IsScan adoption_table stored_adoption_cells adoption_order)
        (λ rows t. rows ≡ map adoption_stored t.adoption) }
{
    items(
        alloc,
        source,
        "SELECT document, reference, licence FROM adoption ORDER BY +document, reference",
    )
}

/// What the office concluded and adopted.
#[derive(Drop)]
pub(crate) struct OfficePart {
    pub(crate) conclusion: Listed<StoredConclusion>,
    pub(crate) adoption: Items<StoredAdoption>,
}

/// What the office concluded and adopted.
pub(crate) fn office<R: Source>(alloc: Global, source: &mut R) -> Result<OfficePart, Fault>
    requires { R.is_ready source.old }
    ensures { Scans R.Source source.old source.new result HasOffice OfOffice }
{
    Ok(OfficePart {
        conclusion: conclusion_rows(alloc, source)?,
        adoption: adoption_rows(alloc, source)?,
    })
}
