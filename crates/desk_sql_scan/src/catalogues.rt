//! The version of the tables, and the revisions of the catalogue with their rules.

ghost use Rattle.std.specs.Prelude.{◌≡◌, pos, false, [], ◌∷◌, map};
ghost use Rattle.desk_history.specs.Laws.{AreSortedAsListed};
ghost use Rattle.desk_sql_layout.specs.Layout.{meta_table, catalogue_table, rule_table};
ghost use Rattle.desk_snapshot.specs.Tables.{catalogue_stored, rule_stored};
ghost use Rattle.desk_sql_scan.specs.Cells.{stored_meta_cells, stored_catalogue_cells, stored_rule_cells};
ghost use Rattle.desk_sql_scan.specs.Orders.{meta_order, catalogue_order, rule_order};
ghost use Rattle.desk_sql_scan.specs.Parts.{HasCatalogues, OfCatalogues};
ghost use Rattle.desk_sql_scan.specs.Scanning.{Scans};
ghost use Rattle.desk_sql_scan.specs.Scans.{IsScan};

use crate::columns::number_at;
use crate::scan::{Stored, items};
use crate::source::Source;
use desk_base::Items;
use desk_model::Fault;
use desk_snapshot::{StoredCatalogue, StoredMeta, StoredRule};
use desk_sql_layout::columns::text_at;
use sqlite::Row;
use std::alloc::Global;

impl Stored for StoredMeta {
    ghost width = { 1 };

    ghost cells = { stored_meta_cells };

    fn read(_alloc: Global, row: &Row) -> Result<StoredMeta, Fault> {
        Ok(StoredMeta {
            version: number_at(row, 0)?,
        })
    }
}

/// The version of the tables.
fn meta_rows<R: Source>(alloc: Global, source: &mut R) -> Result<Items<StoredMeta>, Fault>
    requires { R.is_ready source.old }
    ensures { Scans R.Source source.old source.new result
        (IsScan meta_table stored_meta_cells meta_order)
        (λ rows t. rows ≡ record { version = pos 3 } ∷ []) }
{
    items(alloc, source, "SELECT version FROM meta ORDER BY version")
}

impl Stored for StoredCatalogue {
    ghost width = { 2 };

    ghost cells = { stored_catalogue_cells };

    fn read(alloc: Global, row: &Row) -> Result<StoredCatalogue, Fault> {
        Ok(StoredCatalogue {
            revision: number_at(row, 0)?,
            body: text_at(alloc, row, 1)?,
        })
    }
}

/// All revisions of the catalogue, by number.
fn catalogue_rows<R: Source>(alloc: Global, source: &mut R) -> Result<Items<StoredCatalogue>, Fault>
    requires { R.is_ready source.old }
    ensures { Scans R.Source source.old source.new result
        (IsScan catalogue_table stored_catalogue_cells catalogue_order)
        (λ rows t. rows ≡ map catalogue_stored t.catalogue) }
{
    items(
        alloc,
        source,
        "SELECT revision, body FROM catalogue ORDER BY revision",
    )
}

impl Stored for StoredRule {
    ghost width = { 5 };

    ghost cells = { stored_rule_cells };

    fn read(alloc: Global, row: &Row) -> Result<StoredRule, Fault> {
        Ok(StoredRule {
            revision: number_at(row, 0)?,
            term: text_at(alloc, row, 1)?,
            form: text_at(alloc, row, 2)?,
            spelled: text_at(alloc, row, 3)?,
            codes: text_at(alloc, row, 4)?,
        })
    }
}

/// All rules, by revision, term and form.
fn rule_rows<R: Source>(alloc: Global, source: &mut R) -> Result<Items<StoredRule>, Fault>
    requires { R.is_ready source.old }
    ensures { Scans R.Source source.old source.new result
        (IsScan rule_table stored_rule_cells rule_order)
        (λ rows t. AreSortedAsListed t → rows ≡ map rule_stored t.rule) }
{
    items(
        alloc,
        source,
        "SELECT revision, term, form, spelled, codes FROM rule ORDER BY +revision, term, form",
    )
}

/// The version of the tables, and the revisions of the catalogue with their rules.
#[derive(Drop)]
pub(crate) struct CataloguePart {
    pub(crate) meta: Items<StoredMeta>,
    pub(crate) catalogue: Items<StoredCatalogue>,
    pub(crate) rule: Items<StoredRule>,
}

/// The version of the tables, and the revisions of the catalogue with their rules.
pub(crate) fn catalogues<R: Source>(alloc: Global, source: &mut R) -> Result<CataloguePart, Fault>
    requires { R.is_ready source.old }
    ensures { Scans R.Source source.old source.new result HasCatalogues OfCatalogues }
{
    Ok(CataloguePart {
        meta: meta_rows(alloc, source)?,
        catalogue: catalogue_rows(alloc, source)?,
        rule: rule_rows(alloc, source)?,
    })
}
