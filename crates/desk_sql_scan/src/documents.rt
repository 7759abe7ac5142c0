//! Documents with their profiles, packages and extracted licences.

ghost use Rattle.std.specs.Prelude.{◌≡◌, map};
ghost use Rattle.desk_history.specs.Laws.{AreSortedAsListed};
ghost use Rattle.desk_sql_layout.specs.Layout.{document_table, reading_table, package_table, extracted_table};
ghost use Rattle.desk_snapshot.specs.Orders.{reading_order, package_order};
ghost use Rattle.desk_snapshot.specs.Tables.{document_stored, reading_stored, package_stored, extracted_stored};
ghost use Rattle.desk_sql_scan.specs.Cells.{stored_document_cells, stored_reading_cells, stored_package_cells, stored_extracted_cells};
ghost use Rattle.desk_sql_scan.specs.Orders.{document_order, extracted_order};
ghost use Rattle.desk_sql_scan.specs.Parts.{HasDocuments, OfDocuments};
ghost use Rattle.desk_sql_scan.specs.Scanning.{Scans};
ghost use Rattle.desk_sql_scan.specs.Scans.{IsScan};

use crate::columns::number_at;
use crate::scan::{Stored, items, list};
use crate::source::Source;
use desk_base::Items;
use desk_model::Fault;
use desk_snapshot::{Listed, StoredDocument, StoredExtracted, StoredPackage, StoredReading};
use desk_sql_layout::columns::{bytes_at, text_at, text_or_null_at};
use sqlite::Row;
use std::alloc::Global;

impl Stored for StoredDocument {
    ghost width = { 3 };

    ghost cells = { stored_document_cells };

    fn read(alloc: Global, row: &Row) -> Result<StoredDocument, Fault> {
        Ok(StoredDocument {
            number: number_at(row, 0)?,
            namespace: text_at(alloc, row, 1)?,
            bytes: bytes_at(alloc, row, 2)?,
        })
    }
}

/// All documents, by number.
fn document_rows<R: Source>(alloc: Global, source: &mut R) -> Result<Items<StoredDocument>, Fault>
    requires { R.is_ready source.old }
    ensures { Scans R.Source source.old source.new result
        (IsScan document_table stored_document_cells document_order)
        (λ rows t. rows ≡ map document_stored t.document) }
{
    items(
        alloc,
        source,
        "SELECT number, namespace, bytes FROM document ORDER BY number",
    )
}

impl Stored for StoredReading {
    ghost width = { 2 };

    ghost cells = { stored_reading_cells };

    fn read(_alloc: Global, row: &Row) -> Result<StoredReading, Fault> {
        Ok(StoredReading {
            document: number_at(row, 0)?,
            profile: number_at(row, 1)?,
        })
    }
}

/// The profiles of all documents, by number.
fn reading_rows<R: Source>(alloc: Global, source: &mut R) -> Result<Listed<StoredReading>, Fault>
    requires { R.is_ready source.old }
    ensures { Scans R.Source source.old source.new result
        (IsScan reading_table stored_reading_cells reading_order)
        (λ rows t. rows ≡ map reading_stored t.document) }
{
    list(
        alloc,
        source,
        "SELECT document, profile FROM reading ORDER BY document",
    )
}

impl Stored for StoredPackage {
    ghost width = { 7 };

    ghost cells = { stored_package_cells };

    fn read(alloc: Global, row: &Row) -> Result<StoredPackage, Fault> {
        Ok(StoredPackage {
            document: number_at(row, 0)?,
            id: text_at(alloc, row, 1)?,
            name: text_at(alloc, row, 2)?,
            version: text_or_null_at(alloc, row, 3)?,
            concluded: text_or_null_at(alloc, row, 4)?,
            copyright: text_or_null_at(alloc, row, 5)?,
            shipped: number_at(row, 6)?,
        })
    }
}

/// All packages, by document and id.
fn package_rows<R: Source>(alloc: Global, source: &mut R) -> Result<Listed<StoredPackage>, Fault>
    requires { R.is_ready source.old }
    ensures { Scans R.Source source.old source.new result
        (IsScan package_table stored_package_cells package_order)
        (λ rows t. rows ≡ map package_stored t.packages) }
{
    list(
        alloc,
        source,
        "SELECT document, id, name, version, concluded, copyright, shipped FROM package ORDER BY +document, id",
    )
}

impl Stored for StoredExtracted {
    ghost width = { 3 };

    ghost cells = { stored_extracted_cells };

    fn read(alloc: Global, row: &Row) -> Result<StoredExtracted, Fault> {
        Ok(StoredExtracted {
            document: number_at(row, 0)?,
            reference: text_at(alloc, row, 1)?,
            body: text_or_null_at(alloc, row, 2)?,
        })
    }
}

/// All extracted licences, by document and reference.
fn extracted_rows<R: Source>(alloc: Global, source: &mut R) -> Result<Items<StoredExtracted>, Fault>
    requires { R.is_ready source.old }
    ensures { Scans R.Source source.old source.new result
        (IsScan extracted_table stored_extracted_cells extracted_order)
        (λ rows t. AreSortedAsListed t → rows ≡ map extracted_stored t.extracted) }
{
    items(
        alloc,
        source,
        "SELECT document, reference, body FROM extracted ORDER BY +document, reference",
    )
}

/// Documents with their profiles, packages and extracted licences.
#[derive(Drop)]
pub(crate) struct DocumentPart {
    pub(crate) document: Items<StoredDocument>,
    pub(crate) reading: Listed<StoredReading>,
    pub(crate) packages: Listed<StoredPackage>,
    pub(crate) extracted: Items<StoredExtracted>,
}

/// Documents with their profiles, packages and extracted licences.
pub(crate) fn documents<R: Source>(alloc: Global, source: &mut R) -> Result<DocumentPart, Fault>
    requires { R.is_ready source.old }
    ensures { Scans R.Source source.old source.new result HasDocuments OfDocuments }
{
    Ok(DocumentPart {
        document: document_rows(alloc, source)?,
        reading: reading_rows(alloc, source)?,
        packages: package_rows(alloc, source)?,
        extracted: extracted_rows(alloc, source)?,
    })
}
