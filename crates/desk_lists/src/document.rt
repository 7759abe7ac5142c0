//! The list of documents.

ghost use Rattle.std.specs.Prelude.{◌≡◌, ℕ, List, Option, find, count_by, option_map, IfOk, refl};
ghost use Rattle.std.specs.List.{AllZip};
ghost use Rattle.desk_base.specs.declared.profile.Profile.{Profile};
ghost use Rattle.desk_expr.specs.Tree.{Tree};
ghost use Rattle.desk_snapshot.specs.Rows.{is_reading_of};
ghost use Rattle.desk_lists.specs.Documents.{AreReadings, IsDocumentLine, is_package_of, is_shipped_by, package_of_side, package_of_splits};

use crate::lines::DocumentLine;
use crate::said::said_in;
use desk_base::Profile;
use desk_snapshot::{ByDocument, Snapshot, StoredDocument, StoredPackage, profile_at};
use desk_sorted::Sought;
use std::alloc::{AllocError, Global};
use std::cmp::Ordering;

/// The packages of a document.
#[derive(Clone, Copy)]
struct Within {
    document: i64,
}

impl Sought<StoredPackage> for Within {
    ghost side = { λ key. package_of_side key.document };

    ghost is_at = { λ key. is_package_of key.document };

    ghost splits = { λ key. package_of_splits key.document };

    ghost meets = { λ key row. refl };

    fn side_of(&self, row: &StoredPackage) -> Ordering {
        row.document.cmp(&self.document)
    }
}

// How many of these packages are a document's.
fn count_within(rows: &[StoredPackage], document: i64) -> u64
    ensures { result ≡ count_by (is_package_of document) rows.now }
{
    rows.iter().filter(|row| row.document == document).count() as u64
}

// How many of these packages a document ships.
fn count_shipped(rows: &[StoredPackage], document: i64) -> u64
    ensures { result ≡ count_by (is_shipped_by document) rows.now }
{
    rows.iter()
        .filter(|row| row.document == document && row.shipped == 1)
        .count() as u64
}

// How many packages a document has, and how many of these it ships.
fn package_counts(snapshot: &Snapshot, document: i64) -> (u64, u64)
    ensures all { result.0 ≡ count_by (is_package_of document) snapshot.now.packages }
    ensures shipped { result.1 ≡ count_by (is_shipped_by document) snapshot.now.packages }
{
    let rows = snapshot.packages.among(&Within { document });
    (count_within(rows, document), count_shipped(rows, document))
}

// The number of the profile that a document is read by.
fn profile_of(snapshot: &Snapshot, document: i64) -> Option<i64>
    ensures { result ≡ option_map (λ row. row.profile)
        (find (is_reading_of document) snapshot.now.reading) }
{
    match snapshot.reading.find(&ByDocument { document }) {
        Some(reading) => Some(reading.profile),
        None => None,
    }
}

// The line of a document.
fn document_line(
    alloc: Global,
    snapshot: &Snapshot,
    row: &StoredDocument,
) -> Result<DocumentLine, AllocError>
    ensures { (reads : Profile → List ℕ → Option Tree) → AreReadings reads
        → IfOk result (IsDocumentLine reads snapshot.now row.now) }
{
    let number = row.number;
    let (packages, shipped) = package_counts(snapshot, number);
    let profile = profile_of(snapshot, number);
    let namespace = row.namespace.clone()?;
    let said = said_in(alloc, row.bytes.as_slice(), profile_at(snapshot, number))?;
    Ok(DocumentLine {
        number,
        name: said.name,
        namespace,
        packages,
        shipped,
        findings: said.findings,
        profile,
    })
}

/// The documents by number. What a document says is read again from its bytes, one document at a
/// time.
pub fn documents(alloc: Global, snapshot: &Snapshot) -> Result<Vec<DocumentLine>, AllocError>
    ensures { (reads : Profile → List ℕ → Option Tree) → AreReadings reads
        → IfOk result (λ lines. AllZip (IsDocumentLine reads snapshot.now) snapshot.now.document
        lines.items) }
{
    let mut lines = Vec::new(alloc);
    for row in snapshot.document.as_slice() {
        lines.push(document_line(alloc, snapshot, row)?)?;
    }
    Ok(lines)
}
