//! Releases with their documents, and their chosen and frozen terms.

ghost use Rattle.std.specs.Prelude.{◌≡◌, map};
ghost use Rattle.desk_sql_layout.specs.Layout.{releases_table, attached_table, choice_table, frozen_table};
ghost use Rattle.desk_snapshot.specs.Orders.{release_order, attached_order, choice_order, frozen_order};
ghost use Rattle.desk_snapshot.specs.Tables.{release_stored, attached_stored, choice_stored, frozen_stored};
ghost use Rattle.desk_sql_scan.specs.Cells.{stored_release_cells, stored_attached_cells, stored_choice_cells, stored_frozen_cells};
ghost use Rattle.desk_sql_scan.specs.Parts.{HasReleases, OfReleases};
ghost use Rattle.desk_sql_scan.specs.Scanning.{Scans};
ghost use Rattle.desk_sql_scan.specs.Scans.{IsScan};

use crate::columns::number_at;
use crate::scan::{Stored, list};
use crate::source::Source;
use desk_model::Fault;
use desk_snapshot::{Listed, StoredAttached, StoredChoice, StoredFrozen, StoredRelease};
use desk_sql_layout::columns::text_at;
use sqlite::Row;
use std::alloc::Global;

impl Stored for StoredRelease {
    ghost width = { 5 };

    ghost cells = { stored_release_cells };

    fn read(alloc: Global, row: &Row) -> Result<StoredRelease, Fault> {
        Ok(StoredRelease {
            name: text_at(alloc, row, 0)?,
            place: number_at(row, 1)?,
            form: text_at(alloc, row, 2)?,
            state: text_at(alloc, row, 3)?,
            revision: number_at(row, 4)?,
        })
    }
}

/// All releases, by name.
fn release_rows<R: Source>(alloc: Global, source: &mut R) -> Result<Listed<StoredRelease>, Fault>
    requires { R.is_ready source.old }
    ensures { Scans R.Source source.old source.new result
        (IsScan releases_table stored_release_cells release_order)
        (λ rows t. rows ≡ map release_stored t.releases) }
{
    list(
        alloc,
        source,
        "SELECT name, place, form, state, revision FROM releases ORDER BY +name",
    )
}

impl Stored for StoredAttached {
    ghost width = { 2 };

    ghost cells = { stored_attached_cells };

    fn read(alloc: Global, row: &Row) -> Result<StoredAttached, Fault> {
        Ok(StoredAttached {
            release: text_at(alloc, row, 0)?,
            document: number_at(row, 1)?,
        })
    }
}

/// All attached documents, by release and number.
fn attached_rows<R: Source>(alloc: Global, source: &mut R) -> Result<Listed<StoredAttached>, Fault>
    requires { R.is_ready source.old }
    ensures { Scans R.Source source.old source.new result
        (IsScan attached_table stored_attached_cells attached_order)
        (λ rows t. rows ≡ map attached_stored t.attached) }
{
    list(
        alloc,
        source,
        "SELECT release, document FROM attached ORDER BY +release, document",
    )
}

impl Stored for StoredChoice {
    ghost width = { 4 };

    ghost cells = { stored_choice_cells };

    fn read(alloc: Global, row: &Row) -> Result<StoredChoice, Fault> {
        Ok(StoredChoice {
            release: text_at(alloc, row, 0)?,
            document: number_at(row, 1)?,
            package_id: text_at(alloc, row, 2)?,
            term: text_at(alloc, row, 3)?,
        })
    }
}

/// All chosen terms, by release, document, package and term.
fn choice_rows<R: Source>(alloc: Global, source: &mut R) -> Result<Listed<StoredChoice>, Fault>
    requires { R.is_ready source.old }
    ensures { Scans R.Source source.old source.new result
        (IsScan choice_table stored_choice_cells choice_order)
        (λ rows t. rows ≡ map choice_stored t.choice) }
{
    list(
        alloc,
        source,
        "SELECT release, document, package, term FROM choice ORDER BY +release, document, package, term",
    )
}

impl Stored for StoredFrozen {
    ghost width = { 5 };

    ghost cells = { stored_frozen_cells };

    fn read(alloc: Global, row: &Row) -> Result<StoredFrozen, Fault> {
        Ok(StoredFrozen {
            release: text_at(alloc, row, 0)?,
            document: number_at(row, 1)?,
            package_id: text_at(alloc, row, 2)?,
            term: text_at(alloc, row, 3)?,
            rule: text_at(alloc, row, 4)?,
        })
    }
}

/// All frozen terms, by release, document, package and term.
fn frozen_rows<R: Source>(alloc: Global, source: &mut R) -> Result<Listed<StoredFrozen>, Fault>
    requires { R.is_ready source.old }
    ensures { Scans R.Source source.old source.new result
        (IsScan frozen_table stored_frozen_cells frozen_order)
        (λ rows t. rows ≡ map frozen_stored t.frozen) }
{
    list(
        alloc,
        source,
        "SELECT release, document, package, term, rule FROM frozen ORDER BY +release, document, package, term",
    )
}

/// Releases with their documents, and their chosen and frozen terms.
#[derive(Drop)]
pub(crate) struct ReleasePart {
    pub(crate) releases: Listed<StoredRelease>,
    pub(crate) attached: Listed<StoredAttached>,
    pub(crate) choice: Listed<StoredChoice>,
    pub(crate) frozen: Listed<StoredFrozen>,
}

/// Releases with their documents, and their chosen and frozen terms.
pub(crate) fn releases<R: Source>(alloc: Global, source: &mut R) -> Result<ReleasePart, Fault>
    requires { R.is_ready source.old }
    ensures { Scans R.Source source.old source.new result HasReleases OfReleases }
{
    Ok(ReleasePart {
        releases: release_rows(alloc, source)?,
        attached: attached_rows(alloc, source)?,
        choice: choice_rows(alloc, source)?,
        frozen: frozen_rows(alloc, source)?,
    })
}
