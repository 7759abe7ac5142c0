//! All rows of a desk's tables.

ghost use Rattle.std.specs.Prelude.{◌≡◌, false, IfErr, IfOk};
ghost use Rattle.sqlite.specs.Held.{state};
ghost use Rattle.sqlite.specs.State.{HasCleanDisk};
ghost use Rattle.desk_access.specs.Seen.{OfRows};
ghost use Rattle.desk_sql_layout.specs.Causes.{HasCause};
ghost use Rattle.desk_sql_adopt.specs.Reading.{HasRead};
ghost use Rattle.desk_sql_layout.specs.Held.{seen_of};
ghost use Rattle.desk_sql_layout.specs.Desk.{HasDesk};
ghost use Rattle.desk_sql_scan.specs.Asked.{HasAsked};
ghost use Rattle.desk_sql_scan.specs.Causes.{ScanFailsFor};
ghost use Rattle.desk_sql_scan.specs.Parts.{AreRowsOf, HasCatalogues, HasDocuments, HasDuties, HasOffice, HasReleases, OfCatalogues, OfDocuments, OfDuties, OfOffice, OfReleases, joined_of};
ghost use Rattle.desk_sql_scan.specs.Scanning.{Scans};
ghost use Rattle.desk_sql_scan.specs.Scans.{IsRead, IsSnapshot};

use crate::catalogues::{CataloguePart, catalogues};
use crate::documents::{DocumentPart, documents};
use crate::duties::{DutyPart, duties};
use crate::office::{OfficePart, office};
use crate::releases::{ReleasePart, releases};
use crate::source::Source;
use desk_model::Fault;
use desk_snapshot::Snapshot;
use sqlite::{Alter, Connection, Transaction};
use std::alloc::Global;

/// The documents, whose bytes are the largest cells, and the duties with their changes, which are
/// most of a desk's rows. All cells of a table stay in memory until they are read, so these tables
/// come first, while little else is in memory.
#[derive(Drop)]
struct FirstPart {
    documents: DocumentPart,
    duties: DutyPart,
}

/// The catalogue, what the office decided about documents, and the releases.
#[derive(Drop)]
struct SecondPart {
    catalogues: CataloguePart,
    office: OfficePart,
    releases: ReleasePart,
}

/// Reads the tables of the first part.
fn first_part<R: Source>(alloc: Global, source: &mut R) -> Result<FirstPart, Fault>
    requires { R.is_ready source.old }
    ensures { Scans R.Source source.old source.new result
        (λ part db. HasDocuments part.documents db × HasDuties part.duties db)
        (λ part t. OfDocuments part.documents t × OfDuties part.duties t) }
{
    Ok(FirstPart {
        documents: documents(alloc, source)?,
        duties: duties(alloc, source)?,
    })
}

/// Reads the tables of the second part.
fn second_part<R: Source>(alloc: Global, source: &mut R) -> Result<SecondPart, Fault>
    requires { R.is_ready source.old }
    ensures { Scans R.Source source.old source.new result
        (λ part db. HasCatalogues part.catalogues db
        × (HasOffice part.office db × HasReleases part.releases db))
        (λ part t. OfCatalogues part.catalogues t
        × (OfOffice part.office t × OfReleases part.releases t)) }
{
    Ok(SecondPart {
        catalogues: catalogues(alloc, source)?,
        office: office(alloc, source)?,
        releases: releases(alloc, source)?,
    })
}

/// The snapshot of both parts.
fn join(first: FirstPart, second: SecondPart) -> Snapshot
    ensures { result ≡ joined_of first second }
{
    let FirstPart { documents, duties } = first;
    let SecondPart {
        catalogues,
        office,
        releases,
    } = second;
    Snapshot {
        meta: catalogues.meta,
        catalogue: catalogues.catalogue,
        rule: catalogues.rule,
        document: documents.document,
        reading: documents.reading,
        packages: documents.packages,
        extracted: documents.extracted,
        conclusion: office.conclusion,
        adoption: office.adoption,
        releases: releases.releases,
        attached: releases.attached,
        choice: releases.choice,
        frozen: releases.frozen,
        duty: duties.duty,
        changes: duties.changes,
        waiver: duties.waiver,
    }
}

/// All rows of a desk's tables.
fn read_whole<R: Source>(alloc: Global, source: &mut R) -> Result<Snapshot, Fault>
    requires { R.is_ready source.old }
    ensures { Scans R.Source source.old source.new result IsSnapshot
        AreRowsOf }
{
    let first = first_part(alloc, source)?;
    let second = second_part(alloc, source)?;
    Ok(join(first, second))
}

/// Reads all rows of a desk's tables, each table in the order of its key.
///
/// If the connection shows a database that has a desk's tables, whatever their rows, the snapshot
/// has them (`raw`); if they are a desk's rows, the snapshot is theirs (`found`). The fault is that
/// no memory was left, that the database failed, or that a cell has a value that its column never
/// has in a desk.
pub fn snapshot<S: Alter>(alloc: Global, conn: &mut Connection<S>) -> Result<Snapshot, Fault>
    requires { conn.old.in_transaction ≡ false }
    ensures raw { HasCleanDisk (state S.Store conn.new)
        → HasDesk (state S.Store conn.old).now.schema
        → IfOk result (λ s. IsSnapshot s (state S.Store conn.old).now) }
    ensures found { IfOk result (λ s. OfRows (AreRowsOf s)
        (seen_of (state S.Store conn.old)) (seen_of (state S.Store conn.new))) }
    ensures read { HasRead (state S.Store conn.old) (state S.Store conn.new) result }
    ensures cause { IfErr result (HasCause (state S.Store conn.old) (state S.Store conn.new)) }
    ensures mode { conn.new.in_transaction ≡ false }
{
    let _settled = conn.is_autocommit();
    read_whole(alloc, conn)
}

/// Reads all rows of a desk's tables that a transaction shows, as `snapshot` does.
///
/// The transaction stays open. After a fault it may be undone.
pub fn snapshot_inside<S: Alter>(
    alloc: Global,
    tx: &mut Transaction<'_, S>,
) -> Result<Snapshot, Fault>
    ensures ok { IfOk result
        (λ s. IsRead (IsSnapshot s) (AreRowsOf s)
        (state S.Store tx.old.conn.now) (state S.Store tx.new.conn.now)) }
    ensures asked { HasAsked (state S.Store tx.old.conn.now) (state S.Store tx.new.conn.now)
        result }
    ensures cause { IfErr result (ScanFailsFor (state S.Store tx.old.conn.now)
        (state S.Store tx.new.conn.now)) }
    ensures same_reference { tx.new.conn.ghost_name ≡ tx.old.conn.ghost_name }
{
    read_whole(alloc, tx)
}
