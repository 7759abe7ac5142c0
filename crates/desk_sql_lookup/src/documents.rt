//! Documents and their packages.

ghost use Rattle.std.specs.Prelude.{◌≡◌, IfErr, IfOk, IfSome, List, Option, filter, find, map, length, slice_get};
ghost use Rattle.std.specs.List.{AllByRecursion};
ghost use Rattle.std.specs.Option.{option_map};
ghost use Rattle.desk_history.specs.FromTables.{known_document, known_import};
ghost use Rattle.desk_sql_layout.specs.Cells.{package_cells};
ghost use Rattle.desk_model.specs.Findings.{source_of};
ghost use Rattle.desk_model.specs.Keys.{has_namespace, is_document, is_package, is_shipped_by};
ghost use Rattle.desk_model.specs.declared.row.DocumentRow.{DocumentRow as Document};
ghost use Rattle.desk_sql_layout.specs.Shown.{bytes_cells, import_cells, known_cells};
ghost use Rattle.desk_sql_layout.specs.Causes.{IsRow};
ghost use Rattle.desk_sql_lookup.specs.LookUps.{LooksUp, LooksUpIf};

use desk_base::{Items, Profile};
use desk_model::{Fault, PackageRow};
use desk_sql_layout::columns::{ROWS, number_at};
use desk_sql_layout::query::{among, query, read_one, read_rows, text};
use desk_sql_layout::values::{flag, number};
use sqlite::{Alter, Connection, Row};
use sqlite_value::value::ValueRef;
use std::alloc::Global;

/// What is known of a document, if it has this number.
fn with_number(found: Option<(u32, Profile)>, number: u64) -> Result<Option<(u32, Profile)>, Fault>
    ensures kept { IfOk result (λ kept. kept ≡ found) }
    ensures same { IfOk result (λ kept. IfSome kept (λ known. known.0 ≡ number)) }
    ensures cause { IfErr result (λ _. ¬ IfSome found (λ known. known.0 ≡ number)) }
{
    match found {
        Some(known) if u64::from(known.0) != number => Err(ROWS),
        found => Ok(found),
    }
}

/// A document by its number, if there are this many documents: the number and its profile.
pub fn document<S: Alter>(
    alloc: Global,
    conn: &mut Connection<S>,
    documents: u32,
    number: u64,
) -> Result<Option<(u32, Profile)>, Fault>
    ensures looks { LooksUpIf S.Store (λ t. length t.document ≡ documents) conn.old conn.new
        result (λ found t.
        found ≡ option_map known_document (find (is_document number) t.document)) }
    ensures same { IfOk result (λ found. IfSome found (λ known. known.0 ≡ number)) }
{
    let found = read_one(
        alloc,
        conn,
        "SELECT document, profile FROM reading WHERE document = ?1 ORDER BY document",
        &[among(number, documents)],
    )?;
    with_number(found, number)
}

/// The bytes of a document, if there are this many documents.
fn document_bytes<S: Alter>(
    alloc: Global,
    conn: &mut Connection<S>,
    documents: u32,
    number: u64,
) -> Result<Option<Items<u8>>, Fault>
    ensures { LooksUpIf S.Store (λ t. length t.document ≡ documents) conn.old conn.new
        result (λ found t.
        found ≡ option_map (λ row. row.bytes) (find (is_document number) t.document)) }
{
    read_one(
        alloc,
        conn,
        "SELECT bytes FROM document WHERE number = ?1 ORDER BY number",
        &[among(number, documents)],
    )
}

/// The source of a document, from its bytes and what else is known of it.
fn source_from(
    bytes: Option<Items<u8>>,
    known: Option<(u32, Profile)>,
) -> Option<(Items<u8>, Profile)>
    ensures { (x : Option Document) → bytes ≡ option_map (λ row. row.bytes) x
        → known ≡ option_map known_document x → result ≡ option_map source_of x }
{
    match (bytes, known) {
        (Some(bytes), Some((_, profile))) => Some((bytes, profile)),
        _ => None,
    }
}

/// The bytes of a document and its profile, if there are this many documents.
pub fn document_source<S: Alter>(
    alloc: Global,
    conn: &mut Connection<S>,
    documents: u32,
    number: u64,
) -> Result<Option<(Items<u8>, Profile)>, Fault>
    ensures { LooksUpIf S.Store (λ t. length t.document ≡ documents) conn.old conn.new
        result (λ found t. found ≡ option_map source_of (find (is_document number) t.document)) }
{
    let known = document(alloc, conn, documents, number)?;
    let bytes = document_bytes(alloc, conn, documents, number)?;
    Ok(source_from(bytes, known))
}

fn select_import<S: Alter>(conn: &mut Connection<S>, namespace: &str) -> Result<Vec<Row>, Fault>
    ensures { LooksUp S.Store conn.old conn.new result (λ rows t.
        rows.items ≡ map import_cells (filter (has_namespace namespace.now) t.document)) }
{
    query(
        conn,
        "SELECT number, bytes FROM document WHERE namespace = ?1 ORDER BY namespace",
        &[text(namespace)],
    )
}

/// The number of a document, and whether its bytes are these.
fn read_import(row: &Row, bytes: &[u8]) -> Result<(u32, bool), Fault>
    ensures value { IfOk result (λ found. (x : Document) → row.now ≡ import_cells x
        → found ≡ known_import bytes.now x) }
    ensures cause { IfErr result (λ fault. (x : Document) → row.now ≡ import_cells x
        → IsRow row.now → fault ≡ Fault.Memory) }
{
    match row.get_ref(1) {
        Ok(ValueRef::Blob(blob)) => Ok((number_at(row, 0)?, blob == bytes)),
        _ => Err(ROWS),
    }
}

fn first_import(rows: &[Row], bytes: &[u8]) -> Result<Option<(u32, bool)>, Fault>
    ensures value { IfOk result (λ found. (xs : List Document) → rows.now ≡ map import_cells xs
        → found ≡ option_map (known_import bytes.now) (slice_get xs 0)) }
    ensures cause { IfErr result (λ fault. (xs : List Document) → rows.now ≡ map import_cells xs
        → AllByRecursion IsRow rows.now → fault ≡ Fault.Memory) }
{
    match rows.first() {
        Some(row) => Ok(Some(read_import(row, bytes)?)),
        None => Ok(None),
    }
}

/// The document with a namespace: its number, and whether its bytes are these.
pub fn import_of<S: Alter>(
    conn: &mut Connection<S>,
    namespace: &str,
    bytes: &[u8],
) -> Result<Option<(u32, bool)>, Fault>
    ensures { LooksUp S.Store conn.old conn.new result (λ found t. found
        ≡ option_map (known_import bytes.now) (find (has_namespace namespace.now) t.document)) }
{
    let rows = select_import(conn, namespace)?;
    first_import(&rows, bytes)
}

/// A package of a document, if there are this many documents.
pub fn package_row<S: Alter>(
    alloc: Global,
    conn: &mut Connection<S>,
    documents: u32,
    document: u64,
    id: &str,
) -> Result<Option<PackageRow>, Fault>
    ensures { LooksUpIf S.Store (λ t. length t.document ≡ documents) conn.old conn.new
        result (λ found t. found ≡ find (is_package document id.now) t.packages) }
{
    read_one(
        alloc,
        conn,
        "SELECT document, id, name, version, concluded, copyright, shipped FROM package WHERE document = ?1 AND id = ?2 ORDER BY document, id",
        &[among(document, documents), text(id)],
    )
}

/// The shipped packages of a document, by id.
pub fn shipped<S: Alter>(
    alloc: Global,
    conn: &mut Connection<S>,
    document: u32,
) -> Result<Vec<PackageRow>, Fault>
    ensures { LooksUp S.Store conn.old conn.new result (λ found t.
        found.items ≡ filter (is_shipped_by document) t.packages) }
{
    read_rows(
        alloc,
        conn,
        "SELECT document, id, name, version, concluded, copyright, shipped FROM package WHERE document = ?1 AND shipped = ?2 ORDER BY document, id",
        &[number(document), flag(true)],
    )
}
