//! The texts of catalogues, and those that documents give for references.

ghost use Rattle.std.specs.Prelude.{◌≡◌, IfErr, IfOk, List, filter, map, length, slice_get};
ghost use Rattle.std.specs.List.{AllByRecursion};
ghost use Rattle.std.specs.Option.{option_and_then};
ghost use Rattle.desk_model.specs.Bills.{extracted_text, revision_text};
ghost use Rattle.desk_model.specs.Keys.{is_extracted, is_revision};
ghost use Rattle.desk_model.specs.declared.row.ExtractedRow.{ExtractedRow as Extracted};
ghost use Rattle.desk_sql_layout.specs.Shown.{extracted_body_cells};
ghost use Rattle.desk_sql_layout.specs.Causes.{IsRow};
ghost use Rattle.desk_sql_lookup.specs.LookUps.{LooksUp};

use desk_base::Text;
use desk_model::Fault;
use desk_sql_layout::columns::text_or_null_at;
use desk_sql_layout::query::{among, query, read_rows, text};
use desk_sql_layout::values::number;
use sqlite::{Alter, Connection, Row};
use std::alloc::Global;

/// The text of each revision with a number: there is one, or none.
fn catalogue_texts<S: Alter>(
    alloc: Global,
    conn: &mut Connection<S>,
    revisions: u32,
    n: u64,
) -> Result<Vec<Text>, Fault>
    ensures { LooksUp S.Store conn.old conn.new result (λ found t.
        length t.catalogue ≡ revisions → found.items
        ≡ map (λ row. row.body) (filter (is_revision n) t.catalogue)) }
{
    read_rows(
        alloc,
        conn,
        "SELECT body FROM catalogue WHERE revision = ?1 ORDER BY revision",
        &[among(n, revisions)],
    )
}

fn first_of(texts: Vec<Text>) -> Option<Text>
    ensures { result ≡ slice_get texts.items 0 }
{
    texts.into_iter().next()
}

/// The text of a revision of the catalogue, if there are this many revisions.
#[tactic(auto, using(desk_sql_layout::proofs::Loops::first_mapped))]
pub fn catalogue_text<S: Alter>(
    alloc: Global,
    conn: &mut Connection<S>,
    revisions: u32,
    revision: u64,
) -> Result<Option<Text>, Fault>
    ensures { LooksUp S.Store conn.old conn.new result (λ found t.
        length t.catalogue ≡ revisions → found ≡ revision_text t.catalogue revision) }
{
    let texts = catalogue_texts(alloc, conn, revisions, revision)?;
    Ok(first_of(texts))
}

fn select_extracted<S: Alter>(
    conn: &mut Connection<S>,
    document: u32,
    reference: &str,
) -> Result<Vec<Row>, Fault>
    ensures { LooksUp S.Store conn.old conn.new result (λ rows t.
        rows.items ≡ map extracted_body_cells
        (filter (is_extracted document reference.now) t.extracted)) }
{
    query(
        conn,
        "SELECT body FROM extracted WHERE document = ?1 AND reference = ?2 ORDER BY document, reference",
        &[number(document), text(reference)],
    )
}

/// The text of the first reference, if there is a reference and it has a text.
fn first_body(alloc: Global, rows: &[Row]) -> Result<Option<Text>, Fault>
    ensures value { IfOk result (λ found. (xs : List Extracted)
        → rows.now ≡ map extracted_body_cells xs
        → found ≡ option_and_then (λ row. row.body) (slice_get xs 0)) }
    ensures cause { IfErr result (λ fault. (xs : List Extracted)
        → rows.now ≡ map extracted_body_cells xs → AllByRecursion IsRow rows.now
        → fault ≡ Fault.Memory) }
{
    match rows.first() {
        Some(row) => text_or_null_at(alloc, row, 0),
        None => Ok(None),
    }
}

/// The text that a document gives for a reference.
pub fn extracted_text<S: Alter>(
    alloc: Global,
    conn: &mut Connection<S>,
    document: u32,
    reference: &str,
) -> Result<Option<Text>, Fault>
    ensures { LooksUp S.Store conn.old conn.new result (λ found t.
        found ≡ extracted_text t.extracted document reference.now) }
{
    let rows = select_extracted(conn, document, reference)?;
    first_body(alloc, &rows)
}
