//! What the office concluded and adopted.

ghost use Rattle.std.specs.Prelude.{◌≡◌, filter, map};
ghost use Rattle.desk_model.specs.Conclusions.{licence_for, office_text};
ghost use Rattle.desk_model.specs.Keys.{is_adoption, is_adoption_in, is_conclusion};
ghost use Rattle.desk_sql_layout.specs.Shown.{is_conclusion_in};
ghost use Rattle.desk_sql_lookup.specs.LookUps.{LooksUp};

use desk_base::Text;
use desk_model::{ConclusionRow, Fault};
use desk_sql_layout::query::{read_one, read_rows, text};
use desk_sql_layout::values::number;
use sqlite::{Alter, Connection};
use std::alloc::Global;

/// What the office concluded for a package of a document.
pub fn conclusion<S: Alter>(
    alloc: Global,
    conn: &mut Connection<S>,
    document: u32,
    id: &str,
) -> Result<Option<Text>, Fault>
    ensures { LooksUp S.Store conn.old conn.new result (λ found t.
        found ≡ office_text t.conclusion document id.now) }
{
    read_one(
        alloc,
        conn,
        "SELECT expression FROM conclusion WHERE document = ?1 AND package = ?2 ORDER BY document, package",
        &[number(document), text(id)],
    )
}

/// What the office concluded for the packages of a document, by their ids.
pub fn conclusions_in<S: Alter>(
    alloc: Global,
    conn: &mut Connection<S>,
    document: u32,
) -> Result<Vec<ConclusionRow>, Fault>
    ensures { LooksUp S.Store conn.old conn.new result (λ found t.
        found.items ≡ filter (is_conclusion_in document) t.conclusion) }
{
    read_rows(
        alloc,
        conn,
        "SELECT document, package, expression FROM conclusion WHERE document = ?1 ORDER BY document, package",
        &[number(document)],
    )
}

/// The licence that a reference of a document is adopted as.
pub fn adoption<S: Alter>(
    alloc: Global,
    conn: &mut Connection<S>,
    document: u32,
    reference: &str,
) -> Result<Option<Text>, Fault>
    ensures { LooksUp S.Store conn.old conn.new result (λ found t.
        found ≡ licence_for t.adoption document reference.now) }
{
    read_one(
        alloc,
        conn,
        "SELECT licence FROM adoption WHERE document = ?1 AND reference = ?2 ORDER BY document, reference",
        &[number(document), text(reference)],
    )
}

/// The references of a document that are adopted, by their bytes.
pub fn adopted_references<S: Alter>(
    alloc: Global,
    conn: &mut Connection<S>,
    document: u32,
) -> Result<Vec<Text>, Fault>
    ensures { LooksUp S.Store conn.old conn.new result (λ found t.
        found.items ≡ map (λ row. row.reference) (filter (is_adoption_in document) t.adoption)) }
{
    read_rows(
        alloc,
        conn,
        "SELECT reference FROM adoption WHERE document = ?1 ORDER BY document, reference",
        &[number(document)],
    )
}
