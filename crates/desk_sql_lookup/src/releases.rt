//! Releases, what is attached to them, and what is chosen and frozen for their packages.

ghost use Rattle.std.specs.Prelude.{◌≡◌, ◌==◌, filter, map, length};
ghost use Rattle.std.specs.List.{list_any};
ghost use Rattle.std.specs.Str.{bytes_eq};
ghost use Rattle.desk_history.specs.FromTables.{release_found};
ghost use Rattle.desk_sql_layout.specs.Cells.{attached_cells, release_cells};
ghost use Rattle.desk_model.specs.History.{attached_to};
ghost use Rattle.desk_model.specs.Keys.{is_attachment, is_choice_of, is_release};
ghost use Rattle.desk_sql_layout.specs.Shown.{text_cells};
ghost use Rattle.desk_sql_lookup.specs.LookUps.{LooksUp};

use desk_base::Text;
use desk_model::{AttachedRow, Fault, FrozenRow, ReleaseRow};
use desk_sql_layout::query::{query, read_one, read_rows, text};
use desk_sql_layout::values::number;
use sqlite::{Alter, Connection, Row};
use std::alloc::Global;

/// The release with a name.
pub fn release<S: Alter>(
    alloc: Global,
    conn: &mut Connection<S>,
    name: &str,
) -> Result<Option<ReleaseRow>, Fault>
    ensures { LooksUp S.Store conn.old conn.new result (λ found t.
        found ≡ release_found t name.now) }
{
    read_one(
        alloc,
        conn,
        "SELECT name, place, form, state, revision FROM releases WHERE name = ?1 ORDER BY name",
        &[text(name)],
    )
}

/// All releases, by name.
pub fn release_rows<S: Alter>(
    alloc: Global,
    conn: &mut Connection<S>,
) -> Result<Vec<ReleaseRow>, Fault>
    ensures { LooksUp S.Store conn.old conn.new result (λ found t. found.items ≡ t.releases) }
{
    read_rows(
        alloc,
        conn,
        "SELECT name, place, form, state, revision FROM releases ORDER BY name",
        &[],
    )
}

/// The documents attached to a release, by number.
pub fn attached<S: Alter>(
    alloc: Global,
    conn: &mut Connection<S>,
    release: &str,
) -> Result<Vec<AttachedRow>, Fault>
    ensures { LooksUp S.Store conn.old conn.new result (λ found t.
        found.items ≡ attached_to t.attached release.now) }
{
    read_rows(
        alloc,
        conn,
        "SELECT release, document FROM attached WHERE release = ?1 ORDER BY release, document",
        &[text(release)],
    )
}

/// Whether a document is among those attached to a release.
fn is_among(rows: &[AttachedRow], document: u64) -> bool
    ensures { result ≡ list_any (λ row. row.document == document) rows.now }
{
    rows.iter().any(|row| u64::from(row.document) == document)
}

/// Whether a document is attached to a release.
pub fn is_attached<S: Alter>(
    alloc: Global,
    conn: &mut Connection<S>,
    release: &str,
    document: u64,
) -> Result<bool, Fault>
    ensures { LooksUp S.Store conn.old conn.new result (λ found t.
        found ≡ list_any (is_attachment release.now document) t.attached) }
{
    let rows = attached(alloc, conn, release)?;
    Ok(is_among(&rows, document))
}

fn select_attached_count<S: Alter>(
    conn: &mut Connection<S>,
    release: &str,
) -> Result<Vec<Row>, Fault>
    ensures { LooksUp S.Store conn.old conn.new result (λ rows t.
        length rows.items ≡ length (attached_to t.attached release.now)) }
{
    query(
        conn,
        "SELECT document FROM attached WHERE release = ?1",
        &[text(release)],
    )
}

/// How many documents are attached to a release.
pub fn attached_count<S: Alter>(conn: &mut Connection<S>, release: &str) -> Result<u64, Fault>
    ensures { LooksUp S.Store conn.old conn.new result (λ found t.
        found ≡ length (attached_to t.attached release.now)) }
{
    let rows = select_attached_count(conn, release)?;
    Ok(rows.len() as u64)
}

/// The terms chosen for a package in a release, in order.
pub fn chosen<S: Alter>(
    alloc: Global,
    conn: &mut Connection<S>,
    release: &str,
    document: u32,
    id: &str,
) -> Result<Vec<Text>, Fault>
    ensures { LooksUp S.Store conn.old conn.new result (λ found t.
        found.items ≡ map (λ row. row.term)
        (filter (is_choice_of release.now document id.now) t.choice)) }
{
    read_rows(
        alloc,
        conn,
        "SELECT term FROM choice WHERE release = ?1 AND document = ?2 AND package = ?3 ORDER BY release, document, package, term",
        &[text(release), number(document), text(id)],
    )
}

/// The terms with which a release was frozen, by document and package, each with its rule.
pub fn frozen<S: Alter>(
    alloc: Global,
    conn: &mut Connection<S>,
    release: &str,
) -> Result<Vec<FrozenRow>, Fault>
    ensures { LooksUp S.Store conn.old conn.new result (λ found t.
        found.items ≡ filter (λ row. bytes_eq row.release release.now) t.frozen) }
{
    read_rows(
        alloc,
        conn,
        "SELECT release, document, package, term, rule FROM frozen WHERE release = ?1 ORDER BY release, document, package, term",
        &[text(release)],
    )
}
