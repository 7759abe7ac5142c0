//! All documents, without their bytes.

ghost use Rattle.std.specs.Prelude.{◌≡◌, IfErr, IfOk, List, map};
ghost use Rattle.std.specs.List.{AllByRecursion};
ghost use Rattle.desk_sql_layout.specs.Cells.{reading_cells};
ghost use Rattle.desk_model.specs.Queries.{head_of};
ghost use Rattle.desk_model.specs.declared.row.DocumentRow.{DocumentRow as Document};
ghost use Rattle.desk_sql_layout.specs.Shown.{name_cells};
ghost use Rattle.desk_sql_layout.specs.Causes.{IsRow};
ghost use Rattle.desk_sql_lookup.specs.LookUps.{LooksUp};

use desk_model::{DocumentHead, Fault};
use desk_sql_layout::columns::{ROWS, number_at, profile_at, text_at};
use desk_sql_layout::query::query;
use sqlite::{Alter, Connection, Row};
use std::alloc::Global;

fn select_names<S: Alter>(conn: &mut Connection<S>) -> Result<Vec<Row>, Fault>
    ensures { LooksUp S.Store conn.old conn.new result (λ rows t.
        rows.items ≡ map name_cells t.document) }
{
    query(
        conn,
        "SELECT number, namespace FROM document ORDER BY number",
        &[],
    )
}

fn select_readings<S: Alter>(conn: &mut Connection<S>) -> Result<Vec<Row>, Fault>
    ensures { LooksUp S.Store conn.old conn.new result (λ rows t.
        rows.items ≡ map reading_cells t.document) }
{
    query(
        conn,
        "SELECT document, profile FROM reading ORDER BY document",
        &[],
    )
}

type RowsOfTwo = (Vec<Row>, Vec<Row>);

/// The rows of all documents, and of their profiles.
fn select_both<S: Alter>(conn: &mut Connection<S>) -> Result<RowsOfTwo, Fault>
    ensures { LooksUp S.Store conn.old conn.new result (λ both t.
        (both.0.items ≡ map name_cells t.document)
        × (both.1.items ≡ map reading_cells t.document)) }
{
    let names = select_names(conn)?;
    let readings = select_readings(conn)?;
    Ok((names, readings))
}

/// A document, from its rows in two tables.
fn read_head(alloc: Global, name: &Row, reading: &Row) -> Result<DocumentHead, Fault>
    ensures value { IfOk result (λ head. (x : Document) → name.now ≡ name_cells x
        → reading.now ≡ reading_cells x → head ≡ head_of x) }
    ensures cause { IfErr result (λ fault. (x : Document) → name.now ≡ name_cells x
        → reading.now ≡ reading_cells x → IsRow name.now → IsRow reading.now
        → fault ≡ Fault.Memory) }
{
    Ok(DocumentHead {
        number: number_at(name, 0)?,
        namespace: text_at(alloc, name, 1)?,
        profile: profile_at(reading, 1)?,
    })
}

/// Documents, from their rows in two tables.
fn read_heads(alloc: Global, names: &[Row], readings: &[Row]) -> Result<Vec<DocumentHead>, Fault>
    ensures value { IfOk result (λ heads. (xs : List Document) → names.now ≡ map name_cells xs
        → readings.now ≡ map reading_cells xs → heads.items ≡ map head_of xs) }
    ensures cause { IfErr result (λ fault. (xs : List Document) → names.now ≡ map name_cells xs
        → readings.now ≡ map reading_cells xs → AllByRecursion IsRow names.now
        → AllByRecursion IsRow readings.now → fault ≡ Fault.Memory) }
{
    let mut heads = Vec::new(alloc);
    for (i, name) in names.iter().enumerate() {
        let Some(reading) = readings.get(i) else {
            return Err(ROWS);
        };
        heads.push(read_head(alloc, name, reading)?)?;
    }
    Ok(heads)
}

/// All documents by number, without their bytes.
pub fn document_heads<S: Alter>(
    alloc: Global,
    conn: &mut Connection<S>,
) -> Result<Vec<DocumentHead>, Fault>
    ensures { LooksUp S.Store conn.old conn.new result (λ found t.
        found.items ≡ map head_of t.document) }
{
    let (names, readings) = select_both(conn)?;
    read_heads(alloc, &names, &readings)
}
