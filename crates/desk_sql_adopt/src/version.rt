//! The version that a database gives for its tables.

ghost use Rattle.std.specs.Prelude.{◌≡◌, ◌≢◌, ℤ, pos, codes, true, false, Some, None, IfErr, IfOk, IsTrue};
ghost use Rattle.std.specs.List.{list_any};
ghost use Rattle.sqlite_value.specs.Order.{column};
ghost use Rattle.sqlite_schema.specs.Names.{same_name};
ghost use Rattle.sqlite.specs.Held.{state};
ghost use Rattle.sqlite.specs.State.{HasCleanDisk};
ghost use Rattle.desk_access.specs.Seen.{OfRows};
ghost use Rattle.desk_sql_layout.specs.Held.{seen_of};
ghost use Rattle.desk_sql_layout.specs.Causes.{HasCause};
ghost use Rattle.desk_sql_adopt.specs.Reading.{HasRead};
ghost use Rattle.desk_sql_adopt.specs.Version.{IsContent, ShowsVersion, TellsVersion, has_version, is_meta, version_in, whole_number};
ghost use Rattle.desk_model.specs.declared.command.StoreFault.TheVariants.{Rows};

use crate::declared::has_desk;
use crate::query::query;
use desk_model::Fault;
use sqlite::{Alter, Connection, Row};
use sqlite_schema::names::same_name;
use sqlite_schema::schema::{Column, Schema, Table};
use sqlite_value::value::ValueRef;

/// The version of the tables that a desk has.
const VERSION: i64 = 3;

/// What a database holds.
#[derive(Clone, Copy, Drop, PartialEq, Eq)]
pub enum Content {
    /// The tables of a desk, which give no other version.
    Desk,
    /// A table `meta` that gives another version.
    OtherVersion(i64),
    /// Something else.
    Other,
}

fn has_version_column(columns: &[Column]) -> bool
    ensures { result ≡ list_any (λ column. same_name column.name (codes "version")) columns.now }
{
    columns.iter().any(|column| same_name(column.name.as_slice(), "version".as_bytes()))
}

/// Whether a table is `meta`, with the column `version`.
fn is_meta(table: &Table) -> bool
    ensures { result ≡ is_meta table.now }
{
    same_name(table.name.as_slice(), "meta".as_bytes())
        && has_version_column(table.columns.as_slice())
}

/// Whether there is a table `meta` with the column `version`.
pub(crate) fn has_version(schema: &Schema) -> bool
    ensures { result ≡ has_version schema.now }
{
    schema.tables.as_slice().iter().any(|table| is_meta(table))
}

fn whole_number(row: &Row) -> Option<i64>
    ensures { result ≡ whole_number (column row.now 0) }
{
    match row.get_ref(0) {
        Ok(ValueRef::Int(number)) => Some(number),
        _ => None,
    }
}

/// The whole number in the only row. None if there are more rows, or there is another value.
fn version_in(rows: &[Row]) -> Option<i64>
    ensures { result ≡ version_in rows.now }
{
    match rows {
        [row] => whole_number(row),
        _ => None,
    }
}

/// The version that the table `meta` gives: the whole number in its only row.
pub(crate) fn version<S: Alter>(conn: &mut Connection<S>) -> Result<Option<i64>, Fault>
    requires { conn.old.in_transaction ≡ false }
    ensures told { HasCleanDisk (state S.Store conn.new)
        → IfOk result (λ version. TellsVersion version (state S.Store conn.old)) }
    ensures shown { HasCleanDisk (state S.Store conn.new)
        → IfOk result (λ version. ShowsVersion version (state S.Store conn.old)
        (state S.Store conn.new)) }
    ensures held { IfOk result (λ version. OfRows (λ t.
        version ≡ Some (pos 3)) (seen_of (state S.Store conn.old))
        (seen_of (state S.Store conn.new))) }
    ensures read { HasRead (state S.Store conn.old) (state S.Store conn.new) result }
    ensures cause { IfErr result (HasCause (state S.Store conn.old) (state S.Store conn.new)) }
    ensures refused { IfErr result (λ fault. fault ≢ Fault.Store Rows) }
    ensures mode { conn.new.in_transaction ≡ false }
{
    let rows = query(conn, "SELECT version FROM meta", &[])?;
    Ok(version_in(&rows))
}

/// What a database is taken for, by its version and by whether its schema has a desk's tables.
fn content_by(version: Option<i64>, has_desk: bool) -> Content
    ensures desk { version ≡ Some (pos 3) → has_desk ≡ true → result ≡ Content.Desk }
    ensures undeclared { version ≡ Some (pos 3) → has_desk ≡ false → result ≡ Content.Other }
    ensures unnamed { version ≡ None → has_desk ≡ true → result ≡ Content.Desk }
    ensures none { version ≡ None → has_desk ≡ false → result ≡ Content.Other }
    ensures other { (n : ℤ) → version ≡ Some n → n ≢ pos 3 → result ≡ Content.OtherVersion n }
{
    match version {
        Some(VERSION) | None if has_desk => Content::Desk,
        Some(VERSION) | None => Content::Other,
        Some(version) => Content::OtherVersion(version),
    }
}

/// What a database holds, by the version that it gives and by its schema. It is only read.
///
/// A database that has a desk's tables, and whose table `meta` gives no other version, is a desk,
/// whatever else it has: an audit says whether `meta` has just one row. A table that is missing or
/// declared differently makes it `Other`.
pub fn examine<S: Alter>(conn: &mut Connection<S>) -> Result<Content, Fault>
    requires { conn.old.in_transaction ≡ false }
    ensures found { HasCleanDisk (state S.Store conn.new)
        → IfOk result (IsContent (state S.Store conn.old)) }
    ensures held { IfOk result (λ content. IsTrue (state S.Store conn.old).is_open → OfRows (λ t.
        content ≡ Content.Desk) (seen_of (state S.Store conn.old))
        (seen_of (state S.Store conn.new))) }
    ensures read { HasRead (state S.Store conn.old) (state S.Store conn.new) result }
    ensures cause { IfErr result (HasCause (state S.Store conn.old) (state S.Store conn.new)) }
    ensures refused { IfErr result (λ fault. fault ≢ Fault.Store Rows) }
    ensures mode { conn.new.in_transaction ≡ false }
{
    let schema = conn.schema();
    if !has_version(schema) {
        return Ok(Content::Other);
    }
    let has_desk = has_desk(schema);
    Ok(content_by(version(conn)?, has_desk))
}
