//! Databases of older versions.

ghost use Rattle.std.specs.Prelude.{◌≡◌, ◌≢◌, ℤ, pos, true, false, Some, None, IfErr, IfOk, IsTrue};
ghost use Rattle.std.specs.Bool.{Decides};
ghost use Rattle.sqlite.specs.Held.{state};
ghost use Rattle.sqlite.specs.State.{HasCleanDisk};
ghost use Rattle.desk_model.specs.Tables.{Tables};
ghost use Rattle.desk_sql_layout.specs.Causes.{HasCause};
ghost use Rattle.desk_sql_adopt.specs.Older.{HasOlder, HoldsOlder, IsOlderContent, declares, version_number};
ghost use Rattle.desk_sql_adopt.specs.Reading.{HasRead};
ghost use Rattle.desk_model.specs.declared.command.StoreFault.TheVariants.{Rows};

use crate::declared::{has_tables, have_no_references};
use crate::forms::TABLES;
use crate::version::{has_version, version};
use desk_model::Fault;
use sqlite::{Alter, Connection};
use sqlite_schema::schema::Schema;

/// An older version of a desk's tables.
#[derive(Clone, Copy, Drop, PartialEq, Eq)]
pub enum OlderVersion {
    /// Version 1: neither profiles of documents nor last days of waivers.
    One,
    /// Version 2: no last days of waivers.
    Two,
}

impl OlderVersion {
    /// Its number, which the table `meta` has.
    pub fn number(self) -> u32
        ensures { result ≡ version_number self }
    {
        match self {
            OlderVersion::One => 1,
            OlderVersion::Two => 2,
        }
    }
}

/// What a database is to a migration.
#[derive(Clone, Copy, Drop, PartialEq, Eq)]
pub enum OlderContent {
    /// The tables of an older version.
    Older(OlderVersion),
    /// A table `meta` that gives no single version.
    Untold,
    /// A table `meta` that gives another version.
    OtherVersion(i64),
    /// Something else, or not the tables of the older version that `meta` gives.
    Other,
}

/// Whether a schema has the tables of version 1, whatever else it has.
fn has_first(schema: &Schema) -> bool
    ensures { Decides result (HasOlder OlderVersion.One schema.now) }
{
    has_tables(schema, &TABLES[..14]) && have_no_references(schema.tables.as_slice())
}

/// Whether a schema has the tables of version 2, whatever else it has.
fn has_second(schema: &Schema) -> bool
    ensures { Decides result (HasOlder OlderVersion.Two schema.now) }
{
    has_tables(schema, &TABLES[..15]) && have_no_references(schema.tables.as_slice())
}

/// The older version with a number.
fn older_version(number: i64) -> Option<OlderVersion>
    ensures one { number ≡ pos 1 → result ≡ Some (OlderVersion.One) }
    ensures two { number ≡ pos 2 → result ≡ Some (OlderVersion.Two) }
    ensures none { number ≢ pos 1 → number ≢ pos 2 → result ≡ None }
{
    match number {
        1 => Some(OlderVersion::One),
        2 => Some(OlderVersion::Two),
        _ => None,
    }
}

/// What a database is, by the version that it gives and by whether it has the tables of version 1
/// and those of version 2.
fn content_by(told: Option<i64>, first: bool, second: bool) -> OlderContent
    ensures untold { told ≡ None → result ≡ OlderContent.Untold }
    ensures older { (version : OlderVersion) → told ≡ Some (pos (version_number version))
        → declares first second version ≡ true → result ≡ OlderContent.Older version }
    ensures bare { (version : OlderVersion) → told ≡ Some (pos (version_number version))
        → declares first second version ≡ false → result ≡ OlderContent.Other }
    ensures other { (n : ℤ) → told ≡ Some n → n ≢ pos 1 → n ≢ pos 2
        → result ≡ OlderContent.OtherVersion n }
{
    let Some(number) = told else {
        return OlderContent::Untold;
    };
    match older_version(number) {
        Some(OlderVersion::One) if first => OlderContent::Older(OlderVersion::One),
        Some(OlderVersion::Two) if second => OlderContent::Older(OlderVersion::Two),
        Some(_) => OlderContent::Other,
        None => OlderContent::OtherVersion(number),
    }
}

/// What a database is to a migration, by the version that it gives and by its schema, whatever it
/// has besides the tables of that version. It is only read.
pub fn examine_older<S: Alter>(conn: &mut Connection<S>) -> Result<OlderContent, Fault>
    requires { conn.old.in_transaction ≡ false }
    ensures found { HasCleanDisk (state S.Store conn.new)
        → IfOk result (IsOlderContent (state S.Store conn.old)) }
    ensures held { HasCleanDisk (state S.Store conn.new) → IsTrue (state S.Store conn.old).is_open
        → IfOk result (λ content. (version : OlderVersion) (t : Tables)
        → HoldsOlder version t (state S.Store conn.old).now
        → content ≡ OlderContent.Older version) }
    ensures read { HasRead (state S.Store conn.old) (state S.Store conn.new) result }
    ensures cause { IfErr result (HasCause (state S.Store conn.old) (state S.Store conn.new)) }
    ensures refused { IfErr result (λ fault. fault ≢ Fault.Store Rows) }
    ensures mode { conn.new.in_transaction ≡ false }
{
    let schema = conn.schema();
    if !has_version(schema) {
        return Ok(OlderContent::Other);
    }
    let first = has_first(schema);
    let second = has_second(schema);
    let told = version(conn)?;
    Ok(content_by(told, first, second))
}
