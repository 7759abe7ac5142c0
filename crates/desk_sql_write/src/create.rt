//! Creates the desk's tables in a database that has none.

ghost use Rattle.std.specs.Prelude.{◌≡◌, ◌≢◌, ◌<◌, ℕ, List, length, map, slice_get, None, Some, false, true, IsTrue, IfErr, OnOk, OnErr, Err};
ghost use Rattle.sqlite.specs.Held.{state};
ghost use Rattle.sqlite.specs.State.{HasCleanDisk, Survives};
ghost use Rattle.desk_sql_layout.specs.Layout.{no_schema};
ghost use Rattle.desk_sql_layout.specs.Held.{Stands};
ghost use Rattle.desk_sql_write.specs.Creating.{Created, CreateFails, Founded, FoundFails, HasFounded, LeavesTables, has_meta, no_tables};
ghost use Rattle.desk_sql_write.specs.Written.{Undone};
ghost use Rattle.desk_sql_write.specs.Declaring.{DeclareFails, HasDeclared};
ghost use Rattle.desk_sql_write.specs.Taking.{IsCaused};
ghost use Rattle.desk_model.specs.declared.command.Fault.{Fault};

use crate::statement::execute;
use desk_model::{Fault, StoreFault};
use desk_sql_layout::fault::fault_of;
use sqlite::{Alter, Connection, Transaction};
use sqlite_schema::names::same_name;
use sqlite_schema::schema::Schema;

/// The statement that declares the profiles of documents.
pub const READING_TABLE: &str =
    "CREATE TABLE reading (document INTEGER NOT NULL PRIMARY KEY, profile INTEGER NOT NULL) STRICT";

/// The statement that declares the last days of waivers.
pub const WAIVER_TABLE: &str =
    "CREATE TABLE waiver (duty INTEGER NOT NULL, step INTEGER NOT NULL, last_day TEXT NOT NULL, PRIMARY KEY (duty, step)) STRICT";

/// The statements that declare the tables.
const TABLES: [&str; 16] = [
    "CREATE TABLE meta (version INTEGER NOT NULL PRIMARY KEY) STRICT",
    "CREATE TABLE catalogue (revision INTEGER NOT NULL PRIMARY KEY, body TEXT NOT NULL) STRICT",
    "CREATE TABLE rule (revision INTEGER NOT NULL, term TEXT NOT NULL, form TEXT NOT NULL, spelled TEXT NOT NULL, codes TEXT NOT NULL, PRIMARY KEY (revision, term, form)) STRICT",
    "CREATE TABLE document (number INTEGER NOT NULL PRIMARY KEY, namespace TEXT NOT NULL UNIQUE, bytes BLOB NOT NULL) STRICT",
    "CREATE TABLE package (document INTEGER NOT NULL, id TEXT NOT NULL, name TEXT NOT NULL, version TEXT, concluded TEXT, copyright TEXT, shipped INTEGER NOT NULL, PRIMARY KEY (document, id)) STRICT",
    "CREATE TABLE extracted (document INTEGER NOT NULL, reference TEXT NOT NULL, body TEXT, PRIMARY KEY (document, reference)) STRICT",
    "CREATE TABLE conclusion (document INTEGER NOT NULL, package TEXT NOT NULL, expression TEXT NOT NULL, PRIMARY KEY (document, package)) STRICT",
    "CREATE TABLE adoption (document INTEGER NOT NULL, reference TEXT NOT NULL, licence TEXT NOT NULL, PRIMARY KEY (document, reference)) STRICT",
    "CREATE TABLE releases (name TEXT NOT NULL, place INTEGER NOT NULL UNIQUE, form TEXT NOT NULL, state TEXT NOT NULL, revision INTEGER NOT NULL, PRIMARY KEY (name)) STRICT",
    "CREATE TABLE attached (release TEXT NOT NULL, document INTEGER NOT NULL, PRIMARY KEY (release, document)) STRICT",
    "CREATE TABLE choice (release TEXT NOT NULL, document INTEGER NOT NULL, package TEXT NOT NULL, term TEXT NOT NULL, PRIMARY KEY (release, document, package, term)) STRICT",
    "CREATE TABLE frozen (release TEXT NOT NULL, document INTEGER NOT NULL, package TEXT NOT NULL, term TEXT NOT NULL, rule TEXT NOT NULL, PRIMARY KEY (release, document, package, term)) STRICT",
    "CREATE TABLE duty (number INTEGER NOT NULL PRIMARY KEY, release TEXT NOT NULL, document INTEGER NOT NULL, package TEXT NOT NULL, term TEXT NOT NULL, code TEXT NOT NULL, rule TEXT NOT NULL, state TEXT NOT NULL, UNIQUE (release, document, package, term, code)) STRICT",
    "CREATE TABLE change (duty INTEGER NOT NULL, step INTEGER NOT NULL, day TEXT NOT NULL, word TEXT NOT NULL, body TEXT NOT NULL, PRIMARY KEY (duty, step)) STRICT",
    READING_TABLE,
    WAIVER_TABLE,
];

/// Why no tables were created.
#[derive(Clone, Copy, Drop, PartialEq, Eq)]
pub enum Refused {
    /// The database has a table `meta`.
    NotEmpty,
    /// No memory was left, or the database refused, as it does if it has other tables.
    Fault(Fault),
}

fn text_at<'t>(texts: &[&'t str], place: usize) -> &'t str
    requires { place < length texts.now }
    ensures { slice_get (map (λ text. text.now) texts.now) place ≡ Some result.now }
{
    texts[place]
}

/// Declares tables, one after another.
fn declare<S: Alter>(tx: &mut Transaction<'_, S>, texts: &[&str]) -> Result<(), Fault>
    ensures same_reference { tx.new.conn.ghost_name ≡ tx.old.conn.ghost_name }
    ensures declared { HasDeclared (map (λ text. text.now) texts.now)
        (state S.Store tx.old.conn.now)
        (state S.Store tx.new.conn.now) result }
    ensures cause { IfErr result (DeclareFails (map (λ text. text.now) texts.now)
        (state S.Store tx.old.conn.now) (state S.Store tx.new.conn.now)) }
    ensures survives { Survives (state S.Store tx.old.conn.now) (state S.Store tx.new.conn.now)
        (λ _. ⊥) }
{
    for place in 0..texts.len() {
        execute(tx, text_at(texts, place), &[])?;
    }
    Ok(())
}

/// Declares all tables, and records their version.
fn declare_tables<S: Alter>(tx: &mut Transaction<'_, S>) -> Result<(), Fault>
    ensures same_reference { tx.new.conn.ghost_name ≡ tx.old.conn.ghost_name }
    ensures founded { HasFounded (state S.Store tx.old.conn.now) (state S.Store tx.new.conn.now)
        result }
    ensures cause { IfErr result (FoundFails (state S.Store tx.old.conn.now)
        (state S.Store tx.new.conn.now)) }
    ensures survives { Survives (state S.Store tx.old.conn.now) (state S.Store tx.new.conn.now)
        (λ _. ⊥) }
{
    declare(tx, &TABLES)?;
    execute(tx, "INSERT INTO meta VALUES (3)", &[])
}

/// Creates the tables in one transaction.
fn write<S: Alter>(conn: &mut Connection<S>) -> Result<(), Fault>
    requires { conn.old.in_transaction ≡ false }
    ensures ok { HasCleanDisk (state S.Store conn.new)
        → OnOk result (Created (state S.Store conn.old) (state S.Store conn.new)) }
    ensures err { HasCleanDisk (state S.Store conn.new)
        → OnErr result (Undone (state S.Store conn.old) (state S.Store conn.new)) }
    ensures cause { IfErr result (CreateFails (state S.Store conn.old) (state S.Store conn.new)) }
    ensures mode { conn.new.in_transaction ≡ false }
    ensures crash { Survives (state S.Store conn.old) (state S.Store conn.new)
        (LeavesTables (state S.Store conn.old)) }
    ensures stop { IsTrue (state S.Store conn.new).is_open → (trees : _)
        → (state S.Store conn.new).may_leave trees
        → trees ≡ (state S.Store conn.new).committed.trees }
{
    let mut tx = conn.transaction();
    declare_tables(&mut tx)?;
    match tx.commit() {
        Ok(()) => Ok(()),
        Err(error) => Err(fault_of(&error)),
    }
}

/// Whether a table has the name `meta`.
fn has_meta(schema: &Schema) -> bool
    ensures { result ≡ has_meta schema.now }
{
    let tables = schema.tables.as_slice();
    tables.iter().any(|table| same_name(table.name.as_slice(), "meta".as_bytes()))
}

/// Whether a database is empty.
fn is_blank(schema: &Schema) -> bool
    ensures blank { result ≡ true → schema.now ≡ no_schema }
    ensures other { schema.now ≡ no_schema → result ≡ true }
{
    schema.tables.as_slice().is_empty()
        && schema.indexes.as_slice().is_empty()
        && schema.views.as_slice().is_empty()
}

/// Creates the tables of an empty desk in an empty database, in one transaction.
///
/// A database with a table `meta` is refused as NotEmpty, and one with other tables by a fault of
/// the store. After a refusal or a fault the tables are unchanged. In an empty database it fails
/// only because no memory is left, or because the disk failed again.
pub fn create_tables<S: Alter>(conn: &mut Connection<S>) -> Result<(), Refused>
    requires { conn.old.in_transaction ≡ false }
    ensures ok { HasCleanDisk (state S.Store conn.new)
        → OnOk result (Founded (state S.Store conn.old) (state S.Store conn.new)) }
    ensures not_empty { IfErr result (λ refused. refused ≡ Refused.NotEmpty
        → has_meta (state S.Store conn.old).now.schema ≡ true) }
    ensures meta { has_meta (state S.Store conn.old).now.schema ≡ true
        → (result ≡ Err Refused.NotEmpty) × (conn.new ≡ conn.old) }
    ensures others { has_meta (state S.Store conn.old).now.schema ≡ false
        → (state S.Store conn.old).now.schema ≢ no_schema
        → (result ≡ Err (Refused.Fault (Fault.Store StoreFault.Database)))
        × (conn.new ≡ conn.old) }
    ensures cause { (state S.Store conn.old).now.schema ≡ no_schema → IfErr result (λ refused.
        HasCleanDisk (state S.Store conn.new) → IsTrue (state S.Store conn.old).is_open
        → (state S.Store conn.old).step_limit ≡ None
        → (fault : Fault) × (refused ≡ Refused.Fault fault)
        × IsCaused (state S.Store conn.old) (state S.Store conn.new) fault) }
    ensures err { HasCleanDisk (state S.Store conn.new)
        → OnErr result (Undone (state S.Store conn.old) (state S.Store conn.new)) }
    ensures mode { conn.new.in_transaction ≡ false }
    ensures crash { Survives (state S.Store conn.old) (state S.Store conn.new) (λ trees.
        Stands trees no_tables) }
    ensures stop { HasCleanDisk (state S.Store conn.new) → OnOk result ((trees : _)
        → (state S.Store conn.new).may_leave trees
        → trees ≡ (state S.Store conn.new).now.trees) }
{
    let _settled = conn.is_autocommit();
    let schema = conn.schema();
    if has_meta(schema) {
        return Err(Refused::NotEmpty);
    }
    if !is_blank(schema) {
        return Err(Refused::Fault(Fault::Store(StoreFault::Database)));
    }
    match write(conn) {
        Ok(()) => Ok(()),
        Err(fault) => Err(Refused::Fault(fault)),
    }
}
