//! Why the tables of a file are not those of a desk.

ghost use Rattle.std.specs.Prelude.{◌≡◌, ◌==◌, find, map, not, option_map, IfOk, Some};
ghost use Rattle.std.specs.Option.{option_copied};
ghost use Rattle.desk_files.specs.Differences.{IsFirst, IsLack, in_the_way, is_table, is_taken, is_there, kept, may_have_rows, missing, names_of, wanted, with_foreign_key};

use crate::indexes::refused;
use sqlite_schema::names::same_name;
use sqlite_schema::schema::{Schema, Table, View};
use std::alloc::{AllocError, Global};
use thiserror::Error;

/// The names of a desk's tables, as they are made.
const NAMES: [&str; 16] = [
    "meta",
    "catalogue",
    "rule",
    "document",
    "package",
    "extracted",
    "conclusion",
    "adoption",
    "releases",
    "attached",
    "choice",
    "frozen",
    "duty",
    "change",
    "reading",
    "waiver",
];

/// How many of these are also tables of version 1.
const OLDER: usize = 14;

/// The place of the one that no older version has.
const LAST: usize = 15;

/// Why the tables of a file are not those of a desk.
#[derive(Debug, Drop, Error)]
pub enum Difference {
    #[error("it has no table {0}")]
    Missing(&'static str),
    #[error("its table {0} has a trigger, or an index that isn't understood")]
    Bound(&'static str),
    #[error("its table {0} is of a kind that the desk can't read, such as WITHOUT ROWID")]
    Unread(&'static str),
    #[error("its table {0:?} has a foreign key")]
    ForeignKey(String),
    #[error("its index {0:?}, on a table of the desk, is UNIQUE and could refuse a row, or has more than 8 columns")]
    Index(String),
    #[error("one of its tables is made in another way than a desk's")]
    Declared,
    #[error("a table of its version is missing, or made or indexed in another way than a desk's")]
    Older,
}

// The names of the tables that are looked for.
fn names(is_older: bool) -> &'static [&'static str]
    ensures { map (λ name. name.now) result.now ≡ names_of (wanted is_older) }
{
    if is_older { &NAMES[..OLDER] } else { &NAMES }
}

fn is_there(schema: &Schema, name: &str) -> bool
    ensures { result ≡ is_there schema.now name.now }
{
    schema.table_named(name.as_bytes()).is_some()
}

// The first of these names that no table has.
fn missing(schema: &Schema, names: &[&'static str]) -> Option<&'static str>
    ensures { option_map (λ name. name.now) result
        ≡ missing schema.now (map (λ name. name.now) names.now) }
{
    for name in names {
        if !is_there(schema, name) {
            return Some(name);
        }
    }
    None
}

// What else the schema has under a name.
fn kept<'a>(schema: &'a Schema, name: &str) -> Option<&'a View>
    ensures { option_copied result ≡ kept schema.now name.now }
{
    schema.views.get(schema.view_named(name.as_bytes())?)
}

fn is_table(name: &str, view: &View) -> bool
    ensures { result ≡ is_table name.now (Some view.now) }
{
    match &view.foreign {
        Some(table) => same_name(name.as_bytes(), table.as_slice()),
        None => false,
    }
}

// Why no table has this name.
fn lack(schema: &Schema, name: &'static str) -> Difference
    ensures { IsLack name.now (kept schema.now name.now) result }
{
    match kept(schema, name) {
        Some(view) if view.is_bound => Difference::Bound(name),
        Some(view) if is_table(name, view) => Difference::Unread(name),
        _ => Difference::Missing(name),
    }
}

fn with_foreign_key(schema: &Schema) -> Option<&Table>
    ensures { option_copied result ≡ with_foreign_key schema.now }
{
    schema
        .tables
        .as_slice()
        .iter()
        .find(|table| table.references.len() != 0)
}

impl Difference {
    /// Whether the rows may be a desk's all the same.
    pub fn may_have_rows(&self) -> bool
        ensures { result ≡ may_have_rows self.now }
    {
        !matches!(self, Difference::Missing(_))
    }
}

/// The first reason why a schema doesn't have a desk's tables, those of this version or those that
/// older ones have too.
pub fn first_difference(
    alloc: Global,
    schema: &Schema,
    is_older: bool,
) -> Result<Difference, AllocError>
    ensures { IfOk result (IsFirst schema.now is_older) }
{
    let names = names(is_older);
    if let Some(name) = missing(schema, names) {
        return Ok(lack(schema, name));
    }
    if let Some(table) = with_foreign_key(schema) {
        let name = String::from_utf8_lossy(alloc, table.name.as_slice())?;
        return Ok(Difference::ForeignKey(name));
    }
    if let Some(index) = refused(schema, names) {
        let name = String::from_utf8_lossy(alloc, index.name.as_slice())?;
        return Ok(Difference::Index(name));
    }
    Ok(if is_older {
        Difference::Older
    } else {
        Difference::Declared
    })
}

fn is_taken(schema: &Schema, name: &str) -> bool
    ensures { result ≡ is_taken schema.now name.now }
{
    let name = name.as_bytes();
    schema.view_named(name).is_some() || schema.index_named(name).is_some()
}

fn taken(schema: &Schema, names: &[&'static str]) -> Option<&'static str>
    ensures { option_map (λ name. name.now) result
        ≡ find (is_taken schema.now) (map (λ name. name.now) names.now) }
{
    for name in names {
        if is_taken(schema, name) {
            return Some(name);
        }
    }
    None
}

// The first name of a table that a migration makes, if something else has it.
fn in_the_way(schema: &Schema) -> Option<&'static str>
    ensures { option_map (λ name. name.now) result ≡ in_the_way schema.now }
{
    match taken(schema, &NAMES[OLDER..]) {
        None if is_there(schema, NAMES[LAST]) => Some(NAMES[LAST]),
        name => name,
    }
}

/// Says on standard error how a file's tables differ from those that older versions have too.
pub fn tell_older(rt: &HostRuntime, path: &str, schema: &Schema) {
    // If it can't be written, the refusal is still given.
    if let Ok(difference) = first_difference(rt.alloc(), schema, true) {
        let _told = eprintln!(rt; "{path:?}: {difference}");
    }
}

/// Says on standard error that something has the name of a table that a migration makes.
pub fn tell_in_the_way(rt: &HostRuntime, path: &str, schema: &Schema) {
    if let Some(name) = in_the_way(schema) {
        let _told = eprintln!(rt;
            "{path:?}: it has something else named {name}: rename that first"
        );
    }
}
