//! The titles of duties in the catalogue in force.

ghost use Rattle.std.specs.Prelude.{◌≡◌, ◌++◌, [], find, option_map, IfOk, OnOk};
ghost use Rattle.std.specs.List.{cons_option};
ghost use Rattle.std.specs.Option.{option_copied};
ghost use Rattle.toml.specs.Data.{get_member};
ghost use Rattle.toml.specs.View.{items_view, table_view, view};
ghost use Rattle.desk_lists.specs.Titles.{catalogue_titles, is_title_of, text_at, title_among, title_in, title_of, titles_in, titles_in_force, titles_of};

use desk_base::Text;
use desk_snapshot::Snapshot;
use std::alloc::{AllocError, Global};
use toml::{Table, Value};

/// The title of a duty.
#[derive(Drop)]
pub(crate) struct Title {
    pub code: Text,
    pub title: Text,
}

// The value at a key.
fn member<'a>(table: &'a Table, key: &str) -> Option<&'a Value>
    ensures { option_map (λ v. view v.now) result ≡ get_member key.now (table_view table.now) }
{
    table.get(key)
}

// The text at a key.
fn text_at<'a>(table: &'a Table, key: &str) -> Option<&'a str>
    ensures { option_map (λ text. text.now) result ≡ text_at key.now (table_view table.now) }
{
    match member(table, key) {
        Some(value) => value.as_str(),
        None => None,
    }
}

// The title in a table of a code and a title.
fn title_in(alloc: Global, table: &Table) -> Result<Option<Title>, AllocError>
    ensures { IfOk result (λ title. title ≡ title_in (table_view table.now)) }
{
    let Some(code) = text_at(table, "code") else {
        return Ok(None);
    };
    let Some(title) = text_at(table, "title") else {
        return Ok(None);
    };
    Ok(Some(Title {
        code: Text::of(alloc, code)?,
        title: Text::of(alloc, title)?,
    }))
}

fn title_of(alloc: Global, value: &Value) -> Result<Option<Title>, AllocError>
    ensures { IfOk result (λ title. title ≡ title_of (view value.now)) }
{
    match value.as_table() {
        Some(table) => title_in(alloc, table),
        None => Ok(None),
    }
}

// Adds a title, if there is one.
fn add_title(titles: &mut Vec<Title>, title: Option<Title>) -> Result<(), AllocError>
    ensures { OnOk result (titles.new.items ≡ titles.old.items ++ cons_option title []) }
{
    if let Some(title) = title {
        titles.push(title)?;
    }
    Ok(())
}

fn titles_of(alloc: Global, values: &[Value]) -> Result<Vec<Title>, AllocError>
    ensures { IfOk result (λ titles. titles.items ≡ titles_of (items_view values.now)) }
{
    let mut titles = Vec::new(alloc);
    for value in values {
        add_title(&mut titles, title_of(alloc, value)?)?;
    }
    Ok(titles)
}

// The entries of the duties in a catalogue.
fn entries_in(table: &Table) -> &[Value]
    ensures { titles_of (items_view result.now) ≡ titles_in (table_view table.now) }
{
    match member(table, "duty") {
        Some(value) => match value.as_array() {
            Some(values) => values.as_slice(),
            None => &[],
        },
        None => &[],
    }
}

// The titles of the duties in a catalogue, none if the text isn't a catalogue.
fn catalogue_titles(alloc: Global, text: &str) -> Result<Vec<Title>, AllocError>
    ensures { IfOk result (λ titles. titles.items ≡ catalogue_titles text.now) }
{
    match toml::table_from_str(alloc, text) {
        Ok(table) => titles_of(alloc, entries_in(&table)),
        Err(error) => {
            if error.is_memory() {
                return Err(AllocError);
            }
            Ok(Vec::new(alloc))
        }
    }
}

/// The titles of the duties in the catalogue in force.
pub(crate) fn titles_in_force(alloc: Global, snapshot: &Snapshot) -> Result<Vec<Title>, AllocError>
    ensures { IfOk result (λ titles. titles.items ≡ titles_in_force snapshot.now) }
{
    match snapshot.catalogue.as_slice().last() {
        Some(catalogue) => catalogue_titles(alloc, catalogue.body.as_str()),
        None => Ok(Vec::new(alloc)),
    }
}

// The first of some titles that is for a code.
fn first_of<'a>(code: &str, titles: &'a [Title]) -> Option<&'a Title>
    ensures { option_copied result ≡ find (is_title_of code.now) titles.now }
{
    titles.iter().find(|row| row.code.as_str() == code)
}

/// The title of a code, or an empty text.
pub(crate) fn title_among<'a>(code: &str, titles: &'a [Title]) -> &'a str
    ensures { result.now ≡ title_among code.now titles.now }
{
    match first_of(code, titles) {
        Some(row) => row.title.as_str(),
        None => "",
    }
}
