//! The credits of a file.

ghost use Rattle.std.specs.Prelude.{◌≡◌, ◌++◌, ◌∷◌, [], map, IfOk, OnOk, option_map};
ghost use Rattle.std.specs.List.{list_any};
ghost use Rattle.toml.specs.View.{view, items_view};
ghost use Rattle.desk_fill.specs.Reading.{each, credit_of, credit_of_keys, credit_of_values, credit_at, with_credit, credits_of, version_of};
ghost use Rattle.toml.specs.Data.{as_str};
ghost use Rattle.desk_fill.specs.Shown.{Gives};
ghost use Rattle.desk_fill.specs.Subjects.{Knows, subject_of_credit};
ghost use Rattle.desk_fill.specs.Values.{is_same_credit};

use crate::entries::tables_of;
use crate::fault::{Flaw, Part};
use crate::fill::Credit;
use crate::index::{note, subject_of_credit};
use crate::subjects::Subject;
use crate::values::{says_something, take_member};
use desk_base::{Items, Text};
use std::alloc::{AllocError, Global};
use std::collections::BTreeMap;
use toml::Value;

// The version that a value gives, or none for any.
fn version_of(index: usize, value: Option<Value>) -> Result<Option<Text>, Flaw>
    ensures { result ≡ version_of index (option_map view value) }
{
    match value {
        None => Ok(None),
        Some(Value::String(version)) => Ok(Some(Text::from(version))),
        Some(_) => Err(Flaw::BadKind(Part::Credit, index)),
    }
}

// The credit of a package, if its text says something.
fn credit_of(index: usize, name: Text, text: Text, version: Option<Text>) -> Result<Credit, Flaw>
    ensures { result ≡ credit_of index name text version }
{
    if says_something(text.as_str()) {
        Ok(Credit {
            name,
            version,
            text,
        })
    } else {
        Err(Flaw::Nothing(Part::Credit, index))
    }
}

// The credit that its values give.
fn credit_of_values(
    index: usize,
    name: Value,
    text: Value,
    version: Option<Value>,
) -> Result<Credit, Flaw>
    ensures { result ≡ credit_of_values index (as_str (view name)) (as_str (view text))
        (option_map view version) }
{
    match (name, text) {
        (Value::String(name), Value::String(text)) => match version_of(index, version) {
            Ok(version) => credit_of(index, Text::from(name), Text::from(text), version),
            Err(flaw) => Err(flaw),
        },
        _ => Err(Flaw::BadKind(Part::Credit, index)),
    }
}

// The credit that the values of its keys give.
fn credit_of_keys(
    index: usize,
    name: Option<Value>,
    text: Option<Value>,
    version: Option<Value>,
) -> Result<Credit, Flaw>
    ensures { result ≡ credit_of_keys index (option_map view name) (option_map view text)
        (option_map view version) }
{
    let (Some(name), Some(text)) = (name, text) else {
        return Err(Flaw::Missing(Part::Credit, index));
    };
    credit_of_values(index, name, text, version)
}

// The credit of a table.
fn credit_at(index: usize, value: Value) -> Result<Credit, Flaw>
    ensures { result ≡ credit_at index (view value) }
{
    let Value::Table(mut table) = value else {
        return Err(Flaw::BadKind(Part::Credit, index));
    };
    let name = take_member(&mut table, "package");
    let text = take_member(&mut table, "text");
    let version = take_member(&mut table, "version");
    credit_of_keys(index, name, text, version)
}

// Whether one of some credits is for the package and version of another, which is noted.
fn is_repeated(
    alloc: Global,
    firsts: &mut BTreeMap<Subject, usize>,
    credits: &[Credit],
    credit: &Credit,
) -> Result<bool, AllocError>
    requires { Knows (map subject_of_credit credits.now) firsts.old }
    ensures repeated { IfOk result (λ is. is ≡ list_any (is_same_credit credit.now) credits.now) }
    ensures knows { OnOk result (Knows (map subject_of_credit (credits.now ++ credit.now ∷ []))
        firsts.new) }
{
    let subject = subject_of_credit(alloc, credit)?;
    let new = note(firsts, subject, credits.len())?;
    Ok(!new)
}

// The credits of a list, if none stands twice.
fn each_credit(alloc: Global, values: Vec<Value>) -> Result<Result<Items<Credit>, Flaw>, AllocError>
    ensures { IfOk result (Gives (each with_credit [] 0 (items_view values.items)) (λ credits. credits)) }
{
    let mut credits = Items::new(alloc);
    let mut firsts = BTreeMap::new(alloc);
    for value in values {
        let index = credits.as_slice().len();
        match credit_at(index, value) {
            Ok(credit) => {
                if is_repeated(alloc, &mut firsts, credits.as_slice(), &credit)? {
                    return Ok(Err(Flaw::Twice(Part::Credit, index)));
                }
                credits.push(credit)?;
            }
            Err(flaw) => return Ok(Err(flaw)),
        }
    }
    Ok(Ok(credits))
}

/// The credits, in their order.
pub(crate) fn credits_of(
    alloc: Global,
    value: Option<Value>,
) -> Result<Result<Items<Credit>, Flaw>, AllocError>
    ensures { IfOk result (Gives (credits_of (option_map view value)) (λ credits. credits)) }
{
    match tables_of(alloc, value, Part::Credit) {
        Ok(values) => each_credit(alloc, values),
        Err(flaw) => Ok(Err(flaw)),
    }
}
