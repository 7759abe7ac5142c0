//! The texts of a file.

ghost use Rattle.std.specs.Prelude.{◌≡◌, ◌++◌, ◌∷◌, [], map, true, IfOk, OnOk, option_map};
ghost use Rattle.std.specs.List.{list_any};
ghost use Rattle.toml.specs.View.{view, items_view};
ghost use Rattle.desk_fill.specs.Reading.{each, text_of, text_of_keys, text_at, with_text, texts_of};
ghost use Rattle.desk_fill.specs.Shown.{Gives};
ghost use Rattle.desk_fill.specs.Subjects.{Knows, subject_of_text};
ghost use Rattle.desk_fill.specs.Values.{is_same_text};

use crate::entries::tables_of;
use crate::fault::{Flaw, Part};
use crate::index::{note, subject_of_title};
use crate::subjects::Subject;
use crate::values::{is_name, says_something, take_member};
use desk_base::{Items, Text};
use desk_model::LicenceText;
use std::alloc::{AllocError, Global};
use std::collections::BTreeMap;
use toml::Value;

// The text for a name, if there may be one.
fn text_of(index: usize, licence: Text, body: Text) -> Result<LicenceText, Flaw>
    ensures { result ≡ text_of index licence body }
{
    if !is_name(licence.as_str()) {
        return Err(Flaw::BadName(index));
    }
    if !says_something(body.as_str()) {
        return Err(Flaw::Nothing(Part::Text, index));
    }
    Ok(LicenceText {
        title: licence,
        body,
    })
}

// The text that the values of its keys give.
fn text_of_keys(
    index: usize,
    licence: Option<Value>,
    body: Option<Value>,
) -> Result<LicenceText, Flaw>
    ensures { result ≡ text_of_keys index (option_map view licence) (option_map view body) }
{
    let (Some(licence), Some(body)) = (licence, body) else {
        return Err(Flaw::Missing(Part::Text, index));
    };
    match (licence, body) {
        (Value::String(licence), Value::String(body)) => {
            text_of(index, Text::from(licence), Text::from(body))
        }
        _ => Err(Flaw::BadKind(Part::Text, index)),
    }
}

// The text of a table.
fn text_at(index: usize, value: Value) -> Result<LicenceText, Flaw>
    ensures { result ≡ text_at index (view value) }
{
    let Value::Table(mut table) = value else {
        return Err(Flaw::BadKind(Part::Text, index));
    };
    let licence = take_member(&mut table, "licence");
    let body = take_member(&mut table, "body");
    text_of_keys(index, licence, body)
}

/// Whether one of some texts has the name of another, whose subject is noted. The only error is
/// lack of memory.
pub fn is_repeated(
    alloc: Global,
    firsts: &mut BTreeMap<Subject, usize>,
    texts: &[LicenceText],
    text: &LicenceText,
) -> Result<bool, AllocError>
    requires { Knows (map subject_of_text texts.now) firsts.old }
    ensures repeated { IfOk result (λ is. is ≡ list_any (is_same_text text.now) texts.now) }
    ensures knows { OnOk result (Knows (map subject_of_text (texts.now ++ text.now ∷ []))
        firsts.new) }
    ensures kept { IfOk result (λ is. is ≡ true → firsts.new ≡ firsts.old) }
{
    let subject = subject_of_title(alloc, text.title.as_str())?;
    let new = note(firsts, subject, texts.len())?;
    Ok(!new)
}

// The texts of a list, if no name stands twice.
fn each_text(
    alloc: Global,
    values: Vec<Value>,
) -> Result<Result<Items<LicenceText>, Flaw>, AllocError>
    ensures { IfOk result (Gives (each with_text [] 0 (items_view values.items)) (λ texts. texts)) }
{
    let mut texts = Items::new(alloc);
    let mut firsts = BTreeMap::new(alloc);
    for value in values {
        let index = texts.as_slice().len();
        match text_at(index, value) {
            Ok(text) => {
                if is_repeated(alloc, &mut firsts, texts.as_slice(), &text)? {
                    return Ok(Err(Flaw::Twice(Part::Text, index)));
                }
                texts.push(text)?;
            }
            Err(flaw) => return Ok(Err(flaw)),
        }
    }
    Ok(Ok(texts))
}

/// The texts, in their order.
pub(crate) fn texts_of(
    alloc: Global,
    value: Option<Value>,
) -> Result<Result<Items<LicenceText>, Flaw>, AllocError>
    ensures { IfOk result (Gives (texts_of (option_map view value)) (λ texts. texts)) }
{
    match tables_of(alloc, value, Part::Text) {
        Ok(values) => each_text(alloc, values),
        Err(flaw) => Ok(Err(flaw)),
    }
}
