//! The value that an assignment gives to its key.

ghost use Rattle.std.specs.Prelude.{◌≡◌, ◌==◌, IfOk, map};
ghost use Rattle.std.specs.List.{slice_split};
ghost use Rattle.serde_json.specs.Data.{string};
ghost use Rattle.serde_json.specs.View.{view};
ghost use Rattle.desk_base.specs.Borrowed.{texts};
ghost use Rattle.desk_line.specs.Numbers.{number_written};
ghost use Rattle.desk_assignments.specs.Values.{assigned_value, is_number_key, number_or_text, text_list};

use serde_json::{Value, json};
use std::alloc::{AllocError, Global};

/// The number that a text is in decimal digits.
fn number_written(text: &str) -> Option<u64>
    ensures { result ≡ number_written 64 text.now }
{
    text.parse::<u64>().ok()
}

/// A text as a value.
pub(crate) fn text_value(alloc: Global, text: &str) -> Result<Value, AllocError>
    ensures { IfOk result (λ v. view v ≡ string text.now) }
{
    json!(in alloc; text)
}

/// A number as a value or, if the text isn't one, the text.
fn number_or_text(alloc: Global, text: &str) -> Result<Value, AllocError>
    ensures { IfOk result (λ v. view v ≡ number_or_text text.now) }
{
    match number_written(text) {
        Some(number) => json!(in alloc; number),
        None => text_value(alloc, text),
    }
}

/// The parts of a text between commas.
fn parts_of(alloc: Global, text: &str) -> Result<Vec<&str>, AllocError>
    ensures { IfOk result (λ parts. texts parts.items ≡ slice_split (λ b. b == 44) text.now) }
{
    text.split(',').collect(alloc)
}

fn text_values(alloc: Global, parts: &[&str]) -> Result<Vec<Value>, AllocError>
    ensures { IfOk result (λ vs. map view vs.items ≡ map string (texts parts.now)) }
{
    let mut values = Vec::with_capacity(alloc, parts.len())?;
    for part in parts {
        values.push(text_value(alloc, part)?)?;
    }
    Ok(values)
}

/// The parts of a text between commas, as a list.
fn text_list(alloc: Global, text: &str) -> Result<Value, AllocError>
    ensures { IfOk result (λ v. view v ≡ text_list text.now) }
{
    let parts = parts_of(alloc, text)?;
    Ok(Value::Array(text_values(alloc, parts.as_slice())?))
}

/// Whether the value of a key is a number.
fn is_number_key(key: &str) -> bool
    ensures { result ≡ is_number_key key.now }
{
    key == "document" || key == "duty" || key == "profile"
}

/// The value that a text is for a key.
pub(crate) fn assigned_value(alloc: Global, key: &str, text: &str) -> Result<Value, AllocError>
    ensures { IfOk result (λ v. view v ≡ assigned_value key.now text.now) }
{
    if is_number_key(key) {
        return number_or_text(alloc, text);
    }
    if key == "terms" {
        return text_list(alloc, text);
    }
    text_value(alloc, text)
}
