//! Values that are composed of several members: checksums and verification codes.

ghost use Rattle.std.specs.Prelude.{◌≡◌, ◌++◌, ◌∷◌, [], IfOk, OnOk, codes, option_map, option_and_then};
ghost use Rattle.std.specs.String.{string_bytes};
ghost use Rattle.desk_tagvalue.specs.Drafts.{one_line};
ghost use Rattle.serde_json.specs.Find.{as_str, as_array};
ghost use Rattle.serde_json.specs.View.{view, items_view};
ghost use Rattle.desk_spdx_json.specs.Values.{text_or_empty, word_fault, word_in, checksum_steps, name_fault, more_names, names_text, excluded_text, names_in, code_steps};

use crate::items::{Item, add_array_in};
use crate::steps::{Steps, What, member_at};
use crate::words::{is_name, is_word};
use desk_fields::Tag;
use desk_spdx_files::{text_or_empty, word_in};
use serde_json::Value;
use std::alloc::{AllocError, Global};

const EXCLUDED_FILES: &str = "packageVerificationCodeExcludedFiles";

/// Adds what is wrong with a member that must be a word.
pub(crate) fn add_word_fault(
    alloc: Global,
    steps: &mut Steps<'_>,
    at: &str,
    value: &Value,
    key: &str,
) -> Result<(), AllocError>
    ensures { OnOk result (steps.new ≡ steps.old ++ word_fault at.now key.now (view value.now)) }
{
    let place = member_at(alloc, at, key)?;
    let Some(member) = value.get(key) else {
        return steps.add(alloc, &place, What::Missing);
    };
    match member.as_str() {
        Some(text) if is_word(text) => Ok(()),
        Some(_) => steps.add(alloc, &place, What::BadValue),
        None => steps.add(alloc, &place, What::BadType),
    }
}

// The checksum of a file, from which its digest is read.
fn checksum_text(alloc: Global, value: &Value) -> Result<String, AllocError>
    ensures { IfOk result (λ s. string_bytes s
        ≡ word_in (codes "algorithm") (view value.now)
        ++ (codes ": " ++ word_in (codes "checksumValue") (view value.now))) }
{
    let algorithm = word_in(value, "algorithm");
    let digest = word_in(value, "checksumValue");
    format!(in alloc; "{algorithm}: {digest}")
}

/// Adds a checksum.
pub(crate) fn add_checksum(
    alloc: Global,
    steps: &mut Steps<'_>,
    at: &str,
    tag: Tag,
    value: &Value,
) -> Result<(), AllocError>
    ensures { OnOk result (steps.new ≡ steps.old ++ checksum_steps tag at.now (view value.now)) }
{
    add_word_fault(alloc, steps, at, value, "algorithm")?;
    add_word_fault(alloc, steps, at, value, "checksumValue")?;
    let text = checksum_text(alloc, value)?;
    steps.add(alloc, at, What::Composed(tag, text))
}

/// Adds what is wrong with a name of a list.
pub(crate) fn add_name_fault(
    alloc: Global,
    steps: &mut Steps<'_>,
    at: &str,
    value: &Value,
) -> Result<(), AllocError>
    ensures { OnOk result (steps.new ≡ steps.old ++ name_fault at.now (view value.now)) }
{
    match value.as_str() {
        Some(text) if is_name(text) => Ok(()),
        Some(_) => steps.add(alloc, at, What::BadValue),
        None => steps.add(alloc, at, What::BadType),
    }
}

// The names of the files that a verification code excludes.
fn names_in(value: &Value) -> Option<&Value>
    ensures { option_map (λ v. view v.now) result ≡ names_in (view value.now) }
{
    value.get(EXCLUDED_FILES)
}

// The names after the first.
fn more_names(alloc: Global, list: &[Value]) -> Result<String, AllocError>
    ensures { IfOk result (λ s. string_bytes s ≡ more_names (items_view list.now)) }
{
    let mut text = String::new(alloc);
    for value in list {
        text.push_str(", ")?;
        text.push_str(text_or_empty(value))?;
    }
    Ok(text)
}

// The names of a list, as they are written after a verification code.
fn names_text(alloc: Global, list: &[Value]) -> Result<String, AllocError>
    ensures { IfOk result (λ s. string_bytes s ≡ names_text (items_view list.now)) }
{
    match list {
        [] => Ok(String::new(alloc)),
        [first, more @ ..] => {
            let (first, more) = (text_or_empty(first), more_names(alloc, more)?);
            format!(in alloc; " (excludes: {first}{more})")
        }
    }
}

// What is written after a verification code.
fn excluded_text(alloc: Global, value: &Value) -> Result<String, AllocError>
    ensures { IfOk result (λ s. string_bytes s
        ≡ excluded_text (option_and_then as_array (names_in (view value.now)))) }
{
    match names_in(value).and_then(Value::as_array) {
        Some(list) => names_text(alloc, list.as_slice()),
        None => String::from_str(alloc, ""),
    }
}

// A verification code.
fn code_text(alloc: Global, value: &Value) -> Result<String, AllocError>
    ensures { IfOk result (λ s. string_bytes s ≡ word_in (codes "packageVerificationCodeValue") (view value.now)
        ++ excluded_text (option_and_then as_array (names_in (view value.now)))) }
{
    let digits = word_in(value, "packageVerificationCodeValue");
    let excluded = excluded_text(alloc, value)?;
    let excluded = excluded.as_str();
    format!(in alloc; "{digits}{excluded}")
}

/// Adds a package's verification code.
pub(crate) fn add_code<'a>(
    alloc: Global,
    steps: &mut Steps<'a>,
    at: &str,
    tag: Tag,
    value: &'a Value,
) -> Result<(), AllocError>
    ensures { OnOk result (steps.new ≡ steps.old ++ code_steps at.now tag (view value.now)) }
{
    add_word_fault(alloc, steps, at, value, "packageVerificationCodeValue")?;
    add_array_in(alloc, steps, at, EXCLUDED_FILES, Item::Name, value)?;
    let text = code_text(alloc, value)?;
    steps.add(alloc, at, What::Composed(tag, text))
}
