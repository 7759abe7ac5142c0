//! Why a line is no request.

ghost use Rattle.std.specs.Prelude.{◌≡◌, ◌≢◌, IfOk, IfSome, None, Some, codes, option_map};
ghost use Rattle.std.specs.String.{string_bytes};
ghost use Rattle.serde_json.specs.Find.{as_array, get};
ghost use Rattle.serde_json.specs.View.{items_view, view};
ghost use Rattle.desk_words.specs.Troubles.{IsFound, IsFoundIn, IsSoOf, are_texts, are_texts_in, is_wanted, number_of, text_in};

pub use crate::forms::Wanted;
use crate::forms::{COMMANDS, Form, Key, QUERIES, form_named};
use desk_base::{Profile, limits};
use serde_json::Value;
use std::alloc::{AllocError, Global};
use std::fmt;
use thiserror::Error;

/// Why a line is no request.
#[derive(Debug, Drop, Error)]
pub enum RequestTrouble {
    /// It is too long to be one.
    #[error("the line is longer than a request may be")]
    TooLong,
    /// It is not JSON, as the byte with this number shows, counted from 1.
    #[error("it is no JSON, which shows at byte {0}")]
    NotJson(usize),
    /// It is JSON, but no object.
    #[error("it is no JSON object")]
    NotObject,
    /// It names neither a command nor a question.
    #[error("it has neither the key do nor the key ask with a text")]
    NoWord,
    /// The value of `do` names no command.
    #[error("the command {0:?} is not known")]
    UnknownCommand(String),
    /// The value of `ask` names no question.
    #[error("the question {0:?} is not known")]
    UnknownQuestion(String),
    /// A key that the form doesn't have.
    #[error("the key {0:?} is not known here")]
    UnknownKey(String),
    /// A key that the form needs.
    #[error("the key {0} is missing")]
    MissingKey(&'static str),
    /// A key with a value of the wrong kind.
    #[error("the value of {0} is not {1}")]
    BadValue(&'static str, Wanted),
}

impl fmt::Display for Wanted {
    fn fmt<W: fmt::Write>(&self, f: &mut fmt::Formatter<W>) -> fmt::Result {
        f.write_str(match self {
            Wanted::Text => "a text",
            Wanted::Number => "a whole number",
            Wanted::Profile => "1 or 2",
            Wanted::Texts => "a list of texts",
        })
    }
}

// The text of a member.
fn text_at<'a>(value: &'a Value, key: &str) -> Option<&'a str>
    ensures { option_map (λ s. s.now) result ≡ text_in key.now (view value.now) }
{
    match value.get(key) {
        Some(member) => member.as_str(),
        None => None,
    }
}

// The whole number that a value is, if a request may have it.
fn number_of(value: &Value) -> Option<u64>
    ensures { result ≡ number_of (view value.now) }
{
    value.as_u64().filter(|number| *number <= limits::NUMBER)
}

// Whether a list contains only texts.
fn are_texts(items: &[Value]) -> bool
    ensures { result ≡ are_texts (items_view items.now) }
{
    for item in items {
        if item.as_str().is_none() {
            return false;
        }
    }
    true
}

// Whether a value is a list of texts.
fn is_list(value: &Value) -> bool
    ensures { result ≡ are_texts_in (as_array (view value.now)) }
{
    match value.as_array() {
        Some(items) => are_texts(items.as_slice()),
        None => false,
    }
}

fn is_wanted(value: &Value, wanted: Wanted) -> bool
    ensures { result ≡ is_wanted wanted (view value.now) }
{
    match wanted {
        Wanted::Text => value.as_str().is_some(),
        Wanted::Number => number_of(value).is_some(),
        Wanted::Profile => match number_of(value) {
            Some(number) => Profile::numbered(number).is_some(),
            None => false,
        },
        Wanted::Texts => is_list(value),
    }
}

// What is wrong with a key of a form, if anything.
fn key_trouble(value: &Value, key: &Key) -> Option<RequestTrouble>
    ensures { IfSome result (IsSoOf (view value.now)) }
{
    match value.get(key.name) {
        Some(member) if is_wanted(member, key.wanted) => None,
        Some(_) => Some(RequestTrouble::BadValue(key.name, key.wanted)),
        None if key.is_optional => None,
        None => Some(RequestTrouble::MissingKey(key.name)),
    }
}

// The first key of a form that is missing or has a value of the wrong kind.
fn keys_trouble(value: &Value, form: &Form) -> Option<RequestTrouble>
    ensures { IfSome result (IsSoOf (view value.now)) }
{
    for key in form.keys {
        if let Some(trouble) = key_trouble(value, key) {
            return Some(trouble);
        }
    }
    None
}

// The first key that a form doesn't have, besides that of its word.
fn unknown_key(
    alloc: Global,
    value: &Value,
    form: &Form,
    own: &str,
) -> Result<Option<String>, AllocError>
    ensures { IfOk result (λ found. IfSome found
        (λ name. get (string_bytes name) (view value.now) ≢ None)) }
{
    let Some(members) = value.as_object() else {
        return Ok(None);
    };
    for name in members.keys() {
        let name = name.as_str();
        if name != own && !form.has(name) {
            return Ok(Some(String::from_str(alloc, name)?));
        }
    }
    Ok(None)
}

// What is wrong with a form whose word is the value of this key.
fn form_trouble(
    alloc: Global,
    value: &Value,
    form: &Form,
    own: &str,
) -> Result<Option<RequestTrouble>, AllocError>
    ensures { IfOk result (λ found. IfSome found (IsSoOf (view value.now))) }
{
    match unknown_key(alloc, value, form, own)? {
        Some(name) => Ok(Some(RequestTrouble::UnknownKey(name))),
        None => Ok(keys_trouble(value, form)),
    }
}

fn command_trouble(
    alloc: Global,
    value: &Value,
    word: &str,
) -> Result<Option<RequestTrouble>, AllocError>
    requires { text_in (codes "do") (view value.now) ≡ Some word.now }
    ensures { IfOk result (IsFoundIn (view value.now)) }
{
    match form_named(word, &COMMANDS) {
        Some(form) => form_trouble(alloc, value, form, "do"),
        None => Ok(Some(RequestTrouble::UnknownCommand(String::from_str(alloc, word)?))),
    }
}

fn question_trouble(
    alloc: Global,
    value: &Value,
    word: &str,
) -> Result<Option<RequestTrouble>, AllocError>
    requires other { text_in (codes "do") (view value.now) ≡ None }
    requires word { text_in (codes "ask") (view value.now) ≡ Some word.now }
    ensures { IfOk result (IsFoundIn (view value.now)) }
{
    match form_named(word, &QUERIES) {
        Some(form) => form_trouble(alloc, value, form, "ask"),
        None => Ok(Some(RequestTrouble::UnknownQuestion(String::from_str(alloc, word)?))),
    }
}

fn value_trouble(alloc: Global, value: &Value) -> Result<Option<RequestTrouble>, AllocError>
    ensures { IfOk result (IsFoundIn (view value.now)) }
{
    if value.as_object().is_none() {
        return Ok(Some(RequestTrouble::NotObject));
    }
    if let Some(word) = text_at(value, "do") {
        return command_trouble(alloc, value, word);
    }
    match text_at(value, "ask") {
        Some(word) => question_trouble(alloc, value, word),
        None => Ok(Some(RequestTrouble::NoWord)),
    }
}

/// Why the text of a line is no request, or `None` if nothing is found.
pub fn request_trouble(alloc: Global, bytes: &[u8]) -> Result<Option<RequestTrouble>, AllocError>
    ensures { IfOk result (IsFound bytes.now) }
{
    match Value::from_slice(alloc, bytes) {
        Ok(value) => value_trouble(alloc, &value),
        Err(error) if error.is_memory() => Err(AllocError),
        Err(error) => Ok(Some(RequestTrouble::NotJson(error.column()))),
    }
}
