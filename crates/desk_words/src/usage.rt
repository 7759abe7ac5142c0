//! What may stand in a request, in words.

use crate::forms::{COMMANDS, Form, QUERIES, form_named};
use std::alloc::{AllocError, Global};

/// The words of some forms, with commas between them.
fn words_of(alloc: Global, forms: &[Form]) -> Result<String, AllocError> {
    let mut words = String::new(alloc);
    for form in forms {
        if !words.is_empty() {
            words.push_str(", ")?;
        }
        words.push_str(form.word)?;
    }
    Ok(words)
}

/// The keys of a form, with commas between them; those that may be left out in brackets.
fn keys_of(alloc: Global, form: &Form) -> Result<String, AllocError> {
    let mut keys = String::new(alloc);
    for key in form.keys {
        if !keys.is_empty() {
            keys.push_str(", ")?;
        }
        let name = key.name;
        let shown = if key.is_optional {
            format!(in alloc; "[{name}]")?
        } else {
            String::from_str(alloc, name)?
        };
        keys.push_str(shown.as_str())?;
    }
    Ok(keys)
}

fn form_usage(alloc: Global, form: &Form) -> Result<String, AllocError> {
    let word = form.word;
    if form.keys.is_empty() {
        return format!(in alloc; "{word} has no keys");
    }
    let keys = keys_of(alloc, form)?;
    format!(in alloc; "{word} has the keys {keys}")
}

/// What may stand in the request whose key `do` or `ask` has a word: its keys or, if no form has
/// the word, the words that there are.
pub fn request_usage(alloc: Global, key: &str, word: &str) -> Result<String, AllocError> {
    let (forms, what) = if key == "do" {
        (COMMANDS.as_slice(), "commands")
    } else {
        (QUERIES.as_slice(), "questions")
    };
    match form_named(word, forms) {
        Some(form) => form_usage(alloc, form),
        None => {
            let words = words_of(alloc, forms)?;
            format!(in alloc; "the {what} are {words}")
        }
    }
}
