//! The words of a request that name a day by `today`.

ghost use Rattle.std.specs.Prelude.{◌≡◌, ◌++◌, IfOk, map};
ghost use Rattle.std.specs.List.{list_any};
ghost use Rattle.std.specs.String.{string_bytes};
ghost use Rattle.desk_today.specs.Words.{dated, is_today};

use desk_base::{Items, Text};
use std::alloc::{AllocError, Global};

// Whether a word gives today to one of the keys of days.
fn is_today(word: &str) -> bool
    ensures { result ≡ is_today word.now }
{
    word == "day=today" || word == "until=today"
}

// A key with a day as its value.
fn assigned(alloc: Global, key: &str, day: &str) -> Result<Text, AllocError>
    ensures { IfOk result (λ text. text ≡ key.now ++ day.now) }
{
    let assigned = format!(in alloc; "{key}{day}")?;
    Text::of(alloc, assigned.as_str())
}

// A word with this day in the place of today.
fn dated(alloc: Global, day: &str, word: &str) -> Result<Text, AllocError>
    ensures { IfOk result (λ text. text ≡ dated day.now word.now) }
{
    if word == "day=today" {
        return assigned(alloc, "day=", day);
    }
    if word == "until=today" {
        return assigned(alloc, "until=", day);
    }
    Text::of(alloc, word)
}

/// Whether words name a day by `today`.
pub fn mentions_today(words: &[Text]) -> bool
    ensures { result ≡ list_any is_today words.now }
{
    words.iter().any(|word| is_today(word.as_str()))
}

/// The words with this day wherever they say `today`: `day=today` and `until=today` alone, so that
/// a text can be this word.
pub fn with_day(alloc: Global, words: &[Text], day: &Text) -> Result<Items<Text>, AllocError>
    ensures { IfOk result (λ found. found ≡ map (dated day.now) words.now) }
{
    let mut found = Items::new(alloc);
    for word in words {
        found.push(dated(alloc, day.as_str(), word.as_str())?)?;
    }
    Ok(found)
}
