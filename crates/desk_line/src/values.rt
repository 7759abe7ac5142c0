//! The values of a subcommand, from `clap`'s matches.

ghost use Rattle.std.specs.Prelude.{◌≡◌, IfOk, map, option_map};
ghost use Rattle.clap.specs.Words.{all_of, first_of, found_of, rows_of};
ghost use Rattle.desk_line.specs.Calls.{all_or_none, is_true, number_in, profile_in, profile_written};
ghost use Rattle.desk_line.specs.Unfound.{IsFound};

use clap::ArgMatches;
use desk_base::{Items, Profile, Text};
use std::alloc::{AllocError, Global};

/// Why there is no value or no call.
#[derive(Clone, Copy, Drop)]
pub(crate) enum Unfound {
    /// A value is missing or isn't allowed.
    Lacking,
    /// There is no memory for it.
    Memory,
}

impl From<AllocError> for Unfound {
    ghost use Rattle.std.specs.Prelude.{◌≡◌};
    ghost use Rattle.desk_line.specs.declared.values.Unfound.TheVariants.{Memory};

    ghost from_gives = { λ _ unfound. unfound ≡ Memory };

    fn from(_error: AllocError) -> Unfound {
        Unfound::Memory
    }
}

/// A value that must be there.
pub(crate) fn require<T>(value: Option<T>) -> Result<T, Unfound>
    ensures { IsFound value result }
{
    match value {
        Some(value) => Ok(value),
        None => Err(Unfound::Lacking),
    }
}

pub(crate) fn text_in<'a>(matches: &ArgMatches<'a>, id: &str) -> Option<&'a str>
    ensures { option_map (λ s. s.now) result ≡ first_of id.now (rows_of (found_of matches.now)) }
{
    matches.get_str(id)
}

/// A copy of a value that must be there.
pub(crate) fn wanted_text(
    alloc: Global,
    matches: &ArgMatches<'_>,
    id: &str,
) -> Result<Text, Unfound>
    ensures { IsFound (first_of id.now (rows_of (found_of matches.now))) result }
{
    match text_in(matches, id) {
        Some(text) => Ok(Text::of(alloc, text)?),
        None => Err(Unfound::Lacking),
    }
}

/// A copy of a value, if it is there.
pub(crate) fn optional_text(
    alloc: Global,
    matches: &ArgMatches<'_>,
    id: &str,
) -> Result<Option<Text>, AllocError>
    ensures { IfOk result (λ text. text ≡ first_of id.now (rows_of (found_of matches.now))) }
{
    match text_in(matches, id) {
        Some(text) => Ok(Some(Text::of(alloc, text)?)),
        None => Ok(None),
    }
}

fn copy_texts(alloc: Global, values: &[&str]) -> Result<Items<Text>, AllocError>
    ensures { IfOk result (λ r. r ≡ map (λ v. v.now) values.now) }
{
    let mut texts = Items::new(alloc);
    for value in values {
        let value: &str = *value;
        texts.push(Text::of(alloc, value)?)?;
    }
    Ok(texts)
}

/// Copies of the values of an argument that must be there.
pub(crate) fn wanted_texts(
    alloc: Global,
    matches: &ArgMatches<'_>,
    id: &str,
) -> Result<Items<Text>, Unfound>
    ensures { IsFound (all_of id.now (rows_of (found_of matches.now))) result }
{
    match matches.get_strs(id) {
        Some(values) => Ok(copy_texts(alloc, values)?),
        None => Err(Unfound::Lacking),
    }
}

/// Copies of the values of an argument, none if it isn't used.
pub(crate) fn optional_texts(
    alloc: Global,
    matches: &ArgMatches<'_>,
    id: &str,
) -> Result<Items<Text>, AllocError>
    ensures { IfOk result (λ texts. texts ≡ all_or_none id.now (rows_of (found_of matches.now))) }
{
    match matches.get_strs(id) {
        Some(values) => copy_texts(alloc, values),
        None => Ok(Items::new(alloc)),
    }
}

/// Whether a flag is used.
pub(crate) fn is_used(matches: &ArgMatches<'_>, id: &str) -> bool
    ensures { result ≡ is_true (first_of id.now (rows_of (found_of matches.now))) }
{
    match text_in(matches, id) {
        Some(value) => value == "true",
        None => false,
    }
}

/// The number that a value is.
pub(crate) fn number_in(matches: &ArgMatches<'_>, id: &str) -> Option<u32>
    ensures { result ≡ number_in 32 id.now (rows_of (found_of matches.now)) }
{
    matches.get_one(id)
}

/// The profile whose number a text is.
pub(crate) fn profile_written(text: &str) -> Option<Profile>
    ensures { result ≡ profile_written text.now }
{
    match text.as_bytes() {
        [digit] => Profile::numbered(u64::from(digit.saturating_sub(b'0'))),
        _ => None,
    }
}

pub(crate) fn profile_in(matches: &ArgMatches<'_>) -> Option<Profile>
    ensures { result ≡ profile_in (rows_of (found_of matches.now)) }
{
    profile_written(text_in(matches, "PROFILE")?)
}
