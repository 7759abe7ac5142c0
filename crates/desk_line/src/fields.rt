//! The values of a document's fields.

ghost use Rattle.std.specs.Prelude.{◌≡◌, ◌==◌, option_map};
ghost use Rattle.std.specs.List.{list_any};
ghost use Rattle.clap.specs.Words.{found_of, rows_of};
ghost use Rattle.desk_line.specs.Fields.{begins_otherwise, ends_otherwise, can_stand};
ghost use Rattle.desk_line.specs.Calls.{field_in};
ghost use Rattle.desk_line.specs.Unfound.{IsFound};

use crate::values::{Unfound, require, text_in};
use clap::ArgMatches;
use desk_base::Text;
use std::alloc::Global;

fn has_feed(value: &[u8]) -> bool
    ensures { result ≡ list_any (λ b. b == 10) value.now }
{
    value.iter().any(|byte| *byte == b'\n')
}

fn begins_otherwise(value: &[u8]) -> bool
    ensures { result ≡ begins_otherwise value.now }
{
    value.starts_with(b" ") || value.starts_with(b"\t") || value.starts_with(b"<text>")
}

fn ends_otherwise(value: &[u8]) -> bool
    ensures { result ≡ ends_otherwise value.now }
{
    value.ends_with(b" ") || value.ends_with(b"\t") || value.ends_with(b"\r")
}

// Whether a value can be written in a field of one line.
fn can_stand(value: &[u8]) -> bool
    ensures { result ≡ can_stand value.now }
{
    !has_feed(value) && !begins_otherwise(value) && !ends_otherwise(value)
}

/// A value that can be written in a field, or `None` if it can't or isn't given.
fn field_in<'a>(matches: &ArgMatches<'a>, id: &str) -> Option<&'a str>
    ensures { option_map (λ s. s.now) result ≡ field_in id.now (rows_of (found_of matches.now)) }
{
    let value = text_in(matches, id)?;
    if can_stand(value.as_bytes()) {
        Some(value)
    } else {
        None
    }
}

/// A copy of a value that must be there and can be written in a field.
pub(crate) fn wanted_field(
    alloc: Global,
    matches: &ArgMatches<'_>,
    id: &str,
) -> Result<Text, Unfound>
    ensures { IsFound (field_in id.now (rows_of (found_of matches.now))) result }
{
    let value = require(field_in(matches, id))?;
    Ok(Text::of(alloc, value)?)
}
