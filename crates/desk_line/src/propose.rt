//! The subcommand that proposes conclusions and choices for the packages of a document.

ghost use Rattle.std.specs.Prelude.{◌≡◌, codes, option_and_then, option_map};
ghost use Rattle.clap.specs.Words.{first_of, found_of, rows_of};
ghost use Rattle.desk_line.specs.Calls.{filed_proposals_in, has_reading, held_proposals_in, profile_if_given, propose_in};
ghost use Rattle.desk_line.specs.Numbers.{number_written};
ghost use Rattle.desk_line.specs.Unfound.{IsFound};

use crate::call::{Call, FileCall};
use crate::values::{Unfound, is_used, number_in, profile_written, require, text_in, wanted_text};
use clap::ArgMatches;
use desk_base::{Profile, Text};
use std::alloc::Global;

/// The number that a text is.
fn number_written(text: &str) -> Option<u32>
    ensures { result ≡ number_written 32 text.now }
{
    text.parse::<u32>().ok()
}

/// The number of a document that a desk holds.
fn document_in(matches: &ArgMatches<'_>) -> Option<u32>
    ensures { result ≡ option_and_then (number_written 32)
        (first_of (codes "DOC") (rows_of (found_of matches.now))) }
{
    number_written(text_in(matches, "DOC")?)
}

/// The profile whose number a value is, or capitals if there is no value.
fn profile_if_given(value: Option<&str>) -> Option<Profile>
    ensures { result ≡ profile_if_given (option_map (λ s. s.now) value.entry) }
{
    match value {
        Some(text) => profile_written(text),
        None => Some(Profile::Capitals),
    }
}

/// Whether a value is given that only the file of a document needs.
fn has_reading(matches: &ArgMatches<'_>) -> bool
    ensures { result ≡ has_reading (rows_of (found_of matches.now)) }
{
    number_in(matches, "N").is_some() || text_in(matches, "PROFILE").is_some()
}

/// The proposals for a document held by the desk in a file.
fn held_proposals_from(
    alloc: Global,
    database: &str,
    matches: &ArgMatches<'_>,
) -> Result<Call, Unfound>
    ensures { IsFound (held_proposals_in database.now (rows_of (found_of matches.now))) result }
{
    if has_reading(matches) {
        return Err(Unfound::Lacking);
    }
    let document = require(document_in(matches))?;
    let database = Text::of(alloc, database)?;
    let explain = is_used(matches, "EXPLAIN");
    let call = FileCall::Proposals { document, explain };
    Ok(Call::File { database, call })
}

/// The proposals for a document in a file of its own.
fn filed_proposals_from(alloc: Global, matches: &ArgMatches<'_>) -> Result<Call, Unfound>
    ensures { IsFound (filed_proposals_in (rows_of (found_of matches.now))) result }
{
    let number = require(number_in(matches, "N"))?;
    let profile = require(profile_if_given(text_in(matches, "PROFILE")))?;
    let document = wanted_text(alloc, matches, "DOC")?;
    Ok(Call::Propose {
        document,
        number,
        profile,
        explain: is_used(matches, "EXPLAIN"),
    })
}

/// The call of `propose`.
pub(crate) fn propose_from(alloc: Global, matches: &ArgMatches<'_>) -> Result<Call, Unfound>
    ensures { IsFound (propose_in (rows_of (found_of matches.now))) result }
{
    match text_in(matches, "FILE") {
        Some(database) => held_proposals_from(alloc, database, matches),
        None => filed_proposals_from(alloc, matches),
    }
}
