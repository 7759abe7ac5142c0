//! The subcommand that lists what a desk holds.

ghost use Rattle.std.specs.Prelude.{◌≡◌, IfOk, option_map};
ghost use Rattle.clap.specs.Words.{found_of, rows_of};
ghost use Rattle.desk_base.specs.Day.{is_day};
ghost use Rattle.desk_line.specs.Calls.{filter_in, has_filter, is_day_if_given, list_in, listed_as, listed_in};
ghost use Rattle.desk_line.specs.Unfound.{IsFound};

use crate::call::{Call, FileCall, Listed};
use crate::values::{Unfound, is_used, optional_text, require, text_in, wanted_text};
use clap::ArgMatches;
use desk_base::{Day, Text};
use std::alloc::{AllocError, Global};

/// Which duties are listed.
#[derive(Drop)]
pub(crate) struct Filter {
    release: Option<Text>,
    code: Option<Text>,
    is_open: bool,
    past: Option<Text>,
}

fn filter_in(alloc: Global, matches: &ArgMatches<'_>) -> Result<Filter, AllocError>
    ensures { IfOk result (λ filter. filter ≡ filter_in (rows_of (found_of matches.now))) }
{
    Ok(Filter {
        release: optional_text(alloc, matches, "RELEASE")?,
        code: optional_text(alloc, matches, "CODE")?,
        is_open: is_used(matches, "OPEN"),
        past: optional_text(alloc, matches, "DAY")?,
    })
}

fn has_filter(filter: &Filter) -> bool
    ensures { result ≡ has_filter filter.now }
{
    filter.release.is_some() || filter.code.is_some() || filter.is_open || filter.past.is_some()
}

fn is_day(text: &str) -> bool
    ensures { result ≡ is_day text.now }
{
    Day::parse(text).is_some()
}

fn is_day_if_given(value: Option<&str>) -> bool
    ensures { result ≡ is_day_if_given (option_map (λ s. s.now) value.entry) }
{
    match value {
        Some(text) => is_day(text),
        None => true,
    }
}

/// What a word says is to be listed, or `None`; filters are for duties alone.
fn listed_as(what: &str, filter: Filter) -> Option<Listed>
    ensures { result ≡ listed_as what.now filter }
{
    if what == "duties" {
        let Filter {
            release,
            code,
            is_open,
            past,
        } = filter;
        return Some(Listed::Duties {
            release,
            code,
            is_open,
            past,
        });
    }
    if has_filter(&filter) {
        return None;
    }
    if what == "releases" {
        return Some(Listed::Releases);
    }
    if what == "documents" {
        return Some(Listed::Documents);
    }
    None
}

fn listed_in(alloc: Global, matches: &ArgMatches<'_>) -> Result<Listed, Unfound>
    ensures { IsFound (listed_in (rows_of (found_of matches.now))) result }
{
    if !is_day_if_given(text_in(matches, "DAY")) {
        return Err(Unfound::Lacking);
    }
    let what = require(text_in(matches, "WHAT"))?;
    let filter = filter_in(alloc, matches)?;
    require(listed_as(what, filter))
}

/// The call of `list`.
pub(crate) fn list_from(alloc: Global, matches: &ArgMatches<'_>) -> Result<Call, Unfound>
    ensures { IsFound (list_in (rows_of (found_of matches.now))) result }
{
    let list = listed_in(alloc, matches)?;
    let database = wanted_text(alloc, matches, "FILE")?;
    let call = FileCall::List { list };
    Ok(Call::File { database, call })
}
