//! The subcommands that need no desk and no tree: about the terms of a licence expression, the form
//! of a document, and what a name means.

ghost use Rattle.clap.specs.Words.{found_of, rows_of};
ghost use Rattle.desk_line.specs.Calls.{alternatives_in, check_in, convert_in, explain_in};
ghost use Rattle.desk_line.specs.Unfound.{IsFound};

use crate::call::Call;
use crate::values::{Unfound, is_used, profile_in, require, wanted_text, wanted_texts};
use clap::ArgMatches;
use std::alloc::Global;

/// The call of `check`.
pub(crate) fn check_from(alloc: Global, matches: &ArgMatches<'_>) -> Result<Call, Unfound>
    ensures { IsFound (check_in (rows_of (found_of matches.now))) result }
{
    let profile = require(profile_in(matches))?;
    let expression = wanted_text(alloc, matches, "EXPR")?;
    let terms = wanted_texts(alloc, matches, "TERM")?;
    Ok(Call::Check {
        expression,
        profile,
        terms,
    })
}

/// The call of `alternatives`.
pub(crate) fn alternatives_from(alloc: Global, matches: &ArgMatches<'_>) -> Result<Call, Unfound>
    ensures { IsFound (alternatives_in (rows_of (found_of matches.now))) result }
{
    let profile = require(profile_in(matches))?;
    let expression = wanted_text(alloc, matches, "EXPR")?;
    Ok(Call::Alternatives {
        expression,
        profile,
    })
}

/// The call of `convert`.
pub(crate) fn convert_from(alloc: Global, matches: &ArgMatches<'_>) -> Result<Call, Unfound>
    ensures { IsFound (convert_in (rows_of (found_of matches.now))) result }
{
    let document = wanted_text(alloc, matches, "JSON")?;
    let no_files = is_used(matches, "NOFILES");
    Ok(Call::Convert { document, no_files })
}

/// The call of `explain`.
pub(crate) fn explain_from(alloc: Global, matches: &ArgMatches<'_>) -> Result<Call, Unfound>
    ensures { IsFound (explain_in (rows_of (found_of matches.now))) result }
{
    let name = wanted_text(alloc, matches, "NAME")?;
    Ok(Call::Explain { name })
}
