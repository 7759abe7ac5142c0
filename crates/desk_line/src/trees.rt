//! The subcommands that read a source tree.

ghost use Rattle.clap.specs.Words.{found_of, rows_of};
ghost use Rattle.desk_line.specs.Calls.{gather_in, lint_in};
ghost use Rattle.desk_line.specs.Unfound.{IsFound};

use crate::call::Call;
use crate::fields::wanted_field;
use crate::values::{Unfound, is_used, wanted_text};
use clap::ArgMatches;
use std::alloc::Global;

/// The call of `gather`.
pub(crate) fn gather_from(alloc: Global, matches: &ArgMatches<'_>) -> Result<Call, Unfound>
    ensures { IsFound (gather_in (rows_of (found_of matches.now))) result }
{
    Ok(Call::Gather {
        folder: wanted_text(alloc, matches, "DIR")?,
        name: wanted_field(alloc, matches, "NAME")?,
        namespace: wanted_field(alloc, matches, "NAMESPACE")?,
        created: wanted_field(alloc, matches, "CREATED")?,
    })
}

/// The call of `lint`.
pub(crate) fn lint_from(alloc: Global, matches: &ArgMatches<'_>) -> Result<Call, Unfound>
    ensures { IsFound (lint_in (rows_of (found_of matches.now))) result }
{
    let json = is_used(matches, "JSON");
    let folder = wanted_text(alloc, matches, "DIR")?;
    Ok(Call::Lint { folder, json })
}
