//! The subcommands that write entries for `--fill`.

ghost use Rattle.clap.specs.Words.{found_of, rows_of};
ghost use Rattle.desk_line.specs.Calls.{credits_in, texts_in};
ghost use Rattle.desk_line.specs.Unfound.{IsFound};

use crate::call::{Call, Package};
use crate::values::{Unfound, optional_text, wanted_text};
use clap::ArgMatches;
use std::alloc::Global;

/// The call of `texts`.
pub(crate) fn texts_from(alloc: Global, matches: &ArgMatches<'_>) -> Result<Call, Unfound>
    ensures { IsFound (texts_in (rows_of (found_of matches.now))) result }
{
    Ok(Call::Texts {
        folder: wanted_text(alloc, matches, "DIR")?,
    })
}

/// The call of `credits`.
pub(crate) fn credits_from(alloc: Global, matches: &ArgMatches<'_>) -> Result<Call, Unfound>
    ensures { IsFound (credits_in (rows_of (found_of matches.now))) result }
{
    Ok(Call::Credits {
        folder: wanted_text(alloc, matches, "DIR")?,
        package: Package {
            name: wanted_text(alloc, matches, "NAME")?,
            version: optional_text(alloc, matches, "VERSION")?,
        },
    })
}
