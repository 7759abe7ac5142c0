//! The subcommand that replies to requests.

ghost use Rattle.std.specs.Prelude.{Some};
ghost use Rattle.clap.specs.Words.{found_of, rows_of};
ghost use Rattle.desk_line.specs.Calls.{script_in};
ghost use Rattle.desk_line.specs.Unfound.{IsFound};

use crate::call::Call;
use crate::values::{Unfound, is_used, optional_text};
use clap::ArgMatches;
use std::alloc::Global;

/// The call of `script`.
pub(crate) fn script_from(alloc: Global, matches: &ArgMatches<'_>) -> Result<Call, Unfound>
    ensures { IsFound (Some (script_in (rows_of (found_of matches.now)))) result }
{
    Ok(Call::Script {
        database: optional_text(alloc, matches, "FILE")?,
        explain: is_used(matches, "EXPLAIN"),
        stop: is_used(matches, "STOP"),
    })
}
