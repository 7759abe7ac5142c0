//! The subcommands that write what a desk in a file holds of a release or of a duty.

ghost use Rattle.clap.specs.Words.{found_of, rows_of};
ghost use Rattle.desk_line.specs.Calls.{changes_in, choices_in, duties_in, gaps_in, notices_in, page_in, ready_in, release_in, totals_in, wanting_in};
ghost use Rattle.desk_line.specs.Unfound.{IsFound};

use crate::call::{Call, FileCall};
use crate::values::{
    Unfound, is_used, number_in, optional_text, optional_texts, require, wanted_text,
};
use clap::ArgMatches;
use desk_base::Text;
use std::alloc::Global;

/// The file that keeps the desk, and a release.
#[derive(Drop)]
struct Release {
    database: Text,
    release: Text,
}

fn release_in(alloc: Global, matches: &ArgMatches<'_>) -> Result<Release, Unfound>
    ensures { IsFound (release_in (rows_of (found_of matches.now))) result }
{
    let database = wanted_text(alloc, matches, "FILE")?;
    let release = wanted_text(alloc, matches, "RELEASE")?;
    Ok(Release { database, release })
}

/// The call of `notices`.
pub(crate) fn notices_from(alloc: Global, matches: &ArgMatches<'_>) -> Result<Call, Unfound>
    ensures { IsFound (notices_in (rows_of (found_of matches.now))) result }
{
    let Release { database, release } = release_in(alloc, matches)?;
    let call = FileCall::Notices {
        release,
        fills: optional_texts(alloc, matches, "EXTRA")?,
        is_complete: is_used(matches, "COMPLETE"),
        explain: is_used(matches, "EXPLAIN"),
    };
    Ok(Call::File { database, call })
}

/// The call of `duties`.
pub(crate) fn duties_from(alloc: Global, matches: &ArgMatches<'_>) -> Result<Call, Unfound>
    ensures { IsFound (duties_in (rows_of (found_of matches.now))) result }
{
    let Release { database, release } = release_in(alloc, matches)?;
    let call = FileCall::Duties(release);
    Ok(Call::File { database, call })
}

/// The call of `totals`.
pub(crate) fn totals_from(alloc: Global, matches: &ArgMatches<'_>) -> Result<Call, Unfound>
    ensures { IsFound (totals_in (rows_of (found_of matches.now))) result }
{
    let Release { database, release } = release_in(alloc, matches)?;
    let call = FileCall::Totals(release);
    Ok(Call::File { database, call })
}

/// The call of `page`.
pub(crate) fn page_from(alloc: Global, matches: &ArgMatches<'_>) -> Result<Call, Unfound>
    ensures { IsFound (page_in (rows_of (found_of matches.now))) result }
{
    let Release { database, release } = release_in(alloc, matches)?;
    let call = FileCall::Page(release);
    Ok(Call::File { database, call })
}

/// The call of `choices`.
pub(crate) fn choices_from(alloc: Global, matches: &ArgMatches<'_>) -> Result<Call, Unfound>
    ensures { IsFound (choices_in (rows_of (found_of matches.now))) result }
{
    let Release { database, release } = release_in(alloc, matches)?;
    let call = FileCall::Choices(release);
    Ok(Call::File { database, call })
}

/// The call of `wanting`.
pub(crate) fn wanting_from(alloc: Global, matches: &ArgMatches<'_>) -> Result<Call, Unfound>
    ensures { IsFound (wanting_in (rows_of (found_of matches.now))) result }
{
    let Release { database, release } = release_in(alloc, matches)?;
    let explain = is_used(matches, "EXPLAIN");
    let call = FileCall::Wanting { release, explain };
    Ok(Call::File { database, call })
}

/// The call of `ready`.
pub(crate) fn ready_from(alloc: Global, matches: &ArgMatches<'_>) -> Result<Call, Unfound>
    ensures { IsFound (ready_in (rows_of (found_of matches.now))) result }
{
    let Release { database, release } = release_in(alloc, matches)?;
    let day = optional_text(alloc, matches, "DAY")?;
    let call = FileCall::Ready { release, day };
    Ok(Call::File { database, call })
}

/// The call of `gaps`.
pub(crate) fn gaps_from(alloc: Global, matches: &ArgMatches<'_>) -> Result<Call, Unfound>
    ensures { IsFound (gaps_in (rows_of (found_of matches.now))) result }
{
    let Release { database, release } = release_in(alloc, matches)?;
    let call = FileCall::Gaps(release);
    Ok(Call::File { database, call })
}

/// The call of `changes`.
pub(crate) fn changes_from(alloc: Global, matches: &ArgMatches<'_>) -> Result<Call, Unfound>
    ensures { IsFound (changes_in (rows_of (found_of matches.now))) result }
{
    let database = wanted_text(alloc, matches, "FILE")?;
    let duty = require(number_in(matches, "DUTY"))?;
    let call = FileCall::Changes(duty);
    Ok(Call::File { database, call })
}
