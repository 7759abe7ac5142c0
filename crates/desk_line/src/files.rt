//! The subcommands that change, audit, migrate or serve the file that keeps a desk.

ghost use Rattle.std.specs.Prelude.{◌≡◌, codes};
ghost use Rattle.clap.specs.Words.{found_of, rows_of};
ghost use Rattle.desk_line.specs.Calls.{ask_in, audit_in, backup_in, do_in, catalogue_in, import_in, migrate_in, number_in, serve_in};
ghost use Rattle.desk_line.specs.Unfound.{IsFound};

use crate::call::{Call, FileCall};
use crate::values::{Unfound, is_used, number_in, profile_in, require, wanted_text, wanted_texts};
use clap::ArgMatches;
use std::alloc::Global;

/// The call of `do`.
pub(crate) fn do_from(alloc: Global, matches: &ArgMatches<'_>) -> Result<Call, Unfound>
    ensures { IsFound (do_in (rows_of (found_of matches.now))) result }
{
    let database = wanted_text(alloc, matches, "FILE")?;
    let words = wanted_texts(alloc, matches, "WORD")?;
    let json = is_used(matches, "JSON");
    let call = FileCall::Do { words, json };
    Ok(Call::File { database, call })
}

/// The call of `ask`.
pub(crate) fn ask_from(alloc: Global, matches: &ArgMatches<'_>) -> Result<Call, Unfound>
    ensures { IsFound (ask_in (rows_of (found_of matches.now))) result }
{
    let database = wanted_text(alloc, matches, "FILE")?;
    let words = wanted_texts(alloc, matches, "WORD")?;
    let json = is_used(matches, "JSON");
    let call = FileCall::Ask { words, json };
    Ok(Call::File { database, call })
}

/// The call of `import`.
pub(crate) fn import_from(alloc: Global, matches: &ArgMatches<'_>) -> Result<Call, Unfound>
    ensures { IsFound (import_in (rows_of (found_of matches.now))) result }
{
    let database = wanted_text(alloc, matches, "FILE")?;
    let profile = require(profile_in(matches))?;
    let document = wanted_text(alloc, matches, "DOC")?;
    let call = FileCall::Import {
        document,
        profile,
        no_files: is_used(matches, "NOFILES"),
        explain: is_used(matches, "EXPLAIN"),
    };
    Ok(Call::File { database, call })
}

/// The call of `catalogue`.
pub(crate) fn catalogue_from(alloc: Global, matches: &ArgMatches<'_>) -> Result<Call, Unfound>
    ensures { IsFound (catalogue_in (rows_of (found_of matches.now))) result }
{
    let database = wanted_text(alloc, matches, "FILE")?;
    let catalogue = wanted_text(alloc, matches, "TOML")?;
    let call = FileCall::Catalogue { catalogue };
    Ok(Call::File { database, call })
}

/// The call of `audit`.
pub(crate) fn audit_from(alloc: Global, matches: &ArgMatches<'_>) -> Result<Call, Unfound>
    ensures { IsFound (audit_in (rows_of (found_of matches.now))) result }
{
    let database = wanted_text(alloc, matches, "FILE")?;
    let call = FileCall::Audit;
    Ok(Call::File { database, call })
}

/// The call of `migrate`.
pub(crate) fn migrate_from(alloc: Global, matches: &ArgMatches<'_>) -> Result<Call, Unfound>
    ensures { IsFound (migrate_in (rows_of (found_of matches.now))) result }
{
    let database = wanted_text(alloc, matches, "FILE")?;
    let call = FileCall::Migrate;
    Ok(Call::File { database, call })
}

/// The call of `backup`.
pub(crate) fn backup_from(alloc: Global, matches: &ArgMatches<'_>) -> Result<Call, Unfound>
    ensures { IsFound (backup_in (rows_of (found_of matches.now))) result }
{
    let database = wanted_text(alloc, matches, "FILE")?;
    let copy = wanted_text(alloc, matches, "TO")?;
    let call = FileCall::Backup { copy };
    Ok(Call::File { database, call })
}

fn port_in(matches: &ArgMatches<'_>) -> Option<u16>
    ensures { result ≡ number_in 16 (codes "PORT") (rows_of (found_of matches.now)) }
{
    matches.get_one("PORT")
}

/// The call of `serve`.
pub(crate) fn serve_from(alloc: Global, matches: &ArgMatches<'_>) -> Result<Call, Unfound>
    ensures { IsFound (serve_in (rows_of (found_of matches.now))) result }
{
    let database = wanted_text(alloc, matches, "FILE")?;
    let port = require(port_in(matches))?;
    let limit = require(number_in(matches, "N"))?;
    let call = FileCall::Serve { port, limit };
    Ok(Call::File { database, call })
}
