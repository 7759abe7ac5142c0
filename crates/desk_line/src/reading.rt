//! Reads the words of the command line.

ghost use Rattle.std.specs.Prelude.{◌≡◌, Some, IfOk, IfErr, map};
ghost use Rattle.clap.specs.Words.{IsAmong, subcommand_rows_of};
ghost use Rattle.desk_line.specs.Calls.{call_at, call_of, lacking, IsFault, IsFaultOf, IsLack, IsLackOf};
ghost use Rattle.desk_line.specs.Unfound.{IsFound};

use crate::call::{Call, LineFault};
use crate::calls::call_from;
use crate::subcommands::desk_command;
use crate::values::Unfound;
use clap::error::ErrorKind;
use clap::{ArgMatches, Command, Error};
use std::alloc::{AllocError, Global};

const NO_SUBCOMMAND: &str = "a subcommand is required";

const NO_FIELD: &str = "a value of --name, --namespace or --created does not fit its field: it \
has a line feed or a blank at an end, or begins with <text>";

const NO_LIST: &str =
    "WHAT is releases, documents or duties; --release, --code, --open and --past go \
with duties; DAY is a day as YYYY-MM-DD";

const NO_PROPOSALS: &str =
    "with --db, DOC is a document's number, and --profile and --document are \
not given; without --db, --document is given, and --profile is 1 or 2";

const NO_PROFILE: &str = "the value of --profile is 1 or 2";

impl From<AllocError> for LineFault {
    ghost use Rattle.desk_line.specs.declared.call.LineFault.TheVariants.{Memory};

    ghost from_gives = { λ error fault. fault ≡ Memory error };

    fn from(error: AllocError) -> LineFault {
        LineFault::Memory(error)
    }
}

/// The call of the subcommand that was found.
fn call_found(alloc: Global, matches: &ArgMatches<'_>) -> Result<Call, Unfound>
    ensures { IsFound (call_at (subcommand_rows_of matches.now)) result }
{
    match matches.subcommand() {
        Some((name, inner)) => call_from(alloc, name, inner),
        None => Err(Unfound::Lacking),
    }
}

/// Why the subcommand that was found is no call, with the words for the user.
fn lacking(matches: &ArgMatches<'_>) -> (ErrorKind, &'static str)
    ensures { IsAmong result.0 (lacking (subcommand_rows_of matches.now)) }
{
    match matches.subcommand() {
        Some((name, _)) if name == "gather" => (ErrorKind::InvalidValue, NO_FIELD),
        Some((name, _)) if name == "list" => (ErrorKind::InvalidValue, NO_LIST),
        Some((name, _)) if name == "propose" => (ErrorKind::InvalidValue, NO_PROPOSALS),
        Some(_) => (ErrorKind::InvalidValue, NO_PROFILE),
        None => (ErrorKind::MissingSubcommand, NO_SUBCOMMAND),
    }
}

/// Why `clap` did not accept the words.
fn refusal(error: Error) -> LineFault
    ensures { IsFaultOf error result }
{
    match error.kind() {
        ErrorKind::OutOfMemory => LineFault::Memory(AllocError),
        _ => LineFault::Usage(error),
    }
}

/// Why the subcommand that was found is no call, as an error of the command that found it.
fn lack(command: &mut Command<'_>, matches: &ArgMatches<'_>) -> LineFault
    ensures { IsLack (lacking (subcommand_rows_of matches.now)) result }
{
    let (kind, message) = lacking(matches);
    match command.error(kind, message) {
        Ok(error) => refusal(error),
        Err(error) => LineFault::Memory(error),
    }
}

/// The call of what a command found, or why that is none.
fn call_or_lack(
    alloc: Global,
    command: &mut Command<'_>,
    matches: &ArgMatches<'_>,
) -> Result<Call, LineFault>
    ensures call { IfOk result (λ call. call_at (subcommand_rows_of matches.now) ≡ Some call) }
    ensures fault { IfErr result (IsLackOf (subcommand_rows_of matches.now)) }
{
    match call_found(alloc, matches) {
        Ok(call) => Ok(call),
        Err(Unfound::Lacking) => Err(lack(command, matches)),
        Err(Unfound::Memory) => Err(LineFault::Memory(AllocError)),
    }
}

/// What the words ask for; the first of them is the program's name.
pub fn line<'a>(alloc: Global, words: &'a [&'a str]) -> Result<Call, LineFault>
    ensures call { IfOk result (λ call. call_of (map (λ w. w.now) words.entry.now) ≡ Some call) }
    ensures fault { IfErr result (IsFault (map (λ w. w.now) words.entry.now)) }
{
    let mut command = desk_command(alloc)?;
    match command.try_get_matches_from_mut(words) {
        Ok(matches) => call_or_lack(alloc, &mut command, &matches),
        Err(error) => Err(refusal(error)),
    }
}
