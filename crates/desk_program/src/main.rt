//! The licence obligation desk as a program.
//!
//! `line` of `desk_line` reads the words, a function of `desk_subcommands` does what they ask for,
//! and its result is the program's status: 0 done, 1 refused. Words that are no command line give
//! 2; 3 means that no memory was left, or that a file or stream failed.
#![tactic(auto)]

mod database;
mod looking;
mod scripts;
mod serving;
mod summaries;
mod tasks;
mod upkeep;

use crate::scripts::Course;
use desk_base::{Profile, Text};
use desk_core::desk::MemDesk;
use desk_explain::TABLES;
use desk_files::{convert, document_at, teller};
use desk_import::Intake;
use desk_line::{Call, LineFault, Package, line};
use desk_subcommands::{Failure, alternatives, tell_look};
use desk_texts::Standard;
use std::alloc::{AllocError, Global};
use std::io::{BufWriter, IsTerminal};
use std::mem::ManuallyDrop;
use std::process::ExitCode;
use std::{env, io};

/// The status of what is refused.
pub(crate) const REFUSED: u8 = 1;

/// The status of words that are no command line.
pub(crate) const USAGE: u8 = 2;

/// The status if something of the surroundings failed.
pub(crate) const FAILED: u8 = 3;

/// Does what the words ask for, and returns the status. If standard error is a terminal, progress
/// is reported there.
fn run(rt: &HostRuntime, is_watched: bool) -> Result<u8, Failure> {
    let alloc = rt.alloc();
    let owned = match env::args(rt) {
        Ok(owned) => owned.collect::<Vec<String>>(alloc)?,
        Err(error) => return untold(rt, error),
    };
    let words: Vec<&str> = owned.iter().map(|word| word.as_str()).collect(alloc)?;
    match line(alloc, words.as_slice()) {
        Ok(call) => {
            let told = answer(rt, alloc, &call, is_watched);
            drop(call);
            told
        }
        Err(LineFault::Memory(error)) => Err(Failure::from(error)),
        Err(LineFault::Usage(error)) => {
            error.print(rt)?;
            Ok(if error.use_stderr() { USAGE } else { 0 })
        }
    }
}

/// The status if the words of the command line could not be read.
fn untold(rt: &impl Eprint, error: io::Error) -> Result<u8, Failure> {
    match error.kind() {
        io::ErrorKind::OutOfMemory => Err(Failure::from(AllocError)),
        _ => {
            eprintln!(rt; "error: a word of the command line is not UTF-8")?;
            Ok(USAGE)
        }
    }
}

/// Judges a choice of terms.
fn check<R: Print>(
    rt: &R,
    alloc: Global,
    expression: &str,
    profile: Profile,
    terms: &[Text],
) -> Result<u8, Failure> {
    let words: Vec<&str> = terms.iter().map(|term| term.as_str()).collect(alloc)?;
    desk_subcommands::check(
        alloc,
        expression,
        profile,
        words.as_slice(),
        &mut io::writer(rt),
    )
}

/// Replies to the requests of standard input on a desk in memory.
fn script_in_memory(rt: &HostRuntime, alloc: Global, course: Course) -> Result<u8, Failure> {
    desk_files::keep_large(alloc);
    // The process ends with the script, so the desk is left to the system instead of being freed
    // row by row.
    let mut desk = ManuallyDrop::new(MemDesk::new(alloc, Standard));
    let mut writer = BufWriter::new(alloc, io::writer(rt))?;
    scripts::script(rt, &mut *desk, &mut rt.reader(), &mut writer, course)
}

/// Replies to the requests of standard input on the desk that a file keeps, or on one in memory.
fn script(
    rt: &HostRuntime,
    alloc: Global,
    database: &Option<Text>,
    course: Course,
) -> Result<u8, Failure> {
    match database {
        Some(path) => database::script(rt, path.as_str(), course),
        None => script_in_memory(rt, alloc, course),
    }
}

/// Writes the credit of a package from the notices of its source tree.
fn credits(
    rt: &HostRuntime,
    folder: &str,
    package: &Package,
    is_watched: bool,
) -> Result<u8, Failure> {
    let version = package.version.as_ref();
    desk_files::credits(rt, folder, package.name.as_str(), version, is_watched)
}

/// Writes what a name means.
fn explain<R: Print>(rt: &R, alloc: Global, name: &str) -> Result<u8, Failure> {
    desk_subcommands::explain(alloc, &TABLES, name, &mut io::writer(rt))
}

/// Writes the conclusions that are proposed for a document, which the desk knows by this number. Why
/// there are none is explained if that is asked for, or somebody watches.
fn propose(
    rt: &HostRuntime,
    path: &str,
    number: u32,
    profile: Profile,
    explain: bool,
) -> Result<u8, Failure> {
    let Intake { bytes, .. } = document_at(rt, path, profile, true)?;
    let status = desk_views::propose(
        rt.alloc(),
        &Standard,
        number,
        bytes.as_slice(),
        profile,
        &mut io::writer(rt),
        &mut rt.stderr(),
    )?;
    if status == REFUSED {
        // If that can't be reported, the reply is still written.
        let _told = tell_look(rt.alloc(), bytes.as_slice(), &mut rt.stderr());
        let teller = &mut teller(rt, explain);
        desk_views::explain_document(rt.alloc(), &Standard, bytes.as_slice(), teller);
    }
    Ok(status)
}

fn answer(rt: &HostRuntime, alloc: Global, call: &Call, is_watched: bool) -> Result<u8, Failure> {
    match call {
        Call::Check {
            expression,
            profile,
            terms,
        } => check(rt, alloc, expression.as_str(), *profile, terms.as_slice()),
        Call::Alternatives {
            expression,
            profile,
        } => alternatives(alloc, expression.as_str(), *profile, &mut io::writer(rt)),
        Call::Script {
            database,
            explain,
            stop,
        } => {
            let course = Course {
                is_explained: *explain || is_watched,
                is_stopped: *stop,
            };
            script(rt, alloc, database, course)
        }
        Call::File { database, call } => database::answer(rt, database.as_str(), call),
        Call::Gather {
            folder,
            name,
            namespace,
            created,
        } => desk_files::gather(rt, folder, name, namespace, created, is_watched),
        Call::Lint { folder, json } => desk_files::lint(rt, folder.as_str(), *json, is_watched),
        Call::Convert { document, no_files } => convert(rt, document.as_str(), *no_files),
        Call::Texts { folder } => desk_files::texts(rt, folder.as_str(), is_watched),
        Call::Credits { folder, package } => credits(rt, folder.as_str(), package, is_watched),
        Call::Explain { name } => explain(rt, alloc, name.as_str()),
        Call::Propose {
            document,
            number,
            profile,
            explain,
        } => propose(rt, document.as_str(), *number, *profile, *explain),
    }
}

/// Whether nobody reads the output any more, as with `| head`.
fn is_unread(failure: &Failure) -> bool {
    match failure {
        Failure::Write(error) => error.kind() == io::ErrorKind::BrokenPipe,
        _ => false,
    }
}

fn main(rt: HostRuntime) -> ExitCode {
    let is_watched = rt.stderr().is_terminal();
    match run(&rt, is_watched) {
        Ok(status) => ExitCode::from(status),
        Err(failure) => {
            if !is_unread(&failure) {
                // If writing to standard error fails too, there is nobody left to tell.
                let _told = eprintln!(rt; "error: {failure}");
            }
            ExitCode::from(failure.status())
        }
    }
}
