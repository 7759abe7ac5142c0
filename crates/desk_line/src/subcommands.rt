//! The program's command with its subcommands, as `clap` reads them.

ghost use Rattle.std.specs.Prelude.{◌≡◌, IfOk, false, map};
ghost use Rattle.std.specs.List.{All};
ghost use Rattle.clap.specs.Words.{app_of, new_app, shape_of};
ghost use Rattle.clap.specs.declared.builder.command.Command.TheViews.{out-Command};
ghost use Rattle.desk_line.specs.Calls.{kind_at};
ghost use Rattle.desk_line.specs.Rows.{kind_named, row_app, row_shape};
ghost use Rattle.desk_line.specs.Words.{desk_alone, desk_app};

use crate::arguments::{self, Argument, args};
use clap::Command;
use desk_help::Help;
use std::alloc::{AllocError, Global};

const VERSION: &str = "1.0.0 (tables 3)";

const ABOUT: &str = "Records what a firm owes when it ships open-source software";

const STATUSES: &str = "\
Statuses:
  0  done
  1  refused
  2  the command line is wrong
  3  no memory, or a file or stream failed";

/// Which subcommand it is.
#[derive(Clone, Copy)]
pub(crate) enum Kind {
    Check,
    Alternatives,
    Script,
    Do,
    Ask,
    Import,
    Catalogue,
    Notices,
    Duties,
    Totals,
    Changes,
    Audit,
    Migrate,
    Backup,
    Gather,
    Lint,
    Serve,
    Explain,
    Propose,
    Choices,
    Wanting,
    Ready,
    Gaps,
    List,
    Page,
    Convert,
    Texts,
    Credits,
}

/// A subcommand: its name, its arguments and its help.
#[derive(Clone, Copy)]
pub(crate) struct Subcommand {
    kind: Kind,
    name: &'static str,
    arguments: &'static [Argument],
    help: &'static Help,
}

macro_rules! subcommand {
    ($kind:ident, $name:literal, $arguments:ident, $help:ident) => {
        Subcommand {
            kind: Kind::$kind,
            name: $name,
            arguments: &arguments::$arguments,
            help: &desk_help::$help,
        }
    };
}

/// The subcommands.
const SUBCOMMANDS: [Subcommand; 28] = [
    subcommand!(Check, "check", CHECK, CHECK),
    subcommand!(Alternatives, "alternatives", ALTERNATIVES, ALTERNATIVES),
    subcommand!(Script, "script", SCRIPT, SCRIPT),
    subcommand!(Do, "do", REQUEST, DO),
    subcommand!(Ask, "ask", REQUEST, ASK),
    subcommand!(Import, "import", IMPORT, IMPORT),
    subcommand!(Catalogue, "catalogue", CATALOGUE, CATALOGUE),
    subcommand!(Notices, "notices", NOTICES, NOTICES),
    subcommand!(Duties, "duties", RELEASE, DUTIES),
    subcommand!(Totals, "totals", RELEASE, TOTALS),
    subcommand!(Changes, "changes", CHANGES, CHANGES),
    subcommand!(Audit, "audit", FILE, AUDIT),
    subcommand!(Migrate, "migrate", FILE, MIGRATE),
    subcommand!(Backup, "backup", BACKUP, BACKUP),
    subcommand!(Gather, "gather", GATHER, GATHER),
    subcommand!(Lint, "lint", LINT, LINT),
    subcommand!(Serve, "serve", SERVE, SERVE),
    subcommand!(Explain, "explain", NAMED, EXPLAIN),
    subcommand!(Propose, "propose", PROPOSE, PROPOSE),
    subcommand!(Choices, "choices", RELEASE, CHOICES),
    subcommand!(Wanting, "wanting", WANTING, WANTING),
    subcommand!(Ready, "ready", READY, READY),
    subcommand!(Gaps, "gaps", RELEASE, GAPS),
    subcommand!(List, "list", LIST, LISTS),
    subcommand!(Page, "page", RELEASE, PAGE),
    subcommand!(Convert, "convert", CONVERT, CONVERT),
    subcommand!(Texts, "texts", TEXTS, TEXTS),
    subcommand!(Credits, "credits", CREDITS, CREDITS),
];

/// The kind of the row with this name, if there is one.
fn kind_named(name: &str, rows: &[Subcommand]) -> Option<Kind>
    ensures { result ≡ kind_named name.now rows.now }
{
    for row in rows {
        if name == row.name {
            return Some(row.kind);
        }
    }
    None
}

/// The subcommand with this name, if there is one.
pub(crate) fn kind_at(name: &str) -> Option<Kind>
    ensures { result ≡ kind_at name.now }
{
    kind_named(name, &SUBCOMMANDS)
}

/// A command with a name and its help, and nothing else.
fn titled_command<'a>(alloc: Global, name: &'static str, help: &'static Help) -> Command<'a>
    ensures app { app_of result ≡ new_app name.now }
    ensures local { (out-Command result).has_globals ≡ false }
{
    Command::new(alloc, name)
        .about(help.about)
        .long_about(help.long_about)
        .after_help(help.after_help)
}

/// A subcommand as `clap` reads it.
fn command<'a>(alloc: Global, row: &Subcommand) -> Result<Command<'a>, AllocError>
    ensures shape { IfOk result (λ c. app_of c ≡ row_app row.now) }
    ensures local { IfOk result (λ c. (out-Command c).has_globals ≡ false) }
{
    let args = args(alloc, row.arguments)?;
    titled_command(alloc, row.name, row.help).args(args)
}

/// Subcommands as `clap` reads them.
fn commands<'a>(alloc: Global, rows: &[Subcommand]) -> Result<Vec<Command<'a>>, AllocError>
    ensures shapes { IfOk result (λ cs. map shape_of cs.items ≡ map row_shape rows.now) }
    ensures local { IfOk result (λ cs. All (λ c. (out-Command c).has_globals ≡ false) cs.items) }
{
    let mut commands = Vec::new(alloc);
    for row in rows {
        commands.push(command(alloc, row)?)?;
    }
    Ok(commands)
}

/// The program's command with no subcommand.
fn desk_alone<'a>(alloc: Global) -> Command<'a>
    ensures app { app_of result ≡ desk_alone }
    ensures local { (out-Command result).has_globals ≡ false }
{
    Command::new(alloc, "desk")
        .version(VERSION)
        .about(ABOUT)
        .after_help(STATUSES)
        .subcommand_required(true)
        .arg_required_else_help(true)
}

/// The whole command.
pub(crate) fn desk_command<'a>(alloc: Global) -> Result<Command<'a>, AllocError>
    ensures shape { IfOk result (λ c. app_of c ≡ desk_app) }
    ensures local { IfOk result (λ c. (out-Command c).has_globals ≡ false) }
{
    let commands = commands(alloc, &SUBCOMMANDS)?;
    desk_alone(alloc).subcommands(commands)
}
