//! The call of a subcommand.

ghost use Rattle.std.specs.Prelude.{◌≡◌};
ghost use Rattle.clap.specs.Words.{found_of, rows_of};
ghost use Rattle.desk_line.specs.Calls.{call_in};
ghost use Rattle.desk_line.specs.Unfound.{IsFound};

use crate::call::Call;
use crate::entries::{credits_from, texts_from};
use crate::files::{
    ask_from, audit_from, backup_from, catalogue_from, do_from, import_from, migrate_from,
    serve_from,
};
use crate::lists::list_from;
use crate::propose::propose_from;
use crate::reports::{
    changes_from, choices_from, duties_from, gaps_from, notices_from, page_from, ready_from,
    totals_from, wanting_from,
};
use crate::script::script_from;
use crate::subcommands::{Kind, kind_at};
use crate::texts::{alternatives_from, check_from, convert_from, explain_from};
use crate::trees::{gather_from, lint_from};
use crate::values::{Unfound, require};
use clap::ArgMatches;
use std::alloc::Global;

/// The call of the subcommand with this name.
pub(crate) fn call_from(
    alloc: Global,
    name: &str,
    matches: &ArgMatches<'_>,
) -> Result<Call, Unfound>
    ensures { IsFound (call_in name.now (rows_of (found_of matches.now))) result }
{
    match require(kind_at(name))? {
        Kind::Check => check_from(alloc, matches),
        Kind::Alternatives => alternatives_from(alloc, matches),
        Kind::Script => script_from(alloc, matches),
        Kind::Do => do_from(alloc, matches),
        Kind::Ask => ask_from(alloc, matches),
        Kind::Import => import_from(alloc, matches),
        Kind::Catalogue => catalogue_from(alloc, matches),
        Kind::Notices => notices_from(alloc, matches),
        Kind::Duties => duties_from(alloc, matches),
        Kind::Totals => totals_from(alloc, matches),
        Kind::Changes => changes_from(alloc, matches),
        Kind::Audit => audit_from(alloc, matches),
        Kind::Migrate => migrate_from(alloc, matches),
        Kind::Backup => backup_from(alloc, matches),
        Kind::Gather => gather_from(alloc, matches),
        Kind::Lint => lint_from(alloc, matches),
        Kind::Serve => serve_from(alloc, matches),
        Kind::Explain => explain_from(alloc, matches),
        Kind::Propose => propose_from(alloc, matches),
        Kind::Choices => choices_from(alloc, matches),
        Kind::Wanting => wanting_from(alloc, matches),
        Kind::Ready => ready_from(alloc, matches),
        Kind::Gaps => gaps_from(alloc, matches),
        Kind::List => list_from(alloc, matches),
        Kind::Page => page_from(alloc, matches),
        Kind::Convert => convert_from(alloc, matches),
        Kind::Texts => texts_from(alloc, matches),
        Kind::Credits => credits_from(alloc, matches),
    }
}
