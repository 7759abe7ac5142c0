//! The lists of what the desk of a file holds.

ghost use Rattle.std.specs.Prelude.{◌≡◌, IfErr, IfOk, List, MatchBool};
ghost use Rattle.std.specs.Io.KnownBytes.{Appends, Keeps};
ghost use Rattle.desk_access.specs.Seen.{Kept};
ghost use Rattle.desk_inspect.specs.Inspecting.{TellsFault};
ghost use Rattle.desk_inspect.specs.Listing.{ListsDuties, TellsDocuments, TellsDuties, TellsReleases};
ghost use Rattle.desk_lists.specs.Cells.{duty_table};
ghost use Rattle.desk_lists.specs.Known.{names_unknown_code, names_unknown_release};
ghost use Rattle.desk_lists.specs.declared.lines.DutyLine.{DutyLine as Owed};
ghost use Rattle.desk_subcommands.specs.Failures.{IfMemory, IsOfOutput, OfRequest};
ghost use Rattle.desk_texts.specs.Right.{AreRight};
ghost use Rattle.desk_views.specs.Listing.{AreDuties, table_text};

use desk_core::Desk;
use desk_lists::{DutyFilter, names_unknown_code, names_unknown_release};
use desk_model::Refusal;
use desk_snapshot::Snapshot;
use desk_store::SqlDesk;
use desk_subcommands::{Failure, Teller, write_text};
use desk_views::{tell_fault, tell_refusal, write_documents, write_duties, write_releases};
use sqlite::Alter;
use std::alloc::Global;
use std::io::Write;

// The program's status if the duties can't be listed.
const REFUSED: u8 = 1;

/// Writes the list of a desk's releases, in the order in which they were opened, as comma-separated
/// values or in columns, and returns the program's status. If the desk fails, both the reply and the
/// failure say so. The desk is as it was.
pub fn releases<S: Alter, W: Write>(
    alloc: Global,
    desk: &mut SqlDesk<S>,
    in_columns: bool,
    writer: &mut W,
) -> Result<u8, Failure>
    ensures done { IfOk result (
        TellsReleases AreRight in_columns (⟦<SqlDesk<S> as Desk>⟧.seen desk.old)
        (⟦<SqlDesk<S> as Desk>⟧.seen desk.new) (W.contents writer.old) (W.contents writer.new)) }
    ensures failed { IfErr result (OfRequest
        (TellsFault (W.contents writer.old) (W.contents writer.new)) (Unit {0})) }
    ensures kept { Kept (⟦<SqlDesk<S> as Desk>⟧.seen desk.old)
        (⟦<SqlDesk<S> as Desk>⟧.seen desk.new) }
    ensures memory { IfErr result
        (IfMemory (Keeps (W.contents writer.old) (W.contents writer.new))) }
{
    match desk.snapshot() {
        Ok(snapshot) => {
            let told = write_releases(alloc, &snapshot, in_columns, writer);
            drop(snapshot);
            told
        }
        Err(fault) => tell_fault(alloc, fault, writer),
    }
}

/// Writes the list of a desk's documents, by number, as `releases` does that of its releases.
pub fn documents<S: Alter, W: Write>(
    alloc: Global,
    desk: &mut SqlDesk<S>,
    in_columns: bool,
    writer: &mut W,
) -> Result<u8, Failure>
    ensures done { IfOk result (
        TellsDocuments AreRight in_columns (⟦<SqlDesk<S> as Desk>⟧.seen desk.old)
        (⟦<SqlDesk<S> as Desk>⟧.seen desk.new) (W.contents writer.old) (W.contents writer.new)) }
    ensures failed { IfErr result (OfRequest
        (TellsFault (W.contents writer.old) (W.contents writer.new)) (Unit {0})) }
    ensures kept { Kept (⟦<SqlDesk<S> as Desk>⟧.seen desk.old)
        (⟦<SqlDesk<S> as Desk>⟧.seen desk.new) }
    ensures memory { IfErr result
        (IfMemory (Keeps (W.contents writer.old) (W.contents writer.new))) }
{
    match desk.snapshot() {
        Ok(snapshot) => {
            let told = write_documents(alloc, &snapshot, in_columns, writer);
            drop(snapshot);
            told
        }
        Err(fault) => tell_fault(alloc, fault, writer),
    }
}

// Says that no duty has a code.
fn tell_code<T: Write>(alloc: Global, code: &str, notes: &mut T) -> Result<(), Failure> {
    let line = format!(in alloc;
        "no duty has the code {code:?}, in the catalogue in force or among those that were raised\n"
    )?;
    write_text(notes, line.as_bytes())
}

// Writes the list of those of some duties that a filter asks for, or says that it names a code that
// no duty has.
fn tell_known<W: Write, T: Write>(
    alloc: Global,
    snapshot: &Snapshot,
    wanted: &DutyFilter<'_>,
    in_columns: bool,
    writer: &mut W,
    notes: &mut T,
) -> Result<u8, Failure>
    ensures told { IfOk result (λ status. MatchBool (names_unknown_code snapshot.now wanted.now)
        (Keeps (W.contents writer.old) (W.contents writer.new) × (status ≡ 1))
        ((lines : List Owed) × AreDuties wanted.now snapshot.now lines
        × Appends (W.contents writer.old) (W.contents writer.new)
        (table_text in_columns (duty_table lines)) × (status ≡ 0))) }
    ensures fails { IfErr result IsOfOutput }
    ensures memory { IfErr result
        (IfMemory (Keeps (W.contents writer.old) (W.contents writer.new))) }
{
    if names_unknown_code(alloc, snapshot, wanted)? {
        // If it can't be reported, the status still says it.
        let _told = tell_code(alloc, wanted.code.unwrap_or(""), notes);
        return Ok(REFUSED);
    }
    write_duties(alloc, snapshot, wanted, in_columns, writer)
}

// Writes the list of those of some duties that a filter asks for, or why there is none.
fn tell_duties<W: Write, E: Write, T: Write>(
    alloc: Global,
    snapshot: &Snapshot,
    wanted: &DutyFilter<'_>,
    in_columns: bool,
    writer: &mut W,
    teller: &mut Teller<E>,
    notes: &mut T,
) -> Result<u8, Failure>
    ensures told { IfOk result (ListsDuties wanted.now in_columns snapshot.now
        (W.contents writer.old) (W.contents writer.new)) }
    ensures fails { IfErr result IsOfOutput }
    ensures memory { IfErr result
        (IfMemory (Keeps (W.contents writer.old) (W.contents writer.new))) }
{
    if names_unknown_release(snapshot, wanted) {
        tell_refusal(alloc, Refusal::UnknownRelease, writer, teller)
    } else {
        tell_known(alloc, snapshot, wanted, in_columns, writer, notes)
    }
}

/// Writes the list of those of a desk's duties that a filter asks for, in the order in which they
/// were raised, as `releases` does that of its releases. If the filter names a release that the desk
/// doesn't have, it writes the refusal that says so, which is explained; if it names a code that no
/// duty has, a note says that. The status is then 1.
pub fn duties<S: Alter, W: Write, E: Write, T: Write>(
    alloc: Global,
    desk: &mut SqlDesk<S>,
    wanted: &DutyFilter<'_>,
    in_columns: bool,
    writer: &mut W,
    teller: &mut Teller<E>,
    notes: &mut T,
) -> Result<u8, Failure>
    ensures done { IfOk result (
        TellsDuties AreRight wanted.now in_columns (⟦<SqlDesk<S> as Desk>⟧.seen desk.old)
        (⟦<SqlDesk<S> as Desk>⟧.seen desk.new) (W.contents writer.old) (W.contents writer.new)) }
    ensures failed { IfErr result (OfRequest
        (TellsFault (W.contents writer.old) (W.contents writer.new)) (Unit {0})) }
    ensures kept { Kept (⟦<SqlDesk<S> as Desk>⟧.seen desk.old)
        (⟦<SqlDesk<S> as Desk>⟧.seen desk.new) }
    ensures memory { IfErr result
        (IfMemory (Keeps (W.contents writer.old) (W.contents writer.new))) }
{
    match desk.snapshot() {
        Ok(snapshot) => {
            let told = tell_duties(alloc, &snapshot, wanted, in_columns, writer, teller, notes);
            drop(snapshot);
            told
        }
        Err(fault) => tell_fault(alloc, fault, writer),
    }
}
