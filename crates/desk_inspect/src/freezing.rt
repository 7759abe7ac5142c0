//! What keeps a release from being frozen.

ghost use Rattle.std.specs.Prelude.{◌≡◌, IfErr, IfOk};
ghost use Rattle.std.specs.Io.KnownBytes.{Keeps};
ghost use Rattle.desk_access.specs.Seen.{Kept};
ghost use Rattle.desk_inspect.specs.Idle.{status_with};
ghost use Rattle.desk_inspect.specs.Inspecting.{TellsBeside, TellsFault, TellsRefusals, TellsWanting};
ghost use Rattle.desk_subcommands.specs.Failures.{IfMemory, OfRequest};
ghost use Rattle.desk_texts.specs.Right.{AreRight};

use crate::idle::tell_idle;
use desk_base::Text;
use desk_core::Desk;
use desk_store::SqlDesk;
use desk_subcommands::{Failure, Teller};
use desk_views::{tell_fault, tell_wanting};
use sqlite::Alter;
use std::alloc::Global;
use std::io::Write;

// The program's status if something keeps a release from being frozen.
const REFUSED: u8 = 1;

// Writes the refusals that keep a release from being frozen.
fn tell_refusals<S: Alter, W: Write, E: Write>(
    alloc: Global,
    desk: &mut SqlDesk<S>,
    release: &Text,
    writer: &mut W,
    teller: &mut Teller<E>,
) -> Result<u8, Failure>
    ensures done { IfOk result (
        TellsRefusals AreRight release.now (⟦<SqlDesk<S> as Desk>⟧.seen desk.old)
        (⟦<SqlDesk<S> as Desk>⟧.seen desk.new) (W.contents writer.old) (W.contents writer.new)) }
    ensures failed { IfErr result (OfRequest
        (TellsFault (W.contents writer.old) (W.contents writer.new)) (Unit {0})) }
    ensures kept { Kept (⟦<SqlDesk<S> as Desk>⟧.seen desk.old)
        (⟦<SqlDesk<S> as Desk>⟧.seen desk.new) }
    ensures memory { IfErr result
        (IfMemory (Keeps (W.contents writer.old) (W.contents writer.new))) }
{
    match desk.wanting(alloc, release) {
        Ok(refusals) => tell_wanting(alloc, refusals, writer, teller),
        Err(fault) => tell_fault(alloc, fault, writer),
    }
}

// The status if these attached documents ship no package.
fn status_with(status: u8, idle: &[u32]) -> u8
    ensures { result ≡ status_with status idle.now }
{
    if idle.is_empty() { status } else { REFUSED }
}

// Writes these refusals, and notes which of the attached documents ship no package.
fn tell_beside<S: Alter, W: Write, E: Write, T: Write>(
    alloc: Global,
    desk: &mut SqlDesk<S>,
    release: &Text,
    idle: &[u32],
    writer: &mut W,
    teller: &mut Teller<E>,
    notes: &mut T,
) -> Result<u8, Failure>
    ensures done { IfOk result (
        TellsBeside AreRight release.now (⟦<SqlDesk<S> as Desk>⟧.seen desk.old)
        (⟦<SqlDesk<S> as Desk>⟧.seen desk.new) (W.contents writer.old) (W.contents writer.new)
        idle.now) }
    ensures failed { IfErr result (OfRequest
        (TellsFault (W.contents writer.old) (W.contents writer.new)) (Unit {0})) }
    ensures kept { Kept (⟦<SqlDesk<S> as Desk>⟧.seen desk.old)
        (⟦<SqlDesk<S> as Desk>⟧.seen desk.new) }
    ensures memory { IfErr result
        (IfMemory (Keeps (W.contents writer.old) (W.contents writer.new))) }
{
    let status = tell_refusals(alloc, desk, release, writer, teller)?;
    // If they can't be reported, the refusals are still written.
    let _noted = tell_idle(alloc, idle, notes);
    Ok(status_with(status, idle))
}

/// Writes everything that keeps a release from being frozen, each refusal as the line of a reply, and
/// returns the program's status: 0 if there is none and each attached document ships a package, and
/// else 1. What each refusal means is explained besides, and notes say which documents ship none. If
/// the desk fails, both the reply and the failure say so. The desk is as it was.
pub fn wanting<S: Alter, W: Write, E: Write, T: Write>(
    alloc: Global,
    desk: &mut SqlDesk<S>,
    release: &Text,
    writer: &mut W,
    teller: &mut Teller<E>,
    notes: &mut T,
) -> Result<u8, Failure>
    ensures done { IfOk result (
        TellsWanting AreRight release.now (⟦<SqlDesk<S> as Desk>⟧.seen desk.old)
        (⟦<SqlDesk<S> as Desk>⟧.seen desk.new) (W.contents writer.old) (W.contents writer.new)) }
    ensures failed { IfErr result (OfRequest
        (TellsFault (W.contents writer.old) (W.contents writer.new)) (Unit {0})) }
    ensures kept { Kept (⟦<SqlDesk<S> as Desk>⟧.seen desk.old)
        (⟦<SqlDesk<S> as Desk>⟧.seen desk.new) }
    ensures memory { IfErr result
        (IfMemory (Keeps (W.contents writer.old) (W.contents writer.new))) }
{
    let idle = match desk.idle_documents(alloc, release) {
        Ok(numbers) => numbers,
        Err(fault) => return tell_fault(alloc, fault, writer),
    };
    let told = tell_beside(alloc, desk, release, idle.as_slice(), writer, teller, notes);
    drop(idle);
    told
}
