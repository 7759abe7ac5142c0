//! The choices for packages that have only one.

ghost use Rattle.std.specs.Prelude.{IfErr, IfOk};
ghost use Rattle.std.specs.Io.KnownBytes.{Keeps};
ghost use Rattle.desk_access.specs.Seen.{Kept};
ghost use Rattle.desk_inspect.specs.Inspecting.{TellsChoices, TellsFault};
ghost use Rattle.desk_subcommands.specs.Failures.{IfMemory, OfRequest};
ghost use Rattle.desk_texts.specs.Right.{AreRight};

use desk_base::Text;
use desk_core::Desk;
use desk_store::SqlDesk;
use desk_subcommands::{Failure, Teller};
use desk_views::{tell_choices, tell_fault};
use sqlite::Alter;
use std::alloc::Global;
use std::io::Write;

/// Writes the choices of a release for packages that have only one, as requests, a line of JSON
/// each, or the reply to the request that is refused, and returns the program's status. If the desk
/// fails, both the reply and the failure say so. The desk is as it was.
pub fn choices<S: Alter, W: Write, E: Write>(
    alloc: Global,
    desk: &mut SqlDesk<S>,
    release: &Text,
    writer: &mut W,
    teller: &mut Teller<E>,
) -> Result<u8, Failure>
    ensures done { IfOk result (
        TellsChoices AreRight release.now (⟦<SqlDesk<S> as Desk>⟧.seen desk.old)
        (⟦<SqlDesk<S> as Desk>⟧.seen desk.new) (W.contents writer.old) (W.contents writer.new)) }
    ensures failed { IfErr result (OfRequest
        (TellsFault (W.contents writer.old) (W.contents writer.new)) (Unit {0})) }
    ensures kept { Kept (⟦<SqlDesk<S> as Desk>⟧.seen desk.old)
        (⟦<SqlDesk<S> as Desk>⟧.seen desk.new) }
    ensures memory { IfErr result
        (IfMemory (Keeps (W.contents writer.old) (W.contents writer.new))) }
{
    match desk.sole_choices(alloc, release) {
        Ok(found) => tell_choices(alloc, release, found, writer, teller),
        Err(fault) => tell_fault(alloc, fault, writer),
    }
}
