//! A script that nothing watches.

ghost use Rattle.std.specs.Prelude.{◌≡◌, ◌⊎◌, ◌*◌, ◌≤◌, List, ℕ, false, IfOk, IfErr, length};
ghost use Rattle.std.specs.Io.KnownBytes.{Consumes};
ghost use Rattle.desk_base.specs.Limits.{script_reads};
ghost use Rattle.desk_script.specs.Faults.{IsOfReader, IsOfReply};
ghost use Rattle.desk_script.specs.Losses.{IfStop};
ghost use Rattle.desk_script.specs.Script.{AreLeft, IsCutOff, IsFront, IsScript};
ghost use Rattle.desk_script.specs.Stops.{stop_of};

use crate::answer::Reply;
use crate::serving::{ScriptEnd, ScriptStop};
use crate::stream::watched_script;
use crate::watch::Watch;
use desk_core::desk::Desk;
use std::alloc::Global;
use std::io::{Read, Write};
use thiserror::Error;

/// Why a script that nothing watches stopped before its end.
#[derive(Clone, Copy, Debug, Drop, PartialEq, Eq, Error)]
pub enum ScriptFault {
    #[error("cannot read a line")]
    Read,
    #[error("cannot write a reply")]
    Write,
    #[error("too many turns of reading")]
    Turns,
    #[error("no memory is left for a line or a reply")]
    Memory,
}

/// Watches nothing, and lets a script continue.
#[derive(Drop)]
struct Unwatched;

impl Watch for Unwatched {
    ghost stops = { λ _. false };

    fn stops(&self) -> bool {
        false
    }

    fn came(&mut self) {}

    fn no_request(&mut self, _text: Option<&[u8]>) {}

    fn replied(&mut self, _reply: &Reply) {}
}

// The fault that stopped a script that continues after lines that aren't carried out.
fn fault_of(stop: ScriptStop) -> ScriptFault
    requires { IfStop ⊥ stop }
    ensures { stop ≡ stop_of result }
{
    match stop {
        ScriptStop::Read => ScriptFault::Read,
        ScriptStop::Write => ScriptFault::Write,
        ScriptStop::Turns => ScriptFault::Turns,
        ScriptStop::Memory => ScriptFault::Memory,
        ScriptStop::Refused | ScriptStop::Failed => unreachable!(),
    }
}

/// Reads requests, a line each, and writes a reply line for each line that isn't blank, as
/// `watched_script` does. It continues after lines that aren't carried out.
pub fn script<D: Desk, R: Read, W: Write>(
    alloc: Global,
    desk: &mut D,
    reader: &mut R,
    writer: &mut W,
) -> Result<ScriptEnd, ScriptFault>
    ensures ok { IfOk result (λ end. (bytes : List ℕ) × AreLeft (R.remaining reader.old) bytes
        × IsScript D.are_right D.tells D.stands D.seen bytes desk.old desk.new
        (W.contents writer.old) (W.contents writer.new) end) }
    ensures err { IfErr result (λ fault. (bytes : List ℕ) × AreLeft (R.remaining reader.old) bytes
        × IsFront D.are_right D.tells D.stands D.seen (stop_of fault) bytes desk.old desk.new
        (W.contents writer.old) (W.contents writer.new)) }
    ensures fault { IfErr result
        (λ fault. IsOfReply (stop_of fault) ⊎ ((bytes : List ℕ)
        × IsOfReader (stop_of fault) (length bytes)
        × Consumes (R.remaining reader.old) (R.remaining reader.new) bytes
        × IsCutOff D.are_right D.tells D.stands D.seen bytes desk.old desk.new
        (W.contents writer.old) (W.contents writer.new))) }
    ensures taken { (bytes : List ℕ)
        × Consumes (R.remaining reader.old) (R.remaining reader.new) bytes
        × (length bytes ≤ script_reads * 65536) }
{
    match watched_script(alloc, desk, reader, writer, &mut Unwatched) {
        Ok(end) => Ok(end),
        Err(stop) => Err(fault_of(stop)),
    }
}
