//! Replies to requests, one after another.

ghost use Rattle.std.specs.Prelude.{◌≡◌, ◌==◌, true, if◌then◌else◌, ℕ, ◌<◌, IfOk, IfErr, List, length, ◌⊎◌};
ghost use Rattle.std.specs.Io.KnownBytes.{Consumes};
ghost use Rattle.desk_script.specs.Faults.{IsOfReader, IsOfReply};
ghost use Rattle.desk_script.specs.Script.{AreLeft, IsCutOff, IsFront, IsScript};
ghost use Rattle.desk_script.specs.declared.serving.ScriptEnd.{ScriptEnd};
ghost use Rattle.desk_script.specs.declared.serving.ScriptStop.TheVariants as stop;
ghost use Rattle.desk_subcommands.specs.Failures.{OfScript};

use crate::failure::Failure;
use desk_core::desk::Desk;
use desk_script::{ScriptStop, Watch};
use std::alloc::Global;
use std::io::{Read, Write};

/// Replies to the requests that the reader gives, one on each line, and returns the program's
/// status. If the watcher says so, it ends at the first line that isn't carried out.
pub fn script<D: Desk, R: Read, W: Write, V: Watch>(
    alloc: Global,
    desk: &mut D,
    reader: &mut R,
    writer: &mut W,
    watch: &mut V,
) -> Result<u8, Failure>
    ensures done { IfOk result
        (λ status. ((bytes : List ℕ) × AreLeft (R.remaining reader.old) bytes × (end : ScriptEnd)
        × IsScript D.are_right D.tells D.stands D.seen bytes desk.old desk.new
        (W.contents writer.old) (W.contents writer.new) end
        × (end.failed ≡ 0) × (status ≡ (if end.refused == 0 then 0 else 1)))
        ⊎ ((V.stops watch.old ≡ true) × (status ≡ 1) × (bytes : List ℕ)
        × AreLeft (R.remaining reader.old) bytes
        × IsFront D.are_right D.tells D.stands D.seen stop.Refused bytes desk.old desk.new
        (W.contents writer.old) (W.contents writer.new))) }
    ensures failed { IfErr result (OfScript
        (λ fault. ((bytes : List ℕ) × AreLeft (R.remaining reader.old) bytes
        × IsFront D.are_right D.tells D.stands D.seen fault bytes desk.old desk.new
        (W.contents writer.old) (W.contents writer.new))
        × (IsOfReply fault ⊎ ((bytes : List ℕ) × IsOfReader fault (length bytes)
        × Consumes (R.remaining reader.old) (R.remaining reader.new) bytes
        × IsCutOff D.are_right D.tells D.stands D.seen bytes desk.old desk.new
        (W.contents writer.old) (W.contents writer.new))))
        (λ count. ((bytes : List ℕ) × AreLeft (R.remaining reader.old) bytes × (end : ScriptEnd)
        × IsScript D.are_right D.tells D.stands D.seen bytes desk.old desk.new
        (W.contents writer.old) (W.contents writer.new) end
        × (end.failed ≡ count) × (0 < count))
        ⊎ ((V.stops watch.old ≡ true) × (count ≡ 1) × (bytes : List ℕ)
        × AreLeft (R.remaining reader.old) bytes
        × IsFront D.are_right D.tells D.stands D.seen stop.Failed bytes desk.old desk.new
        (W.contents writer.old) (W.contents writer.new)))) }
{
    let end = match desk_script::watched_script(alloc, desk, reader, writer, watch) {
        Ok(end) => end,
        Err(ScriptStop::Refused) => return Ok(1),
        Err(ScriptStop::Failed) => return Err(Failure::Failed(1)),
        Err(fault) => return Err(Failure::Script(fault)),
    };
    if end.failed > 0 {
        return Err(Failure::Failed(end.failed));
    }
    Ok(if end.refused == 0 { 0 } else { 1 })
}
