//! Cuts what is read into lines, and serves each as soon as it is whole.

ghost use Rattle.std.specs.Prelude.{◌≡◌, true, ◌≢◌, ◌∷◌, ◌++◌, ◌+◌, ◌*◌, ◌≤◌, ◌<◌, ◌^◌, [], List, ℕ, OnOk, IfOk, IfErr, Option, MatchOption, All, length, ◌⊎◌};
ghost use Rattle.std.specs.Io.KnownBytes.{Consumes};
ghost use Rattle.desk_base.specs.Limits.{script_reads};
ghost use Rattle.desk_script.specs.Faults.{IsOfReader, IsOfReply};
ghost use Rattle.desk_script.specs.Losses.{IfStop};
ghost use Rattle.desk_script.specs.Script.{AreLeft, HasServed, IsCutOff, IsFront, IsFrontAt, IsPart, IsScript, IsUncounted};
ghost use Rattle.desk_script.specs.Gathered.{Shows};

use crate::line::Line;
use crate::serving::{ScriptEnd, ScriptStop, serve};
use crate::watch::Watch;
use desk_base::limits::SCRIPT_READS;
use desk_core::desk::Desk;
use memchr::memchr;
use std::alloc::Global;
use std::io::{Read, Write};

/// How many bytes are read at once, at most.
const PIECE_BYTES: usize = 65_536;

/// What comes before the first LF of some bytes, and what follows it.
fn cut_at_lf(bytes: &[u8]) -> Option<(&[u8], &[u8])>
    ensures { MatchOption result (All (λ b. b ≢ 10) bytes.now)
        (λ p. All (λ b. b ≢ 10) p.0.now × (bytes.now ≡ p.0.now ++ 10 ∷ p.1.now)) }
{
    let place = memchr(b'\n', bytes)?;
    Some((&bytes[..place], &bytes[place + 1..]))
}

/// Serves the line that an LF ends, and begins the next one.
fn end_line<D: Desk, W: Write, V: Watch>(
    alloc: Global,
    desk: &mut D,
    writer: &mut W,
    watch: &mut V,
    end: &mut ScriptEnd,
    line: &mut Line,
) -> Result<(), ScriptStop>
    requires room { (end.old.refused + 1 < 2 ^ 64) × (end.old.failed + 1 < 2 ^ 64) }
    ensures ok { (number : ℕ) (came : List ℕ) → Shows line.old came → All (λ b. b ≢ 10) came
        → OnOk result (HasServed D.are_right D.tells D.stands D.seen number (came ++ 10 ∷ [])
        desk.old desk.new (W.contents writer.old) (W.contents writer.new) end.old end.new
        line.new) }
    ensures err { (number : ℕ) (came more : List ℕ) → Shows line.old came → All (λ b. b ≢ 10) came
        → IfErr result (λ fault. IsFrontAt D.are_right D.tells D.stands D.seen number fault
        (came ++ 10 ∷ more) desk.old desk.new (W.contents writer.old) (W.contents writer.new)) }
    ensures few { (end.new.refused ≤ end.old.refused + 1) × (end.new.failed ≤ end.old.failed + 1) }
    ensures fault { IfErr result IsOfReply }
    ensures still { OnOk result (V.stops watch.old ≡ true → IsUncounted end.old end.new) }
    ensures halts { IfErr result (IfStop (V.stops watch.old ≡ true)) }
    ensures same { V.stops watch.new ≡ V.stops watch.old }
{
    serve(alloc, desk, writer, watch, end, line)?;
    line.clear();
    Ok(())
}

/// Takes the bytes of a piece, and serves the lines that end in it.
fn feed<D: Desk, W: Write, V: Watch>(
    alloc: Global,
    desk: &mut D,
    writer: &mut W,
    watch: &mut V,
    end: &mut ScriptEnd,
    line: &mut Line,
    piece: &[u8],
) -> Result<(), ScriptStop>
    requires room { (end.old.refused + length piece.now < 2 ^ 64)
        × (end.old.failed + length piece.now < 2 ^ 64) }
    ensures ok { (number : ℕ) (came : List ℕ) → Shows line.old came → All (λ b. b ≢ 10) came
        → OnOk result (HasServed D.are_right D.tells D.stands D.seen number (came ++ piece.now)
        desk.old desk.new (W.contents writer.old) (W.contents writer.new) end.old end.new
        line.new) }
    ensures err { (number : ℕ) (came more : List ℕ) → Shows line.old came → All (λ b. b ≢ 10) came
        → IfErr result (λ fault. IsFrontAt D.are_right D.tells D.stands D.seen number fault
        (came ++ (piece.now ++ more)) desk.old desk.new (W.contents writer.old)
        (W.contents writer.new)) }
    ensures few { (end.new.refused ≤ end.old.refused + length piece.now)
        × (end.new.failed ≤ end.old.failed + length piece.now) }
    ensures fault { IfErr result IsOfReply }
    ensures still { OnOk result (V.stops watch.old ≡ true → IsUncounted end.old end.new) }
    ensures halts { IfErr result (IfStop (V.stops watch.old ≡ true)) }
    ensures same { V.stops watch.new ≡ V.stops watch.old }
{
    let mut rest = piece;
    while let Some((text, more)) = cut_at_lf(rest) {
        line.extend(text)?;
        end_line(alloc, desk, writer, watch, end, line)?;
        rest = more;
    }
    line.extend(rest)?;
    Ok(())
}

/// Serves the last line, if it has no line end.
fn finish<D: Desk, W: Write, V: Watch>(
    alloc: Global,
    desk: &mut D,
    writer: &mut W,
    watch: &mut V,
    end: &mut ScriptEnd,
    line: &mut Line,
) -> Result<(), ScriptStop>
    requires room { (end.old.refused + 1 < 2 ^ 64) × (end.old.failed + 1 < 2 ^ 64) }
    ensures ok { (number : ℕ) (came : List ℕ) → Shows line.old came → All (λ b. b ≢ 10) came
        → OnOk result (IsPart D.are_right D.tells D.stands D.seen number came desk.old desk.new
        (W.contents writer.old) (W.contents writer.new) end.old end.new) }
    ensures err { (number : ℕ) (came : List ℕ) → Shows line.old came → All (λ b. b ≢ 10) came
        → IfErr result (λ fault. IsFrontAt D.are_right D.tells D.stands D.seen number fault came
        desk.old desk.new (W.contents writer.old) (W.contents writer.new)) }
    ensures fault { IfErr result IsOfReply }
    ensures still { OnOk result (V.stops watch.old ≡ true → IsUncounted end.old end.new) }
    ensures halts { IfErr result (IfStop (V.stops watch.old ≡ true)) }
    ensures same { V.stops watch.new ≡ V.stops watch.old }
{
    line.keep_cr()?;
    serve(alloc, desk, writer, watch, end, line)
}

/// Reads requests, a line each, and writes a reply line for each line that isn't blank. Each reply
/// is written and flushed before the next line is served.
///
/// It continues after refusals and faults, and counts them: if no memory is left for a request or
/// its answer, the reply says so, and the script doesn't end. The reader is asked for bytes at most
/// 1,048,576 times, each time for at most 65,536. After a fault of the reader or the writer, or if
/// no memory is left for a line or for the text of a reply, what was accepted stays applied, and
/// all replies are written, except the last one if it had the fault: then a prefix of its line is
/// written, or nothing if no memory was left for its text. If the reader failed or was asked too
/// often, each line that ended within the bytes that it gave is answered, and each reply is
/// written.
///
/// If the watch says so, the script ends with the first line that isn't carried out, after writing
/// its reply.
pub fn watched_script<D: Desk, R: Read, W: Write, V: Watch>(
    alloc: Global,
    desk: &mut D,
    reader: &mut R,
    writer: &mut W,
    watch: &mut V,
) -> Result<ScriptEnd, ScriptStop>
    ensures ok { IfOk result (λ end. (bytes : List ℕ) × AreLeft (R.remaining reader.old) bytes
        × IsScript D.are_right D.tells D.stands D.seen bytes desk.old desk.new
        (W.contents writer.old) (W.contents writer.new) end) }
    ensures err { IfErr result (λ fault. (bytes : List ℕ) × AreLeft (R.remaining reader.old) bytes
        × IsFront D.are_right D.tells D.stands D.seen fault bytes desk.old desk.new
        (W.contents writer.old) (W.contents writer.new)) }
    ensures fault { IfErr result
        (λ fault. IsOfReply fault ⊎ ((bytes : List ℕ) × IsOfReader fault (length bytes)
        × Consumes (R.remaining reader.old) (R.remaining reader.new) bytes
        × IsCutOff D.are_right D.tells D.stands D.seen bytes desk.old desk.new
        (W.contents writer.old) (W.contents writer.new))) }
    ensures taken { (bytes : List ℕ)
        × Consumes (R.remaining reader.old) (R.remaining reader.new) bytes
        × (length bytes ≤ script_reads * 65536) }
    ensures still { IfOk result
        (λ end. V.stops watch.old ≡ true → (end.refused ≡ 0) × (end.failed ≡ 0)) }
    ensures halts { IfErr result (IfStop (V.stops watch.old ≡ true)) }
{
    let mut end = ScriptEnd {
        refused: 0,
        failed: 0,
    };
    let mut line = Line::new(alloc);
    let mut piece = [0u8; PIECE_BYTES];
    for turn in 0..SCRIPT_READS {
        let Ok(taken) = reader.read(&mut piece) else {
            return Err(ScriptStop::Read);
        };
        if taken == 0 {
            finish(alloc, desk, writer, watch, &mut end, &mut line)?;
            return Ok(end);
        }
        feed(
            alloc,
            desk,
            writer,
            watch,
            &mut end,
            &mut line,
            &piece[..taken],
        )?;
    }
    Err(ScriptStop::Turns)
}
