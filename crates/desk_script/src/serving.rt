//! Serves a line: answers its request, writes the reply and counts it.

ghost use Rattle.std.specs.Prelude.{◌≡◌, true, ◌∷◌, ◌++◌, ◌+◌, ◌≤◌, ◌<◌, ◌^◌, [], List, ℕ, OnOk, OnErr, IfOk, IfErr, length, take};
ghost use Rattle.std.specs.Io.KnownBytes.{Appends, Keeps};
ghost use Rattle.desk_script.specs.Faults.{IsOfReply, IsOfWriter};
ghost use Rattle.desk_script.specs.Gathered.{HasCome};
ghost use Rattle.desk_script.specs.Texts.{line_of, count_refused, count_failed};
ghost use Rattle.desk_script.specs.Lines.{request_at, request_of};
ghost use Rattle.desk_script.specs.Losses.{AppendsFront, IfStop, IsStopAt, Loses};
ghost use Rattle.desk_script.specs.Replies.{Replies};
ghost use Rattle.desk_script.specs.Script.{IsUncounted, Serves, ServesUntil};
ghost use Rattle.desk_script.specs.declared.answer.Reply.{Reply};

use crate::answer::{Reply, answer_line};
use crate::line::Line;
use crate::watch::Watch;
use desk_core::desk::Desk;
use desk_json::{bad_command_line, memory_line, reply_line};
use desk_model::{Answer, Fault, Outcome};
use std::alloc::{AllocError, Global};
use std::io::{ErrorKind, Write};
use std::mem;
use thiserror::Error;

/// How many lines of a script were refused, and how many failed.
#[derive(Clone, Copy, PartialEq, Eq)]
pub struct ScriptEnd {
    /// The lines that aren't requests, and those whose request was refused.
    pub refused: u64,
    /// The lines whose request had a fault.
    pub failed: u64,
}

/// Why a script stopped before its end.
#[derive(Clone, Copy, Debug, Drop, PartialEq, Eq, Error)]
pub enum ScriptStop {
    #[error("cannot read a line")]
    Read,
    #[error("cannot write a reply")]
    Write,
    #[error("too many turns of reading")]
    Turns,
    #[error("no memory is left for a line or a reply")]
    Memory,
    /// The script was to end with the first line that isn't carried out: it was refused, or isn't a
    /// request.
    #[error("a line was refused or is no request")]
    Refused,
    /// The same, but the request of the line failed.
    #[error("the request of a line failed")]
    Failed,
}

impl From<AllocError> for ScriptStop {
    ghost use Rattle.desk_script.specs.declared.serving.ScriptStop.TheVariants.{Memory};

    ghost from_gives = { λ _ fault. fault ≡ Memory };

    fn from(_error: AllocError) -> ScriptStop {
        ScriptStop::Memory
    }
}

impl ScriptEnd {
    /// Counts a reply.
    fn count(&mut self, reply: &Reply)
        requires room { (self.old.refused + 1 < 2 ^ 64) × (self.old.failed + 1 < 2 ^ 64) }
        ensures refused { self.new.refused ≡ self.old.refused + count_refused reply.now }
        ensures failed { self.new.failed ≡ self.old.failed + count_failed reply.now }
        ensures few { (self.new.refused ≤ self.old.refused + 1)
            × (self.new.failed ≤ self.old.failed + 1) }
    {
        match reply {
            Reply::NoRequest | Reply::Became(Outcome::Answered(Answer::Refused(_))) => {
                self.refused += 1
            }
            Reply::Became(Outcome::Failed(_)) => self.failed += 1,
            Reply::Became(Outcome::Answered(_)) => {}
        }
    }
}

/// Writes some prefix of the bytes, which is empty if the writer was interrupted.
fn write_some<W: Write>(writer: &mut W, bytes: &[u8]) -> Result<usize, ScriptStop>
    ensures ok { IfOk result (λ taken. (taken ≤ length bytes.now)
        × Appends (W.contents writer.old) (W.contents writer.new) (take taken bytes.now)) }
    ensures err { OnErr result (Keeps (W.contents writer.old) (W.contents writer.new)) }
    ensures fault { IfErr result IsOfWriter }
{
    match writer.write(bytes) {
        Ok(0) => Err(ScriptStop::Write),
        Ok(taken) => Ok(taken),
        Err(error) if error.kind() == ErrorKind::Interrupted => Ok(0),
        Err(_) => Err(ScriptStop::Write),
    }
}

/// Writes bytes as `write_all` does. But after a fault here a prefix of the bytes was written,
/// while after a fault of `write_all` nothing is known.
pub fn write_bytes<W: Write>(writer: &mut W, bytes: &[u8]) -> Result<(), ScriptStop>
    ensures ok { OnOk result (Appends (W.contents writer.old) (W.contents writer.new) bytes.now) }
    ensures err { OnErr result
        (AppendsFront (W.contents writer.old) (W.contents writer.new) bytes.now) }
    ensures fault { IfErr result IsOfWriter }
{
    let mut rest = bytes;
    for _ in 0..u64::MAX {
        if rest.is_empty() {
            return Ok(());
        }
        let taken = write_some(writer, rest)?;
        rest = &rest[taken..];
    }
    Err(ScriptStop::Write)
}

/// Writes a text as a line.
fn write_line<W: Write>(writer: &mut W, text: &str) -> Result<(), ScriptStop>
    ensures ok { OnOk result
        (Appends (W.contents writer.old) (W.contents writer.new) (text.now ++ 10 ∷ [])) }
    ensures err { OnErr result (AppendsFront (W.contents writer.old) (W.contents writer.new)
        (text.now ++ 10 ∷ [])) }
    ensures fault { IfErr result IsOfWriter }
{
    write_bytes(writer, text.as_bytes())?;
    write_bytes(writer, b"\n")?;
    match writer.flush() {
        Ok(()) => Ok(()),
        Err(_) => Err(ScriptStop::Write),
    }
}

/// Writes a reply as a line. No memory is needed to write that no memory was left, or that there
/// was no request.
fn write_reply<W: Write>(alloc: Global, writer: &mut W, reply: &Reply) -> Result<(), ScriptStop>
    ensures ok { OnOk result
        (Appends (W.contents writer.old) (W.contents writer.new) (line_of reply.now)) }
    ensures err { IfErr result (λ fault. Loses fault reply.now (W.contents writer.old)
        (W.contents writer.new)) }
    ensures goes { IfErr result (IfStop ⊥) }
{
    match reply {
        Reply::NoRequest => write_line(writer, bad_command_line()),
        Reply::Became(Outcome::Failed(Fault::Memory)) => write_line(writer, memory_line()),
        Reply::Became(outcome) => {
            let text = reply_line(alloc, outcome)?;
            write_line(writer, text.as_str())
        }
    }
}

/// The reply to a line that isn't blank. The bytes are taken out of the line.
fn answer_kept<D: Desk, V: Watch>(
    alloc: Global,
    desk: &mut D,
    watch: &mut V,
    line: &mut Line,
) -> Reply
    ensures replies { (text : List ℕ) → HasCome line.old text
        → Replies D.are_right D.tells D.stands (D.seen desk.old) (request_of text) result
        (D.seen desk.new) }
    ensures same { V.stops watch.new ≡ V.stops watch.old }
{
    if line.is_long {
        watch.no_request(None);
        return Reply::NoRequest;
    }
    let text = mem::replace(&mut line.kept, Vec::new(alloc));
    answer_line(alloc, desk, watch, text)
}

/// Continues after a reply, or ends the script with it if its line isn't carried out and the script
/// is to end there.
fn go_on(stops: bool, reply: &Reply) -> Result<(), ScriptStop>
    ensures goes { OnOk result
        (stops ≡ true → (count_refused reply.now ≡ 0) × (count_failed reply.now ≡ 0)) }
    ensures ends { IfErr result (IsStopAt reply.now) }
    ensures halts { IfErr result (IfStop (stops ≡ true)) }
    ensures fault { IfErr result IsOfReply }
{
    if !stops {
        return Ok(());
    }
    match reply {
        Reply::NoRequest | Reply::Became(Outcome::Answered(Answer::Refused(_))) => {
            Err(ScriptStop::Refused)
        }
        Reply::Became(Outcome::Failed(_)) => Err(ScriptStop::Failed),
        Reply::Became(Outcome::Answered(_)) => Ok(()),
    }
}

/// Writes a reply, and shows it to the watch. The script continues after it or ends with it.
fn tell_reply<W: Write, V: Watch>(
    alloc: Global,
    writer: &mut W,
    watch: &mut V,
    reply: &Reply,
) -> Result<(), ScriptStop>
    ensures ok { OnOk result
        (Appends (W.contents writer.old) (W.contents writer.new) (line_of reply.now)) }
    ensures goes { OnOk result
        (V.stops watch.old ≡ true → (count_refused reply.now ≡ 0) × (count_failed reply.now ≡ 0)) }
    ensures err { IfErr result (λ fault. Loses fault reply.now (W.contents writer.old)
        (W.contents writer.new)) }
    ensures halts { IfErr result (IfStop (V.stops watch.old ≡ true)) }
    ensures same { V.stops watch.new ≡ V.stops watch.old }
{
    write_reply(alloc, writer, reply)?;
    watch.replied(reply);
    go_on(watch.stops(), reply)
}

/// Serves a line of which these bytes came: a blank line is skipped; for any other the reply is
/// written and counted.
pub fn serve<D: Desk, W: Write, V: Watch>(
    alloc: Global,
    desk: &mut D,
    writer: &mut W,
    watch: &mut V,
    end: &mut ScriptEnd,
    line: &mut Line,
) -> Result<(), ScriptStop>
    requires room { (end.old.refused + 1 < 2 ^ 64) × (end.old.failed + 1 < 2 ^ 64) }
    ensures ok { (text : List ℕ) → HasCome line.old text
        → OnOk result (Serves D.are_right D.tells D.stands D.seen (request_at text)
        desk.old desk.new (W.contents writer.old) (W.contents writer.new) end.old end.new) }
    ensures err { (text : List ℕ) → HasCome line.old text
        → IfErr result (λ fault. ServesUntil D.are_right D.tells D.stands D.seen fault
        (request_at text)
        desk.old desk.new (W.contents writer.old) (W.contents writer.new)) }
    ensures few { (end.new.refused ≤ end.old.refused + 1) × (end.new.failed ≤ end.old.failed + 1) }
    ensures fault { IfErr result IsOfReply }
    ensures still { OnOk result (V.stops watch.old ≡ true → IsUncounted end.old end.new) }
    ensures halts { IfErr result (IfStop (V.stops watch.old ≡ true)) }
    ensures same { V.stops watch.new ≡ V.stops watch.old }
{
    watch.came();
    if line.is_blank {
        return Ok(());
    }
    let reply = answer_kept(alloc, desk, watch, line);
    end.count(&reply);
    let told = tell_reply(alloc, writer, watch, &reply);
    drop(reply);
    told
}
