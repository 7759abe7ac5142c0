//! Serves a connection.

ghost use Rattle.std.specs.Prelude.{◌≡◌, List, ℕ, Some, None, IfOk, IfErr, OnErr};
ghost use Rattle.std.specs.Io.KnownBytes.{Appends};
ghost use Rattle.desk_http.specs.Receiving.{IsPrompt};
ghost use Rattle.desk_script.specs.Script.{AreLeft};
ghost use Rattle.desk_script.specs.Losses.{AppendsFront};
ghost use Rattle.desk_http.specs.Replies.{Told, IsTold, reply_bytes};
ghost use Rattle.desk_http.specs.Serving.{IsServed, IsStopped};

use crate::answering::answer;
use crate::asking::Reply;
use crate::receiving::{ServeFault, receive};
use crate::replies::{Message, from_elsewhere, message_of, no_memory, no_store, no_text};
use crate::sending::{send, send_both};
use crate::table::RouteTable;
use desk_core::desk::Desk;
use desk_http_head::Status;
use std::alloc::Global;
use std::io::{Read, Write};

/// How a connection was served.
#[derive(Clone, Copy, Debug, Drop, PartialEq, Eq)]
pub enum Served {
    /// A reply with this status was written.
    Replied(Status),
    /// No byte came, and nothing was written.
    Nothing,
}

/// Writes a reply, and returns its status.
fn write_reply<W: Write>(alloc: Global, writer: &mut W, reply: &Reply) -> Result<Status, ServeFault>
    ensures ok { IfOk result (λ status. (told : Told) × IsTold reply.now told × (status ≡ told.0)
        × Appends (W.contents writer.old) (W.contents writer.new) (reply_bytes told)) }
    ensures err { OnErr result ((told : Told) × IsTold reply.now told
        × AppendsFront (W.contents writer.old) (W.contents writer.new) (reply_bytes told)) }
    ensures fault { IfErr result (λ fault. fault ≡ ServeFault.Write) }
{
    match message_of(alloc, reply) {
        Message::Made(status, front, rest) => {
            send_both(writer, front.as_slice(), rest.as_slice())?;
            Ok(status)
        }
        Message::NoMemory => {
            send(writer, no_memory().as_bytes())?;
            Ok(Status::ServiceUnavailable)
        }
        Message::NoText => {
            send(writer, no_text().as_bytes())?;
            Ok(Status::ServiceUnavailable)
        }
        Message::NoStore => {
            send(writer, no_store().as_bytes())?;
            Ok(Status::InternalServerError)
        }
        Message::FromElsewhere => {
            send(writer, from_elsewhere().as_bytes())?;
            Ok(Status::Forbidden)
        }
    }
}

/// Serves the one request of a connection: reads it, has the desk answer it, and writes the reply.
/// The table of routes is the one that earlier connections used. With a port, a request that a
/// browser made for a page from elsewhere is barred.
fn serve_with<D: Desk, R: Read, W: Write>(
    alloc: Global,
    routes: &mut RouteTable,
    port: Option<u16>,
    desk: &mut D,
    reader: &mut R,
    writer: &mut W,
) -> Result<Served, ServeFault>
    ensures ok { IfOk result (λ served. (bytes : List ℕ) × AreLeft (R.remaining reader.old) bytes
        × IsServed D.are_right D.tells D.stands D.seen port desk.old bytes desk.new
        (W.contents writer.old) (W.contents writer.new) served) }
    ensures fault { IfErr result
        (IsStopped D.are_right D.tells D.stands D.seen port (R.remaining reader.old)
        (R.remaining reader.new)
        desk.old desk.new (W.contents writer.old) (W.contents writer.new)) }
    ensures prompt { IsPrompt (R.remaining reader.old) (R.remaining reader.new) }
{
    let received = receive(alloc, reader)?;
    let Some(reply) = answer(alloc, routes, port, desk, received) else {
        return Ok(Served::Nothing);
    };
    let written = write_reply(alloc, writer, &reply);
    drop(reply);
    Ok(Served::Replied(written?))
}

/// Serves the one request of a connection: reads it, has the desk answer it, and writes the reply.
///
/// The reply depends on the bytes, not on the pieces in which they come: it is 400 if they end
/// within a request, and there is none if no byte came. A command is applied once, or not at all if
/// the reply is 503 with `memory`. After a fault of the reader, or too many reads, nothing was
/// written and the desk is unchanged; after a fault of the writer a prefix of the reply was
/// written, and an accepted command stays applied. The reader isn't read past the piece that
/// completes the request.
pub fn serve_one<D: Desk, R: Read, W: Write>(
    alloc: Global,
    desk: &mut D,
    reader: &mut R,
    writer: &mut W,
) -> Result<Served, ServeFault>
    ensures ok { IfOk result (λ served. (bytes : List ℕ) × AreLeft (R.remaining reader.old) bytes
        × IsServed D.are_right D.tells D.stands D.seen None desk.old bytes desk.new
        (W.contents writer.old) (W.contents writer.new) served) }
    ensures fault { IfErr result
        (IsStopped D.are_right D.tells D.stands D.seen None (R.remaining reader.old)
        (R.remaining reader.new)
        desk.old desk.new (W.contents writer.old) (W.contents writer.new)) }
    ensures prompt { IsPrompt (R.remaining reader.old) (R.remaining reader.new) }
{
    let mut routes = RouteTable::new();
    serve_with(alloc, &mut routes, None, desk, reader, writer)
}

/// Serves the one request of a connection to a port as `serve_one` does, with the table of routes
/// that earlier connections used. A request that a browser made for a page from elsewhere is
/// answered with 403, whatever it asks for, and the desk is unchanged.
pub fn serve_at<D: Desk, R: Read, W: Write>(
    alloc: Global,
    routes: &mut RouteTable,
    port: u16,
    desk: &mut D,
    reader: &mut R,
    writer: &mut W,
) -> Result<Served, ServeFault>
    ensures ok { IfOk result (λ served. (bytes : List ℕ) × AreLeft (R.remaining reader.old) bytes
        × IsServed D.are_right D.tells D.stands D.seen (Some port) desk.old bytes desk.new
        (W.contents writer.old) (W.contents writer.new) served) }
    ensures fault { IfErr result
        (IsStopped D.are_right D.tells D.stands D.seen (Some port) (R.remaining reader.old)
        (R.remaining reader.new)
        desk.old desk.new (W.contents writer.old) (W.contents writer.new)) }
    ensures prompt { IsPrompt (R.remaining reader.old) (R.remaining reader.new) }
{
    serve_with(alloc, routes, Some(port), desk, reader, writer)
}
