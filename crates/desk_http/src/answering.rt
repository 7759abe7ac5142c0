//! Answers the request that bytes make.

ghost use Rattle.std.specs.Prelude.{◌≡◌, ◌<◌, List, ℕ, Some, None, length, MatchBool, MatchOption};
ghost use Rattle.desk_http_head.specs.Framings.{Framed, IsFraming, closed, IsAsked, Asked};
ghost use Rattle.desk_http.specs.Receiving.{IsReceived};
ghost use Rattle.desk_http.specs.Serving.{Wants, Answers, IsBarred, IsReply, is_get};

use crate::asking::{Reply, Request, Shape};
use crate::reading::request_of;
use crate::receiving::Received;
use crate::table::RouteTable;
use desk_core::desk::Desk;
use desk_http_head::{Framing, Status, frame, is_from_elsewhere};
use desk_script::{command_outcome, question_outcome};
use std::alloc::Global;

/// What is wanted of the desk.
#[derive(Drop)]
pub enum Wanted {
    /// This request, and whether it came by GET.
    Request(Request, bool),
    /// Nothing: what came is refused with this status.
    Bad(Status),
    /// Nothing: no memory was left to read it.
    Memory,
}

fn is_get(method: &[u8]) -> bool
    ensures { result ≡ is_get method.now }
{
    method == b"GET".as_slice()
}

/// What bytes ask for if no more follow.
fn wanted_by(alloc: Global, routes: &mut RouteTable, bytes: &[u8]) -> Wanted
    ensures { (f : Framed) × IsFraming bytes.now f × Wants result (closed f) }
{
    match frame(bytes) {
        Framing::Part(_) => Wanted::Bad(Status::BadRequest),
        Framing::Bad(status) => Wanted::Bad(status),
        Framing::Whole {
            method,
            target,
            body,
            ..
        } => match request_of(alloc, routes, method, target, body) {
            Ok(request) => Wanted::Request(request, is_get(method)),
            Err(_) => Wanted::Memory,
        },
    }
}

/// The reply to a request.
fn reply_to<D: Desk>(desk: &mut D, request: Request, is_get: bool) -> Reply
    ensures { Answers D.are_right D.tells D.stands D.seen is_get desk.old result request desk.new }
{
    match request {
        Request::Act(command) => Reply::Became(command_outcome(desk, command), Shape::Json, is_get),
        Request::Ask(query, shape) => Reply::Became(question_outcome(desk, &query), shape, is_get),
        Request::NoRoute => Reply::NoRoute,
        Request::BadCommand => Reply::BadCommand,
        Request::NotText => Reply::NotText,
    }
}

/// The reply to what is wanted.
fn reply_for<D: Desk>(desk: &mut D, wanted: Wanted) -> Reply
    ensures { (bytes : List ℕ) (asks : Asked) → IsAsked bytes asks → Wants wanted asks
        → IsReply D.are_right D.tells D.stands D.seen None desk.old bytes result desk.new }
{
    match wanted {
        Wanted::Request(request, is_get) => reply_to(desk, request, is_get),
        Wanted::Bad(status) => Reply::Bad(status),
        Wanted::Memory => Reply::Memory,
    }
}

/// The reply to bytes. They are dropped before the desk answers, so that it can use their memory.
fn answer_bytes<D: Desk>(
    alloc: Global,
    routes: &mut RouteTable,
    desk: &mut D,
    bytes: Vec<u8>,
) -> Reply
    ensures { (all : List ℕ) → ((f : Framed) → IsFraming bytes.items f → IsAsked all (closed f))
        → IsReply D.are_right D.tells D.stands D.seen None desk.old all result desk.new }
{
    let wanted = wanted_by(alloc, routes, bytes.as_slice());
    drop(bytes);
    reply_for(desk, wanted)
}

/// Whether bytes are barred from a desk at a port: a browser sent them for a page from elsewhere.
fn is_barred(port: Option<u16>, bytes: &[u8]) -> bool
    ensures { MatchBool result (IsBarred port bytes.now) (¬ (IsBarred port bytes.now)) }
{
    match port {
        Some(port) => is_from_elsewhere(bytes, port),
        None => false,
    }
}

/// The reply to what was received, if any byte was. What is barred doesn't reach the desk.
pub fn answer<D: Desk>(
    alloc: Global,
    routes: &mut RouteTable,
    port: Option<u16>,
    desk: &mut D,
    received: Received,
) -> Option<Reply>
    ensures { (bytes : List ℕ) → IsReceived bytes received → MatchOption result
        ((length bytes ≡ 0) × (desk.new ≡ desk.old))
        (λ reply. (0 < length bytes)
        × IsReply D.are_right D.tells D.stands D.seen port desk.old bytes reply desk.new) }
{
    match received {
        Received::Nothing => None,
        Received::Memory => Some(Reply::Memory),
        Received::Bytes(bytes) => {
            if is_barred(port, bytes.as_slice()) {
                drop(bytes);
                return Some(Reply::Elsewhere);
            }
            Some(answer_bytes(alloc, routes, desk, bytes))
        }
    }
}
