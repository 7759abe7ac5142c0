//! The desk over HTTP (RFC 9110, RFC 9112): bytes in, bytes out, one request for each connection.
//!
//! - `receive` reads from a reader, in whatever pieces the bytes come, until it is settled what
//!   they begin with (`frame` of `desk_http_head`), and no further. It looks at the bytes again
//!   only if that can change something, so many small pieces cost no more than their number. `send`
//!   writes bytes; if it fails, it wrote a prefix of them.
//! - `RouteTable` is the table of routes, one row for each: its method, its pattern and what it
//!   asks for. `RouteTable::route_of` looks up a method and a path with `matchit`, without percent
//!   decoding. The same table is in `specs/Routes.antt`.
//! - `request` reads the request that bytes begin with: a command or a query for the desk, or why
//!   there is none. What a method, a target and a body ask for is a function of them
//!   (`specs/Requests.antt`), over the table of routes.
//! - The reply to an outcome has a status, which `specs/OutcomeStatuses.antt` gives by the numbers
//!   of refusals. Its body is the JSON line of `desk_json` or, if they are asked for, the notices
//!   or the table of duties of `desk_report` (`specs/Replies.antt`).
//! - `message_of` returns what is written for a reply, in two parts: a long body isn't copied after
//!   its head. Three replies need no memory: no memory for a request, no memory for the text of a
//!   reply, and a failure of the store.
//! - `serve_one` reads a request, has the desk answer it and writes the reply
//!   (`specs/Serving.antt`). What it replies depends on the bytes, not on how they were cut.
//!   Nothing is written if no byte came.
//! - `serve_at` does the same for one of many connections to a port, which share the table of
//!   routes. A request that a browser made for a page from elsewhere gets the reply 403, and
//!   doesn't reach the desk.
//! - `serve` serves a given number of connections one after another, which an `Accept` accepts and
//!   gets back (`specs/Accepting.antt`), and counts those that fail.
//!
//! `Expect` is ignored.
//!
//! `read_command`, `reply_line` and `script` handle the same requests and replies as lines.
#![tactic(auto)]

mod accepting;
mod answering;
mod asking;
mod connections;
pub mod limits;
mod paths;
mod reading;
mod receiving;
mod replies;
mod sending;
mod serving;
mod statuses;
mod table;

pub use accepting::{Accept, serve};
pub use asking::{Reading, Reply, Request, Shape};
pub use connections::connections_are_lines;
pub use desk_http_head::{
    Awaited, BodyLength, Framing, Status, frame, is_from_elsewhere, number_of,
};
pub use desk_json::{read_command, reply_line};
pub use desk_script::script;
pub use paths::{part_at, path_of};
pub use reading::{request, request_of};
pub use receiving::{Received, ServeFault, receive};
pub use replies::{Message, from_elsewhere, message_of, no_memory, no_store, no_text, reply};
pub use sending::send;
pub use serving::{Served, serve_at, serve_one};
pub use statuses::status_of;
pub use table::{Posted, Route, RouteTable, Shown};
