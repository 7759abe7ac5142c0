//! What a client asks for over HTTP, and the reply that it gets.

use desk_http_head::Status;
use desk_model::{Command, Outcome, Query};

/// The form in which an answer is written.
#[derive(Clone, Copy, PartialEq, Eq)]
pub enum Shape {
    /// A line of JSON.
    Json,
    /// The notices of a release, as a text.
    Notices,
    /// The table of a release's duties, as comma-separated values.
    Csv,
}

/// What a request asks of the desk.
#[derive(Drop)]
pub enum Request {
    /// The command is to be applied.
    Act(Command),
    /// The query is to be answered in this shape.
    Ask(Query, Shape),
    /// The method and the path lead nowhere.
    NoRoute,
    /// The body isn't a request.
    BadCommand,
    /// The body is a catalogue that isn't UTF-8.
    NotText,
}

/// What bytes begin with.
#[derive(Drop)]
pub enum Reading<'a> {
    /// A request, and the bytes after its body.
    Whole(Request, &'a [u8]),
    /// Part of a request: more bytes are awaited.
    Part,
    /// Something that is refused with this status.
    Bad(Status),
}

/// The reply to a connection.
#[derive(Drop)]
pub enum Reply {
    /// The outcome of its command or query, the shape of an answer, and whether it was a GET.
    Became(Outcome, Shape, bool),
    /// Its bytes aren't a request, and are refused with this status.
    Bad(Status),
    /// Its method and path lead nowhere.
    NoRoute,
    /// Its body isn't a request.
    BadCommand,
    /// Its catalogue isn't UTF-8.
    NotText,
    /// No memory was left for it.
    Memory,
    /// A browser made it for a page from elsewhere.
    Elsewhere,
}
