//! The texts of replies.

ghost use Rattle.std.specs.Prelude.{◌≡◌, ◌⊎◌, ◌++◌, true, false, IfOk, codes, string_bytes, if◌then◌else◌};
ghost use Rattle.desk_json.specs.Replies.{reply_text, bad_command_text};
ghost use Rattle.desk_http.specs.Replies.{Told, IsTold, IsMessage, head_bytes, reply_bytes, json, content_of, told_of, not_toml, no_memory, no_text, no_store, from_elsewhere};
ghost use Rattle.desk_http.specs.declared.asking.Reply.TheVariants.{Became};

use crate::asking::{Reply, Shape};
use crate::statuses::status_of;
use desk_http_head::Status;
use desk_json::{bad_command_line, reply_line};
use desk_model::{Answer, Fault, Outcome};
use desk_report::{duties_csv, notices};
use std::alloc::{AllocError, Global};

/// What is written for a reply: its bytes in two parts, or one of the replies that need no memory.
#[derive(Drop)]
pub enum Message {
    /// A status, and the reply's bytes in two parts, to be written one after the other.
    Made(Status, Vec<u8>, Vec<u8>),
    /// No memory was left, and nothing was changed.
    NoMemory,
    /// No memory was left for the text of the reply; the request may have been applied.
    NoText,
    /// The file that keeps the desk failed.
    NoStore,
    /// A browser sent the request for a page from elsewhere, and it wasn't applied.
    FromElsewhere,
}

/// How an outcome is written.
#[derive(Drop)]
struct Content {
    media_type: &'static str,
    body: Vec<u8>,
}

/// A reply in two parts, of which the second may be empty.
#[derive(Drop)]
struct Parts {
    front: Vec<u8>,
    rest: Vec<u8>,
}

/// How many bytes a body may have to be copied after its head, so that one write takes both.
const COPIED_BYTES: usize = 65_536;

/// The lines before a body of this many bytes.
#[tactic(auto, unfolding(crate::specs::Replies::head_bytes))]
fn head(
    alloc: Global,
    status: Status,
    media_type: &str,
    length: usize,
) -> Result<String, AllocError>
    ensures { IfOk result (λ text. string_bytes text ≡ head_bytes status media_type.now length) }
{
    let line = status.line();
    format!(in alloc;
        "HTTP/1.1 {line}\r\nContent-Type: {media_type}\r\nContent-Length: {length}\r\nConnection: close\r\n\r\n"
    )
}

/// A reply with a status, a media type and a body.
#[tactic(auto, unfolding(crate::specs::Replies::reply_bytes))]
fn reply_with(
    alloc: Global,
    status: Status,
    media_type: &str,
    body: &[u8],
) -> Result<Vec<u8>, AllocError>
    ensures { IfOk result (λ text. text.items ≡ reply_bytes (status, (media_type.now, body.now))) }
{
    let mut text = head(alloc, status, media_type, body.len())?.into_bytes();
    text.extend_from_slice(body)?;
    Ok(text)
}

/// A reply with a status and a content. Only a short body is copied.
#[tactic(auto, unfolding(crate::specs::Replies::reply_bytes))]
fn in_parts(alloc: Global, status: Status, content: Content) -> Result<Parts, AllocError>
    ensures { IfOk result (λ parts. parts.front.items ++ parts.rest.items
        ≡ reply_bytes (status, (content.media_type.now, content.body.items))) }
{
    let Content { media_type, body } = content;
    let length = body.len();
    if length <= COPIED_BYTES {
        let front = reply_with(alloc, status, media_type, body.as_slice())?;
        let rest = Vec::new(alloc);
        return Ok(Parts { front, rest });
    }
    let front = head(alloc, status, media_type, length)?.into_bytes();
    Ok(Parts { front, rest: body })
}

/// The media type and the body of an outcome: notices or a table of duties if they are asked for,
/// and anything else as its line of JSON.
fn content_of(alloc: Global, outcome: &Outcome, shape: Shape) -> Result<Content, AllocError>
    ensures { IfOk result (λ c. (c.media_type.now, c.body.items) ≡ content_of outcome.now shape) }
{
    let (media_type, body) = match (outcome, shape) {
        (Outcome::Answered(Answer::Bill(bill)), Shape::Notices) => {
            ("text/plain; charset=utf-8", notices(alloc, bill)?)
        }
        (Outcome::Answered(Answer::Duties(lines)), Shape::Csv) => {
            (
                "text/csv; charset=utf-8",
                duties_csv(alloc, lines.as_slice())?,
            )
        }
        _ => ("application/json", reply_line(alloc, outcome)?.into_bytes()),
    };
    Ok(Content { media_type, body })
}

/// The bytes of the reply to an outcome that is written in a shape. Refusals and faults are JSON in
/// each shape, and so is an answer that has no other shape.
pub fn reply(alloc: Global, outcome: &Outcome, shape: Shape) -> Result<Vec<u8>, AllocError>
    ensures { IfOk result (λ bytes. bytes.items ≡ reply_bytes (told_of outcome.now shape)) }
{
    let Content { media_type, body } = content_of(alloc, outcome, shape)?;
    reply_with(alloc, status_of(outcome), media_type, body.as_slice())
}

/// The reply to an outcome that is written in a shape, in two parts.
fn reply_parts(alloc: Global, outcome: &Outcome, shape: Shape) -> Result<Parts, AllocError>
    ensures { IfOk result (λ parts. parts.front.items ++ parts.rest.items
        ≡ reply_bytes (told_of outcome.now shape)) }
{
    let content = content_of(alloc, outcome, shape)?;
    in_parts(alloc, status_of(outcome), content)
}

/// The reply if no memory was left for a request.
pub fn no_memory() -> &'static str
    ensures { result.now ≡ reply_bytes no_memory }
{
    "HTTP/1.1 503 Service Unavailable\r\nContent-Type: application/json\r\nContent-Length: 18\r\nConnection: close\r\n\r\n{\"fault\":\"memory\"}"
}

/// The reply if no memory was left only for its text.
pub fn no_text() -> &'static str
    ensures { result.now ≡ reply_bytes no_text }
{
    "HTTP/1.1 503 Service Unavailable\r\nContent-Type: application/json\r\nContent-Length: 17\r\nConnection: close\r\n\r\n{\"fault\":\"reply\"}"
}

/// The reply if the store failed.
pub fn no_store() -> &'static str
    ensures { result.now ≡ reply_bytes no_store }
{
    "HTTP/1.1 500 Internal Server Error\r\nContent-Type: application/json\r\nContent-Length: 17\r\nConnection: close\r\n\r\n{\"fault\":\"store\"}"
}

/// The reply to a request that a browser made for a page from elsewhere.
pub fn from_elsewhere() -> &'static str
    ensures { result.now ≡ reply_bytes from_elsewhere }
{
    "HTTP/1.1 403 Forbidden\r\nContent-Type: application/json\r\nContent-Length: 18\r\nConnection: close\r\n\r\n{\"fault\":\"origin\"}"
}

/// The line of JSON for a catalogue that isn't UTF-8.
fn not_toml_line() -> &'static str
    ensures { result.now ≡ reply_text not_toml }
{
    "{\"at\":[1],\"name\":\"BadCatalogue\",\"refused\":1}"
}

/// The message of a reply that doesn't involve the desk.
fn unasked_reply(alloc: Global, status: Status, body: &str) -> Message
    ensures { (told : Told) × IsMessage told result
        × ((told ≡ (status, json body.now)) ⊎ (told ≡ no_memory)) }
{
    match reply_with(alloc, status, "application/json", body.as_bytes()) {
        Ok(text) => Message::Made(status, text, Vec::new(alloc)),
        Err(_) => Message::NoMemory,
    }
}

/// The message if no memory is left for the reply to an outcome.
fn short_message(is_get: bool) -> Message
    ensures { IsMessage (if is_get then no_memory else no_text) result }
{
    if is_get {
        Message::NoMemory
    } else {
        Message::NoText
    }
}

/// The message of the reply to an outcome.
fn outcome_message(alloc: Global, outcome: &Outcome, shape: Shape, is_get: bool) -> Message
    ensures { (told : Told) × IsMessage told result
        × IsTold (Became outcome.now shape is_get) told }
{
    match outcome {
        Outcome::Failed(Fault::Memory) => Message::NoMemory,
        Outcome::Failed(Fault::Store(_)) => Message::NoStore,
        Outcome::Answered(_) => match reply_parts(alloc, outcome, shape) {
            Ok(parts) => Message::Made(status_of(outcome), parts.front, parts.rest),
            Err(_) => short_message(is_get),
        },
    }
}

/// The message of a reply.
pub fn message_of(alloc: Global, reply: &Reply) -> Message
    ensures { (told : Told) × IsMessage told result × IsTold reply.now told }
{
    match reply {
        Reply::Became(outcome, shape, is_get) => outcome_message(alloc, outcome, *shape, *is_get),
        Reply::Bad(status) => unasked_reply(alloc, *status, "{\"fault\":\"request\"}"),
        Reply::NoRoute => unasked_reply(alloc, Status::NotFound, "{\"fault\":\"route\"}"),
        Reply::BadCommand => unasked_reply(alloc, Status::BadRequest, bad_command_line()),
        Reply::NotText => unasked_reply(alloc, Status::UnprocessableContent, not_toml_line()),
        Reply::Memory => Message::NoMemory,
        Reply::Elsewhere => Message::FromElsewhere,
    }
}
