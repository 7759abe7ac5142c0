//! Where a request ends.

ghost use Rattle.std.specs.Prelude.{◌≡◌, ◌<◌, ◌≤◌, ℕ, List, length, take, drop, map, All, MatchBool};
ghost use Rattle.httparse.specs.Spans.{header_bytes, IsHeaderWithin};
ghost use Rattle.desk_http_head.specs.Limits.{head_bytes, body_bytes};
ghost use Rattle.desk_http_head.specs.Origins.{IsFromElsewhere};
ghost use Rattle.desk_http_head.specs.Framings.{framed, judged, by_length, with_body, IsFraming, AwaitsFrom, IsAwaited, IfPart};

use crate::fields::{BodyLength, body_length, is_encoded};
use crate::limits::{BODY_BYTES, HEAD_BYTES, HEAD_FIELDS};
use crate::origins::are_foreign;
use crate::status::Status;
use httparse::Status as Parsed;
use httparse::spans::{EMPTY_HEADER_SPAN, HeaderSpan, parse_request};

/// What is awaited.
#[derive(Clone, Copy)]
pub enum Awaited {
    /// The first byte of the head, which may come after line ends.
    Start,
    /// The rest of the head.
    Head,
    /// The rest of the body: with it there are this many bytes, including the head.
    Body(usize),
}

/// What the bytes that came so far begin with.
#[derive(Clone, Copy)]
pub enum Framing<'a> {
    /// Part of a request: more bytes are awaited.
    Part(Awaited),
    /// Something that is refused with this status.
    Bad(Status),
    /// A request, and the bytes after it.
    Whole {
        /// The method, as it is written.
        method: &'a [u8],
        /// What the request is for: a path, perhaps followed by a query.
        target: &'a [u8],
        /// The body, which is empty if the head gives no length.
        body: &'a [u8],
        /// What came after the request, and is ignored.
        rest: &'a [u8],
    },
}

fn with_bytes<'a>(
    method: &'a [u8],
    target: &'a [u8],
    head: usize,
    n: usize,
    after: &'a [u8],
) -> Framing<'a>
    requires short { head ≤ head_bytes }
    requires small { n ≤ body_bytes }
    ensures reading { framed result ≡ with_body method.now target.now n after.now }
    ensures awaits { AwaitsFrom head (with_body method.now target.now n) after.now result }
{
    if n <= after.len() {
        Framing::Whole {
            method,
            target,
            body: &after[..n],
            rest: &after[n..],
        }
    } else {
        Framing::Part(Awaited::Body(head + n))
    }
}

fn by_said<'a>(
    method: &'a [u8],
    target: &'a [u8],
    said: BodyLength,
    head: usize,
    after: &'a [u8],
) -> Framing<'a>
    requires short { head ≤ head_bytes }
    ensures reading { framed result ≡ by_length method.now target.now said after.now }
    ensures awaits { AwaitsFrom head (by_length method.now target.now said) after.now result }
{
    match said {
        BodyLength::Bad => Framing::Bad(Status::BadRequest),
        BodyLength::Unsaid => with_bytes(method, target, head, 0, after),
        BodyLength::Bytes(n) => {
            if n > BODY_BYTES {
                Framing::Bad(Status::ContentTooLarge)
            } else {
                with_bytes(method, target, head, n as usize, after)
            }
        }
    }
}

/// The bytes within which a head has to end.
fn front_of(bytes: &[u8]) -> &[u8]
    ensures front { result.now ≡ take head_bytes bytes.now }
    ensures short { length bytes.now < head_bytes → result.now ≡ bytes.now }
    ensures within { length result.now ≤ length bytes.now }
    ensures most { length result.now ≤ head_bytes }
{
    if bytes.len() < HEAD_BYTES {
        bytes
    } else {
        &bytes[..HEAD_BYTES]
    }
}

/// What a head with these parts and the bytes after it are read as.
fn judge<'a>(
    front: &[u8],
    fields: &[HeaderSpan],
    method: &'a [u8],
    target: &'a [u8],
    head: usize,
    after: &'a [u8],
) -> Framing<'a>
    requires within { All (IsHeaderWithin (length front.now)) fields.now }
    requires short { head ≤ head_bytes }
    ensures reading { framed result
        ≡ judged method.now target.now (map (header_bytes front.now) fields.now) after.now }
    ensures awaits { AwaitsFrom head
        (judged method.now target.now (map (header_bytes front.now) fields.now)) after.now result }
{
    if is_encoded(front, fields) {
        Framing::Bad(Status::NotImplemented)
    } else {
        by_said(method, target, body_length(front, fields), head, after)
    }
}

/// What the bytes that came so far begin with. The head is read within the first 16,384 of them.
pub fn frame(bytes: &[u8]) -> Framing<'_>
    ensures reading { IsFraming bytes.now (framed result) }
    ensures awaits { IfPart result (IsAwaited bytes.now) }
{
    let front = front_of(bytes);
    let mut spans = [EMPTY_HEADER_SPAN; HEAD_FIELDS];
    match parse_request(front, &mut spans) {
        Ok(Parsed::Complete(head)) => {
            let fields = &spans[..head.headers];
            judge(
                front,
                fields,
                head.method.of(front),
                head.path.of(front),
                head.len,
                &bytes[head.len..],
            )
        }
        Ok(Parsed::Partial) => {
            if bytes.len() < HEAD_BYTES {
                Framing::Part(Awaited::Head)
            } else {
                Framing::Bad(Status::BadRequest)
            }
        }
        Err(_) => Framing::Bad(Status::BadRequest),
    }
}

/// Whether the bytes begin with the head of a request that a browser made for a page from
/// elsewhere: one with an origin other than the address of a desk at this port.
pub fn is_from_elsewhere(bytes: &[u8], port: u16) -> bool
    ensures { MatchBool result (IsFromElsewhere port bytes.now) (¬ (IsFromElsewhere port bytes.now)) }
{
    let front = front_of(bytes);
    let mut spans = [EMPTY_HEADER_SPAN; HEAD_FIELDS];
    match parse_request(front, &mut spans) {
        Ok(Parsed::Complete(head)) => are_foreign(front, &spans[..head.headers], port),
        Ok(Parsed::Partial) => false,
        Err(_) => false,
    }
}
