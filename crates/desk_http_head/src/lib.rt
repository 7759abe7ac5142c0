//! The head of a request over HTTP (RFC 9110, RFC 9112): what bytes begin with, and who sent them.
//!
//! - `frame` says what the bytes that came so far begin with: a request, something that is refused
//!   with a status, or part of a request. The answer is defined over the grammar of `httparse`
//!   (`specs/Framings.antt`) and, once it is settled, doesn't change when more bytes come.
//! - `is_from_elsewhere` says whether a browser sent the request for a page whose origin isn't the
//!   desk's own address, by the fields `Origin`, `Sec-Fetch-Site` and `Host` of a head
//!   (`specs/Origins.antt`; Fetch Standard, Fetch Metadata Request Headers).
//! - `Status` is the status of a reply.
//!
//! A head is limited to 16,384 bytes and 64 fields, a body to 8 MiB, a connection to 1,048,576
//! reads (`limits`). A body with a transfer coding is refused with 501.
#![tactic(auto)]

mod fields;
mod framing;
pub mod limits;
mod origins;
mod status;

pub use fields::{BodyLength, number_of};
pub use framing::{Awaited, Framing, frame, is_from_elsewhere};
pub use status::Status;
