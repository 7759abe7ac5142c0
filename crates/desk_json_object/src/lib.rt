//! Reads the object that a JSON text (RFC 8259) is, and keeps only what a reader of texts, whole
//! numbers and lists of texts can need.
//!
//! A value of the kit's `serde_json` takes up to 175 times the bytes of its text, since each object
//! keeps room for more members, and a list of short texts takes some 28 times its bytes. Here the
//! text is read token by token: a value that is an object, or a list of anything but texts, is
//! skipped and leaves nothing; a list of texts is packed (`desk_base::TextList`); and reading stops
//! at the first member beyond the limit. Still, `serde_json` must be able to read the whole text.
#![tactic(auto)]

mod members;
mod number;
mod object;
mod passing;

pub use members::Object;
pub use object::read_object;
