//! The limits of a connection, each in one place. The definitions have their own
//! (`specs/Limits.antt`), so a limit that is changed only here is refused.

pub use desk_http_head::limits::{BODY_BYTES, HEAD_BYTES, HEAD_FIELDS};

/// How many times at most a reader is asked for bytes.
pub const READS: u32 = 1_048_576;

/// How many bytes at most it is asked for each time.
pub const PIECE_BYTES: usize = 16_384;
