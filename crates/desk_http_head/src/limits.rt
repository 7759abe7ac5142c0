//! The limits of a request, each in one place. The definitions have their own
//! (`specs/Limits.antt`), so a limit that is changed only here is refused.

/// How many bytes a head may have, including its last line end.
pub const HEAD_BYTES: usize = 16_384;

/// How many fields a head may have.
pub const HEAD_FIELDS: usize = 64;

/// How many bytes a body may have.
pub const BODY_BYTES: u64 = 8_388_608;
