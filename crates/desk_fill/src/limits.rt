//! The limits of a file, each in one place. Definitions have their own (`specs/Reading.antt`).

/// The bytes of the longest file that is read.
pub const FILL_BYTES: usize = 4_194_304;

/// How many texts, and how many credits, a file may have.
pub const FILL_ENTRIES: usize = 10_000;
