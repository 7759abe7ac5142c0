//! What a file looks like that a desk reads as no document, and which public tool makes one of it.
//!
//! `look_of` goes by a table of rows (`specs/Looks.antt`): how the bytes begin, behind a byte order
//! mark and blanks, and a word among the first 4,096 bytes from there on. The first row that holds
//! counts. A file in another form of SPDX or CycloneDX, an archive or the text of a licence looks
//! like that; a tag-value document, JSON and other XML look like nothing, since what is wrong with
//! them is said elsewhere. It is a guess for a line of help, and decides nothing else: a file with a
//! look may still be a document. The time is linear in the blanks at the start and otherwise
//! bounded.
//!
//! `look_line` is that line (`specs/Words.antt`), and `laws` says in which order the rows count.
#![tactic(auto)]

mod head;
pub mod laws;
mod line;
mod look;
mod rows;

pub use head::behind_mark;
pub use line::look_line;
pub use look::Look;
pub use rows::look_of;
