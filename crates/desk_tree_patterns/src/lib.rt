//! Patterns of paths, as a REUSE.toml has them (REUSE Specification 3.3, "REUSE.toml", `path`).
//!
//! - `Glob::parse` reads a pattern, and `Glob::matches` says whether a path divides into stretches,
//!   one for each of its pieces in order (`specs/Glob.antt`). Contracts see a `Glob` as the list of
//!   its pieces; it is kept as its stars and the bytes between them (`specs/Parts.antt`).
//! - A pattern can be read in only one way (`one_glob`), and each text is one
//!   (`each_text_is_a_glob`). A `*` takes no `/` (`stars_take_no_slash`).
//! - A search goes from star to star (`specs/Steps.antt`). `Glob::matches` takes no memory.
//!   `Glob::matches_soon` replaces a search that goes back too often by one over rows of all places
//!   of the pattern (`specs/Rows.antt`), which takes a step for each byte of the path and each
//!   literal byte of the pattern.
#![tactic(auto)]

mod glob;
mod matching;
mod rows;

pub use glob::{Glob, Piece, each_text_is_a_glob, one_glob, stars_take_no_slash};
