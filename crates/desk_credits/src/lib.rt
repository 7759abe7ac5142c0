//! The credit of a package, from the copyright notices of its source tree, for files that fill what
//! the notices of a release lack (`desk_fill`).
//!
//! - `notice_in` returns the notice that a line has without a tag: a text that begins as notices do,
//!   behind the start of a comment. The starts and ends of comments and the marks of notices are in
//!   one table, `patterns` (`specs/Patterns.antt`).
//! - `notices_of` returns the notices of a tree, each once, in the order of first use
//!   (`specs/Notices.antt`): what gathering finds for each file (`desk_tree_gather`), and what its
//!   lines have by pattern.
//! - `credit_file` writes one credit as TOML, behind a comment for each notice that was found by
//!   pattern (`specs/Written.antt`). `fill_of` of `desk_fill` reads it back as exactly this credit.
//! - `credits` is the answer for a tree (`specs/Answers.antt`).
#![tactic(auto)]

mod answers;
mod finding;
mod laws;
mod notice;
mod notices;
mod patterns;
mod tables;
mod tree;
mod written;

pub use answers::credits;
pub use laws::{patterns_are_these, written_credits_are_read};
pub use notice::{Notice, Place};
