//! The answers of a desk as a terminal shows them: rows in columns under their names, and words.
//!
//! - `answer_text` is the text of any answer (`specs/Answers.antt`). Tables are laid out as the
//!   lists of `desk_lists` are. The notices of a release and its duties are as `desk_report` shows
//!   them on a terminal. An answer without rows is a word or two, and a refusal is in words with
//!   what it usually comes from.
//! - `gaps_text` is the list of what is missing for notices, also as comma-separated values
//!   (`specs/Gaps.antt`).
//!
//! What `desk_words` says of a refusal is in no contract. All else is, and the only error is that no
//! memory is left.
#![tactic(auto)]

mod answers;
mod lacking;
mod refusals;
mod rows;
mod sets;
mod tables;

pub use answers::answer_text;
pub use lacking::gaps_text;
pub use refusals::{Subject, WantingLine};
