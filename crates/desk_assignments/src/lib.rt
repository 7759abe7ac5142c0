//! Requests in words: the word of a command or of a question, and assignments `KEY=VALUE`, as
//! POSIX names such operands (awk, XCU). `duty=12 day=2025-03-04` is what
//! `{"duty":12,"day":"2025-03-04"}` is in a request in JSON.
//!
//! `read_words` is the request that words spell: the one that an object with these members is
//! (`desk_json::read_command`). `WordsTrouble` says why they spell none.
#![tactic(auto)]

mod line;
mod request;
mod source;
mod trouble;
mod value;
mod verb;

pub use line::{WordsFault, request_line};
pub use request::read_words;
pub use source::{Source, source_of};
pub use trouble::WordsTrouble;
pub use verb::Verb;
