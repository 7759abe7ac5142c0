//! Replies of the desk in words for people.
//!
//! - `RefusalWords` puts a refusal with its fault and its place into words:
//!   `BadDocument: TooLarge, more than 4 MiB`.
//! - `request_trouble` finds why a line is no request, and `RequestTrouble` puts it into words
//!   (`specs/Troubles.antt`).
//! - `request_usage` says which keys a request may have.
#![tactic(auto)]

mod forms;
mod refusals;
mod requests;
mod usage;

pub use refusals::RefusalWords;
pub use requests::{RequestTrouble, Wanted, request_trouble};
pub use usage::request_usage;
