//! What an office looks up in the desk of a file besides its answers, written out.
//!
//! Each function looks it up in the desk, which stays as it was, writes it, and returns the
//! program's status, as those of `desk_views` do. If the desk fails, both the reply and the failure
//! say so.
//!
//! - `wanting` writes the refusals that keep a release from being frozen, one on each line, and
//!   `choices` the requests for choices that leave nothing to choose (`specs/Inspecting.antt`).
//!   Notes of `wanting` say which documents of a release ship no package (`specs/Idle.antt`).
//! - `gap_count` counts the gaps of a release (`specs/Counting.antt`).
//! - `releases`, `documents` and `duties` write lists of what the desk holds (`specs/Listing.antt`).
//! - `held_document` says what a document is that a desk holds (`specs/Held.antt`).
//! - `proposals` writes the requests that are proposed for a document (`specs/Proposing.antt`).
#![tactic(auto)]

mod choosing;
mod counting;
mod freezing;
mod held;
mod idle;
mod listing;
mod proposing;

pub use choosing::choices;
pub use counting::gap_count;
pub use freezing::wanting;
pub use held::{HeldDocument, held_document};
pub use listing::{documents, duties, releases};
pub use proposing::proposals;
