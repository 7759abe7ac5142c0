//! What each value of an SPDX document in JSON (SPDX 2.2 and 2.3, JSON schema) is in the tag-value
//! form.
//!
//! `document_steps` returns the steps of a JSON value: its own fields, then its files, its snippets,
//! its packages, its extracted licences and its relationships. A step is a line to be written,
//! something that is left out, or a fault, each with its place, a JSON pointer (RFC 6901). Nothing
//! is written here: `desk_import` says what becomes of the steps.
//!
//! - `specs/Members.antt` lists the members of each object and the field of each (clauses 6 to 11).
//! - `specs/Values.antt`, `specs/Parts.antt` and `specs/Documents.antt` give the steps of a
//!   member's value, of a part and of a document.
//! - `specs/Kept.antt` and `specs/Files.antt` say what stays without idle files, which
//!   `desk_spdx_files` finds: they are left out with the relationships that name them. `laws` says
//!   that nothing else is.
//!
//! The time is linear in the value, but for the order of identifiers.
#![tactic(auto)]

mod composed;
mod contained;
mod documents;
mod elements;
mod items;
pub mod laws;
mod members;
mod parts;
mod steps;
mod ties;
mod values;
mod words;

pub use desk_spdx_files::{Files, word_in};
pub use documents::document_steps;
pub use elements::{Element, merged};
pub use members::{Form, Member};
pub use parts::{Part, add_object};
pub use steps::{Kind, Step, Steps, What, item_at, member_at};
pub use ties::relationship_text;
