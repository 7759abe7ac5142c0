//! What the texts given to a desk say: documents (SPDX 2.3, tag-value), licence expressions and
//! terms (SPDX 2.3, Annex D), and catalogues of duties.
//!
//! `Standard` is the desk's reader of texts (`desk_access::texts::Texts`). `AreRight` of
//! `specs/Right.antt` says which readings are right, in the words of the readers below: those that
//! say of each text what it spells.
#![tactic(auto)]

mod catalogue;
mod choice;
mod document;
mod expression;
mod findings;
mod licences;
mod listing;
mod sorting;
mod standard;
mod term;

pub use standard::Standard;
