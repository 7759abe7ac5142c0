//! The document of a source tree: what a tag-value document (SPDX 2.3) says about its package and
//! its covered files, from what `desk_tree_gather` gathers about them, or the line of the fault
//! because of which there is none.
//!
//! - `draft_of` (`specs/Drafts.antt`) is a function of the files, of the document's name, namespace
//!   and time, and of the package's verification code, which is that of the files' SHA1 digests
//!   (clause 7.9): the draft, or the first fault. Licences are joined by `AND`, each in
//!   parentheses, and notices by line feeds. `draft` returns this for each reader that is right by
//!   the definitions on which `desk_tree_gather` relies.
//! - `document_of` is the draft's text, which `desk_tagvalue` writes, or the fault's line: its name
//!   and each of its values after a space (`IsGathering` of `specs/Gathering.antt`). With the text
//!   it returns for how many files the draft gives no licence or no notice (`specs/Gaps.antt`).
//! - `drafts_ship` and `drafts_of_trees_ship` are laws: what such a text spells ships the draft's
//!   package, and no other.
#![tactic(auto)]

mod document;
mod drafting;
mod files;
mod gaps;
pub mod laws;
mod texts;

pub use document::{Gathering, TextFault, document_of};
pub use drafting::draft;
pub use gaps::Gaps;
