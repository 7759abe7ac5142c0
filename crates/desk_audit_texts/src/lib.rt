//! The conditions of an audit for which texts are read: those of the catalogue, of the documents,
//! and of the office's choices.
//!
//! Each catalogue and each document is read once, and dropped before the next. What it says is
//! compared with the rows that come next in the tables of what was read.
//!
//! - `catalogue_fault` judges the revisions and their rules; `document_fault` judges the documents,
//!   their packages and their extracted licences.
//! - `choice_fault` judges the office's conclusions, adoptions, places and choices (`AreChoices` of
//!   `desk_snapshot`): whether the office can have made them. Choices are judged once for each
//!   package, whose terms are side by side.
//! - `left` says which rows of a table are left after those that a text gives; `equal` compares a
//!   row with what was read.
#![tactic(auto)]

mod adoptions;
mod catalogue;
mod choices;
mod conclusions;
mod documents;
mod equal;
mod held;
mod in_force;
mod kept;
mod left;
mod numbering;
mod places;
mod printed;

pub use catalogue::catalogue_fault;
pub use choices::choice_fault;
pub use documents::document_fault;
