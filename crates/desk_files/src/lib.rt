//! The files and folders that the words of a command line name.
//!
//! - `bytes_at` and `text_at` read a document or a catalogue, and `fills_at` reads files from which
//!   notices are filled. `texts` writes such a file for a folder, and `credits` for a tree.
//!   `require_file` and `require_folder` refuse what isn't there, or isn't a folder.
//! - `gather` and `lint` write the document of a source tree, and what is wrong in it.
//! - `document_at` is a document as an import takes it, and `convert` writes a document in JSON as a
//!   tag-value document.
//! - `make_file` makes the file of a desk for its owner alone, and `copy_to` a copy of one.
//! - `trouble_of` and `trouble_at` say why a database can't be used (`specs/Troubles.antt`), and
//!   `first_difference` how its tables differ from those of a desk (`specs/Differences.antt`); what
//!   it names is a reason (`laws.rt`). `tell_older` and `tell_in_the_way` report what keeps it from
//!   being migrated.
//! - `is_left`, `tell_left` and `remove_empty` are about the log beside a file.
//! - `teller` explains refusals on standard error, if somebody reads them.
//! - `tell` and `clear` report how far the opening of a large file is, and `keep_large` sets how
//!   memory is taken for it.
//!
//! What is at a path is the system's, so no contract says it; but each says which failures there
//! are (`specs/Paths.antt`).
#![tactic(auto)]

mod blocks;
mod copying;
mod differences;
mod documents;
mod entries;
mod filling;
mod indexes;
mod input;
mod laws;
mod log;
mod private;
mod progress;
mod stderr;
mod trees;
mod trouble;

pub use blocks::keep_large;
pub use copying::copy_to;
pub use differences::{Difference, first_difference, tell_in_the_way, tell_older};
pub use documents::{convert, document_at};
pub use entries::{credits, texts};
pub use filling::fills_at;
pub use input::{bytes_at, require_file, require_folder, text_at, unreadable};
pub use laws::a_named_difference_is_a_reason;
pub use log::{is_left, remove_empty, tell_left};
pub use private::make_file;
pub use progress::{Step, clear, tell};
pub use stderr::teller;
pub use trees::{gather, lint};
pub use trouble::{trouble_at, trouble_of};
