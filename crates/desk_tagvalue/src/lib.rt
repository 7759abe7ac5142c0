//! Whole tag-value documents of SPDX 2.1, 2.2 and 2.3 (clauses 6 to 11 of SPDX 2.3), read and
//! written.
//!
//! `read` returns the document that bytes spell, without copying a text, or the first fault in this
//! order: more than 4 MiB; not UTF-8; text that can't be cut into fields; the first field that
//! fails, because of one element too many, a repetition, an identifier of another form, an
//! identifier that was used before, a version or a relationship; then the first field that is
//! missing. Nothing else that is wrong with a document is a fault.
//!
//! - The definition `Spells` of `specs/Documents.antt` says which document or fault bytes have;
//!   `one_document` says that they spell one document or have one fault.
//! - Sections are cuts of the field list at the tags that begin one (`specs/Parts.antt`), and
//!   whether a field fails depends on the fields before it (`specs/Faults.antt`). The code goes
//!   over the fields once for the faults, with a set of identifiers, and looks each part up in its
//!   section.
//! - `write` returns the text of a draft, a document of one package and its files. It refuses a
//!   draft if and only if some value can't be read back from its field (`specs/Written.antt`), and
//!   what is read from its text says what the draft says (`specs/Given.antt`).
//!
//! Lines are numbered from 1. Sizes are bytes.
#![tactic(auto)]

mod drafts;
mod entries;
mod faults;
mod ids;
mod laws;
mod lists;
mod missing;
mod parts;
mod reading;
mod relationships;
mod sections;
mod writing;

pub use desk_fields::{DocFault, Field, Tag, fields, one_reading};
pub use drafts::{Draft, DraftFile, DraftLine};
pub use entries::Entry;
pub use ids::behind;
pub use laws::each_column_has_its_field;
pub use parts::{Edge, Extracted, FileEntry, Package, Snippet, all_hex, sha1_digits};
pub use reading::{Document, one_document, read};
pub use sections::{SectionKind, is_placed, section_begun};
pub use writing::{WriteFault, one_digest, put_line, write};
