//! Tag-value text as a list of fields (SPDX 2.3, clause 4.4; clauses 6 to 12 say what the tags
//! mean).
//!
//! A line is blank, a comment that begins with `#`, or a field `Tag: value`. A value that begins
//! with `<text>` runs to the first `</text>`, over several lines if need be. There is only one way
//! to cut a text into such pieces, and `fields` returns the fields of all its pieces, or the fault
//! of the first place that isn't such a piece:
//!
//! - the definition `Reads` of `specs/Cutting.antt` says which cutting, fields and fault a text
//!   has;
//! - `one_reading` says that a text has only one reading;
//! - a `Scanner` returns the same field by field, and allocates nothing (`specs/NextField.antt`);
//! - `Tag` says which fields are read, and `DocFault` why bytes aren't a document.
//!
//! Lines are numbered from 1. Each tag and each value is a slice of the text.
#![tactic(auto)]

mod fault;
mod scan;
mod scanner;
mod tag;
mod text;

pub use fault::DocFault;
pub use scan::Field;
pub use scanner::{Scanner, fields, one_reading};
pub use tag::Tag;
pub use text::{skip_blanks, split_word, trim, trim_end_bytes, trimmed_bytes};
