//! Look-ups in the desk's tables in a SQL database (`desk_sql_layout`): for each look-up of
//! `desk_access::Store` that reads rows, a function over a connection.
//!
//! Each statement is a SELECT over one table: the rows with given values, or values in a range, in
//! named columns, in the order of the table's key unless they are only counted. Everything else is
//! derived from these rows. A connection shows the rows of the tables that its database holds,
//! however it holds them. `LooksUp` (`specs/LookUps.antt`) says what each look-up does: what it
//! finds is true of the rows (`found`); it leaves them unchanged (`kept`) and, if it answers, the
//! whole database too (`unchanged`); and no transaction is open after it if none was before
//! (`mode`).
//!
//! Its `cause` says when it fails: only if a query of the tables would (`HasCause` of
//! `desk_sql_layout`). `limit` says that the look-up sets no limit on the steps of a query.
//!
//! Documents, duties and revisions are numbered from 1, and the caller says how many there are.
#![tactic(auto)]

mod changes;
mod documents;
mod duties;
mod heads;
mod holding;
mod office;
mod releases;
mod rules;
mod runs;
mod standings;
mod texts;

pub use changes::{changes_of, last_day, steps};
pub use documents::{document, document_source, import_of, package_row, shipped};
pub use duties::{duties_of, duty};
pub use heads::document_heads;
pub use holding::{choices, choices_in};
pub use office::{adopted_references, adoption, conclusion, conclusions_in};
pub use releases::{attached, attached_count, chosen, frozen, is_attached, release, release_rows};
pub use rules::rule;
pub use standings::{ended, standings_of};
pub use texts::{catalogue_text, extracted_text};
