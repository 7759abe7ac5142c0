//! What a desk holds, as lists: its releases, its documents and its duties.
//!
//! The lists are functions of the tables as an audit reads them (`desk_snapshot`), and can be made
//! from any tables, sound or not.
//!
//! - `releases` has the releases in the order in which they were opened, with how many of their
//!   duties are in each state (`specs/Releases.antt`).
//! - `documents` has the documents by number, with how many packages each has and ships, and the
//!   name and the findings that its bytes give (`specs/Documents.antt`).
//! - `duties` has the duties that a filter asks for, in the order in which they were raised
//!   (`specs/Duties.antt`), with their titles in the catalogue in force (`specs/Titles.antt`).
//!   `names_unknown_release` and `names_unknown_code` find a filter that no duty can pass
//!   (`specs/Known.antt`).
//!
//! Each list is written as comma-separated values (`specs/CsvTable.antt`) or laid out in columns
//! for a terminal (`specs/Columns.antt`). The cells of a line are the same in both
//! (`specs/Cells.antt`). The only error is that no memory is left.
//!
//! Other tables are made and laid out in the same way, by `row_of`, `columns_text` and
//! `csv_text`.
#![tactic(auto)]

mod cells;
mod columns;
mod document;
mod duty;
mod held;
mod known;
mod lines;
mod release;
mod said;
mod table;
mod texts;
mod titles;

pub use cells::{Cell, row_of};
pub use columns::columns_text;
pub use document::documents;
pub use duty::duties;
pub use known::{names_unknown_code, names_unknown_release};
pub use lines::{DocumentLine, DutyFilter, DutyLine, ReleaseLine};
pub use release::releases;
pub use table::csv_text;
pub use texts::{
    documents_columns, documents_csv, duties_columns, duties_csv, releases_columns, releases_csv,
};
