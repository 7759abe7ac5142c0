//! The texts that an office makes from the rows of an answer.
//!
//! - `notices` is the text that goes with a frozen release: its packages with the licences and the
//!   copyright of each, then the texts of these licences (`specs/Notices.antt`).
//! - `duties_csv` is the table of a release's duties as comma-separated values (RFC 4180), written
//!   by `csv`: a row of names and one for each duty, each ended by LF (`specs/CsvTable.antt`).
//!   `duties_columns` is the same table laid out for a terminal (`specs/Columns.antt`).
//! - `add_filled` and `add_record` add cells and records to tables of other rows.
//! - `totals_text` counts the duties in each state, in one line, and `changes_text` has a line for
//!   each change of a duty (`specs/Lines.antt`).
//! - `lines_shown` is a text of several lines as a terminal shows it, and `notices_shown` the
//!   notices in this form (`specs/Terminal.antt`). `changes_on` is `changes_text`, in a form that is
//!   safe on a terminal.
//!
//! The only error is that no memory is left.
#![tactic(auto)]

mod changes;
mod columns;
mod notice;
mod table;
mod terminal;
mod totals;

pub use changes::{changes_on, changes_text};
pub use columns::{add_filled, duties_columns, width};
pub use notice::{notices, notices_shown};
pub use table::{add_record, duties_csv};
pub use terminal::lines_shown;
pub use totals::totals_text;
