//! Answers as texts: notices, the table of duties, totals and changes.

pub use desk_report::{changes_text, duties_csv, notices, totals_text};
