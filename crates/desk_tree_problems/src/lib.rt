//! All problems of a source tree (REUSE Specification 3.3) at once: what is wrong in it, and what
//! it lacks.
//!
//! - `problems_of` returns them: older annotations that aren't read, the flaws that
//!   `desk_tree_gather::survey` finds, licences with a blank at an end, and the three lists of
//!   `desk_tree_lint` for what can be read despite all that (`specs/Problems.antt`). If everything
//!   in the tree is gathered, there are no flaws, and the lists are those of
//!   `desk_tree_lint::lint`, without unused texts if there are older annotations; otherwise the
//!   fault of `desk_tree_gather::gather` is the first flaw.
//! - For each problem a row says where it is, what is wrong and what to do (`specs/Rows.antt`).
#![tactic(auto)]

mod bare;
mod problems;
mod row;
mod rows;

pub use bare::{Bare, Lacking};
pub use problems::{Problems, problems_of};
pub use row::{Kind, Row, kinds};
pub use rows::{bare_row, blank_row, dep5_rows, flaw_row, missing_row, text_words, unused_row};
