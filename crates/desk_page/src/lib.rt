//! The page of a frozen release, to be read and printed: one HTML file with no script, which loads
//! nothing from elsewhere.
//!
//! - `page` writes it from the desk's answers: the notices' bill, the totals, the duties and the
//!   changes of each. Its bytes are a function of these (`specs/Page.antt`), made of rows
//!   (`specs/Rows.antt`), cells (`specs/Cells.antt`, `specs/Pieces.antt`) and fixed texts
//!   (`specs/Fixed.antt`).
//! - Each text is escaped (`specs/Escapes.antt`), and U+FFFD replaces a character that HTML doesn't
//!   allow. `escaped_texts_are_inert` says that no text of the desk can bring markup into the page.
//!
//! The numbers themselves give the lengths of bars (SVG), so nothing is rounded. The only error is
//! that no memory is left.
#![tactic(auto)]

mod cell;
mod duties;
mod escape;
mod fixed;
mod html;
mod licences;
mod packages;
mod piece;

pub use escape::{escaped_texts_are_inert, escaped_texts_are_read_back};
pub use html::page;
