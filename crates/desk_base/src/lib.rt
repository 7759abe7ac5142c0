//! What all crates of the desk share: the test for idstrings (SPDX 2.3, Annex D.2), names that are
//! compared by their bytes, owned texts and lists, sets of texts, texts as a terminal shows them,
//! bytes cut into lines, days, the profiles of operators, and the desk's limits.
//!
//! A contract sees a `Key` and a `Text` as the list of its bytes, `Items` as the list of its items,
//! and a `TextList` as the list of its texts' bytes.
#![tactic(auto)]

mod bytes;
mod day;
mod idstring;
mod items;
mod key;
pub mod limits;
mod lines;
mod profile;
mod sets;
mod terminal;
mod text;
mod text_list;

pub use bytes::are_shown;
pub use day::Day;
pub use idstring::{is_idstring, is_idstring_of_bytes};
pub use items::Items;
pub use key::Key;
pub use lines::{Line, LineEnd, Lines, first_line, one_cutting};
pub use profile::Profile;
pub use sets::text_set;
pub use terminal::{add_shown, is_bidirectional, shown_texts_are_inert};
pub use text::Text;
pub use text_list::TextList;
