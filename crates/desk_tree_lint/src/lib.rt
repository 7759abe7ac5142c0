//! What is missing or unused in a source tree by the desk's rules for REUSE Specification 3.3:
//! licence texts that are missing or that nothing uses, and files that have no copyright notice or
//! no licence.
//!
//! - The licences of the covered files are those that `desk_tree_gather` gathers (`gathered`). What
//!   they use are the keys of the terms and exceptions of the expressions that they spell
//!   (`specs/Used.antt`).
//! - The licence texts are the files directly in `LICENSES/`, each named after an identifier
//!   (`specs/Texts.antt`).
//! - A key is shown as it was first written, with the file (`specs/Naming.antt`).
//! - `IsLint` (`specs/Lists.antt`) says what the three lists are, each by a test of one item. A
//!   tree has only one answer (`one_lint`).
#![tactic(auto)]

mod laws;
mod linting;
mod lists;
mod names;
mod naming;
mod ordering;
mod path;
mod texts;
mod used;

pub use laws::one_lint;
pub use linting::{lint, lists_of};
pub use lists::Lint;
pub use names::{NameAt, Names};
pub use naming::{Name, names_of};
