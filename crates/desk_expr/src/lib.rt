//! Licence expressions (SPDX 2.3, Annex D): a text is read into a tree, and a tree is printed.
//!
//! A contract sees an `Expr` as a `Tree`: one term, or All or Any of two or more parts. `Spells`
//! (specs/Spelling.antt) says which text spells which tree, by dividing whole lists of tokens;
//! `parse` reads once from the left, with its own stack, and returns the tree or the first place
//! that doesn't fit. `Holds` and `IsMinimal` (specs/Meaning.antt) say which sets of terms satisfy
//! a tree, and `desk_alts` finds them.
//!
//! Operators are in capitals. `parse_in` and `parse_term_in` take a profile, which may allow small
//! letters too.
#![tactic(auto)]

mod counts;
mod expr;
mod fault;
mod laws;
mod listing;
mod printing;
mod progress;
mod reader;
mod term;
mod term_reader;
mod word;

pub use desk_base::Profile;
pub use expr::{Expr, Shape};
pub use fault::{ParseFault, unless_memory};
pub use laws::parts_decide;
pub use listing::terms;
pub use printing::{print, print_term};
pub use progress::{parse, parse_in};
pub use term::Term;
pub use term_reader::{parse_term, parse_term_in};
