//! Which sets of terms satisfy a licence expression (SPDX 2.3, Annex D.4): whether a choice of
//! terms does, which sets are minimal, and which is the cheapest.
//!
//! `check_choice` says whether a set of terms satisfies the expression and each of them is needed.
//!
//! A contract sees a `TermSet` as the list of its terms in the order of terms, each once.
//! `alternatives` lists each set that is minimal by `IsMinimal` of `desk_expr`, the definition that
//! `check_choice` uses, and no other (`AreAlternatives`, specs/Sets.antt); it refuses an expression
//! that has more than 128 distinct terms, or more than 64 minimal sets at some front of some node
//! (`IsListable`, specs/Faults.antt). `cheapest` finds the least of all sets that satisfy the
//! expression, minimal or not, by costs that a caller gives for terms (`IsCheapest`,
//! specs/Costs.antt).
//!
//! Internally, a set is a mask over the expression's terms: bit `k` stands for the term at place
//! `k`. The masks of a front are kept in two columns of words, none a subset of another
//! (`kept.rt`), and `covers` looks for a subset of a mask among eight of them at once. A list of
//! masks stands for all sets that contain one of them (`AreMinimal`, specs/Choices.antt).
//!
//! `laws` has what follows for expressions and their minimal sets from the definitions only.
#![tactic(auto)]

mod costs;
mod covering;
mod fault;
mod fronts;
mod kept;
pub mod laws;
mod listed;
mod listing;
mod masks;
mod sets;
mod table;
mod truth;

pub use costs::{Choice, Cost, cheapest};
pub use covering::covers;
pub use fault::AltFault;
pub use listing::alternatives;
pub use sets::TermSet;
pub use table::TermTable;
pub use truth::{Verdict, check_choice, holds};
