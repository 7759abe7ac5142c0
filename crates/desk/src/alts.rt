//! All minimal sets of terms that satisfy a licence expression, and the cheapest.

pub use desk_alts::{AltFault, Choice, Cost, TermSet, TermTable, alternatives, cheapest, covers};
