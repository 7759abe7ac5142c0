//! What is in force for the packages of documents: the office's conclusion or the document's own,
//! the rule for the adopted form of a term or why there is none, and which packages a release
//! ships; and the plans that commands have in common. Commands (`desk_preparing`, `desk_duties`)
//! and questions (`desk_questions`) look all this up here.
#![tactic(auto)]

mod conclusion;
mod obstacle;
mod plan;
mod rule;
mod shipped;

pub use conclusion::{Claim, InForce, claim_of, conclusion_of, in_force, read_claim};
pub use obstacle::{no_rule, not_adopted};
pub use plan::{make, refuse, unready};
pub use rule::rule_adopted;
pub use shipped::shipped_packages;
