//! Everything that keeps a release from being frozen (a freeze itself reports only the first
//! refusal), and its sole choices, which leave nothing to choose.
//!
//! - `wanting` lists the refusals in the order in which a freeze meets them: a freeze today is
//!   refused with the first. `open_wanting` does so for a release that is open.
//! - `idle_documents` lists the attached documents that ship no package. They raise no duty, and no
//!   refusal names them.
//! - `sole_choices` lists the choices of a release for packages whose conclusion is true under only
//!   one minimal set of terms (`specs/Sole.antt`). `choice_lines` prints the requests that make
//!   these choices, one line of JSON each (`specs/Requests.antt`).
//!
//! All look up rows in a store (`desk_access::Store`), for the desk in memory as well as the desk
//! in tables, and don't change them. Their contracts name the definitions of `specs/`.
//!
//! How the list of `wanting` relates to a freeze is proved over these definitions, by
//! `freeze_meets_the_first_refusal` for any tables and by `recorded_freeze_meets_the_first_refusal`
//! for those of any history. `list_holds_what_stands_against_a_freeze` says that nothing is left
//! out.
//!
//! `sole_choices_are_accepted` says that the request of a sole choice is accepted for any tables
//! that find their packages, and `recorded_sole_choices_are_accepted` for those of any history.
//! Both have the premise that listed sets are minimal.
#![tactic(auto)]

mod choice_laws;
mod choice_requests;
mod choices;
mod idle;
mod laws;
mod listing;
mod package;
mod release;
mod sole_choice;
mod term;
mod told;

pub use choice_laws::{recorded_sole_choices_are_accepted, sole_choices_are_accepted};
pub use choice_requests::choice_lines;
pub use choices::sole_choices;
pub use idle::idle_documents;
pub use laws::{
    freeze_meets_the_first_refusal, list_holds_what_stands_against_a_freeze,
    recorded_freeze_meets_the_first_refusal,
};
pub use release::{open_wanting, wanting};
pub use sole_choice::SoleChoice;
