//! What an SPDX document (SPDX 2.3) says about a bill of materials.
#![tactic(auto)]

mod arrows;
mod codes;
mod contents;
mod elements;
mod places;
mod shipping;
mod state;

pub use codes::{codes_ignore_order, one_code, verification_code};
pub use contents::{Contents, files_belong_to_the_package_before};
pub use elements::Elements;
pub use shipping::{first_mark, shipped, ships};
pub use state::{CodeState, code_state, is_code, is_unanalyzed, one_state};
