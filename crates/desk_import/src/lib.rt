//! What a desk takes in as a document, in either form, and what it finds in it.
//!
//! `convert` returns an SPDX document in JSON (SPDX 2.2 and 2.3, JSON schema), or a CycloneDX one
//! (1.4 to 1.6), as the tag-value document that says what the desk reads in it. `desk_spdx_json` and
//! `desk_cyclonedx` say what that is, as the steps of its value: the lines, what is left out, which
//! is counted, and the faults.
//! `specs/Results.antt` says what becomes of the steps. If all pass, the text consists of their
//! lines, and it is read as the fields of these lines and no others. If not, the fault is that of
//! the first step that fails. A line passes if it is read back as its one field: a text with
//! `</text>` in it, or a line end in a field on one line, is a fault. Whether the desk takes the
//! document in (its version, its identifiers) is for `desk_tagvalue::read` to say. The time is
//! linear in the number of bytes. Objects and arrays nest at most 127 deep, the limit of
//! `serde_json`.
//!
//! `read_input` and `read_text` read the bytes of an input file: all of them or, of a larger one, as
//! much as shows that it is too large (`specs/Inputs.antt`).
//!
//! `intake_of` decides what is imported of the bytes of a file (`specs/Intakes.antt`): what `read`
//! takes as it is, and anything else as what it converts to, if it is a document in JSON. What in
//! such a document isn't as the standard has it is reported with its place there: that of the step
//! that wrote the line (`specs/Places.antt`, `specs/Placed.antt`).
//!
//! `summary_of` says how many packages a document has and ships, which of these have a conclusion
//! of their own, how many elements of other documents ship with them (`specs/Elsewhere.antt`), and
//! what in the document isn't as the standard has it (`specs/Summaries.antt`). A `Summary` prints as
//! two lines, one more if elements of other documents ship, and those that list findings.
//! `proposals_of` proposes the declared licence of each package that has no conclusion of its own
//! (`specs/Proposals.antt`).
#![tactic(auto)]

mod converting;
mod elsewhere;
mod faults;
mod input;
mod intake;
pub mod laws;
mod licences;
mod placed;
mod proposals;
mod summary;
mod walk;
mod writing;

pub use converting::{Converted, Skipped, convert};
pub use desk_spdx_json::Files;
pub use faults::ConvertFault;
pub use input::{read_input, read_text};
pub use intake::{Intake, Origin, intake_of};
pub use proposals::{Proposals, proposals_of};
pub use summary::{Standing, Summary, summary_of};
