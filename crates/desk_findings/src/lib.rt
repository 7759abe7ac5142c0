//! Every deviation of a document from SPDX 2.3 that isn't a fault: unknown tags, licence fields
//! without an expression, codes that differ, relationships that lead nowhere, and the rest of
//! `FindingKind`.
//!
//! `findings_in` returns them all, by line and by kind, and `findings` does so with operators in
//! capitals. The definition `AreFindings` of `specs/Findings.antt` lists each kind in the
//! standard's words; a reading (`IsReading`) says which values are licence expressions by a profile
//! of operators.
//!
//! `reading_laws` and `laws` say that the meaning of a document is always defined: all bytes have a
//! reading, what ships is one list, and digests have a code.
#![tactic(auto)]

mod document;
mod expression;
mod field;
mod finding;
pub mod laws;
mod missing;
pub mod reading_laws;

pub use desk_model::{Finding, FindingKind, MissingField};
pub use document::{findings, findings_in};
pub use expression::{expression_in, is_no_licence};
