//! The answers to questions, over looked-up rows, for the desk in memory and for the desk in tables
//! alike.
//!
//! Each function takes a store of rows (`desk_access::Store`) and, if texts are read for its
//! answer, a reader of them (`desk_access::Texts`). It answers as the definitions of the recorded
//! history do for the tables that the store holds, and leaves the rows as they are.
//!
//! - `answer_to` answers all questions; `ask` has those about duties, `findings` reads a document,
//!   `packages` describes a release, `listing` has the sets of terms under which a conclusion is
//!   true, `lists` all releases, documents and open duties, `wanting` what keeps a release from
//!   being frozen, `ready` what keeps a frozen one from being ready. `desk_bills` answers what
//!   notices are written from, and what is missing for them.
#![tactic(auto)]

pub mod ask;
pub mod findings;
pub mod listing;
pub mod lists;
pub mod packages;
pub mod ready;
pub mod wanting;
