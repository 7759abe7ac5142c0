//! Which files of an SPDX document in JSON (SPDX 2.2 and 2.3) can be left out: those without which
//! nothing that ships changes. Scanners list thousands of files.
//!
//! `idle_by` returns their identifiers, as a set (`specs/Files.antt`, by clauses 7.9, 8 and 11.1). An
//! idle file has an identifier of its own, isn't described, nothing ships by way of it, and no
//! verification code is over it. `laws` says the first part of that again, for each relationship.
//!
//! The time is linear in the value, but for the order of the identifiers.
#![tactic(auto)]

mod idle;
pub mod laws;
mod texts;
mod ties;

pub use idle::{DOCUMENT_ID, Files, idle_by};
pub use texts::{text_or_empty, word_in};
