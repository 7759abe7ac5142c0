//! What a store keeps beside the rows of a desk's tables so that it needn't be looked up again: how
//! many rows some tables have, the forms of the catalogue in force, and the tallies of the
//! releases.
//!
//! `beside_if_sound` takes it from a snapshot that an audit finds sound; `specs/Beside.antt` says
//! what it is. No desk's tables have a number below 0, but the ten conditions of an audit allow one
//! in a few columns: such rows are a fault. The law in `laws` says that all other sound rows are
//! those of some tables.
#![tactic(auto)]

mod beside;
mod counts;
pub mod laws;
mod numbers;
mod rows;

pub use beside::{Audited, Beside, beside_if_sound};
pub use counts::Counts;
