//! Caches look-ups of a desk in a SQL database until a change makes them stale, so that a command
//! reads few rows.
//!
//! `Found` has what look-ups found and others ask for again (`specs/Found.antt`): the references of
//! one document that are adopted (`specs/References.antt`), the releases that hold a choice
//! (`specs/Holding.antt`), a document and a rule of the last look-ups (`specs/Last.antt`), and the
//! conclusions of a document and the choices of a release that are asked for repeatedly
//! (`specs/Repeated.antt`). Each definition says for which rows the cached values are true.
//!
//! What is kept was read by `desk_sql_lookup` when it was asked for, and is true of the rows that a
//! connection shows. Before a change is written, `found_after` gives what will be true of the rows
//! after it; the rest is dropped. `replaces_none` says whether an adoption is known to replace no
//! row.
#![tactic(auto)]

mod adoptions;
mod found;
mod holders;
mod last;
mod repeated;

pub use adoptions::{Adoptions, read_adoptions};
pub use found::{Found, found_after};
pub use holders::{Holders, read_holders, release_place};
pub use last::Last;
pub use repeated::{Choices, Conclusions, expression_in, terms_in};
