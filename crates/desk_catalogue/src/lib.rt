//! Catalogues of duties: a TOML document that lists the forms in which software is shipped, the
//! duties by their codes, rules that say which duties a licence term owes in a form, and the texts
//! of licences and exceptions.
//!
//! ```toml
//! forms = ["binary"]
//! [[duty]]
//! code = "include-text"
//! title = "Ship the licence text"
//! [[rule]]
//! term = "MIT"
//! form = "binary"
//! duties = ["include-text"]
//! [[text]]
//! licence = "MIT"
//! body = "Permission is hereby granted, .."
//! ```
//!
//! `catalogue_of` (specs/Reading.antt) is a function of the text: the catalogue, or the first fault
//! with its part and index. It is defined over the table that `toml` reads in the text, and takes a
//! function that gives the terms that texts spell. `Catalogue::read` returns what it says for each
//! such function that is right by `desk_expr`'s definition of a spelled term (`ReadsTerms`); there
//! is one (`terms_are_read`), and all of them give the same result (`one_catalogue`).
//!
//! Nothing is dropped silently: a form, a code, a term with a form or the licence of a text that
//! occurs twice is a fault, so the rules that are kept are sorted, each pair once
//! (`rules_stand_once`).
#![tactic(auto)]

mod catalogue;
mod duties;
mod entries;
mod fault;
mod forms;
mod laws;
mod lookup;
mod order;
mod ordered;
mod reading;
mod rules;
mod texts;
mod values;

pub use catalogue::{Catalogue, LicenceText};
pub use fault::CatFault;
pub use laws::{
    each_table_is_kept, forms_and_texts_stand_once, one_catalogue, rules_stand_once,
    table_faults_are_the_least, terms_are_read, the_fault_is_the_first_of_all,
};
pub use order::sorted_set;
pub use ordered::OrderedRules;
