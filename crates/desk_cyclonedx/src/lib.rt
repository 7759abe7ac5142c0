//! What each value of a CycloneDX document in JSON (versions 1.4 to 1.6) is in the tag-value form.
//!
//! `bom_steps` returns the steps of a JSON value: the document's own fields, its components with
//! their licences, then its dependencies. The steps are those of `desk_spdx_json`, and `desk_import`
//! writes them.
//!
//! - `specs/Names.antt`: the identifiers that are made of `bom-ref`s and of licences' names.
//! - `specs/Licences.antt`: the licences of a component.
//! - `specs/Placed.antt`: all components, those in components too, and what contains each.
//! - `specs/Components.antt`: the steps of a component.
//! - `specs/Boms.antt`: the steps of a document.
//!
//! `laws` says that identifiers stay distinct.
//!
//! Beyond reading the value, the time is linear in it, except that elements are looked up by their
//! identifiers.
#![tactic(auto)]

mod boms;
mod components;
pub mod laws;
mod licences;
mod names;
mod placed;

pub use boms::{bom_steps, is_bom};
