//! What files and REUSE.toml files state about licences and notices (REUSE Specification 3.3): the
//! tags of a file, and the annotations that a REUSE.toml gives to the files below its folder whose
//! paths match its patterns (`desk_tree_patterns`).
//!
//! ```toml
//! version = 1
//!
//! [[annotations]]
//! path = ["src/**", "*.md"]
//! precedence = "aggregate"
//! SPDX-FileCopyrightText = "2025 Firm"
//! SPDX-License-Identifier = "Apache-2.0"
//! ```
//!
//! - `header` returns the notices and licences of a file's bytes, each with its line
//!   (`specs/Runs.antt`, `specs/Tags.antt`).
//! - `Annotations::read` reads a REUSE.toml. `annotations_of` (`specs/Reading.antt`) is a function
//!   of the text: the annotations in order, or the first fault. It takes the table that `toml`
//!   reads in the text and, from a `Reading`, the pieces of patterns and which texts are licence
//!   expressions. `read` returns this for each reading that is right by the definitions of patterns
//!   and of `desk_expr` (`IsRight`); all of these give the same answer (`one_reading`).
//! - The notices and licences of an annotation are `SharedTexts`: they are in one buffer, and every
//!   file for which the annotation counts holds each of them as a `SharedText`, without a copy.
//! - `Annotations::sift` continues after faults: it returns all annotations that can be read, and
//!   the fault of each other one (`specs/Sifting.antt`). If `read` returns annotations, they are
//!   the same; otherwise its fault is the first (`reading_is_sifting`).
#![tactic(auto)]

mod annotation;
mod entries;
mod expressions;
mod fault;
mod info;
mod laws;
mod reading;
mod runs;
mod shared;
mod sifting;
mod skipping;
mod tags;
mod values;

pub use annotation::{Annotation, Annotations, Precedence};
pub use expressions::{is_expression, is_expression_beside};
pub use fault::{AnnotationFault, AnnotationsFault};
pub use info::{Info, header, one_header};
pub use laws::{one_reading, reading_is_sifting};
pub use shared::{SharedText, SharedTexts};
pub use sifting::Sifted;
pub use tags::Tagged;
