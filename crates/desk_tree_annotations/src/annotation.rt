//! Annotations.

use crate::shared::SharedTexts;
use desk_base::Items;
use desk_tree_patterns::Glob;

/// How an annotation relates to what a file states itself.
#[derive(Clone, Copy, PartialEq, Eq)]
pub enum Precedence {
    /// It counts if the file states nothing itself.
    Closest,
    /// It counts in addition to what the file states itself.
    Aggregate,
    /// It counts instead of what the file states itself.
    Override,
}

/// What a REUSE.toml says about the files that match one of its paths.
#[derive(Drop)]
pub struct Annotation {
    /// Patterns of paths, which are relative to the folder of the REUSE.toml.
    pub paths: Items<Glob>,
    /// How it relates to what a file states itself.
    pub precedence: Precedence,
    /// Copyright notices, as they are written.
    pub notices: SharedTexts,
    /// Licence expressions, as they are written.
    pub licences: SharedTexts,
}

/// The annotations of a REUSE.toml.
#[derive(Drop)]
pub struct Annotations {
    /// In their order.
    pub list: Items<Annotation>,
}
