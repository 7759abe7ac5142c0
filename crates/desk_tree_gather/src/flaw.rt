//! What may be wrong in a tree.

use desk_base::Text;
use desk_tree_annotations::{AnnotationFault, SharedText};

/// Something wrong in a tree, because of which nothing is gathered from it.
#[derive(Drop)]
pub enum Flaw {
    /// More than 10,000 files.
    TooManyFiles,
    /// A path that can't be in a tree.
    BadPath(Text),
    /// A path that already exists.
    TwicePath(Text),
    /// A REUSE.toml, named by its path, that isn't a TOML document of version 1.
    BadToml(Text),
    /// An annotation of a REUSE.toml: its path, the index from 0, and what is wrong.
    BadAnnotation(SharedText, usize, AnnotationFault),
    /// A tag whose value isn't a licence expression: the path of the file that has it, its line,
    /// from 1, and its value.
    BadExpression(SharedText, u64, Text),
}
