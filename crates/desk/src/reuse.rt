//! Source trees (REUSE 3.3): what their files state, the draft of a document, what they lack.

pub use desk_tree_annotations::{
    Annotations, AnnotationsFault, Info, Precedence, SharedText, SharedTexts, Tagged, header,
};
pub use desk_tree_document::draft;
pub use desk_tree_gather::{FileInfo, GatherFault, SourceFile, gather};
pub use desk_tree_lint::{Lint, lint};
pub use desk_tree_patterns::Glob;
