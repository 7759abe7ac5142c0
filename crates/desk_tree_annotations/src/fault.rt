//! Why a text isn't a REUSE.toml.

ghost use Rattle.std.specs.Prelude.{◌≡◌};
ghost use Rattle.desk_tree_annotations.specs.Numbers.{kind_number};

use std::alloc::AllocError;
use thiserror::Error;

/// What is wrong with an annotation.
#[derive(Clone, Copy, Debug, PartialEq, Eq, Error)]
pub enum AnnotationFault {
    /// It has no `path`.
    #[error("no path")]
    NoPath,
    /// A value of another kind than its key needs, or an entry that isn't a table.
    #[error("a value of another kind")]
    BadKind,
    /// A precedence that isn't one of the three.
    #[error("an unknown precedence")]
    BadPrecedence,
    /// A licence that isn't an expression.
    #[error("a licence that is no expression")]
    BadExpression,
}

impl AnnotationFault {
    /// The number by which it is reported: from 1, in the order in which the faults of an
    /// annotation are looked for.
    pub fn number(self) -> u8
        ensures { result ≡ kind_number self }
    {
        match self {
            AnnotationFault::NoPath => 1,
            AnnotationFault::BadKind => 2,
            AnnotationFault::BadPrecedence => 3,
            AnnotationFault::BadExpression => 4,
        }
    }
}

/// Why a text isn't a REUSE.toml.
#[derive(Clone, Copy, Debug, PartialEq, Eq, Error)]
pub enum AnnotationsFault {
    /// It isn't a TOML document, or its `version` isn't 1.
    #[error("no TOML document of version 1")]
    BadToml,
    /// The annotation at this index, from 0.
    #[error("annotation {0}: {1}")]
    BadAnnotation(usize, AnnotationFault),
    /// No memory was left.
    #[error(transparent)]
    Memory(#[from(alloc)] AllocError),
}
