//! Why nothing is gathered from a tree.

ghost use Rattle.std.specs.Prelude.{◌≡◌};
ghost use Rattle.desk_tree_gather.specs.FaultNumbers.{fault_number};

use desk_base::Text;
use desk_tree_annotations::AnnotationFault;
use std::alloc::AllocError;
use thiserror::Error;

/// Why nothing is gathered from a tree.
#[derive(Debug, Drop, Error)]
pub enum GatherFault {
    /// A REUSE.toml, named by its path, that isn't a TOML document of version 1.
    #[error("a REUSE.toml that is no TOML document of version 1")]
    BadToml(Text),
    /// An annotation of a REUSE.toml: its path, the index from 0, and what is wrong.
    #[error("annotation {1} of a REUSE.toml: {2}")]
    BadAnnotation(Text, usize, AnnotationFault),
    /// A tag whose value isn't a licence expression: the path of the file that has it, and its
    /// line, from 1.
    #[error("a tag without a licence expression on line {1}")]
    BadExpression(Text, u64),
    /// A path that can't be in a tree.
    #[error("a path that can't stand in a tree")]
    BadPath,
    /// A path that appears twice.
    #[error("a path that stands twice")]
    TwicePath,
    /// More than 10,000 files.
    #[error("more than 10,000 files")]
    TooManyFiles,
    /// Licences that can't be joined into one expression.
    #[error("licences that can't be joined to one expression")]
    ExpressionTooLong,
    /// No memory was left.
    #[error(transparent)]
    Memory(#[from(alloc)] AllocError),
}

impl GatherFault {
    /// The fault's number, from 1, or 0 if no memory was left.
    pub fn number(&self) -> u8
        ensures { result ≡ fault_number self.now }
    {
        match self {
            GatherFault::Memory(_) => 0,
            GatherFault::BadToml(_) => 1,
            GatherFault::BadAnnotation(_, _, _) => 2,
            GatherFault::BadExpression(_, _) => 3,
            GatherFault::BadPath => 4,
            GatherFault::TwicePath => 5,
            GatherFault::TooManyFiles => 6,
            GatherFault::ExpressionTooLong => 7,
        }
    }
}
