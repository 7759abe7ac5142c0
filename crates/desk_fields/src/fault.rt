//! Why bytes aren't a document.

ghost use Rattle.std.specs.Prelude.{◌≡◌};
ghost use Rattle.desk_fields.specs.FaultParts.{fault_number, fault_line, fault_tag};

use crate::Tag;
use std::alloc::{AllocError, AllocFailed};
use thiserror::Error;

/// Why bytes aren't a tag-value document. Most faults have the line of a field, from 1.
#[derive(Clone, Copy, Debug, PartialEq, Eq, Error)]
pub enum DocFault {
    /// Memory ran out.
    #[error("out of memory")]
    Memory,
    /// The bytes aren't UTF-8 text.
    #[error("the bytes are no UTF-8 text")]
    NotUtf8,
    /// A line that is neither blank nor a comment has no colon, or no tag before it.
    #[error("line {0}: no tag and colon")]
    NoColon(u64),
    /// A value that begins with `<text>` has no `</text>`; the line of the field.
    #[error("line {0}: `<text>` without `</text>`")]
    OpenText(u64),
    /// Something other than blanks follows a `</text>`; the line of the `</text>`.
    #[error("line {0}: more than blanks after `</text>`")]
    AfterText(u64),
    /// The version isn't SPDX-2.1, SPDX-2.2 or SPDX-2.3.
    #[error("line {0}: not SPDX-2.1, SPDX-2.2 or SPDX-2.3")]
    BadVersion(u64),
    /// A field that each document or element must have is missing; the line on which it begins.
    #[error("line {0}: no {1:?}")]
    Missing(u64, Tag),
    /// An identifier doesn't have its form.
    #[error("line {0}: an identifier of another form")]
    BadId(u64),
    /// An identifier appears twice.
    #[error("line {0}: an identifier that stands before")]
    DuplicateId(u64),
    /// A field that may occur only once occurs again.
    #[error("line {0}: {1:?} again")]
    Repeated(u64, Tag),
    /// A relationship doesn't have its form.
    #[error("line {0}: a relationship of another form")]
    BadRelationship(u64),
    /// The document has more than 4 MiB.
    #[error("more than 4 MiB")]
    TooLarge,
    /// More than 10,000 packages, files, snippets and extracted licences; the line of the first one
    /// that is too many.
    #[error("line {0}: more than 10,000 elements")]
    TooManyElements(u64),
}

impl DocFault {
    /// The fault's number, from 1, or 0 if no memory was left.
    pub fn number(&self) -> u32
        ensures { result ≡ fault_number self.now }
    {
        match self {
            DocFault::Memory => 0,
            DocFault::NotUtf8 => 1,
            DocFault::NoColon(_) => 2,
            DocFault::OpenText(_) => 3,
            DocFault::AfterText(_) => 4,
            DocFault::BadVersion(_) => 5,
            DocFault::Missing(_, _) => 6,
            DocFault::BadId(_) => 7,
            DocFault::DuplicateId(_) => 8,
            DocFault::Repeated(_, _) => 9,
            DocFault::BadRelationship(_) => 10,
            DocFault::TooLarge => 11,
            DocFault::TooManyElements(_) => 12,
        }
    }

    /// The fault's line, or 0 if it has none.
    pub fn line(&self) -> u64
        ensures { result ≡ fault_line self.now }
    {
        match self {
            DocFault::Memory | DocFault::NotUtf8 | DocFault::TooLarge => 0,
            DocFault::NoColon(line)
            | DocFault::OpenText(line)
            | DocFault::AfterText(line)
            | DocFault::BadVersion(line)
            | DocFault::Missing(line, _)
            | DocFault::BadId(line)
            | DocFault::DuplicateId(line)
            | DocFault::Repeated(line, _)
            | DocFault::BadRelationship(line)
            | DocFault::TooManyElements(line) => *line,
        }
    }

    /// The tag that the fault is about.
    pub fn tag(&self) -> Option<Tag>
        ensures { result ≡ fault_tag self.now }
    {
        match self {
            DocFault::Missing(_, tag) | DocFault::Repeated(_, tag) => Some(*tag),
            _ => None,
        }
    }
}

impl From<AllocError> for DocFault {
    ghost use Rattle.std.specs.Prelude.{◌≡◌};
    ghost use Rattle.desk_fields.specs.declared.fault.DocFault.TheVariants.{Memory};

    ghost from_gives = { λ _ e. e ≡ Memory };

    fn from(_error: AllocError) -> DocFault {
        DocFault::Memory
    }
}

impl<T: Drop> From<AllocFailed<T>> for DocFault {
    ghost use Rattle.std.specs.Prelude.{◌≡◌};
    ghost use Rattle.desk_fields.specs.declared.fault.DocFault.TheVariants.{Memory};

    ghost from_gives = { λ _ e. e ≡ Memory };

    fn from(_error: AllocFailed<T>) -> DocFault {
        DocFault::Memory
    }
}
