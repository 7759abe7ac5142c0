//! Why a file is not read.

use std::alloc::AllocError;
use std::fmt::{self, Display, Formatter, Write};
use thiserror::Error;

/// The kinds of entries.
#[derive(Clone, Copy, Debug, PartialEq, Eq)]
pub enum Part {
    /// A text of a licence, an exception or a reference.
    Text,
    /// A credit of a package.
    Credit,
}

impl Display for Part {
    fn fmt<W: Write>(&self, f: &mut Formatter<W>) -> Result<(), fmt::Error> {
        match self {
            Part::Text => f.write_str("text"),
            Part::Credit => f.write_str("credit"),
        }
    }
}

/// What is wrong with a file. Entries are counted from 0.
#[derive(Clone, Copy, Debug, PartialEq, Eq, Error)]
pub enum Flaw {
    #[error("it has more than 4 MiB")]
    TooLarge,
    #[error("it is not UTF-8")]
    NotUtf8,
    #[error("it is no TOML document")]
    NotToml,
    #[error("{0} is no list of at most 10000 tables")]
    NoList(Part),
    #[error("{0} {1} lacks a key")]
    Missing(Part, usize),
    #[error("{0} {1} is no table, or one of its values is no text")]
    BadKind(Part, usize),
    #[error("the licence of text {0} is no id and no reference")]
    BadName(usize),
    #[error("{0} {1} says nothing")]
    Nothing(Part, usize),
    #[error("{0} {1} stands twice")]
    Twice(Part, usize),
}

/// Why a file is not read.
#[derive(Clone, Copy, Debug, PartialEq, Eq, Error)]
pub enum FillFault {
    /// It isn't one: its first fault.
    #[error(transparent)]
    Refused(Flaw),
    /// No memory was left.
    #[error(transparent)]
    Memory(#[from(alloc)] AllocError),
}
