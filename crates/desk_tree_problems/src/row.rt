//! What is reported about a problem.

ghost use Rattle.std.specs.Prelude.{◌≡◌, IfOk};
ghost use Rattle.desk_tree_problems.specs.Rows.{kind_name, kind_number, kinds, plain_row};

use desk_base::Text;
use std::alloc::{AllocError, Global};

/// The kinds of problems.
#[derive(Clone, Copy, PartialEq, Eq)]
pub enum Kind {
    /// The older file of annotations, which isn't read.
    Dep5,
    /// More than 10,000 files.
    TooManyFiles,
    /// A path that can't be in a tree.
    BadPath,
    /// A path that appears twice.
    TwicePath,
    /// A REUSE.toml that isn't a TOML document of version 1.
    BadToml,
    /// An annotation that can't be read.
    BadAnnotation,
    /// A tag that isn't a licence expression.
    BadExpression,
    /// An annotation with a licence that no document can hold.
    BlankAtEnd,
    /// A licence, exception or reference that is used and has no text.
    Missing,
    /// A licence text that nothing uses.
    Unused,
    /// A file without a copyright notice or without a licence.
    Bare,
}

impl Kind {
    /// The name of the kind.
    pub fn name(self) -> &'static str
        ensures { result.now ≡ kind_name self }
    {
        match self {
            Kind::Dep5 => "Dep5",
            Kind::TooManyFiles => "TooManyFiles",
            Kind::BadPath => "BadPath",
            Kind::TwicePath => "TwicePath",
            Kind::BadToml => "BadToml",
            Kind::BadAnnotation => "BadAnnotation",
            Kind::BadExpression => "BadExpression",
            Kind::BlankAtEnd => "BlankAtEnd",
            Kind::Missing => "Missing",
            Kind::Unused => "Unused",
            Kind::Bare => "Bare",
        }
    }

    /// The place of the kind among all, from 0.
    pub fn number(self) -> u8
        ensures { result ≡ kind_number self }
    {
        match self {
            Kind::Dep5 => 0,
            Kind::TooManyFiles => 1,
            Kind::BadPath => 2,
            Kind::TwicePath => 3,
            Kind::BadToml => 4,
            Kind::BadAnnotation => 5,
            Kind::BadExpression => 6,
            Kind::BlankAtEnd => 7,
            Kind::Missing => 8,
            Kind::Unused => 9,
            Kind::Bare => 10,
        }
    }
}

/// Each kind, in the order in which they are reported.
pub fn kinds() -> [Kind; 11]
    ensures { result ≡ kinds }
{
    [
        Kind::Dep5,
        Kind::TooManyFiles,
        Kind::BadPath,
        Kind::TwicePath,
        Kind::BadToml,
        Kind::BadAnnotation,
        Kind::BadExpression,
        Kind::BlankAtEnd,
        Kind::Missing,
        Kind::Unused,
        Kind::Bare,
    ]
}

/// What is reported about a problem.
#[derive(Drop)]
pub struct Row {
    /// Its kind.
    pub kind: Kind,
    /// The file where it is, `LICENSES/` for a text that is missing, or `.` for the whole tree.
    pub path: Text,
    /// The line, from 1, if it is on one.
    pub line: Option<u64>,
    /// What is wrong, and what to do.
    pub message: Text,
}

/// A row without a line.
pub(crate) fn row_of(
    alloc: Global,
    kind: Kind,
    path: &str,
    message: &str,
) -> Result<Row, AllocError>
    ensures { IfOk result (λ row. row ≡ plain_row kind path.now message.now) }
{
    Ok(Row {
        kind,
        path: Text::of(alloc, path)?,
        line: None,
        message: Text::of(alloc, message)?,
    })
}
