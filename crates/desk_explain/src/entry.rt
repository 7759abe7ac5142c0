//! A row of a page's table.

use std::fmt;

/// What a name is for. Numbers are those of the pages.
#[derive(Clone, Copy)]
pub enum Kind {
    /// A refusal, with the requests that have it.
    Refusal { number: u8, requests: &'static str },
    /// A fault of a document in tag-value form.
    DocumentFault { number: u8 },
    /// A fault of a licence expression.
    ExpressionFault { number: u8 },
    /// A fault of a file or a tree, with what prints it.
    OtherFault { place: &'static str },
    /// A finding, which says where a document departs from the standard, with the clauses of
    /// the standard.
    Finding { number: u8, clauses: &'static str },
    /// A fault of a catalogue.
    CatalogueFault { number: u8 },
    /// A condition that an audit tests.
    Condition { number: u8 },
    /// A problem of a source tree.
    Problem,
}

/// What a page says about a name.
#[derive(Clone, Copy)]
pub struct Entry {
    /// The name, as the desk prints it.
    pub name: &'static str,
    /// What the name is for.
    pub kind: Kind,
    /// What is wrong or, for a condition, what must hold.
    pub meaning: Option<&'static str>,
    /// What it usually comes from.
    pub cause: Option<&'static str>,
}

impl fmt::Display for Kind {
    ghost use Rattle.std.specs.Prelude.{Some};
    ghost use Rattle.desk_explain.specs.Explanations.{kind_text};

    ghost output = { λ kind. Some (kind_text kind) };

    fn fmt<W: fmt::Write>(&self, f: &mut fmt::Formatter<W>) -> fmt::Result {
        match self {
            Kind::Refusal { number, requests } => write!(f, "refusal {number} ({requests})"),
            Kind::DocumentFault { number } => {
                write!(f, "fault {number} of a document (BadDocument)")
            }
            Kind::ExpressionFault { number } => {
                write!(f, "fault {number} of an expression (BadExpression)")
            }
            Kind::OtherFault { place } => write!(f, "fault ({place})"),
            Kind::Finding { number, clauses } => write!(
                f,
                "finding {number} (SPDX 2.3: {clauses})"
            ),
            Kind::CatalogueFault { number } => {
                write!(f, "fault {number} of a catalogue (BadCatalogue)")
            }
            Kind::Condition { number } => write!(f, "condition {number} of an audit"),
            Kind::Problem => f.write_str("problem of a source tree"),
        }
    }
}
