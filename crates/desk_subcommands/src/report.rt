//! What `check` says about a choice of terms.

use desk_expr::ParseFault;
use std::fmt;

/// The answer of `check`, which is printed as one line.
#[derive(Drop)]
pub enum Report<'a> {
    /// The terms satisfy the expression, and no smaller set of them does.
    Minimal,
    /// They don't satisfy it.
    NotEnough,
    /// They still do without the term that this word spells, the first such term.
    Superfluous(&'a str),
    /// The first word that spells no term.
    BadTerm(&'a str),
    /// Why the expression cannot be read.
    Fault(ParseFault),
}

impl Report<'_> {
    ghost use Rattle.std.specs.Prelude.{◌≡◌};
    ghost use Rattle.desk_subcommands.specs.Report.{status_of};

    /// The program's status: 0 for a minimal choice, and 1 for any other answer.
    pub fn status(&self) -> u8
        ensures { result ≡ status_of self.now }
    {
        match self {
            Report::Minimal => 0,
            _ => 1,
        }
    }
}

impl fmt::Display for Report<'_> {
    ghost use Rattle.std.specs.Prelude.{Some};
    ghost use Rattle.desk_subcommands.specs.Report.{text_of};

    ghost output = { λ report. Some (text_of report) };

    fn fmt<W: fmt::Write>(&self, f: &mut fmt::Formatter<W>) -> fmt::Result {
        match self {
            Report::Minimal => f.write_str("minimal"),
            Report::NotEnough => f.write_str("not enough"),
            Report::Superfluous(word) => write!(f, "superfluous: {word}"),
            Report::BadTerm(word) => write!(f, "bad term: {word}"),
            Report::Fault(fault) => {
                let name = fault.name();
                let place = fault.place();
                write!(f, "fault: {name} at {place}")
            }
        }
    }
}
