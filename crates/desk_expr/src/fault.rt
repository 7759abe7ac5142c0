//! Why a text isn't a licence expression.

ghost use Rattle.std.specs.Prelude.{◌≡◌, ◌<◌, codes, IfErr, IfOk, OnOk};
ghost use Rattle.desk_expr.specs.Faults.{fault_number, fault_name, fault_place};

use std::alloc::AllocError;
use thiserror::Error;

/// Why a text isn't a licence expression, with the place of the first byte that doesn't fit,
/// counted from 0.
#[derive(Clone, Copy, Debug, PartialEq, Eq, Error)]
pub enum ParseFault {
    /// There is no token.
    #[error("no licence expression at {0}")]
    Empty(usize),
    /// A run of bytes that is neither an operator nor a licence id, with or without a plus, nor a
    /// reference.
    #[error("no licence id or reference at {0}")]
    BadToken(usize),
    /// A token that can't be there, or a text that ends where something must follow.
    #[error("unexpected at {0}")]
    Unexpected(usize),
    /// A parenthesis that is still open at the end.
    #[error("not closed: the parenthesis at {0}")]
    Unclosed(usize),
    /// More parentheses are open at once than the limit allows.
    #[error("too many open parentheses at {0}")]
    TooDeep(usize),
    /// The text is longer than the limit allows.
    #[error("too long from {0} on")]
    TooLong(usize),
    /// There are more terms than the limit allows.
    #[error("too many terms at {0}")]
    TooManyTerms(usize),
    /// No memory was left.
    #[error(transparent)]
    Memory(#[from(alloc)] AllocError),
}

impl ParseFault {
    /// The fault's number, by which replies name it: from 1, or 0 if no memory was left.
    pub fn number(&self) -> u8
        ensures { result ≡ fault_number self.now }
    {
        match self {
            ParseFault::Memory(_) => 0,
            ParseFault::Empty(_) => 1,
            ParseFault::BadToken(_) => 2,
            ParseFault::Unexpected(_) => 3,
            ParseFault::Unclosed(_) => 4,
            ParseFault::TooDeep(_) => 5,
            ParseFault::TooLong(_) => 6,
            ParseFault::TooManyTerms(_) => 7,
        }
    }

    /// The fault's name.
    pub fn name(&self) -> &'static str
        ensures { result.now ≡ fault_name self.now }
    {
        match self {
            ParseFault::Memory(_) => "Memory",
            ParseFault::Empty(_) => "Empty",
            ParseFault::BadToken(_) => "BadToken",
            ParseFault::Unexpected(_) => "Unexpected",
            ParseFault::Unclosed(_) => "Unclosed",
            ParseFault::TooDeep(_) => "TooDeep",
            ParseFault::TooLong(_) => "TooLong",
            ParseFault::TooManyTerms(_) => "TooManyTerms",
        }
    }

    /// The fault's place, or 0 if no memory was left.
    pub fn place(&self) -> usize
        ensures { result ≡ fault_place self.now }
    {
        match *self {
            ParseFault::Memory(_) => 0,
            ParseFault::Empty(place)
            | ParseFault::BadToken(place)
            | ParseFault::Unexpected(place)
            | ParseFault::Unclosed(place)
            | ParseFault::TooDeep(place)
            | ParseFault::TooLong(place)
            | ParseFault::TooManyTerms(place) => place,
        }
    }
}

/// The fault itself, which means that the text isn't an expression, or isn't a term; lack of memory
/// is the error.
pub fn unless_memory(fault: ParseFault) -> Result<ParseFault, AllocError>
    ensures same { IfOk result (λ found. found ≡ fault) }
    ensures text { OnOk result (0 < fault_number fault) }
    ensures memory { IfErr result (λ error. fault ≡ ParseFault.Memory error) }
{
    match fault {
        ParseFault::Memory(error) => Err(error),
        _ => Ok(fault),
    }
}
