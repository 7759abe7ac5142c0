//! Why words spell no request, in words for people.

use desk_words::RequestTrouble;
use std::alloc::AllocError;
use thiserror::Error;

/// Why words spell no request. What may stand in such a request comes last.
#[derive(Debug, Drop, Error)]
pub enum WordsTrouble {
    /// Memory ran out.
    #[error("no memory is left")]
    Memory,
    /// An operand has no `=`.
    #[error("{0:?} is not KEY=VALUE; {1}")]
    NoAssignment(String, String),
    /// An operand has the key of one before it, or that of the word.
    #[error("the key of {0:?} appears twice; {1}")]
    Repeated(String, String),
    /// The request in JSON isn't one.
    #[error("{0}; {1}")]
    NoRequest(RequestTrouble, String),
}

impl From<AllocError> for WordsTrouble {
    ghost use Rattle.std.specs.Prelude.{◌≡◌};
    ghost use Rattle.desk_assignments.specs.declared.trouble.WordsTrouble.TheVariants.{Memory};

    ghost from_gives = { λ _ trouble. trouble ≡ Memory };

    fn from(_error: AllocError) -> WordsTrouble {
        WordsTrouble::Memory
    }
}
