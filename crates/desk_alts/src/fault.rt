//! Why the minimal sets aren't listed.

ghost use Rattle.std.specs.Prelude.{◌≡◌};
ghost use Rattle.desk_alts.specs.Faults.{fault_number};

use std::alloc::AllocError;
use thiserror::Error;

/// Why the minimal sets aren't listed.
#[derive(Clone, Copy, Debug, PartialEq, Eq, Error)]
pub enum AltFault {
    /// The expression has more distinct terms than the limit allows.
    #[error("too many terms")]
    TooManyTerms,
    /// Some front of some node has more minimal sets than the limit allows.
    #[error("too many alternatives")]
    TooMany,
    /// No memory was left.
    #[error("{0}")]
    Memory(AllocError),
}

impl AltFault {
    /// The fault's number, from 1, or 0 if no memory was left.
    pub fn number(&self) -> u8
        ensures { result ≡ fault_number self.now }
    {
        match self {
            AltFault::Memory(_) => 0,
            AltFault::TooManyTerms => 1,
            AltFault::TooMany => 2,
        }
    }
}

impl From<AllocError> for AltFault {
    ghost use Rattle.std.specs.Prelude.{◌≡◌};
    ghost use Rattle.desk_alts.specs.declared.fault.AltFault.TheVariants.{Memory};

    ghost from_gives = { λ error fault. fault ≡ Memory error };

    fn from(error: AllocError) -> AltFault {
        AltFault::Memory(error)
    }
}
