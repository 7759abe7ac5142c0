//! Why a document isn't converted.

use desk_base::Text;
use std::alloc::AllocError;

/// Why a document isn't converted. A place is a JSON pointer (RFC 6901), which is empty for the
/// whole value.
#[derive(Drop)]
pub enum ConvertFault {
    /// No memory was left.
    Memory,
    /// The bytes are more than 64 MiB.
    TooLarge,
    /// The bytes are no JSON text in UTF-8.
    NotJson,
    /// A required member is missing.
    Missing(Text),
    /// A value is not of its member's type.
    BadType(Text),
    /// A value that can't be written in its field.
    BadValue(Text),
    /// An element has the identifier of another one, at the second place, and doesn't say the same.
    Differs(Text, Text),
}

impl From<AllocError> for ConvertFault {
    ghost use Rattle.std.specs.Prelude.{◌≡◌};
    ghost use Rattle.desk_import.specs.declared.faults.ConvertFault.TheVariants.{Memory};

    ghost from_gives = { λ error fault. fault ≡ Memory };

    fn from(_error: AllocError) -> ConvertFault {
        ConvertFault::Memory
    }
}
