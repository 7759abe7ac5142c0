//! What is missing for the notices of a release, as a text.

ghost use Rattle.std.specs.Prelude.{◌≡◌, IfOk};
ghost use Rattle.desk_answers.specs.Gaps.{gaps_text};

use crate::rows::GAP_NAMES;
use crate::tables::{columns_of, csv_of};
use desk_model::Gap;
use std::alloc::{AllocError, Global};

/// The list of gaps: in columns for a terminal, else as comma-separated values (RFC 4180) with a
/// record of the columns' names, `missing`, `document` and `subject`.
pub fn gaps_text(alloc: Global, gaps: &[Gap], is_terminal: bool) -> Result<Vec<u8>, AllocError>
    ensures { IfOk result (λ text. text.items ≡ gaps_text is_terminal gaps.now) }
{
    if is_terminal {
        columns_of(alloc, &GAP_NAMES, gaps)
    } else {
        csv_of(alloc, &GAP_NAMES, gaps)
    }
}
