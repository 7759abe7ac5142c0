//! The text that goes with a change of a duty.

ghost use Rattle.std.specs.Prelude.{◌≡◌};
ghost use Rattle.desk_model.specs.Texts.{is_note};

use desk_base::{are_shown, limits};

/// Whether the text may go with a change: 1 to 1,024 bytes without control bytes.
pub fn is_note(text: &str) -> bool
    ensures { result ≡ is_note text.now }
{
    if text.is_empty() {
        return false;
    }
    if text.len() > limits::NOTE_BYTES {
        return false;
    }
    are_shown(text.as_bytes())
}
