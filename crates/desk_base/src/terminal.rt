//! Texts as a terminal shows them.

ghost use Rattle.std.specs.Prelude.{◌≡◌, ◌++◌, ◌∷◌, [], ℕ, List, OnOk, IsUtf8, chars, false, true, map, if◌then◌else◌};
ghost use Rattle.std.specs.List.{list_all, list_any, range_with_len};
ghost use Rattle.desk_base.specs.Terminal.{is_bidirectional, is_hidden, shown_char, shown};

use std::alloc::AllocError;

/// Whether a character sets the direction of the text around it (Unicode Standard Annex 9, 2).
pub fn is_bidirectional(ch: char) -> bool
    ensures { result ≡ is_bidirectional ch }
{
    let code = ch as u32;
    code == 0x061C
        || (0x200E <= code && code <= 0x200F)
        || (0x202A <= code && code <= 0x202E)
        || (0x2066 <= code && code <= 0x2069)
}

// Adds a character, or a question mark instead of one that isn't shown.
fn add_char(bytes: &mut Vec<u8>, ch: char) -> Result<(), AllocError>
    ensures { OnOk result (bytes.new.items ≡ bytes.old.items ++ shown_char ch) }
{
    if ch.is_control() || is_bidirectional(ch) {
        bytes.push(b'?')?;
    } else {
        let mut buffer = [0; 4];
        bytes.extend_from_slice(ch.encode_utf8(&mut buffer).as_bytes())?;
    }
    Ok(())
}

/// Adds a text with a question mark for each control character and each that sets a direction, so
/// that it can't end its line, change a terminal or look like another text. The only error is lack
/// of memory.
pub fn add_shown(bytes: &mut Vec<u8>, text: &str) -> Result<(), AllocError>
    ensures { OnOk result (bytes.new.items ≡ bytes.old.items ++ shown text.now) }
{
    for ch in text.chars() {
        add_char(bytes, ch)?;
    }
    Ok(())
}

/// A text is shown as its characters, with a question mark for each control character and each that
/// sets a direction, so that none of these remains. A text without them is shown unchanged.
pub fn shown_texts_are_inert()
    ensures each { (text : List ℕ) → IsUtf8 text
        → chars (shown text) ≡ map (λ c. if is_hidden c then 63 else c) (chars text) }
    ensures hidden { (text : List ℕ) → IsUtf8 text
        → list_any is_hidden (chars (shown text)) ≡ false }
    ensures same { (text : List ℕ) → IsUtf8 text
        → list_any is_hidden (chars text) ≡ false → shown text ≡ text }
    ensures controls { list_all is_hidden (range_with_len 0 32 ++ range_with_len 127 33) ≡ true }
    ensures directions { list_all is_hidden (0x061C ∷ 0x200E ∷ 0x200F ∷ 0x202A ∷ 0x202B ∷ 0x202C
        ∷ 0x202D ∷ 0x202E ∷ 0x2066 ∷ 0x2067 ∷ 0x2068 ∷ 0x2069 ∷ []) ≡ true }
{}
