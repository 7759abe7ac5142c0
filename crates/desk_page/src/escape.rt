//! Texts as HTML shows them.

ghost use Rattle.std.specs.Prelude.{◌≡◌, ◌++◌, ◌∷◌, [], ℕ, List, OnOk, IsUtf8, chars, map, true};
ghost use Rattle.std.specs.List.{list_all, range_with_len};
ghost use Rattle.std.specs.String.{string_bytes};
ghost use Rattle.desk_page.specs.Escapes.{IsInert, IsReadAs, escaped, is_barred, is_noncharacter, page_char, shown_char};

use desk_base::is_bidirectional;
use std::alloc::AllocError;

fn is_noncharacter(ch: char) -> bool
    ensures { result ≡ is_noncharacter ch }
{
    let code = ch as u32;
    (0xFDD0 <= code && code <= 0xFDEF) || 0xFFFE <= code % 0x1_0000
}

// Whether a text of a page doesn't contain the character.
fn is_barred(ch: char) -> bool
    ensures { result ≡ is_barred ch }
{
    (ch.is_control() && !ch.is_ascii_whitespace()) || is_noncharacter(ch) || is_bidirectional(ch)
}

fn add_char(text: &mut String, ch: char) -> Result<(), AllocError>
    ensures { OnOk result (string_bytes text.new ≡ string_bytes text.old ++ shown_char ch) }
{
    match ch {
        '&' => text.push_str("&amp;"),
        '<' => text.push_str("&lt;"),
        '>' => text.push_str("&gt;"),
        '"' => text.push_str("&quot;"),
        '\'' => text.push_str("&#39;"),
        ch if is_barred(ch) => text.push('\u{FFFD}'),
        ch => text.push(ch),
    }
}

/// Adds a text as HTML shows it.
pub(crate) fn add_escaped(text: &mut String, value: &str) -> Result<(), AllocError>
    ensures { OnOk result (string_bytes text.new ≡ string_bytes text.old ++ escaped value.now) }
{
    for ch in value.chars() {
        add_char(text, ch)?;
    }
    Ok(())
}

/// An escaped text contains no markup: none of `<`, `>`, `"` and `'`, and each `&` begins one of
/// the five references.
pub fn escaped_texts_are_inert()
    ensures { (text : List ℕ) → IsInert (escaped text) }
{}

/// An escaped text is read back as the text, with U+FFFD for each character that is barred: control
/// characters other than white space, noncharacters, and those that set a direction.
pub fn escaped_texts_are_read_back()
    ensures read { (text : List ℕ) → IsUtf8 text
        → IsReadAs (chars (escaped text)) (map page_char (chars text)) }
    ensures controls { list_all is_barred (range_with_len 0 9 ++ (11 ∷ (range_with_len 14 18
        ++ range_with_len 127 33))) ≡ true }
    ensures noncharacters { list_all is_barred (0xFFFE ∷ 0xFFFF ∷ (range_with_len 0xFDD0 32)) ≡ true }
    ensures directions { list_all is_barred (0x061C ∷ 0x200E ∷ 0x200F ∷ 0x202A ∷ 0x202B ∷ 0x202C
        ∷ 0x202D ∷ 0x202E ∷ 0x2066 ∷ 0x2067 ∷ 0x2068 ∷ 0x2069 ∷ []) ≡ true }
{}
