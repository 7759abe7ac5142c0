//! Texts that a composed value can contain.

ghost use Rattle.std.specs.Prelude.{◌≡◌, ◌==◌};
ghost use Rattle.std.specs.List.{list_any};
ghost use Rattle.desk_base.specs.Bytes.{is_blank};
ghost use Rattle.desk_spdx_json.specs.Words.{is_word, is_name, is_keyword};

use desk_fields::trim;

fn is_blank(byte: u8) -> bool
    ensures { result ≡ is_blank byte }
{
    byte == b' ' || byte == b'\t'
}

fn has_blank(text: &str) -> bool
    ensures { result ≡ list_any is_blank text.now }
{
    text.as_bytes().iter().any(|byte| is_blank(*byte))
}

fn has_comma(text: &str) -> bool
    ensures { result ≡ list_any (λ b. b == 44) text.now }
{
    text.as_bytes().iter().any(|byte| *byte == b',')
}

/// Whether a text is a word: at least one byte, and no blank.
pub(crate) fn is_word(text: &str) -> bool
    ensures { result ≡ is_word text.now }
{
    !text.is_empty() && !has_blank(text)
}

/// Whether a text can be written in a list, between commas.
pub(crate) fn is_name(text: &str) -> bool
    ensures { result ≡ is_name text.now }
{
    !has_comma(text) && trim(text) == text
}

/// Whether a text is one that the standard writes without `<text>`.
pub(crate) fn is_keyword(text: &str) -> bool
    ensures { result ≡ is_keyword text.now }
{
    text == "NONE" || text == "NOASSERTION"
}
