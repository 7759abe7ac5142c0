//! Idstrings, which form the names of licences, exceptions and elements (SPDX 2.3, Annex D.2).

ghost use Rattle.std.specs.Prelude.{◌≡◌, ◌↔◌, IsTrue};
ghost use Rattle.desk_base.specs.Idstring.{is_idstring_byte, is_idstring, IsIdstring};

/// Whether the byte may be in an idstring.
fn is_idstring_byte(byte: u8) -> bool
    ensures { result ≡ is_idstring_byte byte }
{
    byte.is_ascii_alphanumeric() || byte == b'-' || byte == b'.'
}

/// Whether the text is one or more ASCII letters, digits, hyphens and full stops.
pub fn is_idstring(text: &str) -> bool
    ensures { IsTrue result ↔ IsIdstring text.now }
{
    is_idstring_of_bytes(text.as_bytes())
}

/// The same for the bytes of a text.
pub fn is_idstring_of_bytes(bytes: &[u8]) -> bool
    ensures test { result ≡ is_idstring bytes.now }
    ensures means { IsTrue result ↔ IsIdstring bytes.now }
{
    !bytes.is_empty() && bytes.iter().all(|byte| is_idstring_byte(*byte))
}
