//! What the fields of a head say about the body.

ghost use Rattle.std.specs.Prelude.{◌≡◌, ◌≤◌, length, map, All, codes};
ghost use Rattle.httparse.specs.Spans.{header_bytes, IsHeaderWithin};
ghost use Rattle.desk_http_head.specs.Fields.{number_text, has_field, is_named, after_field, length_from, agreed, unsaid};

use httparse::spans::HeaderSpan;

/// What the fields say about the body's length.
#[derive(Clone, Copy)]
pub enum BodyLength {
    /// No field gives it: there is no body.
    Unsaid,
    /// All fields that give it give this length.
    Bytes(u64),
    /// A field gives something other than a number, or two fields give different numbers.
    Bad,
}

/// The number that is written in 1 to 18 digits.
pub fn number_of(text: &[u8]) -> Option<u64>
    ensures { result ≡ number_text text.now }
{
    if text.is_empty() || text.len() > 18 {
        return None;
    }
    let mut n = 0u64;
    for b in text {
        let b = *b;
        if !b.is_ascii_digit() {
            return None;
        }
        n = n * 10 + u64::from(b - b'0');
    }
    Some(n)
}

fn agree(said: BodyLength, number: Option<u64>) -> BodyLength
    ensures { result ≡ agreed said number }
{
    let Some(n) = number else {
        return BodyLength::Bad;
    };
    match said {
        BodyLength::Unsaid => BodyLength::Bytes(n),
        BodyLength::Bytes(m) if m == n => BodyLength::Bytes(m),
        BodyLength::Bytes(_) => BodyLength::Bad,
        BodyLength::Bad => BodyLength::Bad,
    }
}

/// Whether a name is this one, ignoring case.
pub(crate) fn has_name(name: &[u8], wanted: &[u8]) -> bool
    ensures { result ≡ is_named wanted.now name.now }
{
    name.eq_ignore_ascii_case(wanted)
}

/// Whether the body has a transfer coding.
pub fn is_encoded(head: &[u8], fields: &[HeaderSpan]) -> bool
    requires { All (IsHeaderWithin (length head.now)) fields.now }
    ensures { result ≡ has_field (codes "transfer-encoding") (map (header_bytes head.now) fields.now) }
{
    for field in fields {
        if has_name(field.name.of(head), b"transfer-encoding") {
            return true;
        }
    }
    false
}

fn said_after(said: BodyLength, name: &[u8], value: &[u8]) -> BodyLength
    ensures { result ≡ after_field said (name.now, value.now) }
{
    if has_name(name, b"content-length") {
        agree(said, number_of(value))
    } else {
        said
    }
}

/// What the fields say about the body's length.
pub fn body_length(head: &[u8], fields: &[HeaderSpan]) -> BodyLength
    requires { All (IsHeaderWithin (length head.now)) fields.now }
    ensures { result ≡ length_from unsaid (map (header_bytes head.now) fields.now) }
{
    let mut said = BodyLength::Unsaid;
    for field in fields {
        said = said_after(said, field.name.of(head), field.value.of(head));
    }
    said
}
