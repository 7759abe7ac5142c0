//! Blanks and lines of a text.

ghost use Rattle.std.specs.Prelude.{◌≡◌, ◌+◌, ◌-◌, ◌≤◌, ◌<◌, ℕ, length, take, drop, slice_index, IsTrue, IsUtf8};
ghost use Rattle.std.specs.List.{prefix_len, suffix_len, position_or_len};
ghost use Rattle.std.specs.Str.{IsCharBoundary};
ghost use Rattle.desk_base.specs.Lines.{IsLine};
ghost use Rattle.desk_fields.specs.Text.{skip_blanks, trim_end, trimmed, first_word, after_word};
ghost use Rattle.desk_base.specs.Bytes.{is_blank};

use desk_base::{LineEnd, first_line as first_byte_line};

fn is_blank(b: u8) -> bool
    ensures { result ≡ is_blank b }
{
    b == b' ' || b == b'\t'
}

// How many blanks the bytes begin with.
fn blanks(bytes: &[u8]) -> usize
    ensures { result ≡ prefix_len is_blank bytes.now }
{
    for (i, b) in bytes.iter().enumerate() {
        if !is_blank(*b) {
            return i;
        }
    }
    bytes.len()
}

// How many bytes precede the blanks at the end.
fn kept_len(bytes: &[u8]) -> usize
    ensures within { result ≤ length bytes.now }
    ensures value { result ≡ length bytes.now - suffix_len is_blank bytes.now }
    ensures blank { (i : ℕ) → result ≤ i → i < length bytes.now
        → IsTrue (is_blank (slice_index bytes.now i)) }
{
    let mut n = bytes.len();
    while n > 0 && is_blank(bytes[n - 1]) {
        n -= 1;
    }
    n
}

/// The bytes without the blanks at their end.
pub fn trim_end_bytes(bytes: &[u8]) -> &[u8]
    ensures { result.now ≡ trim_end bytes.now }
{
    bytes.split_at(kept_len(bytes)).0
}

/// The bytes without the blanks at their ends.
pub fn trimmed_bytes(bytes: &[u8]) -> &[u8]
    ensures { result.now ≡ trimmed bytes.now }
{
    trim_end_bytes(bytes.split_at(blanks(bytes)).1)
}

fn blanks_end(text: &str) -> usize
    ensures value { result ≡ prefix_len is_blank text.now }
    ensures cut { IsCharBoundary text.now result }
{
    blanks(text.as_bytes())
}

fn kept_end(text: &str) -> usize
    ensures value { result ≡ length text.now - suffix_len is_blank text.now }
    ensures cut { IsCharBoundary text.now result }
{
    kept_len(text.as_bytes())
}

/// The text without the blanks at its front.
pub fn skip_blanks(text: &str) -> &str
    ensures { result.now ≡ skip_blanks text.now }
{
    text.split_at(blanks_end(text)).1
}

/// The text without the blanks at its ends.
pub fn trim(text: &str) -> &str
    ensures { result.now ≡ trimmed text.now }
{
    let text = skip_blanks(text);
    text.split_at(kept_end(text)).0
}

/// The first line of a text, its end, and what follows it.
pub(crate) fn first_line(text: &str) -> (&str, LineEnd, &str)
    requires { 0 < length text.now }
    ensures line { IsLine text.now result.0.now result.1 result.2.now }
    ensures shorter { length result.2.now < length text.now }
    ensures utf8 { IsUtf8 result.2.now }
{
    let bytes = text.as_bytes();
    let (line, end, rest) = first_byte_line(bytes);
    let (front, _) = text.split_at(line.len());
    let (_, back) = text.split_at(bytes.len() - rest.len());
    (front, end, back)
}

// How many bytes precede the first blank.
fn word_len(bytes: &[u8]) -> usize
    ensures within { result ≤ length bytes.now }
    ensures value { result ≡ position_or_len is_blank bytes.now }
    ensures blank { result < length bytes.now → IsTrue (is_blank (slice_index bytes.now result)) }
{
    for (i, b) in bytes.iter().enumerate() {
        if is_blank(*b) {
            return i;
        }
    }
    bytes.len()
}

fn word_end(text: &str) -> usize
    ensures value { result ≡ position_or_len is_blank text.now }
    ensures cut { IsCharBoundary text.now result }
{
    word_len(text.as_bytes())
}

/// The first word of a text, which is a run between blanks, and what follows it.
pub fn split_word(text: &str) -> (&str, &str)
    ensures word { result.0.now ≡ first_word text.now }
    ensures after { result.1.now ≡ after_word text.now }
{
    let text = skip_blanks(text);
    text.split_at(word_end(text))
}
