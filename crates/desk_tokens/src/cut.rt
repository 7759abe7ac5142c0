//! Cuts a text into tokens: parentheses, and longest runs of other bytes between blanks and
//! parentheses.

ghost use Rattle.std.specs.Prelude.{◌≡◌, ◌==◌, ◌+◌, ◌≤◌, ◌<◌, ◌^◌, ℕ, All, IsTrue, IfNone, IfSome, length, take, drop, slice_index, false};
ghost use Rattle.std.specs.List.{position_or_len};
ghost use Rattle.std.specs.Str.{IsCharBoundary};
ghost use Rattle.std.specs.Iterator.{at_most};
ghost use Rattle.desk_tokens.specs.Tokens.{is_parenthesis, is_run_byte, IsPiece, IsFirstToken, lexeme};
ghost use Rattle.desk_tokens.specs.Words.{is_local_reference, is_reference_of_document, is_reference, begins_like_reference, is_licence_or_later, word_kind, is_operator, kind_by};
ghost use Rattle.desk_base.specs.Bytes.{is_blank};

use crate::token::{Kind, Token};
use desk_base::{Profile, is_idstring_of_bytes};

fn is_blank(byte: u8) -> bool
    ensures { result ≡ is_blank byte }
{
    byte == b' ' || byte == b'\t'
}

fn is_parenthesis(byte: u8) -> bool
    ensures { result ≡ is_parenthesis byte }
{
    byte == b'(' || byte == b')'
}

fn is_run_byte(byte: u8) -> bool
    ensures { result ≡ is_run_byte byte }
{
    !(is_blank(byte) || is_parenthesis(byte))
}

// How many blanks the bytes begin with.
fn blanks(bytes: &[u8]) -> usize
    ensures within { result ≤ length bytes.now }
    ensures blank { (i : ℕ) → i < result → IsTrue (is_blank (slice_index bytes.now i)) }
    ensures stops { result < length bytes.now → is_blank (slice_index bytes.now result) ≡ false }
{
    let mut n = 0;
    while n < bytes.len() && is_blank(bytes[n]) {
        n += 1;
    }
    n
}

// How many bytes of a run the bytes begin with.
fn run(bytes: &[u8]) -> usize
    ensures within { result ≤ length bytes.now }
    ensures run { (i : ℕ) → i < result → IsTrue (is_run_byte (slice_index bytes.now i)) }
    ensures stops { result < length bytes.now → is_run_byte (slice_index bytes.now result) ≡ false }
{
    let mut n = 0;
    while n < bytes.len() && is_run_byte(bytes[n]) {
        n += 1;
    }
    n
}

// Whether the bytes are a reference to a licence text of the same document.
fn is_local_reference(bytes: &[u8]) -> bool
    ensures { result ≡ is_local_reference bytes.now }
{
    bytes.starts_with(b"LicenseRef-") && is_idstring_of_bytes(&bytes[11..])
}

// The place of the first colon, or the length if there is none.
fn colon_place(bytes: &[u8]) -> usize
    ensures { result ≡ position_or_len (λ b. b == 58) bytes.now }
{
    for (place, byte) in bytes.iter().enumerate() {
        if *byte == b':' {
            return place;
        }
    }
    bytes.len()
}

// Whether the bytes are an idstring, a colon and a local reference.
fn is_reference_of_document(bytes: &[u8]) -> bool
    ensures { result ≡ is_reference_of_document bytes.now }
{
    let colon = colon_place(bytes);
    if colon == bytes.len() {
        return false;
    }
    is_idstring_of_bytes(&bytes[..colon]) && is_local_reference(&bytes[colon + 1..])
}

/// Whether the bytes are a reference: `["DocumentRef-" idstring ":"] "LicenseRef-" idstring` (SPDX
/// 2.3, Annex D.1).
pub fn is_reference(bytes: &[u8]) -> bool
    ensures { result ≡ is_reference bytes.now }
{
    is_local_reference(bytes)
        || (bytes.starts_with(b"DocumentRef-") && is_reference_of_document(&bytes[12..]))
}

// Whether the bytes begin like a reference.
fn begins_like_reference(bytes: &[u8]) -> bool
    ensures { result ≡ begins_like_reference bytes.now }
{
    bytes.starts_with(b"LicenseRef-") || bytes.starts_with(b"DocumentRef-")
}

// Whether the bytes are a licence id with a plus.
fn is_licence_or_later(bytes: &[u8]) -> bool
    ensures { result ≡ is_licence_or_later bytes.now }
{
    bytes.ends_with(b"+") && is_idstring_of_bytes(&bytes[..bytes.len() - 1])
}

// What a run that isn't an operator is.
fn word_kind(bytes: &[u8]) -> Kind
    ensures { result ≡ word_kind bytes.now }
{
    if begins_like_reference(bytes) {
        if is_reference(bytes) {
            Kind::Reference
        } else {
            Kind::Bad
        }
    } else if is_idstring_of_bytes(bytes) {
        Kind::Licence
    } else if is_licence_or_later(bytes) {
        Kind::LicenceOrLater
    } else {
        Kind::Bad
    }
}

// Whether a run is the operator that is written like this in capitals and in small letters.
fn is_operator(profile: Profile, capitals: &str, small: &str, text: &str) -> bool
    ensures { result ≡ is_operator profile capitals.now small.now text.now }
{
    match profile {
        Profile::Capitals => text == capitals,
        Profile::Either => text == capitals || text == small,
    }
}

// What a token is.
fn kind_by(profile: Profile, text: &str) -> Kind
    ensures { result ≡ kind_by profile text.now }
{
    if text == "(" {
        Kind::Opening
    } else if text == ")" {
        Kind::Closing
    } else if is_operator(profile, "AND", "and", text) {
        Kind::And
    } else if is_operator(profile, "OR", "or", text) {
        Kind::Or
    } else if is_operator(profile, "WITH", "with", text) {
        Kind::With
    } else {
        word_kind(text.as_bytes())
    }
}

// Where the blanks at the front end.
fn blanks_end(text: &str) -> usize
    ensures cut { IsCharBoundary text.now result }
    ensures only { All (λ b. IsTrue (is_blank b)) (take result text.now) }
    ensures stops { result < length text.now → is_blank (slice_index text.now result) ≡ false }
{
    blanks(text.as_bytes())
}

// Where the piece at the front ends.
fn piece_end(text: &str) -> usize
    requires some { 0 < length text.now }
    requires no_blank { is_blank (slice_index text.now 0) ≡ false }
    ensures cut { IsCharBoundary text.now result }
    ensures piece { IsPiece (take result text.now) (drop result text.now) }
{
    let bytes = text.as_bytes();
    if is_parenthesis(bytes[0]) {
        return 1;
    }
    run(bytes)
}

// The first token of a text that begins at a place, and the text after it.
fn first_token<'a>(profile: Profile, rest: &'a str, place: usize) -> Option<(Token<'a>, &'a str)>
    requires { place + length rest.now < 2 ^ 64 }
    ensures none { IfNone result (All (λ b. IsTrue (is_blank b)) rest.now) }
    ensures some { IfSome result (λ f. IsFirstToken profile place rest.now (lexeme f.0) f.1.now) }
{
    let skipped = blanks_end(rest);
    let (_, from) = rest.split_at(skipped);
    if from.is_empty() {
        return None;
    }
    let size = piece_end(from);
    let (text, after) = from.split_at(size);
    let start = place + skipped;
    let token = Token {
        text,
        start,
        end: start + size,
        kind: kind_by(profile, text),
    };
    Some((token, after))
}

/// The tokens of a text, from the left: the rest of the text, its place, and the profile of
/// operators by which it is read.
#[derive(Drop)]
pub struct TokenCuts<'a> {
    pub(crate) rest: &'a str,
    pub(crate) place: usize,
    pub(crate) profile: Profile,
    pub ghost fits: { place + length rest.now < 2 ^ 64 },
}

impl<'a> Iterator for TokenCuts<'a> {
    type Item = Token<'a>;

    ghost use Rattle.desk_tokens.specs.Given.{TokenGiven};

    ghost next_gives = { TokenGiven };

    ghost remaining = { λ s. at_most (length s.rest.now) };

    fn next(&mut self) -> Option<Token<'a>> {
        let (token, after) = first_token(self.profile, self.rest, self.place)?;
        self.rest = after;
        self.place = token.end;
        Some(token)
    }
}
