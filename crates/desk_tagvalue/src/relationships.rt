//! Relationships between elements.

ghost use Rattle.std.specs.Prelude.{◌≡◌};
ghost use Rattle.desk_tagvalue.specs.Relationships.{is_document_byte, is_document_name, is_qualified, is_external, is_end, is_target, is_kind_byte, is_kind, is_relationship};

use crate::ids::{behind, is_element_id};
use desk_fields::{skip_blanks, split_word};

fn is_document_byte(byte: u8) -> bool
    ensures { result ≡ is_document_byte byte }
{
    byte.is_ascii_alphanumeric() || byte == b'.' || byte == b'-' || byte == b'+'
}

// Whether there are such bytes, and no others.
fn is_document_name(bytes: &[u8]) -> bool
    ensures { result ≡ is_document_name bytes.now }
{
    for byte in bytes {
        if !is_document_byte(*byte) {
            return false;
        }
    }
    !bytes.is_empty()
}

// Whether the text is the name of a document, a colon and an element's identifier.
fn is_qualified(text: &str) -> bool
    ensures { result ≡ is_qualified text.now }
{
    match text.split_once(':') {
        Some((document, element)) => {
            is_document_name(document.as_bytes()) && is_element_id(element)
        }
        None => false,
    }
}

// Whether the text names an element of another document.
fn is_external(text: &str) -> bool
    ensures { result ≡ is_external text.now }
{
    match behind(text, "DocumentRef-") {
        Some(rest) => is_qualified(rest),
        None => false,
    }
}

// Whether the text may be on the left of a relationship.
fn is_end(text: &str) -> bool
    ensures { result ≡ is_end text.now }
{
    is_element_id(text) || is_external(text)
}

// Whether the text may be on the right of a relationship.
fn is_target(text: &str) -> bool
    ensures { result ≡ is_target text.now }
{
    is_end(text) || text == "NONE" || text == "NOASSERTION"
}

fn is_kind_byte(byte: u8) -> bool
    ensures { result ≡ is_kind_byte byte }
{
    byte >= b'A' && byte <= b'Z' || byte == b'_'
}

// Whether the text may be the type of a relationship.
fn is_kind(text: &str) -> bool
    ensures { result ≡ is_kind text.now }
{
    for byte in text.as_bytes() {
        if !is_kind_byte(*byte) {
            return false;
        }
    }
    !text.is_empty()
}

/// Whether the text is a relationship (SPDX 2.3, clause 11.1): an element, a type and an element.
pub fn is_relationship(value: &str) -> bool
    ensures { result ≡ is_relationship value.now }
{
    let (left, rest) = split_word(value);
    let (kind, rest) = split_word(rest);
    let (right, rest) = split_word(rest);
    is_end(left) && is_kind(kind) && is_target(right) && skip_blanks(rest).is_empty()
}
