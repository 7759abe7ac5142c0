//! Identifiers that are made of names and references.

ghost use Rattle.std.specs.Prelude.{◌≡◌, ◌++◌, IfOk, OnOk, Option, option_map};
ghost use Rattle.std.specs.String.{string_bytes};
ghost use Rattle.hex.specs.Hex.{encode_lower};
ghost use Rattle.sha1.specs.Sha1.{sha1};
ghost use Rattle.desk_cyclonedx.specs.Names.{component_id, escaped, escaped_byte, is_licence_id, is_plain, place_id, reference_of};

use desk_base::{is_idstring, is_idstring_of_bytes};
use sha1::Sha1;
use std::alloc::{AllocError, Global};

// Whether a byte is a letter, a digit or a full stop.
fn is_plain(byte: u8) -> bool
    ensures { result ≡ is_plain byte }
{
    byte.is_ascii_alphanumeric() || byte == b'.'
}

// Adds a byte as it is in an idstring.
fn add_escaped_byte(alloc: Global, out: &mut String, byte: u8) -> Result<(), AllocError>
    ensures { OnOk result (string_bytes out.new ≡ string_bytes out.old ++ escaped_byte byte) }
{
    if is_plain(byte) {
        return out.push(byte as char);
    }
    let digits = hex::encode(alloc, [byte])?;
    out.push_str("-")?;
    out.push_str(digits.as_str())
}

// Adds a text as an idstring.
fn add_escaped(alloc: Global, out: &mut String, text: &str) -> Result<(), AllocError>
    ensures { OnOk result (string_bytes out.new ≡ string_bytes out.old ++ escaped text.now) }
{
    for byte in text.as_bytes() {
        add_escaped_byte(alloc, out, *byte)?;
    }
    Ok(())
}

/// The identifier of the component with a `bom-ref`.
pub(crate) fn component_id(alloc: Global, reference: &str) -> Result<String, AllocError>
    ensures { IfOk result (λ id. string_bytes id ≡ component_id reference.now) }
{
    let mut id = String::from_str(alloc, "SPDXRef-Component-")?;
    add_escaped(alloc, &mut id, reference)?;
    Ok(id)
}

/// The identifier of the component at a place.
pub(crate) fn place_id(alloc: Global, at: &str) -> Result<String, AllocError>
    ensures { IfOk result (λ id. string_bytes id ≡ place_id at.now) }
{
    let mut id = String::from_str(alloc, "SPDXRef-At-")?;
    add_escaped(alloc, &mut id, at)?;
    Ok(id)
}

/// Whether a text is an SPDX licence identifier.
pub(crate) fn is_licence_id(text: &str) -> bool
    ensures { result ≡ is_licence_id text.now }
{
    match text.as_bytes() {
        [front @ .., b'+'] => is_idstring_of_bytes(text.as_bytes()) || is_idstring_of_bytes(front),
        _ => is_idstring_of_bytes(text.as_bytes()),
    }
}

// Adds the SHA-1 of a text.
fn add_digest(alloc: Global, out: &mut String, text: &str) -> Result<(), AllocError>
    ensures { OnOk result (string_bytes out.new
        ≡ string_bytes out.old ++ encode_lower (sha1 text.now)) }
{
    let digits = hex::encode(alloc, Sha1::digest(text.as_bytes()))?;
    out.push_str(digits.as_str())
}

/// The reference to a licence by its name and, if it is given, its text.
pub(crate) fn reference_of(
    alloc: Global,
    name: &str,
    text: Option<&str>,
) -> Result<String, AllocError>
    ensures { IfOk result (λ id. string_bytes id
        ≡ reference_of name.now (option_map (λ t. t.now) text.entry)) }
{
    let mut id = String::from_str(alloc, "LicenseRef-")?;
    add_escaped(alloc, &mut id, name)?;
    match text {
        Some(text) => {
            id.push_str("--")?;
            add_digest(alloc, &mut id, text)?;
            Ok(id)
        }
        None => Ok(id),
    }
}
