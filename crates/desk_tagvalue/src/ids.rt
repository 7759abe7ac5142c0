//! The identifiers of elements and of extracted licences.

ghost use Rattle.std.specs.Prelude.{◌≡◌, false, true, nat_eq, length, drop, IfNone, IfSome};
ghost use Rattle.std.specs.List.{starts_with};
ghost use Rattle.desk_tagvalue.specs.Ids.{is_id, is_element_id, is_licence_id, is_document_id};

use desk_base::is_idstring;

// An idstring, by its bytes.
fn is_id(text: &str) -> bool
    ensures { result ≡ is_id text.now }
{
    is_idstring(text)
}

/// What follows a front with which the text begins.
pub fn behind<'a>(text: &'a str, front: &str) -> Option<&'a str>
    ensures none { IfNone result (starts_with nat_eq text.now front.now ≡ false) }
    ensures some { IfSome result (λ rest. starts_with nat_eq text.now front.now ≡ true) }
    ensures rest { IfSome result (λ rest. rest.now ≡ drop (length front.now) text.now) }
{
    text.strip_prefix(front)
}

/// Whether the text is `SPDXRef-` and an idstring (SPDX 2.3, clauses 7.2, 8.2 and 9.1).
pub fn is_element_id(text: &str) -> bool
    ensures { result ≡ is_element_id text.now }
{
    match behind(text, "SPDXRef-") {
        Some(id) => is_id(id),
        None => false,
    }
}

/// Whether the text is `LicenseRef-` and an idstring (SPDX 2.3, clause 10.1).
pub fn is_licence_id(text: &str) -> bool
    ensures { result ≡ is_licence_id text.now }
{
    match behind(text, "LicenseRef-") {
        Some(id) => is_id(id),
        None => false,
    }
}

/// Whether the text is the identifier of the document itself (SPDX 2.3, clause 6.3).
pub fn is_document_id(text: &str) -> bool
    ensures { result ≡ is_document_id text.now }
{
    text == "SPDXRef-DOCUMENT"
}
