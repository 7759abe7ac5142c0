//! What the fields of a head say about the page that a browser made the request for.

ghost use Rattle.std.specs.Prelude.{◌≡◌, ◌≤◌, length, map, All, codes, option_map, is_some};
ghost use Rattle.httparse.specs.Spans.{header_bytes, IsHeaderWithin};
ghost use Rattle.std.specs.List.{list_any};
ghost use Rattle.desk_http_head.specs.Origins.{rest_after, after_own, is_own, is_port, begins_port, is_foreign_origin, is_foreign_site, is_foreign_host, is_foreign, is_of_browser, is_other_address, are_foreign};

use crate::fields::{has_name, number_of};
use httparse::spans::HeaderSpan;

/// What follows some bytes at the beginning of a text, ignoring case.
fn rest_after<'a>(front: &[u8], text: &'a [u8]) -> Option<&'a [u8]>
    ensures { option_map (λ rest. rest.now) result ≡ rest_after front.now text.now }
{
    if text.len() < front.len() {
        return None;
    }
    let (head, rest) = text.split_at(front.len());
    if has_name(head, front) {
        Some(rest)
    } else {
        None
    }
}

/// Whether a text is this port, after a colon. Port 80 may be left out.
fn is_port(text: &[u8], port: u16) -> bool
    ensures { result ≡ is_port port text.now }
{
    match text {
        [] => port == 80,
        [first, digits @ ..] => {
            *first == b':'
                && match number_of(digits) {
                    Some(number) => number == u64::from(port),
                    None => false,
                }
        }
    }
}

/// Whether a text is a port, after a colon, or nothing.
fn begins_port(text: &[u8]) -> bool
    ensures { result ≡ begins_port text.now }
{
    match text {
        [] => true,
        [first, ..] => *first == b':',
    }
}

/// What follows a host of the desk at the beginning of a text.
fn after_own(text: &[u8]) -> Option<&[u8]>
    ensures { option_map (λ rest. rest.now) result ≡ after_own text.now }
{
    match rest_after(b"127.0.0.1", text) {
        Some(rest) => Some(rest),
        None => match rest_after(b"localhost", text) {
            Some(rest) => Some(rest),
            None => rest_after(b"[::1]", text),
        },
    }
}

/// Whether a text is the desk's own address.
fn is_own(text: &[u8], port: u16) -> bool
    ensures { result ≡ is_own port text.now }
{
    match after_own(text) {
        Some(rest) => is_port(rest, port),
        None => false,
    }
}

/// Whether an origin isn't the desk's own.
fn is_foreign_origin(value: &[u8], port: u16) -> bool
    ensures { result ≡ is_foreign_origin port value.now }
{
    match rest_after(b"http://", value) {
        Some(host) => !is_own(host, port),
        None => true,
    }
}

/// Whether a page of another site made the request.
fn is_foreign_site(value: &[u8]) -> bool
    ensures { result ≡ is_foreign_site value.now }
{
    !(value == b"same-origin".as_slice() || value == b"none".as_slice())
}

/// Whether a host isn't one of the desk's, whatever its port.
fn is_foreign_host(value: &[u8]) -> bool
    ensures { result ≡ is_foreign_host value.now }
{
    match after_own(value) {
        Some(rest) => !value.is_empty() && !begins_port(rest),
        None => !value.is_empty(),
    }
}

/// Whether a field is enough to show a page from elsewhere.
fn is_foreign(name: &[u8], value: &[u8], port: u16) -> bool
    ensures { result ≡ is_foreign port (name.now, value.now) }
{
    (has_name(name, b"origin") && is_foreign_origin(value, port))
        || (has_name(name, b"sec-fetch-site") && is_foreign_site(value))
        || (has_name(name, b"host") && is_foreign_host(value))
}

/// Whether only browsers send a field with this name.
fn is_of_browser(name: &[u8]) -> bool
    ensures { result ≡ is_some (rest_after (codes "sec-fetch-") name.now) }
{
    rest_after(b"sec-fetch-", name).is_some()
}

/// Whether a field is a host that isn't the desk's own address.
fn is_other_address(name: &[u8], value: &[u8], port: u16) -> bool
    ensures { result ≡ is_other_address port (name.now, value.now) }
{
    has_name(name, b"host") && !is_own(value, port)
}

/// Whether some field is enough to show a page from elsewhere.
fn has_foreign(head: &[u8], fields: &[HeaderSpan], port: u16) -> bool
    requires { All (IsHeaderWithin (length head.now)) fields.now }
    ensures { result ≡ list_any (is_foreign port) (map (header_bytes head.now) fields.now) }
{
    for field in fields {
        if is_foreign(field.name.of(head), field.value.of(head), port) {
            return true;
        }
    }
    false
}

/// Whether some field is one that only browsers send.
fn has_field_of_browser(head: &[u8], fields: &[HeaderSpan]) -> bool
    requires { All (IsHeaderWithin (length head.now)) fields.now }
    ensures { result ≡ list_any is_of_browser (map (header_bytes head.now) fields.now) }
{
    for field in fields {
        if is_of_browser(field.name.of(head)) {
            return true;
        }
    }
    false
}

/// Whether some field is a host that isn't the desk's own address.
fn has_other_address(head: &[u8], fields: &[HeaderSpan], port: u16) -> bool
    requires { All (IsHeaderWithin (length head.now)) fields.now }
    ensures { result ≡ list_any (is_other_address port) (map (header_bytes head.now) fields.now) }
{
    for field in fields {
        if is_other_address(field.name.of(head), field.value.of(head), port) {
            return true;
        }
    }
    false
}

/// Whether these are the fields of a request from elsewhere to a desk at this port.
pub fn are_foreign(head: &[u8], fields: &[HeaderSpan], port: u16) -> bool
    requires { All (IsHeaderWithin (length head.now)) fields.now }
    ensures { result ≡ are_foreign port (map (header_bytes head.now) fields.now) }
{
    has_foreign(head, fields, port)
        || (has_field_of_browser(head, fields) && has_other_address(head, fields, port))
}
