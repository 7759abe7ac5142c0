//! The notice that a line has by pattern.

ghost use Rattle.std.specs.Prelude.{◌≡◌, map, nat_lt, length, option_map, false};
ghost use Rattle.std.specs.Option.{option_map_or};
ghost use Rattle.desk_credits.specs.Patterns.{before_first, behind_first, comment_ends, comment_starts, followers, has_front, has_tag, inner, is_looked_at, is_notice, marks, notice_in, notice_of, words};

use desk_entries::text_at;
use desk_fields::{trim_end_bytes, trimmed_bytes};

/// The longest line that is looked at, in bytes.
const MOST_LINE: usize = 1024;

const NOTICE_TAG: &[u8] = b"SPDX-FileCopyrightText:";

// What begins a comment, or a further line of one. A longer one comes before its own front.
const STARTS: [&str; 37] = [
    "///",
    "//!",
    "//",
    "/**",
    "/*",
    "/'",
    "**",
    "*",
    "##",
    "#=",
    "#*",
    "#",
    "---",
    "--",
    ";;;",
    ";;",
    ";",
    "<!--",
    "<%--",
    "<#--",
    "{{!--",
    "{#",
    "{-",
    "(*",
    "(:",
    ":",
    "%%",
    "%",
    "!",
    ".\\\"",
    "..",
    "\"",
    "'",
    "dnl",
    "REM",
    "rem",
    "@Comment{",
];

// What ends a comment. A longer one comes before its own end.
const ENDS: [&str; 12] = [
    "*/", "'/", "=#", "*#", "--%>", "-->", "--}}", "#}", "-}", "*)", ":)", "}",
];

// The word with which a notice begins.
const WORDS: [&str; 1] = ["Copyright"];

// What may follow it.
const FOLLOWERS: [&str; 14] = [
    " ", "\t", "(", "©", "0", "1", "2", "3", "4", "5", "6", "7", "8", "9",
];

// The marks with which a notice begins.
const MARKS: [&str; 3] = ["(c)", "(C)", "©"];

// What follows the first of some fronts that the bytes have.
fn behind_first<'a>(bytes: &'a [u8], fronts: &[&str]) -> Option<&'a [u8]>
    ensures { option_map (λ rest. rest.now) result
        ≡ behind_first (map (λ front. front.now) fronts.now) bytes.now }
{
    for front in fronts {
        let front = front.as_bytes();
        if bytes.starts_with(front) {
            return Some(bytes.split_at(front.len()).1);
        }
    }
    None
}

// What comes before the first of some ends that the bytes have, or all.
fn before_first<'a>(bytes: &'a [u8], ends: &[&str]) -> &'a [u8]
    ensures { result.now ≡ before_first (map (λ end. end.now) ends.now) bytes.now }
{
    for end in ends {
        let end = end.as_bytes();
        if bytes.ends_with(end) {
            return bytes.split_at(bytes.len() - end.len()).0;
        }
    }
    bytes
}

// Whether the bytes have one of some fronts.
fn has_front(bytes: &[u8], fronts: &[&str]) -> bool
    ensures { result ≡ has_front (map (λ front. front.now) fronts.now) bytes.now }
{
    for front in fronts {
        if bytes.starts_with(front.as_bytes()) {
            return true;
        }
    }
    false
}

// Whether the bytes begin with the word of a notice and what may follow it.
fn has_word(bytes: &[u8]) -> bool
    ensures { result ≡ option_map_or (has_front followers) (behind_first words bytes.now) false }
{
    match behind_first(bytes, &WORDS) {
        Some(rest) => has_front(rest, &FOLLOWERS),
        None => false,
    }
}

// Whether the bytes begin with a mark of notices, and have more.
fn has_mark(bytes: &[u8]) -> bool
    ensures { result ≡ option_map_or (λ rest. nat_lt 0 (length rest))
        (behind_first marks bytes.now) false }
{
    match behind_first(bytes, &MARKS) {
        Some(rest) => 0 < rest.len(),
        None => false,
    }
}

// Whether the bytes begin as a notice does.
fn is_notice(bytes: &[u8]) -> bool
    ensures { result ≡ is_notice bytes.now }
{
    has_word(bytes) || has_mark(bytes)
}

// What is left of a comment without its end, and without blanks at its ends.
fn inner(comment: &[u8]) -> &[u8]
    ensures { result.now ≡ inner comment.now }
{
    trim_end_bytes(before_first(trimmed_bytes(comment), &ENDS))
}

// The notice that a comment is.
fn notice_of(comment: &[u8]) -> Option<&str>
    ensures { option_map (λ text. text.now) result ≡ notice_of comment.now }
{
    let inner = inner(comment);
    if !is_notice(inner) {
        return None;
    }
    text_at(inner)
}

// Whether the tag of a notice is among the bytes.
fn has_tag(bytes: &[u8]) -> bool
    ensures { result ≡ has_tag bytes.now }
{
    let mut rest = bytes;
    while let Some((_, after)) = rest.split_first() {
        if rest.starts_with(NOTICE_TAG) {
            return true;
        }
        rest = after;
    }
    false
}

// Whether a line is looked at.
fn is_looked_at(line: &[u8]) -> bool
    ensures { result ≡ is_looked_at line.now }
{
    line.len() <= MOST_LINE && !has_tag(line)
}

/// The notice that a line has by pattern: a text that begins with `Copyright`, `(c)`, `(C)` or `©`
/// behind the start of a comment, without the end of the comment. A line of over 1,024 bytes has
/// none, nor has one with the tag of a notice.
pub(crate) fn notice_in(line: &[u8]) -> Option<&str>
    ensures { option_map (λ text. text.now) result ≡ notice_in line.now }
{
    if !is_looked_at(line) {
        return None;
    }
    let comment = behind_first(trimmed_bytes(line), &STARTS)?;
    notice_of(comment)
}
