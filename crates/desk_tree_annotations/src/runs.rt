//! The text on the lines of a file outside ignored stretches.

ghost use Rattle.std.specs.Prelude.{◌≡◌, ◌≢◌, ◌<◌, ◌≤◌, ◌+◌, ◌^◌, ◌==◌, ◌++◌, ℕ, List, All, length, count_by, IfSome, IfNone};
ghost use Rattle.desk_tree_annotations.specs.Runs.{start, Lacks, IsUpTo, IsRun};

use desk_base::first_line;
use memchr::memmem::Finder;
use memchr::{memchr2, memmem};

pub(crate) const START: &[u8] = b"REUSE-IgnoreStart";

const STOP: &[u8] = b"REUSE-IgnoreEnd";

// The text on a line, or on a part of one, outside ignored stretches.
#[derive(Clone, Copy)]
pub(crate) struct Run<'a> {
    // From 1.
    pub line: u64,
    pub text: &'a [u8],
}

// The text of a run, and the rest of the file.
#[derive(Clone, Copy)]
pub(crate) struct Found<'a> {
    pub text: &'a [u8],
    pub rest: &'a [u8],
    pub line: u64,
}

// What comes before and after the first place of a needle.
pub(crate) fn around_found<'a>(bytes: &'a [u8], needle: &Finder<'_>) -> Option<(&'a [u8], &'a [u8])>
    requires { 0 < length needle.now }
    ensures none { IfNone result (Lacks needle.now bytes.now) }
    ensures cut { IfSome result (λ r. bytes.now ≡ r.0.now ++ (needle.now ++ r.1.now)) }
    ensures first { IfSome result (λ r. IsUpTo needle.now r.0.now) }
{
    let Some(at) = needle.find(bytes) else {
        return None;
    };
    let (_, after) = bytes.split_at(at + needle.needle().len());
    Some((&bytes[..at], after))
}

// The same for a needle that isn't looked for again.
pub(crate) fn around<'a>(bytes: &'a [u8], needle: &[u8]) -> Option<(&'a [u8], &'a [u8])>
    requires { 0 < length needle.now }
    ensures none { IfNone result (Lacks needle.now bytes.now) }
    ensures cut { IfSome result (λ r. bytes.now ≡ r.0.now ++ (needle.now ++ r.1.now)) }
    ensures first { IfSome result (λ r. IsUpTo needle.now r.0.now) }
{
    let Some(at) = memmem::find(bytes, needle) else {
        return None;
    };
    let (_, after) = bytes.split_at(at + needle.len());
    Some((&bytes[..at], after))
}

pub(crate) fn line_feeds(bytes: &[u8]) -> usize
    ensures value { result ≡ count_by (λ b. b == 10) bytes.now }
    ensures bound { result ≤ length bytes.now }
{
    bytes.iter().filter(|b| **b == b'\n').count()
}

// What follows a prefix.
fn behind<'a>(bytes: &'a [u8], front: &[u8]) -> Option<&'a [u8]>
    ensures none { IfNone result ((rest : List ℕ) → bytes.now ≢ front.now ++ rest) }
    ensures some { IfSome result (λ r. bytes.now ≡ front.now ++ r.now) }
{
    bytes.strip_prefix(front)
}

// What comes before the first ignored stretch that begins on the first line, and what comes after
// the word with which it begins. Nothing further to the right is examined, so that a line with many
// stretches is read once.
fn around_start(bytes: &[u8]) -> Option<(&[u8], &[u8])>
    ensures none { IfNone result ((text more : List ℕ) → bytes.now ≡ text ++ more
        → All (λ b. b ≢ 10) text → Lacks start text) }
    ensures cut { IfSome result (λ r. bytes.now ≡ r.0.now ++ (start ++ r.1.now)) }
    ensures first { IfSome result (λ r. IsUpTo start r.0.now) }
    ensures no_lf { IfSome result (λ r. All (λ b. b ≢ 10) r.0.now) }
{
    let mut seen = 0;
    while let Some(more) = memchr2(b'\n', b'R', bytes.split_at(seen).1) {
        let place = seen + more;
        let (before, left) = bytes.split_at(place);
        if let Some(inner) = behind(left, START) {
            return Some((before, inner));
        }
        if bytes[place] == b'\n' {
            return None;
        }
        seen = place + 1;
    }
    None
}

// The first run of bytes that begin on a line.
pub(crate) fn first_run<'a>(bytes: &'a [u8], line: u64) -> Found<'a>
    requires some { 0 < length bytes.now }
    requires room { line + length bytes.now < 2 ^ 64 }
    ensures run { IsRun line bytes.now result.text.now result.line result.rest.now }
    ensures less { length result.rest.now < length bytes.now }
    ensures room { result.line + length result.rest.now ≤ line + length bytes.now }
{
    let Some((before, inner)) = around_start(bytes) else {
        let (text, _, rest) = first_line(bytes);
        return Found {
            text,
            rest,
            line: line + 1,
        };
    };
    let Some((hidden, rest)) = around(inner, STOP) else {
        return Found {
            text: before,
            rest: inner.split_at(inner.len()).1,
            line,
        };
    };
    Found {
        text: before,
        rest,
        line: line + line_feeds(hidden) as u64,
    }
}
