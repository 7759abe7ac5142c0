//! What is skipped when tags are looked for.

ghost use Rattle.std.specs.Prelude.{◌≡◌, ◌<◌, ◌≤◌, ◌+◌, ◌^◌, ◌++◌, List, ℕ, codes, length, IfSome, IfNone};
ghost use Rattle.desk_tree_annotations.specs.Runs.{Lacks, start};
ghost use Rattle.desk_tree_annotations.specs.Skipping.{IsClear, AreWhole, Skips};

use crate::runs::{START, around, around_found, line_feeds};
use memchr::memmem::Finder;
use memchr::memrchr;

/// What both tags begin with.
pub(crate) const MARK: &[u8] = b"SPDX-";

/// With fewer bytes than this before a tag, a search for lines to skip costs more than it saves.
const NEAR: usize = 64;

// The rest of a file, from a line on.
#[derive(Clone, Copy)]
pub(crate) struct Left<'a> {
    // From 1.
    pub line: u64,
    pub bytes: &'a [u8],
}

// The number of bytes at the front in which no tag begins, if one may begin after them. Bytes that
// are already known aren't searched again, so all searches together read a file once.
pub(crate) fn clear_of(bytes: &[u8], mark: &Finder<'_>, known: usize) -> Option<usize>
    requires mark { mark.now ≡ codes "SPDX-" }
    requires clear { IsClear (codes "SPDX-") known bytes.now }
    requires within { 0 < known → known < length bytes.now }
    ensures clear { IfSome result (λ number. IsClear (codes "SPDX-") number bytes.now) }
    ensures within { IfSome result (λ number. number < length bytes.now) }
    ensures none { IfNone result (Lacks (codes "SPDX-") bytes.now) }
{
    if known > 0 {
        return Some(known);
    }
    let Some((before, _)) = around_found(bytes, mark) else {
        return None;
    };
    Some(before.len())
}

// The bytes before the first ignored stretch.
fn before_start(bytes: &[u8]) -> &[u8]
    ensures front { (more : List ℕ) × (bytes.now ≡ result.now ++ more) }
    ensures quiet { Lacks start result.now }
{
    match around(bytes, START) {
        Some((before, _)) => before,
        None => bytes,
    }
}

// The whole lines at the front.
fn whole_lines(bytes: &[u8]) -> &[u8]
    ensures front { (more : List ℕ) × (bytes.now ≡ result.now ++ more) }
    ensures whole { AreWhole result.now }
{
    match memrchr(b'\n', bytes) {
        Some(at) => &bytes[..at + 1],
        None => &bytes[..0],
    }
}

// The rest of some bytes after whole lines on which nothing begins, if no tag begins in the first
// `clear` bytes. If a tag is near, nothing is skipped.
pub(crate) fn skip(bytes: &[u8], clear: usize, line: u64) -> Left<'_>
    requires within { clear < length bytes.now }
    requires room { line + length bytes.now < 2 ^ 64 }
    ensures { Skips clear line bytes.now result.line result.bytes.now }
{
    if clear < NEAR {
        return Left { line, bytes };
    }
    let lines = whole_lines(before_start(&bytes[..clear]));
    Left {
        line: line + line_feeds(lines) as u64,
        bytes: &bytes[lines.len()..],
    }
}
