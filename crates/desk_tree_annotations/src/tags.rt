//! The tags of a run, and their values.

ghost use Rattle.std.specs.Prelude.{◌≡◌, ◌<◌, ◌++◌, List, ℕ, length, map, IfSome, IfNone, IfOk};
ghost use Rattle.desk_tree_annotations.specs.Runs.{run_text};
ghost use Rattle.desk_tree_annotations.specs.Tags.{IsClose, IsBare, Tells, Counts, tag_text};
ghost use Rattle.desk_tree_annotations.specs.Found.{Adds, found, found_inner};

use crate::runs::{Run, around_found};
use desk_fields::{trim_end_bytes, trimmed_bytes};
use memchr::memmem::Finder;
use std::alloc::AllocError;

/// The value of a tag, and its line.
#[derive(Clone, Copy)]
pub struct Tagged<'a> {
    /// The line, from 1.
    pub line: u64,
    /// The value, a part of the file: not empty, and without blanks at its ends.
    pub value: &'a str,
}

// What comes before an end.
fn before_end<'a>(bytes: &'a [u8], end: &[u8]) -> Option<&'a [u8]>
    ensures none { IfNone result ((front : List ℕ) → bytes.now ≡ front ++ end.now → ⊥) }
    ensures some { IfSome result (λ r. bytes.now ≡ r.now ++ end.now) }
{
    bytes.strip_suffix(end)
}

// What comes before the end of a comment.
fn before_close(bytes: &[u8]) -> Option<&[u8]>
    ensures none { IfNone result
        ((front close : List ℕ) → IsClose close → bytes.now ≡ front ++ close → ⊥) }
    ensures some { IfSome result
        (λ r. (close : List ℕ) × IsClose close × (bytes.now ≡ r.now ++ close)) }
{
    if let Some(front) = before_end(bytes, b"*/") {
        return Some(front);
    }
    if let Some(front) = before_end(bytes, b"-->") {
        return Some(front);
    }
    if let Some(front) = before_end(bytes, b"*)") {
        return Some(front);
    }
    before_end(bytes, b"-}")
}

// A value without the end of a comment.
fn bare(bytes: &[u8]) -> &[u8]
    ensures { IsBare bytes.now result.now }
{
    match before_close(bytes) {
        Some(front) => trim_end_bytes(front),
        None => bytes,
    }
}

// The value after a tag.
fn value(after: &[u8]) -> Option<&str>
    ensures { Tells after.now (found_inner result) }
{
    let value = bare(trimmed_bytes(after));
    if value.is_empty() {
        return None;
    }
    match str::from_utf8(value) {
        Ok(text) => Some(text),
        Err(_) => None,
    }
}

// What a run gives, if its line hasn't had its tag.
fn tag_of_run<'a>(run: Run<'a>, tag: &Finder<'_>, seen: u64) -> Option<Option<&'a str>>
    requires { 0 < length tag.now }
    ensures { Counts tag.now seen (run_text run.entry) (found result) }
{
    if run.line == seen {
        return None;
    }
    let (_, after) = around_found(run.text, tag)?;
    Some(value(after))
}

// Adds what a run gives to the list, and returns the last line that had its tag.
pub(crate) fn add<'a>(
    list: &mut Vec<Tagged<'a>>,
    run: Run<'a>,
    tag: &Finder<'_>,
    seen: u64,
) -> Result<u64, AllocError>
    requires { 0 < length tag.now }
    ensures { IfOk result (λ n. Adds tag.now seen (run_text run.entry) (map tag_text list.old.items)
        (map tag_text list.new.items) n) }
{
    let Some(found) = tag_of_run(run, tag, seen) else {
        return Ok(seen);
    };
    let Some(value) = found else {
        return Ok(run.line);
    };
    list.push(Tagged {
        line: run.line,
        value,
    })?;
    Ok(run.line)
}
