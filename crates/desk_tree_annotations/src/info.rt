//! The notices and licences that a file states itself (REUSE Specification 3.3, comment headers).

ghost use Rattle.std.specs.Prelude.{◌≡◌, ◌<◌, List, ℕ, codes, length, map, IfOk};
ghost use Rattle.desk_tree_annotations.specs.Skipping.{IsClear};
ghost use Rattle.desk_tree_annotations.specs.Tags.{IsInfo, TagText, tag_text};

use crate::runs::{Run, first_run};
use crate::skipping::{MARK, clear_of, skip};
use crate::tags::{Tagged, add};
use memchr::memmem::Finder;
use std::alloc::{AllocError, Global};

const NOTICE: &[u8] = b"SPDX-FileCopyrightText:";

const LICENCE: &[u8] = b"SPDX-License-Identifier:";

/// What a file states itself. Its texts are parts of the file.
#[derive(Drop)]
pub struct Info<'a> {
    /// The values of `SPDX-FileCopyrightText:`, by line.
    pub notices: Vec<Tagged<'a>>,
    /// The values of `SPDX-License-Identifier:`, by line.
    pub licences: Vec<Tagged<'a>>,
}

// The notices and licences of a file, if no tag begins in its first `known` bytes. The searches are
// prepared once for all lines.
fn tagged_info<'a>(
    alloc: Global,
    file: &'a [u8],
    mark: &Finder<'_>,
    known: usize,
) -> Result<Info<'a>, AllocError>
    requires mark { mark.now ≡ codes "SPDX-" }
    requires clear { IsClear (codes "SPDX-") known file.now }
    requires within { known < length file.now }
    ensures { IfOk result (λ i. IsInfo file.now (map tag_text i.notices.items)
        (map tag_text i.licences.items)) }
{
    let notice = Finder::new(NOTICE);
    let licence = Finder::new(LICENCE);
    let mut notices = Vec::new(alloc);
    let mut licences = Vec::new(alloc);
    let mut noticed = 0u64;
    let mut licensed = 0u64;
    let mut rest = file;
    let mut line = 1u64;
    let mut clear = known;
    while let Some(ahead) = clear_of(rest, mark, clear) {
        let left = skip(rest, ahead, line);
        let found = first_run(left.bytes, left.line);
        let run = Run {
            line: left.line,
            text: found.text,
        };
        noticed = add(&mut notices, run, &notice, noticed)?;
        licensed = add(&mut licences, run, &licence, licensed)?;
        clear = ahead.saturating_sub(rest.len() - found.rest.len());
        rest = found.rest;
        line = found.line;
    }
    Ok(Info { notices, licences })
}

/// The notices and licences of a file, each with its line. The only error is lack of memory.
///
/// The first tag of a line outside ignored stretches counts, wherever in the line it is, even if
/// its value is skipped. An ignored stretch goes from `REUSE-IgnoreStart` to the end of the next
/// `REUSE-IgnoreEnd`, or to the end of the file. A value goes to the end of the line or to the next
/// ignored stretch, without blanks at its ends and without one trailing `*/`, `-->`, `*)` or `-}`
/// and the blanks before that. An empty value, or one that isn't UTF-8, is skipped.
pub fn header<'a>(alloc: Global, file: &'a [u8]) -> Result<Info<'a>, AllocError>
    ensures { IfOk result (λ i. IsInfo file.now (map tag_text i.notices.items)
        (map tag_text i.licences.items)) }
{
    let mark = Finder::new(MARK);
    let Some(known) = clear_of(file, &mark, 0) else {
        return Ok(Info {
            notices: Vec::new(alloc),
            licences: Vec::new(alloc),
        });
    };
    tagged_info(alloc, file, &mark, known)
}

/// A file has one list of notices and one of licences.
pub fn one_header()
    ensures { (file : List ℕ) (a b c d : List TagText) → IsInfo file a b → IsInfo file c d
        → (a ≡ c) × (b ≡ d) }
{}
