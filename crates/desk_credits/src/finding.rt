//! The notices that a file has by pattern.

ghost use Rattle.std.specs.Prelude.{◌≡◌, List, IfOk, OnOk, option_map, option_to_list};
ghost use Rattle.desk_base.specs.Lines.{LineText, CutsInto, line_text};
ghost use Rattle.desk_credits.specs.declared.notice.Notice.{Notice};
ghost use Rattle.desk_credits.specs.Finding.{FindsIn, found_at, found_on};
ghost use Rattle.desk_credits.specs.Notices.{IsKnown, with_notices};

use crate::notice::{Notice, Place};
use crate::notices::Known;
use crate::patterns::notice_in;
use desk_base::{Line, Lines, Text};
use desk_entries::text_at;
use std::alloc::{AllocError, Global};

// The notice of a line.
fn found_at(alloc: Global, path: &str, line: Line<'_>) -> Result<Option<Notice>, AllocError>
    ensures { IfOk result (λ found. found ≡ found_at path.now (line_text line.entry)) }
{
    let Some(text) = notice_in(line.text) else {
        return Ok(None);
    };
    let text = Text::of(alloc, text)?;
    let path = Text::of(alloc, path)?;
    let line = line.number;
    Ok(Some(Notice {
        text,
        place: Some(Place { path, line }),
    }))
}

// Adds the notice of a line, if it has one.
fn add_found(alloc: Global, known: &mut Known, path: &str, line: Line<'_>) -> Result<(), AllocError>
    requires { IsKnown known.old }
    ensures known { OnOk result (IsKnown known.new) }
    ensures added { OnOk result (known.new.notices.items ≡ with_notices known.old.notices.items
        (option_to_list (found_at path.now (line_text line.entry)))) }
{
    match found_at(alloc, path, line)? {
        Some(notice) => known.add(alloc, notice),
        None => Ok(()),
    }
}

// Adds the notices of the lines of some bytes.
fn add_lines(alloc: Global, known: &mut Known, path: &str, bytes: &[u8]) -> Result<(), AllocError>
    requires { IsKnown known.old }
    ensures known { OnOk result (IsKnown known.new) }
    ensures added { OnOk result ((lines : List LineText) × CutsInto 1 bytes.now lines
        × (known.new.notices.items ≡ with_notices known.old.notices.items
        (found_on path.now lines))) }
{
    for line in Lines::of(bytes) {
        add_found(alloc, known, path, line)?;
    }
    Ok(())
}

/// Adds the notices that a file has by pattern.
pub(crate) fn add_notices_in(
    alloc: Global,
    known: &mut Known,
    path: &str,
    bytes: &[u8],
) -> Result<(), AllocError>
    requires { IsKnown known.old }
    ensures known { OnOk result (IsKnown known.new) }
    ensures added { OnOk result ((found : List Notice) × FindsIn path.now bytes.now found
        × (known.new.notices.items ≡ with_notices known.old.notices.items found)) }
{
    match text_at(bytes) {
        Some(_) => add_lines(alloc, known, path, bytes),
        None => Ok(()),
    }
}
