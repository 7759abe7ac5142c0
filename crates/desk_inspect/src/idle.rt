//! Attached documents that ship no package, in words.

ghost use Rattle.std.specs.Prelude.{◌≡◌, ◌++◌, IfOk, OnOk};
ghost use Rattle.std.specs.List.{flat_map};
ghost use Rattle.std.specs.Io.KnownBytes.{Appends};
ghost use Rattle.desk_inspect.specs.Idle.{idle_line};

use desk_subcommands::{Failure, write_text};
use std::alloc::{AllocError, Global};
use std::io::Write;

// Adds the line of a document.
fn add_line(alloc: Global, text: &mut Vec<u8>, number: u32) -> Result<(), AllocError>
    ensures { OnOk result (text.new.items ≡ text.old.items ++ idle_line number) }
{
    let line = format!(in alloc; "document {number} ships no package, and raises no duty\n")?;
    text.extend_from_slice(line.as_bytes())
}

fn idle_text(alloc: Global, numbers: &[u32]) -> Result<Vec<u8>, AllocError>
    ensures { IfOk result (λ text. text.items ≡ flat_map idle_line numbers.now) }
{
    let mut text = Vec::new(alloc);
    for number in numbers {
        add_line(alloc, &mut text, *number)?;
    }
    Ok(text)
}

/// Reports which documents ship no package, each in a line.
pub(crate) fn tell_idle<T: Write>(
    alloc: Global,
    numbers: &[u32],
    notes: &mut T,
) -> Result<(), Failure>
    ensures { OnOk result (Appends (T.contents notes.old) (T.contents notes.new)
        (flat_map idle_line numbers.now)) }
{
    let text = idle_text(alloc, numbers)?;
    write_text(notes, text.as_slice())
}
