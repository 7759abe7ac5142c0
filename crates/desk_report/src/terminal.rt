//! Texts of several lines as a terminal shows them.

ghost use Rattle.std.specs.Prelude.{◌≡◌, ◌++◌, IfOk, OnOk};
ghost use Rattle.std.specs.List.{flat_map};
ghost use Rattle.std.specs.Str.{chars};
ghost use Rattle.desk_report.specs.Terminal.{line_char, lines_shown};

use desk_base::add_shown;
use std::alloc::{AllocError, Global};

// Adds a character as it is shown, and a line end as it is.
fn add_line_char(bytes: &mut Vec<u8>, ch: char) -> Result<(), AllocError>
    ensures { OnOk result (bytes.new.items ≡ bytes.old.items ++ line_char ch) }
{
    if ch == '\n' {
        bytes.push(b'\n')?;
        return Ok(());
    }
    let mut buffer = [0; 4];
    add_shown(bytes, ch.encode_utf8(&mut buffer))
}

/// A text with a question mark for each control character but LF, and for each character that sets
/// a direction.
pub fn lines_shown(alloc: Global, text: &str) -> Result<Vec<u8>, AllocError>
    ensures { IfOk result (λ shown. shown.items ≡ lines_shown text.now) }
{
    let mut bytes = Vec::with_capacity(alloc, text.len())?;
    for ch in text.chars() {
        add_line_char(&mut bytes, ch)?;
    }
    Ok(bytes)
}
