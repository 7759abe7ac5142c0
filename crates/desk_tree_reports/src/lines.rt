//! The lines of rows.

ghost use Rattle.std.specs.Prelude.{◌≡◌, ◌++◌, IfOk, codes, true};
ghost use Rattle.std.specs.Str.{is_utf8};
ghost use Rattle.std.specs.String.{string_bytes};
ghost use Rattle.desk_base.specs.Terminal.{shown};
ghost use Rattle.desk_tree_reports.specs.Lines.{place, has_line};

use desk_base::add_shown;
use desk_tree_problems::{Kind, Row};
use std::alloc::{AllocError, Global};

// What is between the path and the message.
fn place(alloc: Global, line: Option<u64>) -> Result<String, AllocError>
    ensures { IfOk result (λ words. string_bytes words ≡ place line) }
{
    match line {
        Some(line) => format!(in alloc; ":{line}: "),
        None => String::from_str(alloc, ": "),
    }
}

/// A text as it is shown.
pub(crate) fn shown_text(alloc: Global, text: &str) -> Result<Vec<u8>, AllocError>
    ensures { IfOk result (λ bytes. bytes.items ≡ shown text.now) }
{
    let mut bytes = Vec::new(alloc);
    add_shown(&mut bytes, text)?;
    Ok(bytes)
}

/// The line of a row after its path.
pub(crate) fn behind_path(alloc: Global, row: &Row) -> Result<Vec<u8>, AllocError>
    ensures { IfOk result (λ bytes. bytes.items
        ≡ place row.now.line ++ (shown row.now.message ++ codes "\n")) }
{
    let mut bytes = place(alloc, row.line)?.into_bytes();
    add_shown(&mut bytes, row.message.as_str())?;
    bytes.push(b'\n')?;
    Ok(bytes)
}

/// The line of a text that is missing up to the words about the file that names it.
pub(crate) fn missing_front(alloc: Global, id: &str) -> Result<Vec<u8>, AllocError>
    ensures bytes { IfOk result
        (λ bytes. bytes.items ≡ codes "LICENSES/: no text of " ++ shown id.now) }
    ensures text { is_utf8 id.now ≡ true }
{
    let mut bytes = String::from_str(alloc, "LICENSES/: no text of ")?.into_bytes();
    add_shown(&mut bytes, id)?;
    Ok(bytes)
}

/// The end of a line.
pub(crate) fn line_end(alloc: Global, words: &str) -> Result<Vec<u8>, AllocError>
    ensures { IfOk result (λ bytes. bytes.items ≡ shown words.now ++ codes "\n") }
{
    let mut bytes = shown_text(alloc, words)?;
    bytes.push(b'\n')?;
    Ok(bytes)
}

/// Whether a row of a kind has a line, if only those of one kind may be asked for.
pub(crate) fn has_line(only: Option<Kind>, kind: Kind) -> bool
    ensures { result ≡ has_line only kind }
{
    match only {
        Some(other) => kind.number() == other.number(),
        None => true,
    }
}
