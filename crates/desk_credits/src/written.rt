//! A credit as a file that fills gaps.

ghost use Rattle.std.specs.Prelude.{◌≡◌, ◌≤◌, ◌++◌, ◌∷◌, [], IfOk, IsUtf8, Ok, OnOk, length, option_map, true};
ghost use Rattle.std.specs.String.{string_bytes};
ghost use Rattle.desk_fill.specs.Reading.{fill_of, most_bytes};
ghost use Rattle.desk_fill.specs.Values.{says_something};
ghost use Rattle.desk_credits.specs.Written.{IsCreditFile, comment, comment_if, comments, credit_for, if_fits, with_line, with_lines};

use crate::notice::{Notice, Place};
use crate::tables::credit_document;
use desk_base::{Text, add_shown};
use desk_entries::printed;
use desk_fill::{Credit, limits};
use std::alloc::{AllocError, Global};

// Adds a line to a text.
fn add_line(text: &mut String, line: &str) -> Result<(), AllocError>
    ensures { OnOk result (string_bytes text.new ≡ with_line (string_bytes text.old) line.now) }
{
    if !text.as_str().is_empty() {
        text.push_str("\n")?;
    }
    text.push_str(line)
}

// The text of a credit with these notices.
fn credit_text(alloc: Global, notices: &[Notice]) -> Result<String, AllocError>
    ensures { IfOk result (λ text. string_bytes text ≡ with_lines [] notices.now) }
{
    let mut text = String::new(alloc);
    for notice in notices {
        add_line(&mut text, notice.text.as_str())?;
    }
    Ok(text)
}

/// The credit of a package with these notices, one a line. The only error is lack of memory.
pub(crate) fn credit_for(
    alloc: Global,
    name: &str,
    version: Option<&str>,
    notices: &[Notice],
) -> Result<Credit, AllocError>
    ensures { IfOk result (λ credit. credit
        ≡ credit_for name.now (option_map (λ text. text.now) version.entry) notices.now) }
{
    let version = match version {
        Some(version) => Some(Text::of(alloc, version)?),
        None => None,
    };
    Ok(Credit {
        name: Text::of(alloc, name)?,
        version,
        text: Text::from(credit_text(alloc, notices)?),
    })
}

// Adds the comment on a place.
fn add_comment(alloc: Global, bytes: &mut Vec<u8>, place: &Place) -> Result<(), AllocError>
    ensures added { OnOk result (bytes.new.items ≡ bytes.old.items ++ comment place.now) }
    ensures utf8 { IsUtf8 bytes.old.items → OnOk result (IsUtf8 bytes.new.items) }
{
    let line = place.line;
    let behind = format!(in alloc; ":{line}\n")?;
    bytes.extend_from_slice(b"# found by pattern, to be checked: ")?;
    add_shown(bytes, place.path.as_str())?;
    bytes.extend_from_slice(behind.as_str().as_bytes())
}

// The comments on notices.
fn comments(alloc: Global, notices: &[Notice]) -> Result<Vec<u8>, AllocError>
    ensures comments { IfOk result (λ bytes. bytes.items ≡ comments notices.now) }
    ensures utf8 { IfOk result (λ bytes. IsUtf8 bytes.items) }
{
    let mut bytes = Vec::new(alloc);
    for notice in notices {
        if let Some(place) = &notice.place {
            add_comment(alloc, &mut bytes, place)?;
        }
    }
    Ok(bytes)
}

/// A file with a credit, behind a comment for each notice that was found by pattern. A credit that
/// says something is read back as it is. The only error is lack of memory.
pub(crate) fn credit_file(
    alloc: Global,
    notices: &[Notice],
    credit: &Credit,
) -> Result<Vec<u8>, AllocError>
    ensures file { IfOk result (λ file. IsCreditFile notices.now credit.now file.items) }
    ensures reads_back { says_something credit.now.text ≡ true → IfOk result (λ file.
        length file.items ≤ most_bytes → fill_of file.items
        ≡ Ok (record { texts = []; credits = credit.now ∷ [] })) }
{
    let table = credit_document(alloc, credit)?;
    let text = printed(alloc, &table)?;
    let mut file = comments(alloc, notices)?;
    file.extend_from_slice(text.as_str().as_bytes())?;
    Ok(file)
}

/// A file, if `--fill` takes that many bytes.
pub(crate) fn if_fits(file: Vec<u8>) -> Option<Vec<u8>>
    ensures { option_map (λ bytes. bytes.items) result ≡ if_fits file.items }
{
    if file.len() <= limits::FILL_BYTES {
        Some(file)
    } else {
        None
    }
}
