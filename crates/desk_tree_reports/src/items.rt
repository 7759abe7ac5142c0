//! Rows as items of a JSON array.

ghost use Rattle.std.specs.Prelude.{◌≡◌, ◌++◌, ◌∷◌, [], IfOk, OnOk};
ghost use Rattle.std.specs.String.{string_bytes};
ghost use Rattle.json.specs.Print.{quoted, escape};
ghost use Rattle.json.specs.Token.{key as key_token, string as string_token};
ghost use Rattle.serde_json.specs.Written.{comma_if};
ghost use Rattle.desk_tree_reports.specs.Items.{line_token, row_front, path_member, missing_front, missing_end};

use desk_tree_problems::Row;
use json::Writer;
use std::alloc::{AllocError, Global};

// Writes the number of a line, or null.
fn write_line(writer: &mut Writer, line: Option<u64>) -> Result<(), AllocError>
    ensures tokens { OnOk result (writer.new.tokens ≡ writer.old.tokens ++ line_token line ∷ []) }
    ensures before { writer.new.before ≡ writer.old.before }
{
    match line {
        Some(line) => writer.u64(line),
        None => writer.null(),
    }
}

// Writes a member that is a text.
fn write_text(writer: &mut Writer, key: &str, text: &str) -> Result<(), AllocError>
    ensures tokens { OnOk result (writer.new.tokens
        ≡ writer.old.tokens ++ key_token key.now ∷ string_token text.now ∷ []) }
    ensures before { writer.new.before ≡ writer.old.before }
{
    writer.key(key)?;
    writer.string(text)
}

// Bytes, followed by the item of a row up to its path.
fn with_front(bytes: Vec<u8>, row: &Row) -> Result<Vec<u8>, AllocError>
    ensures { IfOk result (λ all. all.items ≡ bytes.items ++ row_front row.now) }
{
    let mut writer = Writer::new(bytes);
    writer.begin_object()?;
    write_text(&mut writer, "kind", row.kind.name())?;
    writer.key("line")?;
    write_line(&mut writer, row.line)?;
    write_text(&mut writer, "message", row.message.as_str())?;
    Ok(writer.into_inner())
}

/// The item of a row up to its path, with a comma before it if others come before.
pub(crate) fn row_front(alloc: Global, row: &Row, later: bool) -> Result<Vec<u8>, AllocError>
    ensures { IfOk result (λ all. all.items ≡ comma_if later ++ row_front row.now) }
{
    let mut bytes = Vec::new(alloc);
    if later {
        bytes.push(b',')?;
    }
    with_front(bytes, row)
}

// A text as a JSON string.
fn quote(alloc: Global, text: &str) -> Result<Vec<u8>, AllocError>
    ensures { IfOk result (λ bytes. bytes.items ≡ quoted text.now) }
{
    let mut writer = Writer::new(Vec::new(alloc));
    writer.string(text)?;
    Ok(writer.into_inner())
}

/// A text as it is inside a JSON string.
pub(crate) fn escape(alloc: Global, text: &str) -> Result<Vec<u8>, AllocError>
    ensures { IfOk result (λ bytes. bytes.items ≡ escape text.now) }
{
    let mut bytes = quote(alloc, text)?;
    bytes.remove(0);
    bytes.pop();
    Ok(bytes)
}

// Some bytes of our own.
fn copy_bytes(alloc: Global, bytes: &[u8]) -> Result<Vec<u8>, AllocError>
    ensures { IfOk result (λ copy. copy.items ≡ bytes.now) }
{
    let mut copy = Vec::new(alloc);
    copy.extend_from_slice(bytes)?;
    Ok(copy)
}

/// An item from its path on.
pub(crate) fn path_member(alloc: Global, path: &str) -> Result<Vec<u8>, AllocError>
    ensures { IfOk result (λ bytes. bytes.items ≡ path_member path.now) }
{
    let path = quote(alloc, path)?;
    let mut bytes = copy_bytes(alloc, b",\"path\":")?;
    bytes.extend_from_slice(path.as_slice())?;
    bytes.push(b'}')?;
    Ok(bytes)
}

/// The item of a missing text, after others, up to the licence.
pub(crate) fn missing_front(alloc: Global) -> Result<Vec<u8>, AllocError>
    ensures { IfOk result (λ bytes. bytes.items ≡ missing_front) }
{
    copy_bytes(
        alloc,
        b",{\"kind\":\"Missing\",\"line\":null,\"message\":\"no text of ",
    )
}

/// That item after the last words.
pub(crate) fn missing_end(alloc: Global) -> Result<Vec<u8>, AllocError>
    ensures { IfOk result (λ bytes. bytes.items ≡ missing_end) }
{
    copy_bytes(alloc, b"\",\"path\":\"LICENSES/\"}")
}
