//! The changes of a duty as lines.

ghost use Rattle.std.specs.Prelude.{◌≡◌, ◌++◌, IfOk, OnOk};
ghost use Rattle.std.specs.List.{flat_map};
ghost use Rattle.std.specs.String.{string_bytes};
ghost use Rattle.desk_base.specs.Terminal.{shown};
ghost use Rattle.desk_report.specs.Lines.{spaced, until, behind, front, line_with, change_text, change_shown, changes_on};

use desk_base::{Day, add_shown};
use desk_model::ChangeRow;
use std::alloc::{AllocError, Global};

// Adds a blank and a word.
fn add_word(text: &mut Vec<u8>, word: &[u8]) -> Result<(), AllocError>
    ensures { OnOk result (text.new.items ≡ text.old.items ++ spaced word.now) }
{
    text.push(b' ')?;
    text.extend_from_slice(word)
}

// Adds `until` and the last day of a waiver that ends.
fn add_until(text: &mut Vec<u8>, last_day: &Option<Day>) -> Result<(), AllocError>
    ensures { OnOk result (text.new.items ≡ text.old.items ++ until last_day.now) }
{
    match last_day {
        Some(day) => {
            add_word(text, b"until")?;
            add_word(text, day.as_bytes())
        }
        None => Ok(()),
    }
}

// Adds the text of a change after a blank, if it isn't empty.
fn add_body(text: &mut Vec<u8>, body: &[u8]) -> Result<(), AllocError>
    ensures { OnOk result (text.new.items ≡ text.old.items ++ behind body.now) }
{
    match body {
        [] => Ok(()),
        bytes => add_word(text, bytes),
    }
}

// Adds the step, the day and the word of a change.
fn add_front(alloc: Global, text: &mut Vec<u8>, change: &ChangeRow) -> Result<(), AllocError>
    ensures { OnOk result (text.new.items ≡ text.old.items ++ front change.now) }
{
    let step = change.step;
    let step = format!(in alloc; "{step}")?;
    text.extend_from_slice(step.as_bytes())?;
    add_word(text, change.day.as_bytes())?;
    add_word(text, change.word.name().as_bytes())
}

// Adds the line of a change, with a text.
fn add_line(
    alloc: Global,
    text: &mut Vec<u8>,
    change: &ChangeRow,
    body: &[u8],
) -> Result<(), AllocError>
    ensures { OnOk result (text.new.items ≡ text.old.items ++ line_with body.now change.now) }
{
    add_front(alloc, text, change)?;
    add_until(text, &change.last_day)?;
    add_body(text, body)?;
    text.push(b'\n')?;
    Ok(())
}

// Adds the line of a change.
fn add_change(alloc: Global, text: &mut Vec<u8>, change: &ChangeRow) -> Result<(), AllocError>
    ensures { OnOk result (text.new.items ≡ text.old.items ++ change_text change.now) }
{
    add_line(alloc, text, change, change.body.as_str().as_bytes())
}

// Adds the line of a change as a terminal shows it.
fn add_change_shown(alloc: Global, text: &mut Vec<u8>, change: &ChangeRow) -> Result<(), AllocError>
    ensures { OnOk result (text.new.items ≡ text.old.items ++ change_shown change.now) }
{
    let mut body = Vec::new(alloc);
    add_shown(&mut body, change.body.as_str())?;
    add_line(alloc, text, change, body.as_slice())
}

/// A line for each change, ended by LF: its step, its day and its word, `until` and the last day of
/// a waiver that ends, and the change's text if it isn't empty, with one blank between them.
pub fn changes_text(alloc: Global, changes: &[ChangeRow]) -> Result<Vec<u8>, AllocError>
    ensures { IfOk result (λ text. text.items ≡ flat_map change_text changes.now) }
{
    let mut text = Vec::new(alloc);
    for change in changes {
        add_change(alloc, &mut text, change)?;
    }
    Ok(text)
}

// The same as a terminal shows them.
fn changes_shown(alloc: Global, changes: &[ChangeRow]) -> Result<Vec<u8>, AllocError>
    ensures { IfOk result (λ text. text.items ≡ flat_map change_shown changes.now) }
{
    let mut text = Vec::new(alloc);
    for change in changes {
        add_change_shown(alloc, &mut text, change)?;
    }
    Ok(text)
}

/// The lines of changes; on a terminal, each text has a question mark for each control character and
/// each that sets a direction.
pub fn changes_on(
    alloc: Global,
    changes: &[ChangeRow],
    is_terminal: bool,
) -> Result<Vec<u8>, AllocError>
    ensures { IfOk result (λ text. text.items ≡ changes_on is_terminal changes.now) }
{
    if is_terminal {
        changes_shown(alloc, changes)
    } else {
        changes_text(alloc, changes)
    }
}
