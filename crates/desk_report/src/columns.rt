//! The table of a release's duties in columns.

ghost use Rattle.std.specs.Prelude.{◌≡◌, ◌++◌, ◌∷◌, decimal, map, replicate, IfOk, OnOk};
ghost use Rattle.std.specs.Char.{encode_utf8};
ghost use Rattle.std.specs.String.{string_bytes};
ghost use Rattle.desk_base.specs.Terminal.{shown, shown_char};
ghost use Rattle.desk_report.specs.Columns.{width, front_names, front_cells, widened, widths, filled, front_text, row_line, duty_row, columns_text};

use crate::table::day_cell;
use desk_base::{add_shown, is_bidirectional};
use desk_model::DutyLine;
use std::alloc::{AllocError, Global};
use unicode_width::UnicodeWidthStr;

/// How many blanks there are between two columns.
const GAP: usize = 2;

/// The names of the columns before the last.
const FRONT_NAMES: [&str; 7] = [
    "number", "document", "package", "term", "rule", "code", "state",
];

// A question mark for a character that isn't shown on a terminal.
fn shown_char(ch: char) -> char
    ensures { encode_utf8 result ≡ shown_char ch }
{
    if ch.is_control() || is_bidirectional(ch) {
        '?'
    } else {
        ch
    }
}

// A text as a terminal shows it.
fn shown_text(alloc: Global, text: &str) -> Result<String, AllocError>
    ensures { IfOk result (λ found. string_bytes found ≡ shown text.now) }
{
    let mut found = String::new(alloc);
    for ch in text.chars() {
        found.push(shown_char(ch))?;
    }
    Ok(found)
}

/// How many columns a text takes as a terminal shows it.
pub fn width(alloc: Global, text: &str) -> Result<usize, AllocError>
    ensures { IfOk result (λ wide. wide ≡ width text.now) }
{
    let shown = shown_text(alloc, text)?;
    Ok(shown.as_str().width())
}

// The cells of a duty before the last column; its numbers are written already.
fn front_cells<'a>(number: &'a str, document: &'a str, line: &'a DutyLine) -> [&'a str; 7]
    ensures { number.now ≡ decimal line.now.number → document.now ≡ decimal line.now.document
        → map (λ cell. cell.now) result ≡ front_cells line.now }
{
    let state: &'a str = line.state.name();
    [
        number,
        document,
        line.package_id.as_str(),
        line.term.as_str(),
        line.rule.as_str(),
        line.code.as_str(),
        state,
    ]
}

// The widths of texts.
fn widths_of(alloc: Global, texts: &[&str]) -> Result<Vec<usize>, AllocError>
    ensures { IfOk result (λ widths. widths.items ≡ map (λ text. width text.now) texts.now) }
{
    let mut widths = Vec::new(alloc);
    for text in texts {
        let wide = width(alloc, *text)?;
        widths.push(wide)?;
    }
    Ok(widths)
}

// Adds the widths of columns, widened for these cells.
fn add_widened(
    alloc: Global,
    found: &mut Vec<usize>,
    widths: &[usize],
    cells: &[&str],
) -> Result<(), AllocError>
    ensures { OnOk result (found.new.items
        ≡ found.old.items ++ widened widths.now (map (λ cell. cell.now) cells.now)) }
{
    match widths {
        [] => Ok(()),
        [known, widths @ ..] => match cells {
            [] => Ok(()),
            [cell, cells @ ..] => {
                let wide = width(alloc, *cell)?;
                found.push((*known).max(wide))?;
                add_widened(alloc, found, widths, cells)
            }
        },
    }
}

// The widths of columns, widened for the cells of a duty.
fn widen(alloc: Global, widths: &[usize], line: &DutyLine) -> Result<Vec<usize>, AllocError>
    ensures { IfOk result (λ found. found.items ≡ widened widths.now (front_cells line.now)) }
{
    let number = line.number;
    let number = format!(in alloc; "{number}")?;
    let document = line.document;
    let document = format!(in alloc; "{document}")?;
    let cells = front_cells(number.as_str(), document.as_str(), line);
    let mut found = Vec::new(alloc);
    add_widened(alloc, &mut found, widths, &cells)?;
    Ok(found)
}

// The width of each column before the last.
fn widths(alloc: Global, lines: &[DutyLine]) -> Result<Vec<usize>, AllocError>
    ensures { IfOk result (λ found. found.items ≡ widths lines.now) }
{
    let mut found = widths_of(alloc, &FRONT_NAMES)?;
    for line in lines {
        found = widen(alloc, found.as_slice(), line)?;
    }
    Ok(found)
}

// Adds this many blanks.
fn add_blanks(text: &mut Vec<u8>, count: usize) -> Result<(), AllocError>
    ensures { OnOk result (text.new.items ≡ text.old.items ++ replicate count 32) }
{
    for _ in 0..count {
        text.push(b' ')?;
    }
    Ok(())
}

/// Adds a cell padded to the width of its column, and two blanks.
pub fn add_filled(
    alloc: Global,
    text: &mut Vec<u8>,
    wide: usize,
    cell: &str,
) -> Result<(), AllocError>
    ensures { OnOk result (text.new.items ≡ text.old.items ++ filled wide cell.now) }
{
    let taken = width(alloc, cell)?;
    add_shown(text, cell)?;
    add_blanks(text, wide.saturating_sub(taken))?;
    add_blanks(text, GAP)
}

// Adds cells, each padded to the width of its column.
fn add_front(
    alloc: Global,
    text: &mut Vec<u8>,
    widths: &[usize],
    cells: &[&str],
) -> Result<(), AllocError>
    ensures { OnOk result (text.new.items
        ≡ text.old.items ++ front_text widths.now (map (λ cell. cell.now) cells.now)) }
{
    match widths {
        [] => Ok(()),
        [wide, widths @ ..] => match cells {
            [] => Ok(()),
            [cell, cells @ ..] => {
                add_filled(alloc, text, *wide, *cell)?;
                add_front(alloc, text, widths, cells)
            }
        },
    }
}

// Adds a row.
fn add_row(
    alloc: Global,
    text: &mut Vec<u8>,
    widths: &[usize],
    cells: &[&str],
    last: &[u8],
) -> Result<(), AllocError>
    ensures { OnOk result (text.new.items
        ≡ text.old.items ++ row_line widths.now (map (λ cell. cell.now) cells.now) last.now) }
{
    add_front(alloc, text, widths, cells)?;
    text.extend_from_slice(last)?;
    text.extend_from_slice(b"\n")
}

// Adds the row of a duty.
fn add_duty(
    alloc: Global,
    text: &mut Vec<u8>,
    widths: &[usize],
    line: &DutyLine,
) -> Result<(), AllocError>
    ensures { OnOk result (text.new.items ≡ text.old.items ++ duty_row widths.now line.now) }
{
    let number = line.number;
    let number = format!(in alloc; "{number}")?;
    let document = line.document;
    let document = format!(in alloc; "{document}")?;
    let cells = front_cells(number.as_str(), document.as_str(), line);
    add_row(alloc, text, widths, &cells, day_cell(&line.day))
}

/// The table of duties as a terminal shows it: the names of the columns, as in `duties_csv`, and a
/// row for each duty, each ended by LF. A column is as wide as its widest text, with two blanks
/// before the next one. A character that isn't shown on a terminal is a question mark.
#[tactic(auto, unfolding(crate::specs::Columns::columns_text))]
pub fn duties_columns(alloc: Global, lines: &[DutyLine]) -> Result<Vec<u8>, AllocError>
    ensures { IfOk result (λ text. text.items ≡ columns_text lines.now) }
{
    let widths = widths(alloc, lines)?;
    let mut text = Vec::new(alloc);
    add_row(alloc, &mut text, widths.as_slice(), &FRONT_NAMES, b"since")?;
    for line in lines {
        add_duty(alloc, &mut text, widths.as_slice(), line)?;
    }
    Ok(text)
}
