//! Tables laid out in columns.

ghost use Rattle.std.specs.Prelude.{◌≡◌, ◌++◌, [], ◌-◌, length, map, take, IfOk, OnOk};
ghost use Rattle.std.specs.List.{flat_map};
ghost use Rattle.desk_lists.specs.Columns.{columns_text, row_line, widths};
ghost use Rattle.desk_base.specs.Terminal.{shown};
ghost use Rattle.desk_report.specs.Columns.{widened, width};

use desk_base::{Items, Text, add_shown};
use desk_report::{add_filled, width};
use std::alloc::{AllocError, Global};

// The widths of texts.
fn widths_of(alloc: Global, cells: &[Text]) -> Result<Vec<usize>, AllocError>
    ensures { IfOk result (λ widths. widths.items ≡ map width cells.now) }
{
    let mut widths = Vec::new(alloc);
    for cell in cells {
        let wide = width(alloc, cell.as_str())?;
        widths.push(wide)?;
    }
    Ok(widths)
}

// Adds the widths of columns, widened for these cells.
fn add_widened(
    alloc: Global,
    found: &mut Vec<usize>,
    widths: &[usize],
    cells: &[Text],
) -> Result<(), AllocError>
    ensures { OnOk result (found.new.items ≡ found.old.items ++ widened widths.now cells.now) }
{
    match widths {
        [] => Ok(()),
        [known, widths @ ..] => match cells {
            [] => Ok(()),
            [cell, cells @ ..] => {
                let wide = width(alloc, cell.as_str())?;
                found.push((*known).max(wide))?;
                add_widened(alloc, found, widths, cells)
            }
        },
    }
}

// The widths of columns, widened for the cells of a row.
fn widen(alloc: Global, widths: &[usize], cells: &[Text]) -> Result<Vec<usize>, AllocError>
    ensures { IfOk result (λ found. found.items ≡ widened widths.now cells.now) }
{
    let mut found = Vec::new(alloc);
    add_widened(alloc, &mut found, widths, cells)?;
    Ok(found)
}

// The width of each column's name, before the last column.
fn widths_of_front(alloc: Global, names: &[Text]) -> Result<Vec<usize>, AllocError>
    ensures { IfOk result (λ found. found.items
        ≡ map width (take (length names.now - 1) names.now)) }
{
    let count = names.len().saturating_sub(1);
    widths_of(alloc, &names[..count])
}

// The width of each column before the last.
fn widths(alloc: Global, table: &[Items<Text>]) -> Result<Vec<usize>, AllocError>
    ensures { IfOk result (λ found. found.items ≡ widths table.now) }
{
    match table {
        [] => Ok(Vec::new(alloc)),
        [names, rows @ ..] => {
            let mut found = widths_of_front(alloc, names.as_slice())?;
            for row in rows {
                found = widen(alloc, found.as_slice(), row.as_slice())?;
            }
            Ok(found)
        }
    }
}

// Adds cells without padding.
fn add_each_shown(text: &mut Vec<u8>, cells: &[Text]) -> Result<(), AllocError>
    ensures { OnOk result (text.new.items ≡ text.old.items ++ flat_map shown cells.now) }
{
    for cell in cells {
        add_shown(text, cell.as_str())?;
    }
    Ok(())
}

// Adds the last cells of a row, and the line's end.
fn add_end(text: &mut Vec<u8>, cells: &[Text]) -> Result<(), AllocError>
    ensures { OnOk result (text.new.items ≡ text.old.items ++ row_line [] cells.now) }
{
    add_each_shown(text, cells)?;
    text.extend_from_slice(b"\n")
}

// Adds a row.
fn add_row(
    alloc: Global,
    text: &mut Vec<u8>,
    widths: &[usize],
    cells: &[Text],
) -> Result<(), AllocError>
    ensures { OnOk result (text.new.items ≡ text.old.items ++ row_line widths.now cells.now) }
{
    match widths {
        [] => add_end(text, cells),
        [wide, widths @ ..] => match cells {
            [] => text.extend_from_slice(b"\n"),
            [cell, cells @ ..] => {
                add_filled(alloc, text, *wide, cell.as_str())?;
                add_row(alloc, text, widths, cells)
            }
        },
    }
}

/// A line for each row. Each column but the last is as wide as its widest text, with two blanks
/// before the next one.
#[tactic(auto, unfolding(crate::specs::Columns::columns_text))]
pub fn columns_text(alloc: Global, rows: &[Items<Text>]) -> Result<Vec<u8>, AllocError>
    ensures { IfOk result (λ text. text.items ≡ columns_text rows.now) }
{
    let widths = widths(alloc, rows)?;
    let mut text = Vec::new(alloc);
    for row in rows {
        add_row(alloc, &mut text, widths.as_slice(), row.as_slice())?;
    }
    Ok(text)
}
