//! Tables as comma-separated values.

ghost use Rattle.std.specs.Prelude.{◌≡◌, map, true, IfOk, OnOk};
ghost use Rattle.std.specs.Io.KnownBytes.{Appends};
ghost use Rattle.csv.specs.Writing.{text_written};
ghost use Rattle.desk_lists.specs.CsvTable.{as_text, csv_text, is_formula, row_text};
ghost use Rattle.desk_report.specs.CsvTable.{is_between_rows, record_text};

use csv::{Writer, WriterBuilder};
use desk_base::{Items, Text};
use desk_report::add_record;
use std::alloc::{AllocError, Global};
use std::io::Write;

// The bytes of each cell.
fn fields_of(alloc: Global, cells: &[Text]) -> Result<Vec<&[u8]>, AllocError>
    ensures { IfOk result (λ fields. map (λ field. field.now) fields.items ≡ cells.now) }
{
    let mut fields = Vec::new(alloc);
    for cell in cells {
        fields.push(cell.as_str().as_bytes())?;
    }
    Ok(fields)
}

// Whether a spreadsheet would take a cell for a formula.
fn is_formula(cell: &str) -> bool
    ensures { result ≡ is_formula cell.now }
{
    match cell.as_bytes() {
        [] => false,
        [first, ..] => matches!(first, b'=' | b'+' | b'-' | b'@' | b'\t' | b'\r'),
    }
}

// A cell as a spreadsheet takes it for a text.
fn as_text(alloc: Global, cell: &Text) -> Result<Text, AllocError>
    ensures { IfOk result (λ text. text ≡ as_text cell.now) }
{
    let text = cell.as_str();
    if is_formula(text) {
        Text::of(alloc, &format!(in alloc; "'{text}")?)
    } else {
        cell.clone()
    }
}

// The cells of a row, each as a spreadsheet takes it for a text.
fn as_texts(alloc: Global, cells: &[Text]) -> Result<Vec<Text>, AllocError>
    ensures { IfOk result (λ texts. texts.items ≡ map as_text cells.now) }
{
    let mut texts = Vec::new(alloc);
    for cell in cells {
        texts.push(as_text(alloc, cell)?)?;
    }
    Ok(texts)
}

// Whether no cell of a row has to be changed.
fn are_texts(cells: &[Text]) -> bool
    ensures { result ≡ true → map as_text cells.now ≡ cells.now }
{
    for cell in cells {
        if is_formula(cell.as_str()) {
            return false;
        }
    }
    true
}

// The record of these cells.
fn add_cells<W: Write + Drop>(
    alloc: Global,
    writer: &mut Writer<W>,
    cells: &[Text],
) -> Result<(), AllocError>
    requires { is_between_rows writer.old }
    ensures bytes { OnOk result
        (Appends (text_written W.contents writer.old) (text_written W.contents writer.new)
        (record_text cells.now)) }
    ensures ready { OnOk result (is_between_rows writer.new) }
{
    let fields = fields_of(alloc, cells)?;
    add_record(writer, fields.as_slice())
}

// The record of a row.
fn add_row<W: Write + Drop>(
    alloc: Global,
    writer: &mut Writer<W>,
    cells: &[Text],
) -> Result<(), AllocError>
    requires { is_between_rows writer.old }
    ensures bytes { OnOk result
        (Appends (text_written W.contents writer.old) (text_written W.contents writer.new)
        (row_text cells.now)) }
    ensures ready { OnOk result (is_between_rows writer.new) }
{
    if are_texts(cells) {
        return add_cells(alloc, writer, cells);
    }
    let texts = as_texts(alloc, cells)?;
    add_cells(alloc, writer, texts.as_slice())
}

/// A record for each row.
pub fn csv_text(alloc: Global, rows: &[Items<Text>]) -> Result<Vec<u8>, AllocError>
    ensures { IfOk result (λ text. text.items ≡ csv_text rows.now) }
{
    let mut writer = WriterBuilder::new().from_writer(Vec::new(alloc));
    for row in rows {
        add_row(alloc, &mut writer, row.as_slice())?;
    }
    match writer.into_inner() {
        Ok(text) => Ok(text),
        Err(_) => Err(AllocError),
    }
}
