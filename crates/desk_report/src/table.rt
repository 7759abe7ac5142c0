//! The table of a release's duties.

ghost use Rattle.std.specs.Prelude.{◌≡◌, ◌∷◌, [], IfOk, OnOk};
ghost use Rattle.std.specs.Io.KnownBytes.{Appends};
ghost use Rattle.std.specs.Prelude.{unwrap_or, map};
ghost use Rattle.csv.specs.Writing.{text_written};
ghost use Rattle.desk_report.specs.CsvTable.{cells_behind, column_names, duty_record, is_between_rows, record_text, table_text};

use csv::{Writer, WriterBuilder};
use desk_base::Day;
use desk_model::DutyLine;
use std::alloc::{AllocError, Global};
use std::io::Write;

/// Adds a record of these fields.
pub fn add_record<W: Write + Drop>(
    writer: &mut Writer<W>,
    fields: &[&[u8]],
) -> Result<(), AllocError>
    requires { is_between_rows writer.old }
    ensures bytes { OnOk result
        (Appends (text_written W.contents writer.old) (text_written W.contents writer.new)
        (record_text (map (λ field. field.now) fields.now))) }
    ensures ready { OnOk result (is_between_rows writer.new) }
{
    match writer.write_fields(fields) {
        Ok(()) => Ok(()),
        // All records have the same length, so only memory can run out.
        Err(_) => Err(AllocError),
    }
}

// The day as it is written, or an empty field if there is none.
pub(crate) fn day_cell(day: &Option<Day>) -> &[u8]
    ensures { result.now ≡ unwrap_or day.now [] }
{
    match day {
        Some(day) => day.as_bytes(),
        None => b"",
    }
}

// The fields of a duty; its numbers are written already.
fn cells<'a>(number: &'a [u8], document: &'a [u8], line: &'a DutyLine) -> [&'a [u8]; 8]
    ensures { map (λ field. field.now) result ≡ number.now ∷ document.now ∷ cells_behind line.now }
{
    let state: &'a str = line.state.name();
    let day: &'a [u8] = day_cell(&line.day);
    [
        number,
        document,
        line.package_id.as_str().as_bytes(),
        line.term.as_str().as_bytes(),
        line.rule.as_str().as_bytes(),
        line.code.as_str().as_bytes(),
        state.as_bytes(),
        day,
    ]
}

// Adds the record of a duty.
fn add_duty<W: Write + Drop>(
    alloc: Global,
    writer: &mut Writer<W>,
    line: &DutyLine,
) -> Result<(), AllocError>
    requires { is_between_rows writer.old }
    ensures bytes { OnOk result
        (Appends (text_written W.contents writer.old) (text_written W.contents writer.new)
        (duty_record line.now)) }
    ensures ready { OnOk result (is_between_rows writer.new) }
{
    let number = line.number;
    let number = format!(in alloc; "{number}")?;
    let document = line.document;
    let document = format!(in alloc; "{document}")?;
    let fields = cells(number.as_bytes(), document.as_bytes(), line);
    add_record(writer, &fields)
}

// Adds the record of the columns' names.
fn add_names<W: Write + Drop>(writer: &mut Writer<W>) -> Result<(), AllocError>
    requires { is_between_rows writer.old }
    ensures bytes { OnOk result
        (Appends (text_written W.contents writer.old) (text_written W.contents writer.new)
        (record_text column_names)) }
    ensures ready { OnOk result (is_between_rows writer.new) }
{
    let names: [&[u8]; 8] = [
        b"number",
        b"document",
        b"package",
        b"term",
        b"rule",
        b"code",
        b"state",
        b"since",
    ];
    add_record(writer, &names)
}

/// The table of duties as comma-separated values (RFC 4180): a record of the columns' names,
/// `number`, `document`, `package`, `term`, `rule`, `code`, `state` and `since`, and one for each
/// duty; `since` is the day of its last change. Each record is ended by LF, and a field is in
/// quotes only if it has a comma, a quote or a line end.
pub fn duties_csv(alloc: Global, lines: &[DutyLine]) -> Result<Vec<u8>, AllocError>
    ensures { IfOk result (λ text. text.items ≡ table_text lines.now) }
{
    let mut writer = WriterBuilder::new().from_writer(Vec::new(alloc));
    add_names(&mut writer)?;
    for line in lines {
        add_duty(alloc, &mut writer, line)?;
    }
    match writer.into_inner() {
        Ok(text) => Ok(text),
        Err(_) => Err(AllocError),
    }
}
