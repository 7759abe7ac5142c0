//! The lists as texts: as comma-separated values, and in columns for a terminal.

ghost use Rattle.std.specs.Prelude.{◌≡◌, ◌∷◌, map, IfOk};
ghost use Rattle.desk_lists.specs.Cells.{cell_text, document_table, duty_table, release_table};
ghost use Rattle.desk_lists.specs.Columns.{columns_text};
ghost use Rattle.desk_lists.specs.CsvTable.{csv_text};

use crate::cells::{Cell, DOCUMENT_NAMES, DUTY_NAMES, Line, RELEASE_NAMES, table_of};
use crate::columns::columns_text;
use crate::lines::{DocumentLine, DutyLine, ReleaseLine};
use crate::table::csv_text;
use std::alloc::{AllocError, Global};

// A table of these names and a row for each line, as comma-separated values.
fn csv_of<L: Line>(alloc: Global, names: &[Cell<'_>], lines: &[L]) -> Result<Vec<u8>, AllocError>
    ensures { IfOk result (λ text. text.items
        ≡ csv_text (map cell_text names.now ∷ map L.cells lines.now)) }
{
    let table = table_of(alloc, names, lines)?;
    csv_text(alloc, table.as_slice())
}

// The same in columns.
fn columns_of<L: Line>(
    alloc: Global,
    names: &[Cell<'_>],
    lines: &[L],
) -> Result<Vec<u8>, AllocError>
    ensures { IfOk result (λ text. text.items
        ≡ columns_text (map cell_text names.now ∷ map L.cells lines.now)) }
{
    let table = table_of(alloc, names, lines)?;
    columns_text(alloc, table.as_slice())
}

/// The list of releases as comma-separated values (RFC 4180): a record of the columns' names,
/// `name`, `form`, `state`, `revision`, `raised`, `open`, `met`, `waived` and `withdrawn`, and one
/// for each line. Each record is ended by LF, and a field is in quotes only if it has a comma, a
/// quote or a line end.
pub fn releases_csv(alloc: Global, lines: &[ReleaseLine]) -> Result<Vec<u8>, AllocError>
    ensures { IfOk result (λ text. text.items ≡ csv_text (release_table lines.now)) }
{
    csv_of(alloc, &RELEASE_NAMES, lines)
}

/// The list of releases as a terminal shows it: the same rows, each ended by LF. A column is as
/// wide as its widest text, with two blanks before the next one. A control byte is shown as a
/// question mark.
pub fn releases_columns(alloc: Global, lines: &[ReleaseLine]) -> Result<Vec<u8>, AllocError>
    ensures { IfOk result (λ text. text.items ≡ columns_text (release_table lines.now)) }
{
    columns_of(alloc, &RELEASE_NAMES, lines)
}

/// The list of documents as comma-separated values: `number`, `name`, `namespace`, `packages`,
/// `shipped`, `findings` and `profile`.
pub fn documents_csv(alloc: Global, lines: &[DocumentLine]) -> Result<Vec<u8>, AllocError>
    ensures { IfOk result (λ text. text.items ≡ csv_text (document_table lines.now)) }
{
    csv_of(alloc, &DOCUMENT_NAMES, lines)
}

/// The list of documents as a terminal shows it.
pub fn documents_columns(alloc: Global, lines: &[DocumentLine]) -> Result<Vec<u8>, AllocError>
    ensures { IfOk result (λ text. text.items ≡ columns_text (document_table lines.now)) }
{
    columns_of(alloc, &DOCUMENT_NAMES, lines)
}

/// The list of duties as comma-separated values: `number`, `release`, `document`, `package`,
/// `name`, `rule`, `code`, `title`, `state`, `raised`, `since` and `until`. `since` is the day of
/// the last change, `until` the last day of a waiver that ends.
pub fn duties_csv(alloc: Global, lines: &[DutyLine]) -> Result<Vec<u8>, AllocError>
    ensures { IfOk result (λ text. text.items ≡ csv_text (duty_table lines.now)) }
{
    csv_of(alloc, &DUTY_NAMES, lines)
}

/// The list of duties as a terminal shows it.
pub fn duties_columns(alloc: Global, lines: &[DutyLine]) -> Result<Vec<u8>, AllocError>
    ensures { IfOk result (λ text. text.items ≡ columns_text (duty_table lines.now)) }
{
    columns_of(alloc, &DUTY_NAMES, lines)
}
