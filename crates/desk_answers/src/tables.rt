//! The tables of answers.

ghost use Rattle.std.specs.Prelude.{◌≡◌, ◌∷◌, [], codes, decimal, map, IfOk};
ghost use Rattle.desk_lists.specs.Cells.{cell_text, totals_cells};
ghost use Rattle.desk_lists.specs.Columns.{columns_text};
ghost use Rattle.desk_lists.specs.CsvTable.{csv_text};
ghost use Rattle.desk_answers.specs.Answers.{cheapest_shown, release_shown, row_shown};
ghost use Rattle.desk_answers.specs.Rows.{cheapest_cells, cheapest_names, document_names, frozen_names, release_cells, release_names, totals_names};

use crate::rows::{
    CHEAPEST_NAMES, DOCUMENT_NAMES, FROZEN_NAMES, PACKAGE_NAMES, RELEASE_NAMES, Row, TOTALS_NAMES,
};
use crate::sets::joined;
use desk_base::{Items, Text};
use desk_lists::{Cell, columns_text, csv_text, row_of};
use desk_model::{Cheapest, PackageLine, ReleaseRow, Totals};
use std::alloc::{AllocError, Global};

// The names, and the row of each of these.
fn table_of<R: Row>(
    alloc: Global,
    names: &[Cell<'_>],
    rows: &[R],
) -> Result<Vec<Items<Text>>, AllocError>
    ensures { IfOk result (λ table. table.items
        ≡ map cell_text names.now ∷ map R.cells rows.now) }
{
    let mut table = Vec::new(alloc);
    table.push(row_of(alloc, names)?)?;
    for row in rows {
        table.push(row.row(alloc)?)?;
    }
    Ok(table)
}

/// The names, and the row of each of these, in columns.
pub(crate) fn columns_of<R: Row>(
    alloc: Global,
    names: &[Cell<'_>],
    rows: &[R],
) -> Result<Vec<u8>, AllocError>
    ensures { IfOk result (λ text. text.items
        ≡ columns_text (map cell_text names.now ∷ map R.cells rows.now)) }
{
    let table = table_of(alloc, names, rows)?;
    columns_text(alloc, table.as_slice())
}

/// The same as comma-separated values.
pub(crate) fn csv_of<R: Row>(
    alloc: Global,
    names: &[Cell<'_>],
    rows: &[R],
) -> Result<Vec<u8>, AllocError>
    ensures { IfOk result (λ text. text.items
        ≡ csv_text (map cell_text names.now ∷ map R.cells rows.now)) }
{
    let records = table_of(alloc, names, rows)?;
    csv_text(alloc, records.as_slice())
}

/// The table of one row.
pub(crate) fn row_text(
    alloc: Global,
    names: &[Cell<'_>],
    cells: &[Cell<'_>],
) -> Result<Vec<u8>, AllocError>
    ensures { IfOk result (λ text. text.items
        ≡ columns_text (map cell_text names.now ∷ map cell_text cells.now ∷ [])) }
{
    let mut rows = Vec::new(alloc);
    rows.push(row_of(alloc, names)?)?;
    rows.push(row_of(alloc, cells)?)?;
    columns_text(alloc, rows.as_slice())
}

/// A document, and whether it is new.
pub(crate) fn document_text(alloc: Global, number: u32, is_new: &str) -> Result<Vec<u8>, AllocError>
    ensures { IfOk result (λ text. text.items
        ≡ row_shown document_names (decimal number ∷ is_new.now ∷ [])) }
{
    let cells = [Cell::Count(u64::from(number)), Cell::Text(is_new)];
    row_text(alloc, &DOCUMENT_NAMES, &cells)
}

/// The duties that a freeze raised.
pub(crate) fn frozen_text(alloc: Global, first: u32, count: u32) -> Result<Vec<u8>, AllocError>
    ensures { IfOk result (λ text. text.items
        ≡ row_shown frozen_names (decimal first ∷ decimal count ∷ [])) }
{
    let cells = [Cell::Count(u64::from(first)), Cell::Count(u64::from(count))];
    row_text(alloc, &FROZEN_NAMES, &cells)
}

/// The counts of duties.
pub(crate) fn totals_text(alloc: Global, totals: &Totals) -> Result<Vec<u8>, AllocError>
    ensures { IfOk result (λ text. text.items
        ≡ row_shown totals_names (totals_cells totals.now)) }
{
    let cells = [
        Cell::Count(totals.raised),
        Cell::Count(totals.still_open),
        Cell::Count(totals.met),
        Cell::Count(totals.waived),
        Cell::Count(totals.withdrawn),
    ];
    row_text(alloc, &TOTALS_NAMES, &cells)
}

// The table of a release.
fn release_row(alloc: Global, release: &ReleaseRow) -> Result<Vec<u8>, AllocError>
    ensures { IfOk result (λ text. text.items
        ≡ row_shown release_names (release_cells release.now)) }
{
    let cells = [
        Cell::Text(release.name.as_str()),
        Cell::Text(release.form.as_str()),
        Cell::Text(release.state.name()),
        Cell::Count(release.revision),
    ];
    row_text(alloc, &RELEASE_NAMES, &cells)
}

/// A release and, after an empty line, its packages.
pub(crate) fn release_text(
    alloc: Global,
    release: &ReleaseRow,
    packages: &[PackageLine],
) -> Result<Vec<u8>, AllocError>
    ensures { IfOk result (λ text. text.items ≡ release_shown release.now packages.now) }
{
    let mut text = release_row(alloc, release)?;
    text.extend_from_slice(b"\n")?;
    let table = columns_of(alloc, &PACKAGE_NAMES, packages)?;
    text.extend_from_slice(table.as_slice())?;
    Ok(text)
}

// The table of a cheapest set.
fn set_row(alloc: Global, found: &Cheapest) -> Result<Vec<u8>, AllocError>
    ensures { IfOk result (λ text. text.items
        ≡ row_shown cheapest_names (cheapest_cells found.now)) }
{
    let terms = joined(alloc, found.terms.as_slice())?;
    let cells = [Cell::Count(found.cost), Cell::Text(terms.as_str())];
    row_text(alloc, &CHEAPEST_NAMES, &cells)
}

/// The cheapest set, or that there is none.
pub(crate) fn cheapest_text(alloc: Global, found: &Option<Cheapest>) -> Result<Vec<u8>, AllocError>
    ensures { IfOk result (λ text. text.items ≡ cheapest_shown found.now) }
{
    match found {
        Some(found) => set_row(alloc, found),
        None => words_text(
            alloc,
            b"none: no set of terms that the catalogue has rules for is enough\n",
        ),
    }
}

/// Words that stand for a table.
pub(crate) fn words_text(alloc: Global, words: &[u8]) -> Result<Vec<u8>, AllocError>
    ensures { IfOk result (λ text. text.items ≡ words.now) }
{
    let mut text = Vec::new(alloc);
    text.extend_from_slice(words)?;
    Ok(text)
}
