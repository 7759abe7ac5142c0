//! The cells of the lists, row by row.

ghost use Rattle.std.specs.Prelude.{◌≡◌, ◌∷◌, List, ℕ, map, IfOk, unwrap_or, []};
ghost use Rattle.std.specs.Fmt.{signed_decimal};
ghost use Rattle.std.specs.Option.{option_map_or};
ghost use Rattle.desk_lists.specs.Cells.{cell_text, count_text, document_cells, duty_cells, number_text, release_cells};

use crate::lines::{DocumentLine, DutyLine, ReleaseLine};
use desk_base::{Items, Text};
use std::alloc::{AllocError, Global};

/// What a cell shows.
#[derive(Clone, Copy)]
pub enum Cell<'a> {
    /// This text.
    Text(&'a str),
    /// A number of a table, which may be negative.
    Number(i64),
    /// How many there are.
    Count(u64),
}

/// The names of the columns of releases.
pub(crate) const RELEASE_NAMES: [Cell<'static>; 9] = [
    Cell::Text("name"),
    Cell::Text("form"),
    Cell::Text("state"),
    Cell::Text("revision"),
    Cell::Text("raised"),
    Cell::Text("open"),
    Cell::Text("met"),
    Cell::Text("waived"),
    Cell::Text("withdrawn"),
];

/// The names of the columns of documents.
pub(crate) const DOCUMENT_NAMES: [Cell<'static>; 7] = [
    Cell::Text("number"),
    Cell::Text("name"),
    Cell::Text("namespace"),
    Cell::Text("packages"),
    Cell::Text("shipped"),
    Cell::Text("findings"),
    Cell::Text("profile"),
];

/// The names of the columns of duties.
pub(crate) const DUTY_NAMES: [Cell<'static>; 12] = [
    Cell::Text("number"),
    Cell::Text("release"),
    Cell::Text("document"),
    Cell::Text("package"),
    Cell::Text("name"),
    Cell::Text("rule"),
    Cell::Text("code"),
    Cell::Text("title"),
    Cell::Text("state"),
    Cell::Text("raised"),
    Cell::Text("since"),
    Cell::Text("until"),
];

// The text of a cell.
fn cell_text(alloc: Global, cell: Cell<'_>) -> Result<Text, AllocError>
    ensures { IfOk result (λ text. text ≡ cell_text cell.entry) }
{
    match cell {
        Cell::Text(text) => Text::of(alloc, text),
        Cell::Number(number) => Text::of(alloc, &format!(in alloc; "{number}")?),
        Cell::Count(count) => Text::of(alloc, &format!(in alloc; "{count}")?),
    }
}

/// The row of these cells.
pub fn row_of(alloc: Global, cells: &[Cell<'_>]) -> Result<Items<Text>, AllocError>
    ensures { IfOk result (λ row. row ≡ map cell_text cells.now) }
{
    let mut row = Vec::new(alloc);
    for cell in cells {
        row.push(cell_text(alloc, *cell)?)?;
    }
    Ok(Items::from_vec(row))
}

// A whole number, or an empty cell if there is none.
fn number_cell(number: Option<i64>) -> Cell<'static>
    ensures { cell_text result ≡ number_text number }
{
    match number {
        Some(number) => Cell::Number(number),
        None => Cell::Text(""),
    }
}

// A count, or an empty cell if there is none.
fn count_cell(count: Option<u64>) -> Cell<'static>
    ensures { cell_text result ≡ count_text count }
{
    match count {
        Some(count) => Cell::Count(count),
        None => Cell::Text(""),
    }
}

// The last day of a waiver that ends, or an empty text.
fn last_day_cell(last_day: &Option<Text>) -> &str
    ensures { result.now ≡ unwrap_or last_day.now [] }
{
    match last_day {
        Some(day) => day.as_str(),
        None => "",
    }
}

/// What has a row in a table.
pub(crate) trait Line {
    ghost cells: { Self → List (List ℕ) };

    /// The row.
    fn row(&self, alloc: Global) -> Result<Items<Text>, AllocError>
        ensures { IfOk result (λ row. row ≡ cells self.now) };
}

impl Line for ReleaseLine {
    ghost cells = { release_cells };

    fn row(&self, alloc: Global) -> Result<Items<Text>, AllocError> {
        let cells = [
            Cell::Text(self.name.as_str()),
            Cell::Text(self.form.as_str()),
            Cell::Text(self.state.as_str()),
            Cell::Number(self.revision),
            Cell::Count(self.duties.raised),
            Cell::Count(self.duties.still_open),
            Cell::Count(self.duties.met),
            Cell::Count(self.duties.waived),
            Cell::Count(self.duties.withdrawn),
        ];
        row_of(alloc, &cells)
    }
}

impl Line for DocumentLine {
    ghost cells = { document_cells };

    fn row(&self, alloc: Global) -> Result<Items<Text>, AllocError> {
        let cells = [
            Cell::Number(self.number),
            Cell::Text(self.name.as_str()),
            Cell::Text(self.namespace.as_str()),
            Cell::Count(self.packages),
            Cell::Count(self.shipped),
            count_cell(self.findings),
            number_cell(self.profile),
        ];
        row_of(alloc, &cells)
    }
}

impl Line for DutyLine {
    ghost cells = { duty_cells };

    #[tactic(auto, unfolding(crate::specs::Cells::duty_cells))]
    fn row(&self, alloc: Global) -> Result<Items<Text>, AllocError> {
        let cells = [
            Cell::Number(self.number),
            Cell::Text(self.release.as_str()),
            Cell::Number(self.document),
            Cell::Text(self.package_id.as_str()),
            Cell::Text(self.package_name.as_str()),
            Cell::Text(self.rule.as_str()),
            Cell::Text(self.code.as_str()),
            Cell::Text(self.title.as_str()),
            Cell::Text(self.state.as_str()),
            Cell::Text(self.raised.as_str()),
            Cell::Text(self.changed.as_str()),
            Cell::Text(last_day_cell(&self.last_day)),
        ];
        row_of(alloc, &cells)
    }
}

/// A table of these names and a row for each line.
pub(crate) fn table_of<L: Line>(
    alloc: Global,
    names: &[Cell<'_>],
    lines: &[L],
) -> Result<Vec<Items<Text>>, AllocError>
    ensures { IfOk result (λ table. table.items
        ≡ map cell_text names.now ∷ map L.cells lines.now) }
{
    let mut rows = Vec::new(alloc);
    rows.push(row_of(alloc, names)?)?;
    for line in lines {
        rows.push(line.row(alloc)?)?;
    }
    Ok(rows)
}
