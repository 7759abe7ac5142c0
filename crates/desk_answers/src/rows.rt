//! The names of columns, and the rows of tables.

ghost use Rattle.std.specs.Prelude.{◌≡◌, ℕ, List, [], unwrap_or, IfOk};
ghost use Rattle.desk_answers.specs.Refusals.{wanting_cells};
ghost use Rattle.desk_answers.specs.Rows.{change_cells, counted_cells, finding_cells, gap_cells, held_cells, open_cells, package_cells};

use crate::refusals::WantingLine;
use crate::sets::joined;
use desk_base::{Day, Items, Text};
use desk_lists::{Cell, row_of};
use desk_model::{ChangeRow, DocumentLine, Finding, Gap, OpenDuty, PackageLine, ReleaseLine};
use std::alloc::{AllocError, Global};

/// The names for a revision.
pub(crate) const REVISION_NAMES: [Cell<'static>; 1] = [Cell::Text("revision")];

/// The names for a document that was imported.
pub(crate) const DOCUMENT_NAMES: [Cell<'static>; 2] = [Cell::Text("document"), Cell::Text("new")];

/// The names for a freeze.
pub(crate) const FROZEN_NAMES: [Cell<'static>; 2] = [Cell::Text("first"), Cell::Text("count")];

/// The name for waivers that ended.
pub(crate) const CLOSED_NAMES: [Cell<'static>; 1] = [Cell::Text("closed")];

/// The names for the counts of duties.
pub(crate) const TOTALS_NAMES: [Cell<'static>; 5] = [
    Cell::Text("raised"),
    Cell::Text("open"),
    Cell::Text("met"),
    Cell::Text("waived"),
    Cell::Text("withdrawn"),
];

/// The names for changes.
pub(crate) const CHANGE_NAMES: [Cell<'static>; 5] = [
    Cell::Text("step"),
    Cell::Text("day"),
    Cell::Text("word"),
    Cell::Text("until"),
    Cell::Text("text"),
];

/// The names for findings.
pub(crate) const FINDING_NAMES: [Cell<'static>; 3] = [
    Cell::Text("line"),
    Cell::Text("kind"),
    Cell::Text("name"),
];

/// The names for a release.
pub(crate) const RELEASE_NAMES: [Cell<'static>; 4] = [
    Cell::Text("name"),
    Cell::Text("form"),
    Cell::Text("state"),
    Cell::Text("revision"),
];

/// The names for packages.
pub(crate) const PACKAGE_NAMES: [Cell<'static>; 5] = [
    Cell::Text("document"),
    Cell::Text("package"),
    Cell::Text("name"),
    Cell::Text("conclusion"),
    Cell::Text("terms"),
];

/// The names for a cheapest set.
pub(crate) const CHEAPEST_NAMES: [Cell<'static>; 2] = [Cell::Text("duties"), Cell::Text("terms")];

/// The names for releases whose duties are counted.
pub(crate) const COUNTED_NAMES: [Cell<'static>; 9] = [
    Cell::Text("name"),
    Cell::Text("form"),
    Cell::Text("state"),
    Cell::Text("revision"),
    Cell::Text("raised"),
    Cell::Text("open"),
    Cell::Text("met"),
    Cell::Text("waived"),
    Cell::Text("withdrawn"),
];

/// The names for the documents of a desk.
pub(crate) const HELD_NAMES: [Cell<'static>; 4] = [
    Cell::Text("number"),
    Cell::Text("namespace"),
    Cell::Text("profile"),
    Cell::Text("shipped"),
];

/// The names for open duties.
pub(crate) const OPEN_NAMES: [Cell<'static>; 8] = [
    Cell::Text("number"),
    Cell::Text("release"),
    Cell::Text("document"),
    Cell::Text("package"),
    Cell::Text("term"),
    Cell::Text("rule"),
    Cell::Text("code"),
    Cell::Text("since"),
];

/// The names for what keeps a release from being frozen.
pub(crate) const WANTING_NAMES: [Cell<'static>; 3] = [
    Cell::Text("number"),
    Cell::Text("name"),
    Cell::Text("words"),
];

/// The names for what is missing for notices.
pub(crate) const GAP_NAMES: [Cell<'static>; 3] = [
    Cell::Text("missing"),
    Cell::Text("document"),
    Cell::Text("subject"),
];

// A day, or an empty cell.
fn day_cell(day: &Option<Day>) -> &str
    ensures { result.now ≡ unwrap_or day.now [] }
{
    match day {
        Some(day) => day.as_str(),
        None => "",
    }
}

// A text, or an empty cell.
fn text_cell(text: &Option<Text>) -> &str
    ensures { result.now ≡ unwrap_or text.now [] }
{
    match text {
        Some(text) => text.as_str(),
        None => "",
    }
}

/// What has a row in a table.
pub(crate) trait Row {
    ghost cells: { Self → List (List ℕ) };

    /// The row.
    fn row(&self, alloc: Global) -> Result<Items<Text>, AllocError>
        ensures { IfOk result (λ row. row ≡ cells self.now) };
}

impl Row for ChangeRow {
    ghost cells = { change_cells };

    fn row(&self, alloc: Global) -> Result<Items<Text>, AllocError> {
        let cells = [
            Cell::Count(u64::from(self.step)),
            Cell::Text(self.day.as_str()),
            Cell::Text(self.word.name()),
            Cell::Text(day_cell(&self.last_day)),
            Cell::Text(self.body.as_str()),
        ];
        row_of(alloc, &cells)
    }
}

impl Row for Finding {
    ghost cells = { finding_cells };

    fn row(&self, alloc: Global) -> Result<Items<Text>, AllocError> {
        let cells = [
            Cell::Count(u64::from(self.line)),
            Cell::Count(u64::from(self.kind.number())),
            Cell::Text(self.kind.name()),
        ];
        row_of(alloc, &cells)
    }
}

impl Row for PackageLine {
    ghost cells = { package_cells };

    fn row(&self, alloc: Global) -> Result<Items<Text>, AllocError> {
        let terms = joined(alloc, self.terms.as_slice())?;
        let cells = [
            Cell::Count(u64::from(self.document)),
            Cell::Text(self.package_id.as_str()),
            Cell::Text(self.name.as_str()),
            Cell::Text(text_cell(&self.conclusion)),
            Cell::Text(terms.as_str()),
        ];
        row_of(alloc, &cells)
    }
}

impl Row for ReleaseLine {
    ghost cells = { counted_cells };

    fn row(&self, alloc: Global) -> Result<Items<Text>, AllocError> {
        let cells = [
            Cell::Text(self.release.name.as_str()),
            Cell::Text(self.release.form.as_str()),
            Cell::Text(self.release.state.name()),
            Cell::Count(self.release.revision),
            Cell::Count(self.totals.raised),
            Cell::Count(self.totals.still_open),
            Cell::Count(self.totals.met),
            Cell::Count(self.totals.waived),
            Cell::Count(self.totals.withdrawn),
        ];
        row_of(alloc, &cells)
    }
}

impl Row for DocumentLine {
    ghost cells = { held_cells };

    fn row(&self, alloc: Global) -> Result<Items<Text>, AllocError> {
        let cells = [
            Cell::Count(u64::from(self.head.number)),
            Cell::Text(self.head.namespace.as_str()),
            Cell::Count(self.head.profile.number()),
            Cell::Count(self.shipped),
        ];
        row_of(alloc, &cells)
    }
}

impl Row for OpenDuty {
    ghost cells = { open_cells };

    fn row(&self, alloc: Global) -> Result<Items<Text>, AllocError> {
        let cells = [
            Cell::Count(u64::from(self.duty.number)),
            Cell::Text(self.duty.release.as_str()),
            Cell::Count(u64::from(self.duty.document)),
            Cell::Text(self.duty.package_id.as_str()),
            Cell::Text(self.duty.term.as_str()),
            Cell::Text(self.duty.rule.as_str()),
            Cell::Text(self.duty.code.as_str()),
            Cell::Text(day_cell(&self.day)),
        ];
        row_of(alloc, &cells)
    }
}

impl Row for Gap {
    ghost cells = { gap_cells };

    fn row(&self, alloc: Global) -> Result<Items<Text>, AllocError> {
        let cells = [
            Cell::Text(self.kind.name()),
            Cell::Count(u64::from(self.document)),
            Cell::Text(self.subject.as_str()),
        ];
        row_of(alloc, &cells)
    }
}

impl Row for WantingLine<'_> {
    ghost cells = { wanting_cells };

    fn row(&self, alloc: Global) -> Result<Items<Text>, AllocError> {
        let cells = [
            Cell::Count(u64::from(self.refusal.number())),
            Cell::Text(self.refusal.name()),
            Cell::Text(self.words.as_str()),
        ];
        row_of(alloc, &cells)
    }
}
