//! The rows of what a release ships.

ghost use Rattle.std.specs.Prelude.{◌≡◌, ◌++◌, unwrap_or, OnOk};
ghost use Rattle.std.specs.List.{flat_map};
ghost use Rattle.std.specs.String.{string_bytes};
ghost use Rattle.desk_page.specs.Rows.{package_row};

use crate::cell::{Cell, add_row};
use desk_base::Text;
use desk_model::BillLine;
use std::alloc::{AllocError, Global};

// The text, or another one if there is none.
fn text_or<'a>(text: &'a Option<Text>, other: &'a str) -> &'a str
    ensures { result.now ≡ unwrap_or text.now other.now }
{
    match text {
        Some(text) => text.as_str(),
        None => other,
    }
}

#[tactic(auto, unfolding(crate::specs::Rows::package_row))]
fn add_package(alloc: Global, text: &mut String, line: &BillLine) -> Result<(), AllocError>
    ensures { OnOk result (string_bytes text.new ≡ string_bytes text.old ++ package_row line.now) }
{
    let cells = [
        Cell::Name(line.name.as_str()),
        Cell::Text(text_or(&line.version, "")),
        Cell::Rules(line.rules.as_slice()),
        Cell::Last(text_or(&line.copyright, "none given")),
    ];
    add_row(alloc, text, &cells)
}

/// Adds a row for each package.
pub(crate) fn add_packages(
    alloc: Global,
    text: &mut String,
    lines: &[BillLine],
) -> Result<(), AllocError>
    ensures { OnOk result (string_bytes text.new
        ≡ string_bytes text.old ++ flat_map package_row lines.now) }
{
    for line in lines {
        add_package(alloc, text, line)?;
    }
    Ok(())
}
