//! The rows of duties, of the waivers that end, and of changes.

ghost use Rattle.std.specs.Prelude.{◌≡◌, ◌++◌, OnOk};
ghost use Rattle.std.specs.List.{flat_map};
ghost use Rattle.std.specs.String.{string_bytes};
ghost use Rattle.desk_page.specs.Rows.{change_row, day_text, duty_row, ending_row, waiver_row, last_waiver, waiver_rows};

use crate::cell::{Cell, add_row};
use desk_base::{Day, Items};
use desk_model::{ChangeRow, DutyLine};
use std::alloc::{AllocError, Global};

// The day as it is written, or an empty text if there is none.
fn day_text(day: &Option<Day>) -> &str
    ensures { result.now ≡ day_text day.now }
{
    match day {
        Some(day) => day.as_str(),
        None => "",
    }
}

#[tactic(auto, unfolding(crate::specs::Rows::duty_row))]
fn add_duty(alloc: Global, text: &mut String, duty: &DutyLine) -> Result<(), AllocError>
    ensures { OnOk result (string_bytes text.new ≡ string_bytes text.old ++ duty_row duty.now) }
{
    let cells = [
        Cell::Anchor(duty.number),
        Cell::Count(u64::from(duty.document)),
        Cell::Text(duty.package_id.as_str()),
        Cell::Text(duty.rule.as_str()),
        Cell::Text(duty.code.as_str()),
        Cell::Text(duty.state.name()),
        Cell::Last(day_text(&duty.day)),
    ];
    add_row(alloc, text, &cells)
}

/// Adds a row for each duty.
pub(crate) fn add_duties(
    alloc: Global,
    text: &mut String,
    duties: &[DutyLine],
) -> Result<(), AllocError>
    ensures { OnOk result (string_bytes text.new
        ≡ string_bytes text.old ++ flat_map duty_row duties.now) }
{
    for duty in duties {
        add_duty(alloc, text, duty)?;
    }
    Ok(())
}

#[tactic(auto, unfolding(crate::specs::Rows::ending_row))]
fn add_ending<'a>(
    alloc: Global,
    text: &mut String,
    duty: &'a DutyLine,
    day: &'a Day,
    reason: &'a str,
) -> Result<(), AllocError>
    ensures { OnOk result (string_bytes text.new
        ≡ string_bytes text.old ++ ending_row duty.now day.now reason.now) }
{
    let cells = [
        Cell::Link(duty.number),
        Cell::Text(duty.rule.as_str()),
        Cell::Text(duty.code.as_str()),
        Cell::Text(day.as_str()),
        Cell::Last(reason),
    ];
    add_row(alloc, text, &cells)
}

fn add_waiver(
    alloc: Global,
    text: &mut String,
    duty: &DutyLine,
    change: &ChangeRow,
) -> Result<(), AllocError>
    ensures { OnOk result (string_bytes text.new
        ≡ string_bytes text.old ++ waiver_row duty.now change.now) }
{
    match &change.last_day {
        Some(day) => add_ending(alloc, text, duty, day, change.body.as_str()),
        None => Ok(()),
    }
}

// Adds a row for a duty if its last change is a waiver that ends.
#[tactic(auto, unfolding(crate::specs::Rows::last_waiver))]
fn add_last_waiver(
    alloc: Global,
    text: &mut String,
    duty: &DutyLine,
    changes: &[ChangeRow],
) -> Result<(), AllocError>
    ensures { OnOk result (string_bytes text.new
        ≡ string_bytes text.old ++ last_waiver duty.now changes.now) }
{
    match changes.last() {
        Some(change) => add_waiver(alloc, text, duty, change),
        None => Ok(()),
    }
}

/// Adds a row for each duty whose last change is a waiver that ends. The changes of each duty are
/// at the duty's own index.
pub(crate) fn add_waivers(
    alloc: Global,
    text: &mut String,
    duties: &[DutyLine],
    changes: &[Items<ChangeRow>],
) -> Result<(), AllocError>
    ensures { OnOk result (string_bytes text.new
        ≡ string_bytes text.old ++ waiver_rows duties.now changes.now) }
{
    let mut rest = duties;
    for steps in changes {
        match rest {
            [] => return Ok(()),
            [duty, more @ ..] => {
                add_last_waiver(alloc, text, duty, steps.as_slice())?;
                rest = more;
            }
        }
    }
    Ok(())
}

#[tactic(auto, unfolding(crate::specs::Rows::change_row))]
fn add_change(alloc: Global, text: &mut String, change: &ChangeRow) -> Result<(), AllocError>
    ensures { OnOk result (string_bytes text.new ≡ string_bytes text.old ++ change_row change.now) }
{
    let cells = [
        Cell::Link(change.duty),
        Cell::Text(change.day.as_str()),
        Cell::Text(change.word.name()),
        Cell::Text(day_text(&change.last_day)),
        Cell::Last(change.body.as_str()),
    ];
    add_row(alloc, text, &cells)
}

fn add_duty_changes(
    alloc: Global,
    text: &mut String,
    changes: &[ChangeRow],
) -> Result<(), AllocError>
    ensures { OnOk result (string_bytes text.new
        ≡ string_bytes text.old ++ flat_map change_row changes.now) }
{
    for change in changes {
        add_change(alloc, text, change)?;
    }
    Ok(())
}

/// Adds a row for each change of each duty.
pub(crate) fn add_changes(
    alloc: Global,
    text: &mut String,
    changes: &[Items<ChangeRow>],
) -> Result<(), AllocError>
    ensures { OnOk result (string_bytes text.new
        ≡ string_bytes text.old ++ flat_map (flat_map change_row) changes.now) }
{
    for steps in changes {
        add_duty_changes(alloc, text, steps.as_slice())?;
    }
    Ok(())
}
