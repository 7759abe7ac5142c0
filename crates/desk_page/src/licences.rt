//! The rows that count duties: those of a release, and those of each licence.

ghost use Rattle.std.specs.Prelude.{◌≡◌, ◌++◌, count_by, map, IfOk, OnOk};
ghost use Rattle.std.specs.List.{flat_map, list_any};
ghost use Rattle.std.specs.Str.{bytes_eq};
ghost use Rattle.std.specs.String.{string_bytes};
ghost use Rattle.desk_page.specs.Rows.{first_uses, is_in, is_of, licence_row, licences, raised_for, standing, totals_rows};

use crate::cell::{Cell, add_row};
use desk_base::Text;
use desk_model::{DutyLine, Totals};
use std::alloc::{AllocError, Global};

/// Adds a row for all duties, and one for each state.
#[tactic(auto, unfolding(crate::specs::Rows::totals_rows))]
pub(crate) fn add_totals(
    alloc: Global,
    text: &mut String,
    totals: &Totals,
) -> Result<(), AllocError>
    ensures { OnOk result (string_bytes text.new
        ≡ string_bytes text.old ++ totals_rows totals.now) }
{
    let raised = totals.raised;
    let cells = [
        Cell::Name("Raised"),
        Cell::Count(raised),
        Cell::Bar(raised, raised),
        Cell::Name("Open"),
        Cell::Count(totals.still_open),
        Cell::Bar(totals.still_open, raised),
        Cell::Name("Met"),
        Cell::Count(totals.met),
        Cell::Bar(totals.met, raised),
        Cell::Name("Waived"),
        Cell::Count(totals.waived),
        Cell::Bar(totals.waived, raised),
        Cell::Name("Withdrawn"),
        Cell::Count(totals.withdrawn),
        Cell::Bar(totals.withdrawn, raised),
    ];
    add_row(alloc, text, &cells)
}

fn is_known(known: &[Text], licence: &Text) -> bool
    ensures { result ≡ list_any (bytes_eq licence.now) known.now }
{
    known.iter().any(|other| licence.as_str() == other.as_str())
}

/// The licences of duties, each once, in the order of first use.
#[tactic(auto, unfolding(crate::specs::Rows::licences))]
pub(crate) fn licences(alloc: Global, duties: &[DutyLine]) -> Result<Vec<Text>, AllocError>
    ensures { IfOk result (λ found. found.items ≡ licences duties.now) }
{
    let mut found = Vec::new(alloc);
    for duty in duties {
        if !is_known(found.as_slice(), &duty.rule) {
            found.push(duty.rule.clone()?)?;
        }
    }
    Ok(found)
}

fn is_of(licence: &str, duty: &DutyLine) -> bool
    ensures { result ≡ is_of licence.now duty.now }
{
    licence == duty.rule.as_str()
}

fn is_in(licence: &str, state: &str, duty: &DutyLine) -> bool
    ensures { result ≡ is_in licence.now state.now duty.now }
{
    is_of(licence, duty) && state == duty.state.name()
}

#[tactic(auto, unfolding(crate::specs::Rows::raised_for))]
fn raised_for(licence: &str, duties: &[DutyLine]) -> u64
    ensures { result ≡ raised_for licence.now duties.now }
{
    duties.iter().filter(|duty| is_of(licence, *duty)).count() as u64
}

#[tactic(auto, unfolding(crate::specs::Rows::standing))]
fn standing(licence: &str, state: &str, duties: &[DutyLine]) -> u64
    ensures { result ≡ standing licence.now state.now duties.now }
{
    duties
        .iter()
        .filter(|duty| is_in(licence, state, *duty))
        .count() as u64
}

#[tactic(auto, unfolding(crate::specs::Rows::licence_row))]
fn add_licence(
    alloc: Global,
    text: &mut String,
    duties: &[DutyLine],
    licence: &str,
) -> Result<(), AllocError>
    ensures { OnOk result (string_bytes text.new
        ≡ string_bytes text.old ++ licence_row duties.now licence.now) }
{
    let raised = raised_for(licence, duties);
    let still_open = standing(licence, "open", duties);
    let cells = [
        Cell::Name(licence),
        Cell::Count(raised),
        Cell::Count(standing(licence, "met", duties)),
        Cell::Count(standing(licence, "waived", duties)),
        Cell::Count(standing(licence, "withdrawn", duties)),
        Cell::Count(still_open),
        Cell::Bar(still_open, raised),
    ];
    add_row(alloc, text, &cells)
}

/// Adds a row for each licence.
pub(crate) fn add_licences(
    alloc: Global,
    text: &mut String,
    duties: &[DutyLine],
    licences: &[Text],
) -> Result<(), AllocError>
    ensures { OnOk result (string_bytes text.new
        ≡ string_bytes text.old ++ flat_map (licence_row duties.now) licences.now) }
{
    for licence in licences {
        add_licence(alloc, text, duties, licence.as_str())?;
    }
    Ok(())
}
