//! The page itself.

ghost use Rattle.std.specs.Prelude.{◌≡◌, ◌++◌, IfOk, OnOk};
ghost use Rattle.std.specs.List.{flat_map};
ghost use Rattle.std.specs.String.{string_bytes};
ghost use Rattle.desk_page.specs.Page.{body_text, details, heading, listing, notice, notices, overview, page_text, section};
ghost use Rattle.desk_page.specs.Rows.{change_row, duty_row, licence_row, licences, package_row, totals_rows, waiver_rows};

use crate::duties::{add_changes, add_duties, add_waivers};
use crate::fixed::{
    Table, columns, contents, notices_start, opening, page_end, page_start, section_end, style,
    table_end,
};
use crate::licences::{add_licences, add_totals, licences};
use crate::packages::add_packages;
use crate::piece::add_framed;
use desk_base::{Items, Text};
use desk_model::{Bill, BillLine, BillText, ChangeRow, DutyLine, Totals};
use std::alloc::{AllocError, Global};

#[tactic(auto, unfolding(crate::specs::Page::heading))]
fn add_heading(text: &mut String, bill: &Bill) -> Result<(), AllocError>
    ensures { OnOk result (string_bytes text.new ≡ string_bytes text.old ++ heading bill.now) }
{
    add_framed(text, page_start(), bill.release.as_str(), style())?;
    add_framed(text, "<h1>Release ", bill.release.as_str(), "</h1>\n")?;
    add_framed(text, "<p>It ships as ", bill.form.as_str(), contents())
}

// Adds rows below the names of their columns, or a note that there are none.
fn add_listing(text: &mut String, names: &str, rows: &str) -> Result<(), AllocError>
    ensures { OnOk result (string_bytes text.new
        ≡ string_bytes text.old ++ listing names.now rows.now) }
{
    match rows.as_bytes() {
        [] => text.push_str("<p>None.</p>\n"),
        _ => {
            text.push_str(names)?;
            text.push_str(rows)?;
            text.push_str(table_end())
        }
    }
}

#[tactic(auto, unfolding(crate::specs::Page::section))]
fn add_section(text: &mut String, table: Table, rows: &str) -> Result<(), AllocError>
    ensures { OnOk result (string_bytes text.new
        ≡ string_bytes text.old ++ section table rows.now) }
{
    text.push_str(opening(table))?;
    add_listing(text, columns(table), rows)?;
    text.push_str(section_end())
}

fn add_total_section(alloc: Global, text: &mut String, totals: &Totals) -> Result<(), AllocError>
    ensures { OnOk result (string_bytes text.new
        ≡ string_bytes text.old ++ section Table.Totals (totals_rows totals.now)) }
{
    let mut rows = String::new(alloc);
    add_totals(alloc, &mut rows, totals)?;
    add_section(text, Table::Totals, rows.as_str())
}

fn add_package_section(
    alloc: Global,
    text: &mut String,
    lines: &[BillLine],
) -> Result<(), AllocError>
    ensures { OnOk result (string_bytes text.new ≡ string_bytes text.old
        ++ section Table.Packages (flat_map package_row lines.now)) }
{
    let mut rows = String::new(alloc);
    add_packages(alloc, &mut rows, lines)?;
    add_section(text, Table::Packages, rows.as_str())
}

fn add_licence_section(
    alloc: Global,
    text: &mut String,
    duties: &[DutyLine],
) -> Result<(), AllocError>
    ensures { OnOk result (string_bytes text.new ≡ string_bytes text.old
        ++ section Table.Licences (flat_map (licence_row duties.now) (licences duties.now))) }
{
    let licences = licences(alloc, duties)?;
    let mut rows = String::new(alloc);
    add_licences(alloc, &mut rows, duties, licences.as_slice())?;
    add_section(text, Table::Licences, rows.as_str())
}

// Adds how many duties are in each state, what ships, and the duties of each licence.
#[tactic(auto, unfolding(crate::specs::Page::overview))]
fn add_overview(
    alloc: Global,
    text: &mut String,
    bill: &Bill,
    totals: &Totals,
    duties: &[DutyLine],
) -> Result<(), AllocError>
    ensures { OnOk result (string_bytes text.new
        ≡ string_bytes text.old ++ overview bill.now totals.now duties.now) }
{
    add_total_section(alloc, text, totals)?;
    add_package_section(alloc, text, bill.lines.as_slice())?;
    add_licence_section(alloc, text, duties)
}

fn add_duty_section(alloc: Global, text: &mut String, duties: &[DutyLine]) -> Result<(), AllocError>
    ensures { OnOk result (string_bytes text.new ≡ string_bytes text.old
        ++ section Table.Duties (flat_map duty_row duties.now)) }
{
    let mut rows = String::new(alloc);
    add_duties(alloc, &mut rows, duties)?;
    add_section(text, Table::Duties, rows.as_str())
}

fn add_waiver_section(
    alloc: Global,
    text: &mut String,
    duties: &[DutyLine],
    changes: &[Items<ChangeRow>],
) -> Result<(), AllocError>
    ensures { OnOk result (string_bytes text.new ≡ string_bytes text.old
        ++ section Table.Waivers (waiver_rows duties.now changes.now)) }
{
    let mut rows = String::new(alloc);
    add_waivers(alloc, &mut rows, duties, changes)?;
    add_section(text, Table::Waivers, rows.as_str())
}

fn add_change_section(
    alloc: Global,
    text: &mut String,
    changes: &[Items<ChangeRow>],
) -> Result<(), AllocError>
    ensures { OnOk result (string_bytes text.new ≡ string_bytes text.old
        ++ section Table.Changes (flat_map (flat_map change_row) changes.now)) }
{
    let mut rows = String::new(alloc);
    add_changes(alloc, &mut rows, changes)?;
    add_section(text, Table::Changes, rows.as_str())
}

// Adds the duties one by one, the waivers that end, and the changes.
#[tactic(auto, unfolding(crate::specs::Page::details))]
fn add_details(
    alloc: Global,
    text: &mut String,
    duties: &[DutyLine],
    changes: &[Items<ChangeRow>],
) -> Result<(), AllocError>
    ensures { OnOk result (string_bytes text.new
        ≡ string_bytes text.old ++ details duties.now changes.now) }
{
    add_duty_section(alloc, text, duties)?;
    add_waiver_section(alloc, text, duties, changes)?;
    add_change_section(alloc, text, changes)
}

#[tactic(auto, unfolding(crate::specs::Page::body_text))]
fn add_body(text: &mut String, body: &Option<Text>) -> Result<(), AllocError>
    ensures { OnOk result (string_bytes text.new ≡ string_bytes text.old ++ body_text body.now) }
{
    match body {
        Some(body) => add_framed(text, "<pre>\n", body.as_str(), "</pre>\n</article>\n"),
        None => text.push_str("<p>No text recorded.</p>\n</article>\n"),
    }
}

#[tactic(auto, unfolding(crate::specs::Page::notice))]
fn add_notice(text: &mut String, given: &BillText) -> Result<(), AllocError>
    ensures { OnOk result (string_bytes text.new ≡ string_bytes text.old ++ notice given.now) }
{
    add_framed(text, "<article>\n<h3>", given.title.as_str(), "</h3>\n")?;
    add_body(text, &given.body)
}

fn add_texts(text: &mut String, texts: &[BillText]) -> Result<(), AllocError>
    ensures { OnOk result (string_bytes text.new
        ≡ string_bytes text.old ++ flat_map notice texts.now) }
{
    for given in texts {
        add_notice(text, given)?;
    }
    Ok(())
}

// Adds the notices, which end the page.
#[tactic(auto, unfolding(crate::specs::Page::notices))]
fn add_notices(text: &mut String, texts: &[BillText]) -> Result<(), AllocError>
    ensures { OnOk result (string_bytes text.new ≡ string_bytes text.old ++ notices texts.now) }
{
    text.push_str(notices_start())?;
    add_texts(text, texts)?;
    text.push_str(page_end())
}

/// The page of a frozen release, as HTML in UTF-8: its name and form; how many duties are in each
/// state; its packages with their version, licences and copyright; the duties, counted by licence
/// and then one by one; the waivers that end; the changes; and the notices. `changes` has the
/// changes of each duty, by step, at the index that the duty has in `duties`.
#[tactic(auto, unfolding(crate::specs::Page::page_text))]
pub fn page(
    alloc: Global,
    bill: &Bill,
    totals: &Totals,
    duties: &[DutyLine],
    changes: &[Items<ChangeRow>],
) -> Result<String, AllocError>
    ensures { IfOk result (λ text. string_bytes text
        ≡ page_text bill.now totals.now duties.now changes.now) }
{
    let mut text = String::new(alloc);
    add_heading(&mut text, bill)?;
    add_overview(alloc, &mut text, bill, totals, duties)?;
    add_details(alloc, &mut text, duties, changes)?;
    add_notices(&mut text, bill.texts.as_slice())?;
    Ok(text)
}
