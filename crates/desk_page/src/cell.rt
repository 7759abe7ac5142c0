//! The cells of rows.

ghost use Rattle.std.specs.Prelude.{◌≡◌, ◌++◌, map, OnOk};
ghost use Rattle.std.specs.List.{flat_map};
ghost use Rattle.std.specs.String.{string_bytes};
ghost use Rattle.desk_page.specs.Cells.{cell_of, cell_text, row_text};
ghost use Rattle.desk_page.specs.Pieces.{rule_line, rules_cell};

use crate::piece::{Frame, add_counted, add_framed, add_paired};
use desk_base::Text;
use std::alloc::{AllocError, Global};

/// A cell of a row. A cell that names the row begins it, and a cell of one of two kinds ends it.
#[derive(Clone, Copy)]
pub(crate) enum Cell<'a> {
    /// A name of the row.
    Name(&'a str),
    /// A duty that names the row, and that others link to.
    Anchor(u32),
    /// A duty that names the row, with a link to the duty's own row.
    Link(u32),
    Text(&'a str),
    Count(u64),
    /// Licences, one on each line.
    Rules(&'a [Text]),
    /// The end of the row: a text that keeps its lines.
    Last(&'a str),
    /// The end of the row: a bar as long as a part of a whole, the part first.
    Bar(u64, u64),
}

const ANCHOR: Frame<'static> = Frame {
    before: "<tr><th scope=\"row\" id=\"duty-",
    between: "\">",
    after: "</th>",
};

const LINK: Frame<'static> = Frame {
    before: "<tr><th scope=\"row\"><a href=\"#duty-",
    between: "\">",
    after: "</a></th>",
};

const BAR: Frame<'static> = Frame {
    before: "<td><svg viewBox=\"0 0 ",
    between: " 1\" preserveAspectRatio=\"none\" aria-hidden=\"true\"><rect width=\"",
    after: "\" height=\"1\"/></svg></td></tr>\n",
};

#[tactic(auto, unfolding(crate::specs::Pieces::rule_line))]
fn add_rule(text: &mut String, rule: &Text) -> Result<(), AllocError>
    ensures { OnOk result (string_bytes text.new ≡ string_bytes text.old ++ rule_line rule.now) }
{
    add_framed(text, "<div>", rule.as_str(), "</div>")
}

fn add_rule_lines(text: &mut String, rules: &[Text]) -> Result<(), AllocError>
    ensures { OnOk result (string_bytes text.new
        ≡ string_bytes text.old ++ flat_map rule_line rules.now) }
{
    for rule in rules {
        add_rule(text, rule)?;
    }
    Ok(())
}

#[tactic(auto, unfolding(crate::specs::Pieces::rules_cell))]
fn add_rules(text: &mut String, rules: &[Text]) -> Result<(), AllocError>
    ensures { OnOk result (string_bytes text.new ≡ string_bytes text.old ++ rules_cell rules.now) }
{
    text.push_str("<td>")?;
    add_rule_lines(text, rules)?;
    text.push_str("</td>")
}

#[tactic(auto, unfolding(crate::specs::Pieces::name_cell, crate::specs::Pieces::anchor_cell, crate::specs::Pieces::link_cell, crate::specs::Pieces::text_cell, crate::specs::Pieces::number_cell, crate::specs::Pieces::last_cell, crate::specs::Pieces::bar_cell))]
fn add_cell(alloc: Global, text: &mut String, cell: Cell<'_>) -> Result<(), AllocError>
    ensures { OnOk result (string_bytes text.new
        ≡ string_bytes text.old ++ cell_text (cell_of cell.entry)) }
{
    match cell {
        Cell::Name(name) => add_framed(text, "<tr><th scope=\"row\">", name, "</th>"),
        Cell::Anchor(duty) => add_paired(alloc, text, &ANCHOR, u64::from(duty), u64::from(duty)),
        Cell::Link(duty) => add_paired(alloc, text, &LINK, u64::from(duty), u64::from(duty)),
        Cell::Text(value) => add_framed(text, "<td>", value, "</td>"),
        Cell::Count(count) => add_counted(alloc, text, "<td class=\"number\">", count, "</td>"),
        Cell::Rules(rules) => add_rules(text, rules),
        Cell::Last(value) => add_framed(text, "<td class=\"lines\">", value, "</td></tr>\n"),
        Cell::Bar(part, whole) => add_paired(alloc, text, &BAR, whole, part),
    }
}

/// Adds the cells of a row, or of several.
pub(crate) fn add_row(
    alloc: Global,
    text: &mut String,
    cells: &[Cell<'_>],
) -> Result<(), AllocError>
    ensures { OnOk result (string_bytes text.new
        ≡ string_bytes text.old ++ row_text (map cell_of cells.now)) }
{
    for cell in cells {
        add_cell(alloc, text, *cell)?;
    }
    Ok(())
}
