//! The findings of a document in JSON, each with its place there.

ghost use Rattle.std.specs.Prelude.{◌≡◌, ◌++◌, IfOk, OnOk, map};
ghost use Rattle.std.specs.List.{flat_map};
ghost use Rattle.std.specs.String.{string_bytes};
ghost use Rattle.desk_spdx_json.specs.Steps.{step_text};
ghost use Rattle.desk_import.specs.Placed.{more_line, placed, placed_line, placed_text};

use crate::summary::Summary;
use crate::walk::Walk;
use desk_base::Text;
use desk_findings::{Finding, FindingKind};
use desk_spdx_json::Step;
use std::alloc::{AllocError, Global};

/// A finding of a document in JSON, and where it is there.
#[derive(Drop)]
struct PlacedFinding {
    kind: FindingKind,
    at: Text,
}

/// How many findings are listed.
const LISTED: usize = 20;

// The findings of the text that steps write, each with its place.
fn placed(
    alloc: Global,
    steps: &[Step<'_>],
    findings: &[Finding],
) -> Result<Vec<PlacedFinding>, AllocError>
    ensures { IfOk result
        (λ found. found.items ≡ map (placed (map step_text steps.now)) findings.now) }
{
    let mut found = Vec::with_capacity(alloc, findings.len())?;
    let mut walk = Walk::new(steps);
    for finding in findings {
        walk = walk.to((finding.line as usize).saturating_sub(1));
        let at = Text::of(alloc, walk.place())?;
        let kind = finding.kind;
        found.push(PlacedFinding { kind, at })?;
    }
    Ok(found)
}

// Adds the line of a finding.
fn put_line(out: &mut String, finding: &PlacedFinding) -> Result<(), AllocError>
    ensures { OnOk result
        (string_bytes out.new ≡ string_bytes out.old ++ placed_line finding.now) }
{
    out.push_str("\n")?;
    out.push_str(finding.kind.name())?;
    out.push_str(" at ")?;
    out.push_str(finding.at.as_str())
}

// Adds the lines of findings.
fn put_lines(out: &mut String, findings: &[PlacedFinding]) -> Result<(), AllocError>
    ensures { OnOk result
        (string_bytes out.new ≡ string_bytes out.old ++ flat_map placed_line findings.now) }
{
    for finding in findings {
        put_line(out, finding)?;
    }
    Ok(())
}

// How many more findings there are, as a line.
fn more_line(alloc: Global, count: usize) -> Result<String, AllocError>
    ensures { IfOk result (λ line. string_bytes line ≡ more_line count) }
{
    format!(in alloc; "\nand {count} more")
}

// The lines of the first 20 findings, then how many more there are.
fn placed_text(alloc: Global, findings: &[PlacedFinding]) -> Result<String, AllocError>
    ensures { IfOk result (λ text. string_bytes text ≡ placed_text findings.now) }
{
    let mut text = String::new(alloc);
    if findings.len() <= LISTED {
        put_lines(&mut text, findings)?;
        return Ok(text);
    }
    put_lines(&mut text, &findings[..LISTED])?;
    let more = more_line(alloc, findings.len() - LISTED)?;
    text.push_str(more.as_str())?;
    Ok(text)
}

/// The summary of the text that steps write, with its findings listed by their places.
pub(crate) fn listed(
    alloc: Global,
    steps: &[Step<'_>],
    summary: Summary,
) -> Result<Summary, AllocError>
    ensures kept { IfOk result (λ s. s ≡ record summary { listed = s.listed }) }
    ensures text { IfOk result (λ s. string_bytes s.listed
        ≡ placed_text (map (placed (map step_text steps.now)) summary.findings.items)) }
{
    let mut summary = summary;
    let found = placed(alloc, steps, summary.findings.as_slice())?;
    summary.listed = placed_text(alloc, found.as_slice())?;
    Ok(summary)
}
