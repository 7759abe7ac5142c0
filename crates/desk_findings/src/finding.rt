//! Findings, as they are sorted and noted.

ghost use Rattle.std.specs.Prelude.{◌≡◌, ◌++◌, OnOk};
ghost use Rattle.desk_findings.specs.Kinds.{finding_key, noted};

use desk_model::{Finding, FindingKind};
use std::alloc::AllocError;

/// The key by which findings are sorted: the line, the kind, and the place among findings of the
/// kind.
pub(crate) fn key(finding: &Finding) -> (u32, u8, u8)
    ensures { result ≡ finding_key finding.now }
{
    (finding.line, finding.kind.number(), finding.kind.place())
}

/// Notes a finding if it holds.
pub(crate) fn note(
    found: &mut Vec<Finding>,
    holds: bool,
    line: u32,
    kind: FindingKind,
) -> Result<(), AllocError>
    ensures { OnOk result (found.new.items ≡ found.old.items ++ noted holds line kind) }
{
    if holds {
        found.push(Finding { line, kind })?;
    }
    Ok(())
}
