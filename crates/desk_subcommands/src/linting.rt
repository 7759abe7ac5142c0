//! The problems of a source tree, written out.

ghost use Rattle.std.specs.Prelude.{◌≡◌, ℕ, List, IfOk, IfErr, OnOk};
ghost use Rattle.std.specs.Io.KnownBytes.{Appends, Keeps};
ghost use Rattle.desk_tree_infos.specs.Readers.{Reader, IsRightReader};
ghost use Rattle.desk_tree_reports.specs.Reports.{AreBlankLines};
ghost use Rattle.desk_subcommands.specs.Failures.{IfMemory, IsOfOutput};
ghost use Rattle.desk_subcommands.specs.Linting.{lint_status, Lints};

use crate::failure::Failure;
use desk_tree_gather::SourceFile;
use desk_tree_reports::{Report, blank_lines, report_on};
use std::alloc::Global;
use std::io::Write;

fn status_of(report: &Report) -> u8
    ensures { result ≡ lint_status report.now }
{
    if report.is_clean { 0 } else { 1 }
}

/// Writes the problems of a tree of files, as one JSON object or one on each line, and returns the
/// program's status. If no memory is left, nothing is written.
pub fn lint<W: Write>(
    alloc: Global,
    files: Vec<SourceFile>,
    json: bool,
    writer: &mut W,
) -> Result<u8, Failure>
    ensures told { (r : Reader) → IsRightReader r → IfOk result (λ status. (text : List ℕ)
        × Lints r files.items json text status
        × Appends (W.contents writer.old) (W.contents writer.new) text) }
    ensures fails { IfErr result IsOfOutput }
    ensures memory { IfErr result
        (IfMemory (Keeps (W.contents writer.old) (W.contents writer.new))) }
{
    let report = report_on(alloc, files, json)?;
    report.text.write_to(writer)?;
    writer.flush()?;
    Ok(status_of(&report))
}

/// Reports, one on each line, the licences in REUSE.toml files that have a blank at an end, which
/// the document of a tree can't hold.
pub fn tell_blanks<T: Write>(
    alloc: Global,
    files: Vec<SourceFile>,
    teller: &mut T,
) -> Result<(), Failure>
    ensures told { (r : Reader) → IsRightReader r → OnOk result ((text : List ℕ)
        × AreBlankLines r files.items text
        × Appends (T.contents teller.old) (T.contents teller.new) text) }
    ensures fails { IfErr result IsOfOutput }
{
    let text = blank_lines(alloc, files)?;
    text.write_to(teller)?;
    teller.flush()?;
    Ok(())
}
