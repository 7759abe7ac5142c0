//! The subcommand that audits the tables of a file.

ghost use Rattle.std.specs.Prelude.{◌≡◌, ◌++◌, ◌∷◌, [], IfOk, IfErr};
ghost use Rattle.std.specs.Io.KnownBytes.{Appends, Keeps};
ghost use Rattle.desk_subcommands.specs.Auditing.{report_name, report_status};
ghost use Rattle.desk_subcommands.specs.Failures.{IfMemory, IsOfOutput};

use crate::failure::Failure;
use crate::filing::write_line;
use desk_snapshot::AuditReport;
use std::io::Write;

fn report_name(report: AuditReport) -> &'static str
    ensures { result.now ≡ report_name report }
{
    match report {
        AuditReport::Sound => "sound",
        AuditReport::Unsound(fault) => fault.name(),
    }
}

fn report_status(report: AuditReport) -> u8
    ensures { result ≡ report_status report }
{
    match report {
        AuditReport::Sound => 0,
        AuditReport::Unsound(_) => 1,
    }
}

/// Writes what an audit reports as a line, `sound` or the name of the first condition that isn't
/// met, and returns the program's status.
pub fn tell_report<W: Write>(report: AuditReport, writer: &mut W) -> Result<u8, Failure>
    ensures told { IfOk result (λ status. (status ≡ report_status report)
        × Appends (W.contents writer.old) (W.contents writer.new) (report_name report ++ 10 ∷ [])) }
    ensures fails { IfErr result IsOfOutput }
    ensures memory { IfErr result
        (IfMemory (Keeps (W.contents writer.old) (W.contents writer.new))) }
{
    write_line(writer, report_name(report))?;
    Ok(report_status(report))
}
