//! The lists of what a desk holds.

ghost use Rattle.std.specs.Prelude.{◌≡◌, ℕ, List, Option, IfOk, IfErr};
ghost use Rattle.std.specs.Io.KnownBytes.{Appends, Keeps};
ghost use Rattle.desk_base.specs.declared.profile.Profile.{Profile};
ghost use Rattle.desk_expr.specs.Tree.{Tree};
ghost use Rattle.desk_lists.specs.Cells.{document_table, duty_table, release_table};
ghost use Rattle.desk_lists.specs.Documents.{AreReadings};
ghost use Rattle.desk_lists.specs.declared.lines.DocumentLine.{DocumentLine as Documented};
ghost use Rattle.desk_lists.specs.declared.lines.DutyLine.{DutyLine as Owed};
ghost use Rattle.desk_lists.specs.declared.lines.ReleaseLine.{ReleaseLine as Released};
ghost use Rattle.desk_subcommands.specs.Failures.{IfMemory, IsOfOutput};
ghost use Rattle.desk_views.specs.Listing.{AreDocuments, AreDuties, AreReleases, table_text};

use desk_lists::{
    DocumentLine, DutyFilter, DutyLine, ReleaseLine, documents, documents_columns, documents_csv,
    duties, duties_columns, duties_csv, releases, releases_columns, releases_csv,
};
use desk_snapshot::Snapshot;
use desk_subcommands::{Failure, write_text};
use std::alloc::{AllocError, Global};
use std::io::Write;

fn releases_text(
    alloc: Global,
    lines: &[ReleaseLine],
    in_columns: bool,
) -> Result<Vec<u8>, AllocError>
    ensures { IfOk result (λ text. text.items ≡ table_text in_columns (release_table lines.now)) }
{
    if in_columns {
        releases_columns(alloc, lines)
    } else {
        releases_csv(alloc, lines)
    }
}

fn documents_text(
    alloc: Global,
    lines: &[DocumentLine],
    in_columns: bool,
) -> Result<Vec<u8>, AllocError>
    ensures { IfOk result (λ text. text.items ≡ table_text in_columns (document_table lines.now)) }
{
    if in_columns {
        documents_columns(alloc, lines)
    } else {
        documents_csv(alloc, lines)
    }
}

fn duties_text(alloc: Global, lines: &[DutyLine], in_columns: bool) -> Result<Vec<u8>, AllocError>
    ensures { IfOk result (λ text. text.items ≡ table_text in_columns (duty_table lines.now)) }
{
    if in_columns {
        duties_columns(alloc, lines)
    } else {
        duties_csv(alloc, lines)
    }
}

/// Writes the list of the releases in these rows, in the order in which they were opened, as
/// comma-separated values or in columns, and returns the program's status.
pub fn write_releases<W: Write>(
    alloc: Global,
    snapshot: &Snapshot,
    in_columns: bool,
    writer: &mut W,
) -> Result<u8, Failure>
    ensures told { IfOk result
        (λ status. (status ≡ 0) × (lines : List Released) × AreReleases snapshot.now lines
        × Appends (W.contents writer.old) (W.contents writer.new)
        (table_text in_columns (release_table lines))) }
    ensures fails { IfErr result IsOfOutput }
    ensures memory { IfErr result
        (IfMemory (Keeps (W.contents writer.old) (W.contents writer.new))) }
{
    let lines = releases(alloc, snapshot)?;
    let text = releases_text(alloc, lines.as_slice(), in_columns)?;
    write_text(writer, text.as_slice())?;
    Ok(0)
}

/// Writes the list of the documents in these rows, by number, as `write_releases` does.
pub fn write_documents<W: Write>(
    alloc: Global,
    snapshot: &Snapshot,
    in_columns: bool,
    writer: &mut W,
) -> Result<u8, Failure>
    ensures told { (reads : Profile → List ℕ → Option Tree) → AreReadings reads
        → IfOk result (λ status. (status ≡ 0) × (lines : List Documented)
        × AreDocuments reads snapshot.now lines
        × Appends (W.contents writer.old) (W.contents writer.new)
        (table_text in_columns (document_table lines))) }
    ensures fails { IfErr result IsOfOutput }
    ensures memory { IfErr result
        (IfMemory (Keeps (W.contents writer.old) (W.contents writer.new))) }
{
    let lines = documents(alloc, snapshot)?;
    let text = documents_text(alloc, lines.as_slice(), in_columns)?;
    write_text(writer, text.as_slice())?;
    Ok(0)
}

/// Writes the list of the duties in these rows that a filter asks for, in the order in which they
/// were raised, as `write_releases` does.
pub fn write_duties<W: Write>(
    alloc: Global,
    snapshot: &Snapshot,
    wanted: &DutyFilter<'_>,
    in_columns: bool,
    writer: &mut W,
) -> Result<u8, Failure>
    ensures told { IfOk result
        (λ status. (status ≡ 0) × (lines : List Owed) × AreDuties wanted.now snapshot.now lines
        × Appends (W.contents writer.old) (W.contents writer.new)
        (table_text in_columns (duty_table lines))) }
    ensures fails { IfErr result IsOfOutput }
    ensures memory { IfErr result
        (IfMemory (Keeps (W.contents writer.old) (W.contents writer.new))) }
{
    let lines = duties(alloc, snapshot, wanted)?;
    let text = duties_text(alloc, lines.as_slice(), in_columns)?;
    write_text(writer, text.as_slice())?;
    Ok(0)
}
