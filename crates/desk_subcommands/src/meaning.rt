//! What a name means, written out.

ghost use Rattle.std.specs.Prelude.{◌≡◌, [], IfOk, IfErr};
ghost use Rattle.std.specs.Io.KnownBytes.{Appends, Keeps};
ghost use Rattle.desk_explain.specs.Explanations.{entries_named};
ghost use Rattle.desk_subcommands.specs.Failures.{IfUntold, IsOfName};
ghost use Rattle.desk_subcommands.specs.Meaning.{Explains};

use crate::failure::Failure;
use desk_explain::{Entry, entries, explanation};
use std::alloc::Global;
use std::io::Write;

/// Writes what the tables say about a name, a block for each entry with it, and returns the
/// program's status. If none has it, or no memory is left, nothing is written.
pub fn explain<W: Write>(
    alloc: Global,
    tables: &[&[Entry]],
    name: &str,
    writer: &mut W,
) -> Result<u8, Failure>
    ensures told { IfOk result
        (Explains (entries_named name.now tables.now) (W.contents writer.old)
        (W.contents writer.new)) }
    ensures fails { IfErr result (IsOfName name.now (entries_named name.now tables.now ≡ [])) }
    ensures untold { IfErr result
        (IfUntold (Keeps (W.contents writer.old) (W.contents writer.new))) }
{
    let found = entries(alloc, tables, name)?;
    if found.is_empty() {
        return Err(Failure::UnknownName(String::from_str(alloc, name)?));
    }
    let text = explanation(alloc, found.as_slice())?;
    writer.write_all(text.as_bytes())?;
    writer.flush()?;
    Ok(0)
}
