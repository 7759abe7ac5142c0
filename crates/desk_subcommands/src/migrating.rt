//! The subcommand that migrates a file of an older version.

ghost use Rattle.std.specs.Prelude.{◌≡◌, ◌++◌, ◌∷◌, [], OnOk, IfErr};
ghost use Rattle.std.specs.Io.KnownBytes.{Appends, Keeps};
ghost use Rattle.desk_subcommands.specs.Failures.{IfMemory, IsOfOutput};
ghost use Rattle.desk_subcommands.specs.Migrating.{migration_text};

use crate::failure::Failure;
use crate::filing::write_line;
use std::alloc::Global;
use std::io::Write;

/// Writes, as a line, that a file was migrated from this version to the current one.
pub fn tell_migration<W: Write>(alloc: Global, version: u32, writer: &mut W) -> Result<(), Failure>
    ensures told { OnOk result (Appends (W.contents writer.old) (W.contents writer.new)
        (migration_text version ++ 10 ∷ [])) }
    ensures fails { IfErr result IsOfOutput }
    ensures memory { IfErr result
        (IfMemory (Keeps (W.contents writer.old) (W.contents writer.new))) }
{
    let line = format!(in alloc; "migrated {version} to 3")?;
    write_line(writer, line.as_str())
}
