//! Documents, as they are read from files.

ghost use Rattle.std.specs.Prelude.{◌≡◌};
ghost use Rattle.desk_files.specs.Documents.{files_kept};

use crate::input::bytes_at;
use desk_base::Profile;
use desk_import::{Files, Intake, intake_of};
use desk_subcommands::Failure;
use std::io::{self, IsTerminal};

/// The files that are kept of a document in JSON.
fn files_kept(no_files: bool) -> Files
    ensures { result ≡ files_kept no_files }
{
    if no_files { Files::Needed } else { Files::All }
}

/// What an import takes from the file at a path, perhaps without files that change nothing about
/// what ships. Licence expressions are read by the profile.
pub fn document_at(
    rt: &HostRuntime,
    path: &str,
    profile: Profile,
    no_files: bool,
) -> Result<Intake, Failure> {
    let bytes = bytes_at(rt, path)?;
    Ok(intake_of(rt.alloc(), bytes, profile, files_kept(no_files))?)
}

/// Writes the tag-value document that says the same as the document in JSON at a path, perhaps
/// without files that change nothing about what ships, and reports what it leaves out.
pub fn convert(rt: &HostRuntime, path: &str, no_files: bool) -> Result<u8, Failure> {
    let bytes = bytes_at(rt, path)?;
    let is_terminal = rt.stdout().is_terminal();
    let writer = &mut io::writer(rt);
    let teller = &mut rt.stderr();
    let files = files_kept(no_files);
    desk_subcommands::convert(
        rt.alloc(),
        bytes.as_slice(),
        files,
        is_terminal,
        writer,
        teller,
    )
}
