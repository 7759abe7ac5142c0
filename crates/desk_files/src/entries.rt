//! Files of entries for `--fill`.

use desk_base::Text;
use desk_entries::Answer;
use desk_subcommands::Failure;
use desk_tree_files::files_of;
use std::io::{self, Write};

// Writes what is answered, and returns the status.
fn write_answer(rt: &HostRuntime, answer: &Answer) -> Result<u8, Failure> {
    rt.stderr().write_all(answer.notes.as_slice())?;
    let mut writer = io::writer(rt);
    writer.write_all(answer.text.as_slice())?;
    writer.flush()?;
    Ok(answer.status)
}

/// Writes the texts of the files in a folder, and reports which are left out.
pub fn texts(rt: &HostRuntime, folder: &str, is_watched: bool) -> Result<u8, Failure> {
    let files = files_of(rt, folder, is_watched)?;
    let answer = desk_entries::texts(rt.alloc(), files.as_slice())?;
    write_answer(rt, &answer)
}

/// Writes the credit of a package, and of its version or any, from the notices of the tree of files
/// in a folder, and reports which files can't be read for it.
pub fn credits(
    rt: &HostRuntime,
    folder: &str,
    name: &str,
    version: Option<&Text>,
    is_watched: bool,
) -> Result<u8, Failure> {
    let files = files_of(rt, folder, is_watched)?;
    let version = match version {
        Some(version) => Some(version.as_str()),
        None => None,
    };
    let answer = desk_credits::credits(rt.alloc(), files.as_slice(), name, version)?;
    write_answer(rt, &answer)
}
