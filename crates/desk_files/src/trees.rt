//! What is written about a source tree.

use crate::input::require_folder;
use desk_base::Text;
use desk_subcommands::{Failure, Title, tell_blanks};
use desk_tree_files::files_of;
use std::io::{self, BufWriter, IsTerminal};

// Says which licences the document of a source tree can't hold. They are looked for in the tree as
// it is now.
fn tell_blanks_in(rt: &HostRuntime, folder: &str) -> Result<(), Failure> {
    let files = files_of(rt, folder, false)?;
    tell_blanks(rt.alloc(), files, &mut rt.stderr())
}

/// Writes the document of a source tree.
pub fn gather(
    rt: &HostRuntime,
    folder: &Text,
    name: &Text,
    namespace: &Text,
    created: &Text,
    is_watched: bool,
) -> Result<u8, Failure> {
    require_folder(rt, folder.as_str())?;
    let files = files_of(rt, folder.as_str(), is_watched)?;
    let title = Title {
        name: name.as_str(),
        namespace: namespace.as_str(),
        created: created.as_str(),
    };
    let gathered = desk_subcommands::gather(
        rt.alloc(),
        files,
        &title,
        rt.stdout().is_terminal(),
        &mut io::writer(rt),
        &mut rt.stderr(),
    );
    if let Err(Failure::BadValue) = &gathered {
        // If they can't be named, the failure still says what is wrong.
        let _told = tell_blanks_in(rt, folder.as_str());
    }
    gathered
}

/// Writes what is wrong in a source tree.
pub fn lint(rt: &HostRuntime, folder: &str, json: bool, is_watched: bool) -> Result<u8, Failure> {
    require_folder(rt, folder)?;
    let files = files_of(rt, folder, is_watched)?;
    let mut writer = BufWriter::new(rt.alloc(), io::writer(rt))?;
    desk_subcommands::lint(rt.alloc(), files, json, &mut writer)
}
