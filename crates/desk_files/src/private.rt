//! The files that only their owner may read: the one that keeps a desk, and a copy of it.

ghost use Rattle.std.specs.Prelude.{◌≡◌, alloc_error, IfErr};
ghost use Rattle.desk_files.specs.Paths.{is_path};

use desk_subcommands::Failure;
use std::alloc::AllocError;
use std::fs::{File, OpenOptions};
use std::io;
use std::os::unix::fs::OpenOptionsExt;

/// The permissions of such a file: its owner may read and write it.
const OWNER_ALONE: u32 = 0o600;

/// A new file at a path, for its owner alone. It fails if there is something at the path.
pub(crate) fn new_file(rt: &HostRuntime, path: &str) -> io::Result<File> {
    OpenOptions::new()
        .write(true)
        .create_new(true)
        .mode(OWNER_ALONE)
        .open(rt, path)
}

// Whether a path may be that of a database. These names have a meaning of their own in SQLite.
fn is_path(path: &str) -> bool
    ensures { result ≡ is_path path.now }
{
    path != ":memory:" && !path.as_bytes().starts_with(b"file:")
}

/// Makes the file at a path for its owner alone, if there is none. What SQLite lays beside it gets
/// the same permissions.
pub fn make_file(rt: &HostRuntime, path: &str) -> Result<(), Failure>
    ensures { IfErr result (λ failure. failure ≡ Failure.Memory alloc_error) }
{
    if !is_path(path) {
        return Ok(());
    }
    match new_file(rt, path) {
        Err(error) if error.kind() == io::ErrorKind::OutOfMemory => Err(Failure::from(AllocError)),
        // Why else it isn't made is said when it is opened.
        _ => Ok(()),
    }
}
