//! The files that are read: documents and catalogues, and databases and folders that must exist.

ghost use Rattle.std.specs.Prelude.{◌≡◌, alloc_error, IfErr};
ghost use Rattle.std.specs.IoError.{error_kind};
ghost use Rattle.desk_files.specs.Paths.{IsNoFolder, IsUnread, IsUnreadBy};

use desk_import::{read_input, read_text};
use desk_subcommands::Failure;
use std::alloc::{AllocError, Global};
use std::fs::{self, File};
use std::io::{self, ErrorKind};
use std::rt::Files;

/// Why a file can't be read.
pub fn unreadable(alloc: Global, path: &str, error: io::Error) -> Failure
    ensures told { IsUnreadBy error path.now result }
    ensures memory { error_kind error ≡ ErrorKind.OutOfMemory
        → result ≡ Failure.Memory alloc_error }
{
    match String::from_str(alloc, path) {
        Ok(path) if error.kind() != ErrorKind::OutOfMemory => Failure::Read(path, error),
        _ => Failure::from(AllocError),
    }
}

// The same as a failure.
fn read_or_fail(alloc: Global, path: &str, read: io::Result<Vec<u8>>) -> Result<Vec<u8>, Failure>
    ensures { IfErr result (IsUnread path.now) }
{
    match read {
        Ok(bytes) => Ok(bytes),
        Err(error) => Err(unreadable(alloc, path, error)),
    }
}

fn bytes_in<R: Files + AllocGlobal + Clone + Drop>(rt: &R, path: &str) -> io::Result<Vec<u8>> {
    read_input(rt.alloc(), File::open(rt, path)?)
}

fn text_in<R: Files + AllocGlobal + Clone + Drop>(rt: &R, path: &str) -> io::Result<Vec<u8>> {
    read_text(rt.alloc(), File::open(rt, path)?)
}

/// The bytes of the file at a path, as far as they are read of an input.
pub fn bytes_at<R: Files + AllocGlobal + Clone + Drop>(
    rt: &R,
    path: &str,
) -> Result<Vec<u8>, Failure>
    ensures { IfErr result (IsUnread path.now) }
{
    let read = bytes_in(rt, path);
    read_or_fail(rt.alloc(), path, read)
}

/// The same for a text.
pub fn text_at(rt: &HostRuntime, path: &str) -> Result<Vec<u8>, Failure>
    ensures { IfErr result (IsUnread path.now) }
{
    let read = text_in(rt, path);
    read_or_fail(rt.alloc(), path, read)
}

/// Fails if there is no file at a path, since opening it would create one.
pub fn require_file(rt: &HostRuntime, path: &str) -> Result<(), Failure>
    ensures { IfErr result (IsUnread path.now) }
{
    match fs::metadata(rt, path) {
        Ok(_) => Ok(()),
        Err(error) => Err(unreadable(rt.alloc(), path, error)),
    }
}

/// Fails if there is something else than a folder at a path.
pub fn require_folder(rt: &HostRuntime, path: &str) -> Result<(), Failure>
    ensures { IfErr result (IsNoFolder path.now) }
{
    match fs::metadata(rt, path) {
        Ok(found) if !found.is_dir() => {
            Err(Failure::NotAFolder(String::from_str(rt.alloc(), path)?))
        }
        // Why it can't be read is said when it is.
        _ => Ok(()),
    }
}
