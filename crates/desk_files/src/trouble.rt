//! Why a file can't keep a desk, by the error of its database.

ghost use Rattle.std.specs.Prelude.{◌≡◌, ◌≢◌};
ghost use Rattle.desk_files.specs.Paths.{IsClosed};
ghost use Rattle.desk_files.specs.Troubles.{trouble_of_error};

use desk_subcommands::Trouble;
use sqlite::{Error, ErrorCode};
use std::fs::{self, Metadata, OpenOptions};
use std::path::Path;

/// Why the database of a file can't be used.
pub fn trouble_of(error: Error) -> Trouble
    ensures { result ≡ trouble_of_error error }
{
    match error {
        Error::SqliteFailure(ErrorCode::OutOfMemory) => Trouble::Memory,
        Error::SqliteFailure(ErrorCode::DatabaseBusy) => Trouble::Busy,
        Error::SqliteFailure(ErrorCode::CannotOpen) => Trouble::CannotOpen,
        Error::SqliteFailure(ErrorCode::NotADatabase | ErrorCode::DatabaseCorrupt) => {
            Trouble::Damaged
        }
        Error::SqliteFailure(ErrorCode::DiskFull) => Trouble::Full,
        Error::SqliteFailure(ErrorCode::SystemIoFailure | ErrorCode::Closed) => Trouble::Disk,
        _ => Trouble::Refused,
    }
}

// Whether a file may be read, or written.
fn may(rt: &HostRuntime, path: &str, is_written: bool) -> bool {
    let mut options = OpenOptions::new();
    options.read(!is_written).write(is_written);
    options.open(rt, path).is_ok()
}

// Why a file that exists at a path can't be opened.
fn trouble_with(rt: &HostRuntime, path: &str, found: &Metadata) -> Trouble
    ensures { IsClosed result }
{
    if found.is_dir() {
        return Trouble::Folder;
    }
    match (may(rt, path, false), may(rt, path, true)) {
        (false, _) => Trouble::Unreadable,
        (true, false) => Trouble::ReadOnly,
        (true, true) => Trouble::CannotOpen,
    }
}

// Why a file that doesn't exist can't be created.
fn absent(rt: &HostRuntime, path: &str) -> Trouble
    ensures { IsClosed result }
{
    match Path::new(path).parent() {
        Some(folder) if is_missing(rt, folder) => Trouble::NoFolder,
        _ => Trouble::CannotOpen,
    }
}

// Whether there is no folder at a path. An empty path is that of the folder where the program runs.
fn is_missing(rt: &HostRuntime, folder: Path) -> bool {
    !folder.to_string_lossy().is_empty() && fs::metadata(rt, folder).is_err()
}

/// Why the database of the file at a path can't be used, by its error and by what is at the path.
pub fn trouble_at(rt: &HostRuntime, path: &str, error: Error) -> Trouble
    ensures told { trouble_of_error error ≢ Trouble.CannotOpen → result ≡ trouble_of_error error }
    ensures closed { trouble_of_error error ≡ Trouble.CannotOpen → IsClosed result }
{
    match trouble_of(error) {
        Trouble::CannotOpen => match fs::metadata(rt, path) {
            Ok(found) => trouble_with(rt, path, &found),
            Err(_) => absent(rt, path),
        },
        trouble => trouble,
    }
}
