//! The log beside the file that keeps a desk.

ghost use Rattle.std.specs.Prelude.{◌≡◌};
ghost use Rattle.desk_files.specs.Logs.{holds_change};

use std::alloc::AllocError;
use std::fs;

/// How many bytes a log has at least that holds a change: its header, and the header of a page
/// (SQLite's file format, 4.1).
const SHORTEST: u64 = 56;

// Whether a log of this length holds a change.
fn holds_change(length: u64) -> bool
    ensures { result ≡ holds_change length }
{
    length >= SHORTEST
}

// The path of the log of the file at a path. It is beside the file, not beside a link to it.
fn log_of(rt: &HostRuntime, path: &str) -> Result<String, AllocError> {
    match fs::canonicalize(rt, path) {
        Ok(real) => {
            let real = real.as_str();
            format!(in rt.alloc(); "{real}-wal")
        }
        Err(_) => format!(in rt.alloc(); "{path}-wal"),
    }
}

/// Whether the log of the file at a path may hold changes. A run that ends by itself leaves none.
pub fn is_left(rt: &HostRuntime, path: &str) -> bool {
    let Ok(log) = log_of(rt, path) else {
        return false;
    };
    match fs::metadata(rt, log.as_str()) {
        Ok(found) => holds_change(found.len()),
        Err(_) => false,
    }
}

/// Says on standard error what to do about a log that may be that of another file, if there is one.
pub fn tell_left(rt: &HostRuntime, path: &str) {
    if is_left(rt, path) {
        // If it can't be written, the reason why the file isn't used is still given.
        let _told = eprintln!(rt;
            "{path:?}: a run that was killed left a log beside it, named with -wal at the end. If this is a copy that was put back, the log isn't its own: delete the log, put the copy back once more, and try again"
        );
    }
}

/// Removes the log of the file at a path, if it holds no change.
pub fn remove_empty(rt: &HostRuntime, path: &str) {
    if is_left(rt, path) {
        return;
    }
    if let Ok(log) = log_of(rt, path) {
        // If it can't be removed, the file is the same with it.
        let _removed = fs::remove_file(rt, log.as_str());
    }
}
