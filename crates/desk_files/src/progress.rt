//! How far the opening of a large file is, which is reported on standard error if that is a
//! terminal.

ghost use Rattle.std.specs.Prelude.{◌≡◌, length};

use std::fs;
use std::io::IsTerminal;

/// The size in bytes from which a file takes about a second to open.
const LARGE_FILE: u64 = 16_777_216;

/// What is done with a file before its desk does anything.
#[derive(Clone, Copy)]
pub enum Step {
    /// Its pages are read and checked.
    Pages,
    /// Its rows are audited.
    Rows,
}

impl Step {
    // What is reported of it. Later words cover earlier ones, and as many blanks clear them.
    fn words(self) -> &'static str
        ensures { length result.now ≡ 27 }
    {
        match self {
            Step::Pages => "step 1 of 2: checking pages",
            Step::Rows => "step 2 of 2: auditing rows ",
        }
    }
}

// Whether anybody watches, and opening the file at a path takes long.
fn is_told(rt: &HostRuntime, path: &str) -> bool {
    if !rt.stderr().is_terminal() {
        return false;
    }
    match fs::metadata(rt, path) {
        Ok(file) => file.len() >= LARGE_FILE,
        Err(_) => false,
    }
}

/// Reports which step is begun with the file at a path, on the line of the step before.
pub fn tell(rt: &HostRuntime, path: &str, step: Step) {
    if is_told(rt, path) {
        let words = step.words();
        // If it can't be reported, the file is still opened.
        let _told = eprint!(rt; "\r{words}");
    }
}

/// Clears the line on which this was reported.
pub fn clear(rt: &HostRuntime, path: &str) {
    if is_told(rt, path) {
        let _told = eprint!(rt; "\r                           \r");
    }
}
