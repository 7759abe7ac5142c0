//! Scripts, and what is reported about them on standard error.

use desk_core::desk::Desk;
use desk_subcommands::{Explainer, Failure};
use std::io::{Read, Write};

/// How a script goes on after lines that aren't done.
#[derive(Clone, Copy)]
pub struct Course {
    /// Whether they are explained on standard error.
    pub is_explained: bool,
    /// Whether the script ends at the first of them.
    pub is_stopped: bool,
}

/// Replies to the requests that a reader gives, and reports on standard error what isn't done.
pub fn script<D: Desk, R: Read, W: Write>(
    rt: &HostRuntime,
    desk: &mut D,
    reader: &mut R,
    writer: &mut W,
    course: Course,
) -> Result<u8, Failure> {
    let alloc = rt.alloc();
    let mut watch = Explainer::new(alloc, rt.stderr(), course.is_explained, course.is_stopped);
    let status = desk_subcommands::script(alloc, desk, reader, writer, &mut watch);
    // If writing to standard error fails too, there is nobody left to tell.
    let _told = watch.tell_counts();
    status
}
