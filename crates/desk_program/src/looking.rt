//! What is looked at in the desk of a file: lists of what it holds, and what is proposed for a
//! document.

use desk_inspect::{documents, duties, releases};
use desk_line::Listed;
use desk_lists::DutyFilter;
use desk_store::SqlDesk;
use desk_subcommands::{Failure, Teller};
use sqlite::Alter;
use std::io::{IsTerminal, Write};

/// Writes a list of what a desk holds.
pub fn list<S: Alter, W: Write, E: Write>(
    rt: &HostRuntime,
    desk: &mut SqlDesk<S>,
    list: &Listed,
    writer: &mut W,
    teller: &mut Teller<E>,
) -> Result<u8, Failure> {
    let alloc = rt.alloc();
    let in_columns = rt.stdout().is_terminal();
    match list {
        Listed::Releases => releases(alloc, desk, in_columns, writer),
        Listed::Documents => documents(alloc, desk, in_columns, writer),
        Listed::Duties {
            release,
            code,
            is_open,
            past,
        } => {
            let wanted = DutyFilter {
                release: release.as_ref().map(|release| release.as_str()),
                code: code.as_ref().map(|code| code.as_str()),
                still_open: *is_open,
                past: past.as_ref().map(|day| day.as_str()),
            };
            duties(
                alloc,
                desk,
                &wanted,
                in_columns,
                writer,
                teller,
                &mut rt.stderr(),
            )
        }
    }
}

/// Writes what is proposed for a document that a desk holds.
pub fn proposals<S: Alter, W: Write, E: Write>(
    rt: &HostRuntime,
    desk: &mut SqlDesk<S>,
    document: u32,
    writer: &mut W,
    teller: &mut Teller<E>,
) -> Result<u8, Failure> {
    desk_inspect::proposals(rt.alloc(), desk, document, writer, teller, &mut rt.stderr())
}
