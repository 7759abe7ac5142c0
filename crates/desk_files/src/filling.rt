//! Files from which notices are filled.

use crate::input::bytes_at;
use desk_base::{Items, Text};
use desk_fill::{Fill, FillFault, read_fill};
use desk_subcommands::Failure;

/// What the files at some paths say, or none if one is no such file: standard error says why.
pub fn fills_at(rt: &HostRuntime, paths: &[Text]) -> Result<Option<Items<Fill>>, Failure> {
    let mut fills = Items::new(rt.alloc());
    for path in paths {
        let path = path.as_str();
        let bytes = bytes_at(rt, path)?;
        match read_fill(rt.alloc(), bytes.as_slice()) {
            Ok(fill) => fills.push(fill)?,
            Err(FillFault::Memory(error)) => return Err(Failure::from(error)),
            Err(FillFault::Refused(flaw)) => {
                eprintln!(rt; "{path:?}: {flaw}")?;
                return Ok(None);
            }
        }
    }
    Ok(Some(fills))
}
