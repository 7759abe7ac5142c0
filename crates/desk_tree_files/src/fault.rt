//! Why the files of a folder can't be read.

use std::alloc::AllocError;
use std::io;
use thiserror::Error;

/// Why the files of a folder can't be read.
#[derive(Debug, Drop, Error)]
pub enum TreeFault {
    /// No memory was left.
    #[error("no memory is left")]
    Memory(#[from(alloc)] AllocError),
    /// A file or folder can't be read, or a name in it isn't UTF-8: its path, and why.
    #[error("cannot read {0:?}: {1}")]
    Read(String, io::Error),
    /// What was a file or folder, but no longer is: its path.
    #[error("cannot read {0:?}: it is no file or folder any more; try again when nothing changes the folder")]
    Changed(String),
}
