//! Copies of files.

use crate::private::new_file;
use std::fs::{self, File};
use std::io::{self, Read, Write};

/// How many bytes of a file are copied at once.
const PIECE: usize = 65_536;

// Copies what a reader gives.
fn copy<R: Read, W: Write>(reader: &mut R, writer: &mut W, piece: &mut [u8]) -> io::Result<()> {
    for _ in 0..u64::MAX {
        let count = reader.read(piece)?;
        if count == 0 {
            return Ok(());
        }
        writer.write_all(&piece[..count])?;
    }
    Ok(())
}

/// Copies a file that is open to a new file for its owner alone, which is on the disk once this is
/// done. If it fails, there is no new file.
pub fn copy_to(rt: &HostRuntime, file: &mut File, to: &str) -> io::Result<()> {
    let mut piece = vec![in rt.alloc(); 0; PIECE]?;
    let mut made = new_file(rt, to)?;
    let copied = copy(file, &mut made, piece.as_mut_slice());
    let synced = made.sync_all();
    if copied.is_err() || synced.is_err() {
        // (what is there is no copy)
        let _removed = fs::remove_file(rt, to);
    }
    copied?;
    synced
}
