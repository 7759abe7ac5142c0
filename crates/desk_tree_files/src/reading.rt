//! Reads the files of a tree.

ghost use Rattle.std.specs.Prelude.{◌≡◌, ◌≤◌, IfOk, length, map};
ghost use Rattle.std.specs.String.{string_bytes};
ghost use Rattle.desk_tree_files.specs.Walking.{AreByPath};

use crate::fault::TreeFault;
use crate::walking::{paths_of, place};
use desk_base::{Items, Text, limits};
use desk_tree_gather::SourceFile;
use std::fs::{self, OpenFile};
use std::io::{self, ErrorKind, Read};
use std::rt::Files;

/// After how many files the count of those that were read is reported again.
const FILES_A_STEP: usize = 1_000;

// How much of a file is read at first, at most. More at once would have left the processor's caches
// by the time it is examined.
const FIRST_READ: usize = 128 * 1024;

// Reads what fits into some bytes, and returns how many were read: none if a signal interrupts it.
fn read_some<F: Read>(file: &mut F, bytes: &mut [u8]) -> io::Result<usize>
    ensures { IfOk result (λ count. count ≤ length bytes.new) }
{
    match file.read(bytes) {
        Ok(count) => Ok(count),
        Err(error) if error.kind() == ErrorKind::Interrupted => Ok(0),
        Err(error) => Err(error),
    }
}

// The bytes of a file, or nothing if there is now a pipe, a link or something else in its place,
// which isn't opened: opening a pipe would wait for a writer. The room is the reported size of the
// file, so that no more is taken than the file needs, and this much is read at first: so most files
// are read by one call. A file that grows is read up to its size when it was opened.
fn bytes_at<R: Files + AllocGlobal + Clone + Drop>(
    rt: &R,
    place: &str,
) -> io::Result<Option<Vec<u8>>> {
    if !fs::symlink_metadata(rt, place)?.is_file() {
        return Ok(None);
    }
    let mut file = fs::open(rt, place)?;
    let found = file.metadata()?;
    if !found.is_file() {
        return Ok(None);
    }
    let size = found.len();
    let room = usize::try_from(size).unwrap_or(usize::MAX);
    let mut bytes = Vec::with_capacity(rt.alloc(), room.saturating_add(1))?;
    bytes.resize(room.min(FIRST_READ), 0)?;
    let count = read_some(&mut file, bytes.as_mut_slice())?;
    bytes.truncate(count);
    file.take(size.saturating_sub(count as u64))
        .read_to_end(&mut bytes)?;
    Ok(Some(bytes))
}

// The file at a path.
fn file_at<R: Files + AllocGlobal + Clone + Drop>(
    rt: &R,
    root: &str,
    path: &str,
) -> Result<SourceFile, TreeFault>
    ensures { IfOk result (λ f. f.path ≡ path.now) }
{
    let alloc = rt.alloc();
    let place = place(alloc, root, path)?;
    match bytes_at(rt, place.as_str()) {
        Ok(Some(bytes)) => Ok(SourceFile {
            path: Text::of(alloc, path)?,
            bytes: Items::from_vec(bytes),
        }),
        Ok(None) => Err(TreeFault::Changed(place)),
        Err(error) => Err(TreeFault::Read(place, error)),
    }
}

// Reports on standard error how many of all files are read, on the line of the last report.
fn tell<R: Eprint>(rt: &R, count: usize, all: usize) {
    if count % FILES_A_STEP == 0 {
        // If it can't be reported, the files are still read.
        let _told = eprint!(rt; "\r{count} of {all} files read");
    }
}

// Clears the line of the report, of which the longest is `10000 of 10000 files read`.
fn clear<R: Eprint>(rt: &R, all: usize) {
    if all >= FILES_A_STEP {
        let _told = eprint!(rt; "\r                         \r");
    }
}

// The files at some paths.
fn read<R: Files + Eprint + AllocGlobal + Clone + Drop>(
    rt: &R,
    root: &str,
    paths: &[String],
    is_told: bool,
) -> Result<Vec<SourceFile>, TreeFault>
    ensures { IfOk result (λ files. map (λ f. f.path) files.items ≡ map string_bytes paths.now) }
{
    let mut files = Vec::new(rt.alloc());
    for path in paths {
        files.push(file_at(rt, root, path.as_str())?)?;
        if is_told {
            tell(rt, files.len(), paths.len());
        }
    }
    Ok(files)
}

// The same, with the report cleared at the end.
fn read_and_clear<R: Files + Eprint + AllocGlobal + Clone + Drop>(
    rt: &R,
    root: &str,
    paths: &[String],
    is_told: bool,
) -> Result<Vec<SourceFile>, TreeFault>
    ensures { IfOk result (λ files. map (λ f. f.path) files.items ≡ map string_bytes paths.now) }
{
    let files = read(rt, root, paths, is_told);
    if is_told {
        clear(rt, paths.len());
    }
    files
}

// The files at some paths, without their bytes.
fn unread_files<R: Files + AllocGlobal + Clone + Drop>(
    rt: &R,
    paths: &[String],
) -> Result<Vec<SourceFile>, TreeFault>
    ensures { IfOk result (λ files. map (λ f. f.path) files.items ≡ map string_bytes paths.now) }
{
    let alloc = rt.alloc();
    let mut files = Vec::new(alloc);
    for path in paths {
        files.push(SourceFile {
            path: Text::of(alloc, path.as_str())?,
            bytes: Items::new(alloc),
        })?;
    }
    Ok(files)
}

/// The files below a folder by path: all except links, anything else that is neither a file nor a
/// folder, and `.git` at the root. Of a folder with more than 10,000 files, from which nothing is
/// gathered, 10,001 or more are returned, without bytes. If `is_told`, the number of files read is
/// reported on standard error after each 1,000, each time in place of the last report, and cleared
/// at the end.
pub fn files_of<R: Files + Eprint + AllocGlobal + Clone + Drop>(
    rt: &R,
    root: &str,
    is_told: bool,
) -> Result<Vec<SourceFile>, TreeFault>
    ensures { IfOk result (λ files. AreByPath files.items) }
{
    let paths = paths_of(rt, root)?;
    if paths.len() > limits::TREE_FILES {
        return unread_files(rt, paths.as_slice());
    }
    read_and_clear(rt, root, paths.as_slice(), is_told)
}
