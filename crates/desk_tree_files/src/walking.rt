//! Walks through the folders of a tree.

ghost use Rattle.std.specs.Prelude.{◌≡◌, IfOk};
ghost use Rattle.std.specs.String.{string_bytes};
ghost use Rattle.std.specs.List.Sorted.{IsSorted};
ghost use Rattle.std.specs.Ordering.{nat_cmp, on};
ghost use Rattle.std.specs.Cmp.Lexicographic.{slice_cmp};
ghost use Rattle.desk_tree_files.specs.Walking.{is_left_out, joined};

use crate::fault::TreeFault;
use desk_base::limits;
use std::alloc::{AllocError, Global};
use std::fs::{self, DirEntry};
use std::io;
use std::rt::Files;

// The files of a tree, and the folders in which more may be.
#[derive(Drop)]
struct Met {
    folders: Vec<String>,
    files: Vec<String>,
}

// The path of an entry with a name in a folder.
fn join_path(alloc: Global, folder: &str, name: &str) -> Result<String, AllocError>
    ensures { IfOk result (λ path. string_bytes path ≡ joined folder.now name.now) }
{
    if folder == "" {
        return String::from_str(alloc, name);
    }
    format!(in alloc; "{folder}/{name}")
}

// Whether something is left out because of its name.
fn is_left_out(folder: &str, name: &str) -> bool
    ensures { result ≡ is_left_out folder.now name.now }
{
    folder == "" && name == ".git"
}

/// Where a file or folder of a tree is.
pub(crate) fn place(alloc: Global, root: &str, path: &str) -> Result<String, AllocError> {
    if path == "" {
        return String::from_str(alloc, root);
    }
    if root.ends_with('/') {
        return format!(in alloc; "{root}{path}");
    }
    format!(in alloc; "{root}/{path}")
}

// Adds an entry of a folder to the files or to the folders, unless it is something else, such as a
// link.
fn note<R: Files + AllocGlobal + Clone + Drop>(
    rt: &R,
    met: &mut Met,
    folder: &str,
    entry: &DirEntry<R>,
) -> io::Result<()> {
    let alloc = rt.alloc();
    if is_left_out(folder, entry.file_name()) {
        return Ok(());
    }
    let kind = entry.file_type()?;
    if kind.is_dir() {
        met.folders
            .push(join_path(alloc, folder, entry.file_name())?)?;
    } else if kind.is_file() {
        met.files
            .push(join_path(alloc, folder, entry.file_name())?)?;
    }
    Ok(())
}

// Adds the entries of a folder.
fn list<R: Files + AllocGlobal + Clone + Drop>(
    rt: &R,
    met: &mut Met,
    folder: &str,
    place: &str,
) -> io::Result<()> {
    for entry in fs::read_dir(rt, place)? {
        note(rt, met, folder, &entry?)?;
    }
    Ok(())
}

// Whether what was a folder still is one, and not a link in its place. The root may be a link.
fn is_folder<R: Files + AllocGlobal + Clone + Drop>(
    rt: &R,
    folder: &str,
    place: &str,
) -> io::Result<bool> {
    if folder == "" {
        return Ok(true);
    }
    Ok(fs::symlink_metadata(rt, place)?.is_dir())
}

// Adds the entries of a folder, and returns whether it still is a folder.
fn list_folder<R: Files + AllocGlobal + Clone + Drop>(
    rt: &R,
    met: &mut Met,
    folder: &str,
    place: &str,
) -> io::Result<bool> {
    if !is_folder(rt, folder, place)? {
        return Ok(false);
    }
    list(rt, met, folder, place)?;
    Ok(true)
}

// Goes through the remaining folders, until there are more files than a tree may have.
fn walk<R: Files + AllocGlobal + Clone + Drop>(
    rt: &R,
    root: &str,
    met: &mut Met,
) -> Result<(), TreeFault> {
    let alloc = rt.alloc();
    for _ in 0..u64::MAX {
        let Some(folder) = met.folders.pop() else {
            break;
        };
        let place = place(alloc, root, folder.as_str())?;
        match list_folder(rt, met, folder.as_str(), place.as_str()) {
            Ok(true) => {}
            Ok(false) => return Err(TreeFault::Changed(place)),
            Err(error) => return Err(TreeFault::Read(place, error)),
        }
        // With one more file than a tree may have, no further one matters.
        if met.files.len() > limits::TREE_FILES {
            break;
        }
    }
    Ok(())
}

/// The paths of the files below a folder, in byte order.
pub(crate) fn paths_of<R: Files + AllocGlobal + Clone + Drop>(
    rt: &R,
    root: &str,
) -> Result<Vec<String>, TreeFault>
    ensures { IfOk result (λ paths. IsSorted (on string_bytes (slice_cmp nat_cmp)) paths.items) }
{
    let alloc = rt.alloc();
    let mut met = Met {
        folders: Vec::new(alloc),
        files: Vec::new(alloc),
    };
    met.folders.push(String::new(alloc))?;
    walk(rt, root, &mut met)?;
    let mut files = met.files;
    files.sort()?;
    Ok(files)
}
