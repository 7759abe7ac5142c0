//! The files of a tree.

ghost use Rattle.std.specs.Prelude.{◌≡◌, IfOk, option_map};
ghost use Rattle.desk_tree_gather.specs.Paths.{is_toml, is_covered};
ghost use Rattle.desk_tree_gather.specs.Trees.{bytes_at};
ghost use Rattle.desk_tree_gather.specs.Shown.{file_of, files_of, tree_in};

use crate::paths::{is_left_out, name_of};
use desk_base::{Items, Text};
use std::alloc::{AllocError, Global};
use std::collections::BTreeMap;

/// A file of a source tree.
#[derive(Drop)]
pub struct SourceFile {
    /// Its path from the tree's root, with `/` between its parts.
    pub path: Text,
    /// What it holds.
    pub bytes: Items<u8>,
}

/// A file that is borrowed.
#[derive(Clone, Copy)]
pub(crate) struct File<'a> {
    pub(crate) path: &'a str,
    pub(crate) bytes: &'a [u8],
}

/// The files in the order of their paths.
pub(crate) fn files_of<'a>(
    alloc: Global,
    tree: &BTreeMap<&'a str, &'a [u8]>,
) -> Result<Vec<File<'a>>, AllocError>
    ensures { IfOk result (λ v. files_of v.items ≡ tree_in tree.now) }
{
    let mut files = Vec::new(alloc);
    for (path, bytes) in tree {
        files.push(File { path, bytes })?;
    }
    Ok(files)
}

/// The bytes of the file at a path. Takes no memory.
pub fn bytes_at<'a>(tree: &BTreeMap<&'a str, &'a [u8]>, path: &str) -> Option<&'a [u8]>
    ensures { option_map (λ bytes. bytes.now) result ≡ bytes_at (tree_in tree.now) path.now }
{
    match tree.get(path) {
        Some(bytes) => Some(*bytes),
        None => None,
    }
}

/// Whether a file is a REUSE.toml.
pub(crate) fn is_toml(file: File<'_>) -> bool
    ensures { result ≡ is_toml (file_of file.entry) }
{
    name_of(file.path.as_bytes()) == b"REUSE.toml".as_slice()
}

/// Whether a file is covered.
pub(crate) fn is_covered(file: File<'_>) -> bool
    ensures { result ≡ is_covered (file_of file.entry) }
{
    let path = file.path.as_bytes();
    !file.bytes.is_empty() && !is_left_out(path, name_of(path))
}
