//! The annotations of a tree: each has a number, and each folder has the numbers of its
//! annotations.

ghost use Rattle.std.specs.Prelude.{◌≡◌, ◌++◌, List, IfOk, OnOk};
ghost use Rattle.desk_tree_infos.specs.Folders.{kept_for, Holds};
ghost use Rattle.desk_tree_infos.specs.Sharing.{annotations_at};
ghost use Rattle.desk_tree_infos.specs.Tomls.{tomls_in};

use desk_tree_annotations::{Annotation, Annotations};
use std::alloc::{AllocError, Global};
use std::collections::BTreeMap;

/// A REUSE.toml.
#[derive(Drop)]
pub struct Toml<'a> {
    /// Its folder, with a slash at its end; nothing for the root.
    pub folder: &'a [u8],
    /// What it says.
    pub annotations: Annotations,
}

/// The annotations of a tree. The number of an annotation is its place among all of them.
#[derive(Drop)]
pub struct Folders {
    /// All of them.
    pub all: Vec<Annotation>,
    pub(crate) numbers: BTreeMap<Vec<u8>, Vec<usize>>,
}

// Adds annotations to others, and returns their numbers.
fn add(
    alloc: Global,
    all: &mut Vec<Annotation>,
    annotations: Annotations,
) -> Result<Vec<usize>, AllocError>
    ensures all { OnOk result (all.new.items ≡ all.old.items ++ annotations.list) }
    ensures numbers { IfOk result (λ v. (more : List Annotation)
        → annotations_at (all.new.items ++ more) v.items ≡ annotations.list) }
{
    let mut numbers = Vec::new(alloc);
    for annotation in annotations.list.into_vec() {
        numbers.push(all.len())?;
        all.push(annotation)?;
    }
    Ok(numbers)
}

/// The annotations of REUSE.toml files by folder.
pub fn by_folder(alloc: Global, tomls: Vec<Toml<'_>>) -> Result<Folders, AllocError>
    ensures { IfOk result (Holds (tomls_in tomls.entry.items)) }
{
    let mut tomls = tomls;
    let mut all = Vec::new(alloc);
    let mut numbers = BTreeMap::new(alloc);
    while let Some(toml) = tomls.pop() {
        let Toml {
            folder,
            annotations,
        } = toml;
        let listed = add(alloc, &mut all, annotations)?;
        numbers.insert(Vec::from_slice(alloc, folder)?, listed)?;
    }
    Ok(Folders { all, numbers })
}

/// The numbers of the annotations of a folder.
pub(crate) fn numbers_in<'m>(folders: &'m Folders, folder: &[u8]) -> &'m [usize]
    ensures { result.now ≡ kept_for folders.now folder.now }
{
    match folders.numbers.get(folder) {
        Some(numbers) => numbers.as_slice(),
        None => &[],
    }
}
