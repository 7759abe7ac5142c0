//! The way to a path, from the root to its folder, with the numbers of the annotations of each
//! folder on it.
//!
//! Files come in the order of their paths, so the folders of a file are mostly those of the file
//! before: each is looked up once.

ghost use Rattle.std.specs.Prelude.{◌≡◌, ◌≤◌, ◌∷◌, ◌++◌, length, map, IfOk, OnOk, IfSome, IfNone, List, ℕ};
ghost use Rattle.desk_tree_infos.specs.Folders.{kept_for};
ghost use Rattle.desk_tree_infos.specs.Information.{rests};
ghost use Rattle.desk_tree_infos.specs.Ways.{way, ways, Shares, lists_of};

use crate::folders::{Folders, numbers_in};
use std::alloc::{AllocError, Global};

/// The folders on the way to a path, with the numbers of the annotations of each.
#[derive(Drop)]
pub struct Trail<'m> {
    /// The annotations of the tree.
    pub folders: &'m Folders,
    pub(crate) path: Vec<u8>,
    pub(crate) lists: Vec<&'m [usize]>,
    ghost along: { lists_of lists.items ≡ map (kept_for folders.now) (ways path.items) },
}

// The first byte of two texts, if it is the same, and what follows it in each.
fn both_begin<'a, 'b>(one: &'a [u8], other: &'b [u8]) -> Option<(u8, &'a [u8], &'b [u8])>
    ensures one { IfSome result (λ r. one.now ≡ r.0 ∷ r.1.now) }
    ensures other { IfSome result (λ r. other.now ≡ r.0 ∷ r.2.now) }
    ensures none { IfNone result ((byte : ℕ) (x y : List ℕ)
        → one.now ≡ byte ∷ x → other.now ≡ byte ∷ y → ⊥) }
{
    let (byte, behind) = one.split_first()?;
    let (same, after) = other.split_first()?;
    if *byte == *same {
        Some((*byte, behind, after))
    } else {
        None
    }
}

// How many folders are on the way to both paths, and what follows them in the second path.
fn shared_folders<'a>(before: &[u8], path: &'a [u8]) -> (usize, &'a [u8])
    ensures shares { Shares before.now path.now result.0 result.1.now }
    ensures within { length result.1.now ≤ length path.now }
{
    let mut folders = 1;
    let mut rest = path;
    let mut old = before;
    let mut new = path;
    while let Some((byte, behind, after)) = both_begin(old, new) {
        if byte == b'/' {
            folders += 1;
            rest = after;
        }
        old = behind;
        new = after;
    }
    (folders, rest)
}

// Adds the numbers of the annotations of the folders in the rest of a path.
fn add_behind<'m>(
    folders: &'m Folders,
    path: &[u8],
    rest: &[u8],
    lists: &mut Vec<&'m [usize]>,
) -> Result<(), AllocError>
    requires { length rest.now ≤ length path.now }
    ensures { OnOk result (lists_of lists.new.items ≡ lists_of lists.old.items
        ++ map (kept_for folders.now) (map (way path.now) (rests rest.now))) }
{
    let mut rest = rest;
    while let Some((byte, after)) = rest.split_first() {
        if *byte == b'/' {
            let (folder, _) = path.split_at(path.len() - after.len());
            lists.push(numbers_in(folders, folder))?;
        }
        rest = after;
    }
    Ok(())
}

impl<'m> Trail<'m> {
    /// The way to the root.
    pub fn of(alloc: Global, folders: &'m Folders) -> Result<Trail<'m>, AllocError>
        ensures { IfOk result (λ t. t.folders.now ≡ folders.now) }
    {
        let mut lists = Vec::new(alloc);
        lists.push(numbers_in(folders, b""))?;
        Ok(Trail {
            folders,
            path: Vec::new(alloc),
            lists,
        })
    }

    /// The way to another path.
    pub(crate) fn to(&self, alloc: Global, path: &str) -> Result<Trail<'m>, AllocError>
        ensures same { IfOk result (λ t. t.folders.now ≡ self.now.folders.now) }
        ensures path { IfOk result (λ t. t.path.items ≡ path.now) }
    {
        let path = path.as_bytes();
        let (same, rest) = shared_folders(self.path.as_slice(), path);
        let mut lists = Vec::from_slice(alloc, self.lists.as_slice())?;
        lists.truncate(same);
        add_behind(self.folders, path, rest, &mut lists)?;
        Ok(Trail {
            folders: self.folders,
            path: Vec::from_slice(alloc, path)?,
            lists,
        })
    }

    /// The numbers of the annotations of each folder, from the root.
    pub(crate) fn lists(&self) -> &[&'m [usize]]
        ensures { lists_of result.now ≡ map (kept_for self.now.folders.now)
            (ways self.now.path.items) }
    {
        self.lists.as_slice()
    }
}
