//! The notices of a tree.

ghost use Rattle.std.specs.Prelude.{◌≡◌, List, IfOk, OnOk, map};
ghost use Rattle.desk_tree_gather.specs.Shown.{tree_in};
ghost use Rattle.desk_tree_gather.specs.Survey.{infos_sifted, kept};
ghost use Rattle.desk_tree_gather.specs.Trees.{bytes_of};
ghost use Rattle.desk_tree_infos.specs.Firsts.{first_in};
ghost use Rattle.desk_tree_infos.specs.Readers.{Reader};
ghost use Rattle.desk_tree_gather.specs.declared.files.SourceFile.{SourceFile};
ghost use Rattle.desk_credits.specs.declared.notice.Notice.{Notice};
ghost use Rattle.desk_credits.specs.Notices.{AreNotices, IsKnown, UsesIn, UsesOf, with_notices};

use crate::finding::add_notices_in;
use crate::notice::Notice;
use crate::notices::{Known, no_notices};
use desk_tree_gather::{First, Subject, Surveyed, bytes_at};
use std::alloc::{AllocError, Global};
use std::collections::BTreeMap;

// The bytes of the file at a path, none if there is no such file.
fn bytes_of<'a>(tree: &BTreeMap<&'a str, &'a [u8]>, path: &str) -> &'a [u8]
    ensures { result.now ≡ bytes_of (tree_in tree.now) path.now }
{
    match bytes_at(tree, path) {
        Some(bytes) => bytes,
        None => b"",
    }
}

// Adds the notices of a file.
fn add_file<'a>(
    alloc: Global,
    known: &mut Known,
    tree: &BTreeMap<&'a str, &'a [u8]>,
    file: &First<'_>,
) -> Result<(), AllocError>
    requires { IsKnown known.old }
    ensures known { OnOk result (IsKnown known.new) }
    ensures added { OnOk result ((uses : List Notice)
        × UsesOf (tree_in tree.now) (first_in file.now) uses
        × (known.new.notices.items ≡ with_notices known.old.notices.items uses)) }
{
    known.add_stated(alloc, file.texts.as_slice())?;
    add_notices_in(alloc, known, file.path, bytes_of(tree, file.path))
}

// Adds the notices of several files.
fn add_files<'a>(
    alloc: Global,
    known: &mut Known,
    tree: &BTreeMap<&'a str, &'a [u8]>,
    files: &[First<'_>],
) -> Result<(), AllocError>
    requires { IsKnown known.old }
    ensures known { OnOk result (IsKnown known.new) }
    ensures added { OnOk result ((uses : List Notice)
        × UsesIn (tree_in tree.now) (map first_in files.now) uses
        × (known.new.notices.items ≡ with_notices known.old.notices.items uses)) }
{
    for file in files {
        add_file(alloc, known, tree, file)?;
    }
    Ok(())
}

/// The notices of a tree that was surveyed, each once, in the order of first use: the covered files
/// by path; of each, first the notices that gathering finds, in byte order, and then those that its
/// lines have by pattern. The only error is lack of memory.
pub(crate) fn notices_of(alloc: Global, surveyed: &Surveyed<'_>) -> Result<Vec<Notice>, AllocError>
    ensures { (r : Reader) (files : List SourceFile)
        → tree_in surveyed.now.tree ≡ kept files
        → surveyed.now.infos ≡ infos_sifted r (kept files)
        → IfOk result (λ v. AreNotices r files v.items) }
{
    let mut known = no_notices(alloc);
    let files = surveyed.infos.firsts(alloc, Subject::Notices)?;
    add_files(alloc, &mut known, &surveyed.tree, files.as_slice())?;
    Ok(known.notices)
}
