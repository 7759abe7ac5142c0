//! What is reported about the files of a tree. The bytes of a file are dropped once it is reported.

ghost use Rattle.std.specs.Prelude.{◌≡◌, ◌<◌, [], List, IfOk, IfErr, OnOk, Ok, Err, option_map, filter, length, map};
ghost use Rattle.std.specs.List.{slice_get};
ghost use Rattle.desk_tree_gather.specs.Digests.{told_at, all_told};
ghost use Rattle.desk_tree_infos.specs.Readers.{Reader, IsRightReader};
ghost use Rattle.desk_tree_infos.specs.Folders.{Holds};
ghost use Rattle.desk_tree_gather.specs.Gathering.{holder};
ghost use Rattle.desk_tree_gather.specs.Paths.{is_toml};
ghost use Rattle.desk_tree_gather.specs.Shown.{Gives, file_of, files_of, held_in, left_in};
ghost use Rattle.desk_tree_gather.specs.Telling.{told, told_in, told_beside};
ghost use Rattle.desk_tree_infos.specs.Tomls.{TomlText};
ghost use Rattle.desk_tree_gather.specs.Tomls.{tomls_of};
ghost use Rattle.desk_tree_gather.specs.Trees.{bytes_at, placed, tree_of};

use crate::fault::GatherFault;
use crate::files::{File, SourceFile, is_covered, is_toml};
use crate::gathering::{info_with, stated_in};
use crate::holding::{Held, beside, holder_by};
use crate::paths::is_path;
use crate::tomls::tomls_of;
use desk_base::{Items, Key, limits};
use desk_tree_annotations::Annotation;
use desk_tree_infos::{Covered, FileInfo, Folders, Infos, Trail, by_folder, counting, info_at};
use sha1::Sha1;
use std::alloc::{AllocError, Global};
use std::collections::BTreeMap;
use std::marker::Model;

/// What is reported about a file.
#[derive(Drop)]
pub struct ToldFile {
    /// Its information.
    pub info: FileInfo,
    /// The SHA1 digest of its bytes.
    pub digest: [u8; 20],
}

// A covered file, and the SHA1 digest of its bytes.
#[derive(Drop)]
pub(crate) struct Digested {
    pub(crate) info: Covered,
    pub(crate) digest: [u8; 20],
}

/// What is reported about the covered files of a tree, by path, seen as a list with one item for
/// each file. What an annotation gives is kept once.
#[derive(Drop)]
pub struct ToldFiles {
    annotations: Vec<Annotation>,
    files: Vec<Digested>,
}

impl Model for ToldFiles {
    ghost use Rattle.std.specs.Prelude.{List};
    ghost use Rattle.desk_tree_gather.specs.declared.telling.ToldFile.{ToldFile};

    ghost Value = { List ToldFile };

    ghost use Rattle.desk_tree_gather.specs.Digests.{all_told};

    ghost view = { λ t. all_told t.annotations.items t.files.items };
}

// The files without their digests.
fn without_digests(alloc: Global, files: Vec<Digested>) -> Result<Vec<Covered>, AllocError>
    ensures { IfOk result (λ v. v.items ≡ map (λ file. file.info) files.items) }
{
    let mut covered = Vec::new(alloc);
    for file in files {
        covered.push(file.info)?;
    }
    Ok(covered)
}

impl ToldFiles {
    // Files that have the numbers of these annotations.
    fn of(annotations: Vec<Annotation>, files: Vec<Digested>) -> ToldFiles
        ensures { result ≡ all_told annotations.items files.items }
    {
        ToldFiles { annotations, files }
    }

    /// How many files there are.
    pub fn len(&self) -> usize
        ensures { result ≡ length self.now }
    {
        self.files.len()
    }

    /// What is reported about one of them, by its place. The only error is lack of memory.
    pub fn file(&self, alloc: Global, place: usize) -> Result<ToldFile, AllocError>
        requires { place < length self.now }
        ensures { IfOk result (λ file. slice_get self.now place ≡ Some file) }
    {
        let file = &self.files[place];
        Ok(ToldFile {
            info: info_at(alloc, self.annotations.as_slice(), &file.info)?,
            digest: file.digest,
        })
    }

    /// The information of the files. The only error is lack of memory.
    pub fn into_infos(self, alloc: Global) -> Result<Infos, AllocError>
        ensures { IfOk result (λ infos. infos ≡ map (λ file. file.info) self) }
    {
        let ToldFiles { annotations, files } = self;
        let covered = without_digests(alloc, files)?;
        Ok(Infos::of(annotations, covered))
    }
}

// The files by path, or the first fault of their paths.
fn place_files(
    alloc: Global,
    files: Vec<SourceFile>,
) -> Result<Result<BTreeMap<Key, Items<u8>>, GatherFault>, AllocError>
    ensures { IfOk result (Gives (placed [] files.items) left_in) }
{
    let mut left = BTreeMap::new(alloc);
    for file in files {
        let SourceFile { path, bytes } = file;
        let told = is_path(alloc, path.as_str())?;
        if !told {
            return Ok(Err(GatherFault::BadPath));
        }
        let path = Key::exact(alloc, path.as_str())?;
        let other = left.insert(path, bytes)?;
        if other.is_some() {
            return Ok(Err(GatherFault::TwicePath));
        }
    }
    Ok(Ok(left))
}

// The files by path, or the first fault of the tree.
fn tree_of(
    alloc: Global,
    files: Vec<SourceFile>,
) -> Result<Result<BTreeMap<Key, Items<u8>>, GatherFault>, AllocError>
    ensures { IfOk result (Gives (tree_of files.items) left_in) }
{
    if files.len() > limits::TREE_FILES {
        return Ok(Err(GatherFault::TooManyFiles));
    }
    place_files(alloc, files)
}

// The REUSE.toml files of a tree.
fn toml_files<'a>(
    alloc: Global,
    tree: &'a BTreeMap<Key, Items<u8>>,
) -> Result<Vec<File<'a>>, AllocError>
    ensures { IfOk result (λ v. files_of v.items ≡ filter is_toml (left_in tree.now)) }
{
    let mut tomls = Vec::new(alloc);
    for (path, bytes) in tree {
        let file = File {
            path: path.as_str(),
            bytes: bytes.as_slice(),
        };
        if is_toml(file) {
            tomls.push(file)?;
        }
    }
    Ok(tomls)
}

// The annotations of a tree by folder.
fn folders_of(
    alloc: Global,
    tree: &BTreeMap<Key, Items<u8>>,
) -> Result<Result<Folders, GatherFault>, AllocError>
    ensures ok { (r : Reader) → IsRightReader r → IfOk result (λ x. IfOk x (λ folders.
        (tomls : List TomlText) × (tomls_of r (left_in tree.now) ≡ Ok tomls)
        × Holds tomls folders)) }
    ensures err { (r : Reader) → IsRightReader r
        → IfOk result (λ x. IfErr x (λ f. tomls_of r (left_in tree.now) ≡ Err f)) }
{
    let files = toml_files(alloc, tree)?;
    let tomls = match tomls_of(alloc, files.as_slice())? {
        Ok(tomls) => tomls,
        Err(fault) => return Ok(Err(fault)),
    };
    let folders = by_folder(alloc, tomls)?;
    Ok(Ok(folders))
}

// The bytes of the file at a path.
fn bytes_at<'a>(tree: &'a BTreeMap<Key, Items<u8>>, path: &Key) -> Option<&'a [u8]>
    ensures { option_map (λ bytes. bytes.now) result ≡ bytes_at (left_in tree.now) path.now }
{
    match tree.get(path) {
        Some(bytes) => Some(bytes.as_slice()),
        None => None,
    }
}

// The file whose tags are a file's own information: the `.license` file beside it, among the
// remaining files, or the file itself.
fn holder<'a>(
    alloc: Global,
    left: &'a BTreeMap<Key, Items<u8>>,
    file: File<'a>,
) -> Result<Held<'a>, AllocError>
    ensures { IfOk result (λ h. held_in h ≡ holder (left_in left.now) (file_of file.entry)) }
{
    let beside = beside(alloc, file.path)?;
    let path = Key::exact(alloc, beside.as_str())?;
    holder_by(alloc, beside.as_str(), file, bytes_at(left, &path))
}

// What is reported about a file, from itself and the remaining files, with the trail of the file
// before.
fn told_beside(
    alloc: Global,
    left: &BTreeMap<Key, Items<u8>>,
    trail: &mut Trail<'_>,
    file: File<'_>,
) -> Result<Result<Digested, GatherFault>, AllocError>
    ensures same { OnOk result (trail.new.folders.now ≡ trail.old.folders.now) }
    ensures told { (r : Reader) → IsRightReader r → (tomls : List TomlText)
        → Holds tomls trail.old.folders.now
        → IfOk result (Gives (told_beside r tomls (left_in left.now) (file_of file.entry))
        (told_at trail.old.folders.now.all.items)) }
{
    let held = holder(alloc, left, file)?;
    let own = match stated_in(alloc, held.path.as_str(), held.bytes)? {
        Ok(own) => own,
        Err(fault) => return Ok(Err(fault)),
    };
    let counting = counting(alloc, trail, file.path)?;
    let all = trail.folders.all.as_slice();
    let info = info_with(alloc, file.path, all, counting.as_slice(), &own)?;
    let digest = Sha1::digest(file.bytes);
    Ok(Ok(Digested { info, digest }))
}

// What is reported about the covered files of a tree, with the trail of the file before. A
// `.license` file comes after the file that it is beside, and so is among the remaining ones.
fn each_told(
    alloc: Global,
    tree: BTreeMap<Key, Items<u8>>,
    trail: &mut Trail<'_>,
) -> Result<Result<Vec<Digested>, GatherFault>, AllocError>
    ensures { (r : Reader) → IsRightReader r → (tomls : List TomlText)
        → Holds tomls trail.old.folders.now
        → IfOk result (Gives (told_in r tomls (left_in tree))
        (λ v. all_told trail.old.folders.now.all.items v.items)) }
{
    let mut left = tree;
    let mut list = Vec::new(alloc);
    while let Some((path, bytes)) = left.pop_first() {
        let file = File {
            path: path.as_str(),
            bytes: bytes.as_slice(),
        };
        if !is_covered(file) {
            continue;
        }
        match told_beside(alloc, &left, trail, file)? {
            Ok(told) => list.push(told)?,
            Err(fault) => return Ok(Err(fault)),
        }
    }
    Ok(Ok(list))
}

// What is reported about the covered files of a tree, with the numbers of annotations.
fn files_told(
    alloc: Global,
    tree: BTreeMap<Key, Items<u8>>,
    folders: &Folders,
) -> Result<Result<Vec<Digested>, GatherFault>, AllocError>
    ensures { (r : Reader) → IsRightReader r → (tomls : List TomlText)
        → Holds tomls folders.now
        → IfOk result (Gives (told_in r tomls (left_in tree))
        (λ v. all_told folders.now.all.items v.items)) }
{
    let mut trail = Trail::of(alloc, folders)?;
    each_told(alloc, tree, &mut trail)
}

// What is reported about the covered files of a tree.
fn told_in(
    alloc: Global,
    tree: BTreeMap<Key, Items<u8>>,
    folders: Folders,
) -> Result<Result<ToldFiles, GatherFault>, AllocError>
    ensures { (r : Reader) → IsRightReader r → (tomls : List TomlText) → Holds tomls folders
        → IfOk result (Gives (told_in r tomls (left_in tree)) (λ told. told)) }
{
    let files = match files_told(alloc, tree, &folders)? {
        Ok(files) => files,
        Err(fault) => return Ok(Err(fault)),
    };
    Ok(Ok(ToldFiles::of(folders.all, files)))
}

/// What is reported about each covered file by path, or the first fault, as in `gathered`. The
/// bytes of each file are dropped once it is reported.
///
/// For each right reader it is what `told` says: what is gathered, each with the SHA1 digest of its
/// file. The only error is lack of memory.
pub fn gather_files(
    alloc: Global,
    files: Vec<SourceFile>,
) -> Result<Result<ToldFiles, GatherFault>, AllocError>
    ensures { (r : Reader) → IsRightReader r
        → IfOk result (Gives (told r files.items) (λ told. told)) }
{
    let tree = match tree_of(alloc, files)? {
        Ok(tree) => tree,
        Err(fault) => return Ok(Err(fault)),
    };
    let folders = match folders_of(alloc, &tree)? {
        Ok(folders) => folders,
        Err(fault) => return Ok(Err(fault)),
    };
    told_in(alloc, tree, folders)
}
