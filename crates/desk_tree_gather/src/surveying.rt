//! All that is wrong in a tree, and what is gathered from the rest of it.

ghost use Rattle.std.specs.Prelude.{◌≡◌, ◌++◌, [], true, IfOk, IfSome, OnOk, map, filter, option_to_list, List};
ghost use Rattle.std.specs.List.{flat_map};
ghost use Rattle.desk_tree_annotations.specs.Tags.{tag_text};
ghost use Rattle.desk_tree_annotations.specs.Right.{Tells};
ghost use Rattle.desk_tree_infos.specs.Readers.{Reader, IsRightReader};
ghost use Rattle.desk_tree_gather.specs.Paths.{is_toml, is_covered};
ghost use Rattle.desk_tree_infos.specs.Tomls.{TomlText, toml_in, tomls_in};
ghost use Rattle.desk_tree_infos.specs.Folders.{Holds};
ghost use Rattle.desk_tree_gather.specs.Blanks.{blanks_of, blanks_in};
ghost use Rattle.desk_tree_gather.specs.Gathering.{holder};
ghost use Rattle.desk_tree_gather.specs.Survey.{path_flaw, with_file, sifted, path_flaws, flaw_of, toml_flaws, toml_sifted, tag_flaws, stated_flaws, kept, tree_flaws, flaws_of, info_sifted, infos_sifted};
ghost use Rattle.desk_tree_infos.specs.Sharing.{info_at, infos_at};
ghost use Rattle.desk_tree_gather.specs.Shown.{file_of, files_of, held_in, tree_in, stated_of};

use crate::blanks::{Blank, add_blanks};
use crate::files::{File, SourceFile, bytes_at, files_of, is_covered, is_toml};
use crate::flaw::Flaw;
use crate::gathering::info_with;
use crate::holding::{Held, beside, holder_by};
use crate::paths::{folder_of, is_path};
use desk_base::{Items, Text, limits};
use desk_tree_annotations::{
    Annotations, AnnotationsFault, Info, SharedText, Sifted, Tagged, header, is_expression_beside,
};
use desk_tree_infos::{Covered, Folders, Infos, Toml, Trail, by_folder, counting};
use std::alloc::{AllocError, Global};
use std::collections::BTreeMap;

/// All that is wrong in a tree, and what is gathered from the rest.
#[derive(Drop)]
pub struct Surveyed<'a> {
    /// The bytes of its files by path, without those whose path is wrong; none if there are more
    /// than 10,000 files.
    pub tree: BTreeMap<&'a str, &'a [u8]>,
    /// That there are too many files; or what is wrong with the paths, in the order of the files,
    /// with the REUSE.toml files, by path, and with what the covered files state, by path.
    pub flaws: Items<Flaw>,
    /// Annotations with a licence that no document can hold, by path, from each REUSE.toml whose
    /// annotations can all be read.
    pub blanks: Items<Blank>,
    /// The information of the covered files by path, from the annotations that can be read. A tag
    /// that isn't a licence expression is kept as it is written.
    pub infos: Infos,
}

// The files by path, and the annotations by folder.
#[derive(Drop)]
struct Known<'a> {
    tree: BTreeMap<&'a str, &'a [u8]>,
    folders: Folders,
}

// What is wrong with the path of a file that is added to others.
fn path_flaw<'a>(
    alloc: Global,
    tree: &BTreeMap<&'a str, &'a [u8]>,
    path: &str,
) -> Result<Option<Flaw>, AllocError>
    ensures { IfOk result (λ flaw. flaw ≡ path_flaw (tree_in tree.now) path.now) }
{
    let told = is_path(alloc, path)?;
    if !told {
        return Ok(Some(Flaw::BadPath(Text::of(alloc, path)?)));
    }
    let other = bytes_at(tree, path);
    if other.is_some() {
        return Ok(Some(Flaw::TwicePath(Text::of(alloc, path)?)));
    }
    Ok(None)
}

// Adds a file to others, or reports what is wrong with its path.
fn put<'a>(
    alloc: Global,
    tree: &mut BTreeMap<&'a str, &'a [u8]>,
    file: &'a SourceFile,
    flaws: &mut Items<Flaw>,
) -> Result<(), AllocError>
    ensures tree { OnOk result (tree_in tree.new ≡ with_file file.now (tree_in tree.old)) }
    ensures flaws { OnOk result (flaws.new ≡ flaws.old ++ option_to_list
        (path_flaw (tree_in tree.old) file.now.path)) }
{
    let path = file.path.as_str();
    match path_flaw(alloc, tree, path)? {
        Some(flaw) => flaws.push(flaw),
        None => {
            tree.insert(path, file.bytes.as_slice())?;
            Ok(())
        }
    }
}

// The files by path, without those whose path is wrong.
fn tree_kept<'a>(
    alloc: Global,
    files: &'a [SourceFile],
    flaws: &mut Items<Flaw>,
) -> Result<BTreeMap<&'a str, &'a [u8]>, AllocError>
    ensures tree { IfOk result (λ t. tree_in t ≡ sifted [] files.now) }
    ensures flaws { OnOk result (flaws.new ≡ flaws.old ++ path_flaws [] files.now) }
{
    let mut tree = BTreeMap::new(alloc);
    for file in files {
        put(alloc, &mut tree, file, flaws)?;
    }
    Ok(tree)
}

// The REUSE.toml files among some.
fn toml_files<'a>(alloc: Global, files: &[File<'a>]) -> Result<Vec<File<'a>>, AllocError>
    ensures { IfOk result (λ v. files_of v.items ≡ filter is_toml (files_of files.now)) }
{
    let mut tomls = Vec::new(alloc);
    for file in files {
        if is_toml(*file) {
            tomls.push(*file)?;
        }
    }
    Ok(tomls)
}

// The covered files among some.
fn covered_files<'a>(alloc: Global, files: &[File<'a>]) -> Result<Vec<File<'a>>, AllocError>
    ensures { IfOk result (λ v. files_of v.items ≡ filter is_covered (files_of files.now)) }
{
    let mut covered = Vec::new(alloc);
    for file in files {
        if is_covered(*file) {
            covered.push(*file)?;
        }
    }
    Ok(covered)
}

// The flaw of the tree for a fault of a REUSE.toml.
fn flaw_of(alloc: Global, path: &SharedText, fault: AnnotationsFault) -> Result<Flaw, AllocError>
    ensures { IfOk result (λ flaw. flaw ≡ flaw_of path.now fault) }
{
    match fault {
        AnnotationsFault::BadAnnotation(index, kind) => {
            Ok(Flaw::BadAnnotation(path.clone()?, index, kind))
        }
        _ => Ok(Flaw::BadToml(Text::of(alloc, path.as_str())?)),
    }
}

// Adds what is wrong with a REUSE.toml.
fn add_faults(
    alloc: Global,
    path: &SharedText,
    faults: &[AnnotationsFault],
    flaws: &mut Items<Flaw>,
) -> Result<(), AllocError>
    ensures { OnOk result (flaws.new ≡ flaws.old ++ map (flaw_of path.now) faults.now) }
{
    for fault in faults {
        flaws.push(flaw_of(alloc, path, *fault)?)?;
    }
    Ok(())
}

// A REUSE.toml with the annotations that can be read.
fn toml_sifted<'a>(
    alloc: Global,
    file: File<'a>,
    flaws: &mut Items<Flaw>,
    blanks: &mut Items<Blank>,
) -> Result<Toml<'a>, AllocError>
    ensures toml { (r : Reader) → IsRightReader r
        → IfOk result (λ t. toml_in t ≡ toml_sifted r (file_of file.entry)) }
    ensures flaws { (r : Reader) → IsRightReader r
        → OnOk result (flaws.new ≡ flaws.old ++ toml_flaws r (file_of file.entry)) }
    ensures blanks { (r : Reader) → IsRightReader r
        → OnOk result (blanks.new ≡ blanks.old ++ blanks_of r.reading (file_of file.entry)) }
{
    let folder = folder_of(file.path.as_bytes());
    let Ok(text) = str::from_utf8(file.bytes) else {
        flaws.push(Flaw::BadToml(Text::of(alloc, file.path)?))?;
        return Ok(Toml {
            folder,
            annotations: Annotations {
                list: Items::new(alloc),
            },
        });
    };
    let Sifted {
        annotations,
        faults,
    } = Annotations::sift(alloc, text)?;
    let path = SharedText::of(alloc, file.path)?;
    add_faults(alloc, &path, faults.as_slice(), flaws)?;
    add_blanks(blanks, &path, faults.as_slice(), annotations.as_slice())?;
    Ok(Toml {
        folder,
        annotations: Annotations { list: annotations },
    })
}

// The REUSE.toml files with the annotations that can be read.
fn tomls_sifted<'a>(
    alloc: Global,
    files: &[File<'a>],
    flaws: &mut Items<Flaw>,
    blanks: &mut Items<Blank>,
) -> Result<Vec<Toml<'a>>, AllocError>
    ensures tomls { (r : Reader) → IsRightReader r
        → IfOk result (λ v. tomls_in v.items ≡ map (toml_sifted r) (files_of files.now)) }
    ensures flaws { (r : Reader) → IsRightReader r
        → OnOk result (flaws.new ≡ flaws.old ++ flat_map (toml_flaws r) (files_of files.now)) }
    ensures blanks { (r : Reader) → IsRightReader r → OnOk result
        (blanks.new ≡ blanks.old ++ flat_map (blanks_of r.reading) (files_of files.now)) }
{
    let mut tomls = Vec::new(alloc);
    for file in files {
        let toml = toml_sifted(alloc, *file, flaws, blanks)?;
        tomls.push(toml)?;
    }
    Ok(tomls)
}

// Adds a tag that isn't a licence expression, and returns a text that is known to be one: the
// tag's, or what was known before.
fn add_tag<'a>(
    alloc: Global,
    path: &SharedText,
    tag: Tagged<'a>,
    known: Option<&'a str>,
    flaws: &mut Items<Flaw>,
) -> Result<Option<&'a str>, AllocError>
    requires { IfSome known (λ text. Tells text.now true) }
    ensures known { IfOk result (λ told. IfSome told (λ text. Tells text.now true)) }
    ensures flaws { (r : Reader) → IsRightReader r
        → OnOk result (flaws.new ≡ flaws.old ++ tag_flaws r path.now (tag_text tag.entry)) }
{
    let told = is_expression_beside(alloc, tag.value, known)?;
    if told {
        return Ok(Some(tag.value));
    }
    let path = path.clone()?;
    let value = Text::of(alloc, tag.value)?;
    flaws.push(Flaw::BadExpression(path, tag.line, value))?;
    Ok(known)
}

// Adds the tags that aren't licence expressions.
fn add_tags(
    alloc: Global,
    path: &SharedText,
    tags: &[Tagged<'_>],
    flaws: &mut Items<Flaw>,
) -> Result<(), AllocError>
    ensures { (r : Reader) → IsRightReader r → OnOk result
        (flaws.new ≡ flaws.old ++ flat_map (tag_flaws r path.now) (map tag_text tags.now)) }
{
    let mut known = None;
    for tag in tags {
        known = add_tag(alloc, path, *tag, known, flaws)?;
    }
    Ok(())
}

// The file whose tags are a file's own information: the `.license` file beside it, or the file
// itself.
fn holder<'a>(
    alloc: Global,
    tree: &BTreeMap<&'a str, &'a [u8]>,
    file: File<'a>,
) -> Result<Held<'a>, AllocError>
    ensures { IfOk result (λ h. held_in h ≡ holder (tree_in tree.now) (file_of file.entry)) }
{
    let beside = beside(alloc, file.path)?;
    let path = beside.as_str();
    holder_by(alloc, path, file, bytes_at(tree, path))
}

// A file's own information, whatever is wrong in it.
fn own_sifted<'a>(
    alloc: Global,
    tree: &BTreeMap<&'a str, &'a [u8]>,
    file: File<'a>,
    flaws: &mut Items<Flaw>,
) -> Result<Info<'a>, AllocError>
    ensures info { (r : Reader) → IsRightReader r
        → IfOk result (λ i. stated_of i ≡ r.stated
        (holder (tree_in tree.now) (file_of file.entry)).bytes) }
    ensures flaws { (r : Reader) → IsRightReader r
        → OnOk result (flaws.new ≡ flaws.old ++ stated_flaws r
        (holder (tree_in tree.now) (file_of file.entry))) }
{
    let held = holder(alloc, tree, file)?;
    let info = header(alloc, held.bytes)?;
    let path = SharedText::of(alloc, held.path.as_str())?;
    add_tags(alloc, &path, info.licences.as_slice(), flaws)?;
    Ok(info)
}

// The information of a covered file, whatever is wrong in it or elsewhere, with the trail of the
// file before.
fn info_sifted<'a>(
    alloc: Global,
    tree: &BTreeMap<&'a str, &'a [u8]>,
    trail: &mut Trail<'_>,
    file: File<'a>,
    flaws: &mut Items<Flaw>,
) -> Result<Covered, AllocError>
    ensures same { OnOk result (trail.new.folders.now ≡ trail.old.folders.now) }
    ensures info { (r : Reader) → IsRightReader r → (tomls : List TomlText)
        → Holds tomls trail.old.folders.now → IfOk result (λ covered.
        info_at trail.old.folders.now.all.items covered
        ≡ info_sifted r tomls (tree_in tree.now) (file_of file.entry)) }
    ensures flaws { (r : Reader) → IsRightReader r
        → OnOk result (flaws.new ≡ flaws.old ++ stated_flaws r
        (holder (tree_in tree.now) (file_of file.entry))) }
{
    let own = own_sifted(alloc, tree, file, flaws)?;
    let counting = counting(alloc, trail, file.path)?;
    let all = trail.folders.all.as_slice();
    info_with(alloc, file.path, all, counting.as_slice(), &own)
}

// The information of covered files, in their order, with the trail of the file before.
fn each_sifted<'a>(
    alloc: Global,
    tree: &BTreeMap<&'a str, &'a [u8]>,
    trail: &mut Trail<'_>,
    files: &[File<'a>],
    flaws: &mut Items<Flaw>,
) -> Result<Vec<Covered>, AllocError>
    ensures infos { (r : Reader) → IsRightReader r → (tomls : List TomlText)
        → Holds tomls trail.old.folders.now → IfOk result (λ v.
        infos_at trail.old.folders.now.all.items v.items
        ≡ map (info_sifted r tomls (tree_in tree.now)) (files_of files.now)) }
    ensures flaws { (r : Reader) → IsRightReader r
        → OnOk result (flaws.new ≡ flaws.old ++ flat_map (λ f.
        stated_flaws r (holder (tree_in tree.now) f)) (files_of files.now)) }
{
    let mut infos = Vec::new(alloc);
    for file in files {
        let info = info_sifted(alloc, tree, trail, *file, flaws)?;
        infos.push(info)?;
    }
    Ok(infos)
}

// The information of covered files, in their order.
fn all_sifted<'a>(
    alloc: Global,
    known: &Known<'a>,
    files: &[File<'a>],
    flaws: &mut Items<Flaw>,
) -> Result<Vec<Covered>, AllocError>
    ensures infos { (r : Reader) → IsRightReader r → (tomls : List TomlText)
        → Holds tomls known.now.folders → IfOk result (λ v.
        infos_at known.now.folders.all.items v.items
        ≡ map (info_sifted r tomls (tree_in known.now.tree)) (files_of files.now)) }
    ensures flaws { (r : Reader) → IsRightReader r
        → OnOk result (flaws.new ≡ flaws.old ++ flat_map (λ f.
        stated_flaws r (holder (tree_in known.now.tree) f)) (files_of files.now)) }
{
    let mut trail = Trail::of(alloc, &known.folders)?;
    each_sifted(alloc, &known.tree, &mut trail, files, flaws)
}

// All that is wrong in a tree with right paths, and what is gathered from the rest.
fn survey_of<'a>(
    alloc: Global,
    tree: BTreeMap<&'a str, &'a [u8]>,
    flaws: Items<Flaw>,
) -> Result<Surveyed<'a>, AllocError>
    ensures tree { IfOk result (λ s. s.tree ≡ tree.entry) }
    ensures flaws { (r : Reader) → IsRightReader r
        → IfOk result (λ s. s.flaws ≡ flaws ++ tree_flaws r (tree_in tree.entry)) }
    ensures blanks { (r : Reader) → IsRightReader r
        → IfOk result (λ s. s.blanks ≡ blanks_in r.reading (tree_in tree.entry)) }
    ensures infos { (r : Reader) → IsRightReader r
        → IfOk result (λ s. s.infos ≡ infos_sifted r (tree_in tree.entry)) }
{
    let mut flaws = flaws;
    let mut blanks = Items::new(alloc);
    let files = files_of(alloc, &tree)?;
    let tomls = toml_files(alloc, files.as_slice())?;
    let tomls = tomls_sifted(alloc, tomls.as_slice(), &mut flaws, &mut blanks)?;
    let folders = by_folder(alloc, tomls)?;
    let covered = covered_files(alloc, files.as_slice())?;
    let known = Known { tree, folders };
    let covered = all_sifted(alloc, &known, covered.as_slice(), &mut flaws)?;
    let Known { tree, folders } = known;
    let infos = Infos::of(folders.all, covered);
    Ok(Surveyed {
        tree,
        flaws,
        blanks,
        infos,
    })
}

/// All that is wrong in a tree, and what is gathered from the rest of it. The only error is lack of
/// memory.
///
/// If `gathered` returns the information of the files, nothing is wrong and this is the same;
/// otherwise its fault is the first flaw (`gathered_is_surveyed`).
pub fn survey<'a>(alloc: Global, files: &'a [SourceFile]) -> Result<Surveyed<'a>, AllocError>
    ensures tree { IfOk result (λ s. tree_in s.tree ≡ kept files.now) }
    ensures flaws { (r : Reader) → IsRightReader r
        → IfOk result (λ s. s.flaws ≡ flaws_of r files.now) }
    ensures blanks { (r : Reader) → IsRightReader r
        → IfOk result (λ s. s.blanks ≡ blanks_in r.reading (kept files.now)) }
    ensures infos { (r : Reader) → IsRightReader r
        → IfOk result (λ s. s.infos ≡ infos_sifted r (kept files.now)) }
{
    let mut flaws = Items::new(alloc);
    if files.len() > limits::TREE_FILES {
        flaws.push(Flaw::TooManyFiles)?;
        return Ok(Surveyed {
            tree: BTreeMap::new(alloc),
            flaws,
            blanks: Items::new(alloc),
            infos: Infos::of(Vec::new(alloc), Vec::new(alloc)),
        });
    }
    let tree = tree_kept(alloc, files, &mut flaws)?;
    survey_of(alloc, tree, flaws)
}
