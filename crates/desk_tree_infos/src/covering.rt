//! The annotations that count for a file.

ghost use Rattle.std.specs.Prelude.{◌≡◌, ◌∷◌, [], List, map, option_and_then, IfOk, OnOk, IsUtf8};
ghost use Rattle.std.specs.List.{list_any, slice_get};
ghost use Rattle.desk_tree_infos.specs.Readers.{Reader, IsRightReader};
ghost use Rattle.desk_tree_infos.specs.Tomls.{TomlText, annotations_in};
ghost use Rattle.desk_tree_infos.specs.Information.{covers, last_covering, counting};
ghost use Rattle.desk_tree_infos.specs.Folders.{Holds};
ghost use Rattle.desk_tree_infos.specs.Sharing.{annotations_at};
ghost use Rattle.desk_tree_infos.specs.Ways.{behind_slash, ways, lists_of};

use crate::information::{add_some, annotation_at};
use crate::trail::Trail;
use desk_tree_annotations::Annotation;
use std::alloc::{AllocError, Global};

// Whether some pattern of an annotation matches a path.
fn covers(alloc: Global, annotation: &Annotation, path: &str) -> Result<bool, AllocError>
    ensures { (r : Reader) → IsRightReader r
        → IfOk result (λ found. found ≡ covers r annotation.now path.now) }
{
    for glob in annotation.paths.as_slice() {
        if glob.matches_soon(alloc, path)? {
            return Ok(true);
        }
    }
    Ok(false)
}

// Whether the annotation with a number covers a path.
fn covers_at(
    alloc: Global,
    all: &[Annotation],
    number: usize,
    path: &str,
) -> Result<bool, AllocError>
    ensures { (r : Reader) → IsRightReader r → IfOk result (λ found. found
        ≡ list_any (λ a. covers r a path.now) (annotations_at all.now (number ∷ []))) }
{
    match annotation_at(all, number) {
        Some(annotation) => covers(alloc, annotation, path),
        None => Ok(false),
    }
}

// The number of the last annotation that covers a path.
fn last_covering(
    alloc: Global,
    all: &[Annotation],
    numbers: &[usize],
    path: &str,
) -> Result<Option<usize>, AllocError>
    ensures { (r : Reader) → IsRightReader r
        → IfOk result (λ found. option_and_then (slice_get all.now) found
        ≡ last_covering r path.now (annotations_at all.now numbers.now)) }
{
    let mut last = None;
    for number in numbers {
        if covers_at(alloc, all, *number, path)? {
            last = Some(*number);
        }
    }
    Ok(last)
}

// What follows the first slash, or all if there is none.
fn behind_slash(path: &str) -> &str
    ensures value { result.now ≡ behind_slash path.now }
    ensures utf8 { IsUtf8 result.now }
{
    match path.split_once('/') {
        Some((_, after)) => after,
        None => path,
    }
}

// The numbers of the annotations that count for a path, given those of the folders on the way to
// it.
fn counting_along(
    alloc: Global,
    all: &[Annotation],
    lists: &[&[usize]],
    path: &str,
) -> Result<Vec<usize>, AllocError>
    ensures { (r : Reader) → IsRightReader r → (tomls : List TomlText)
        → map (annotations_at all.now) (lists_of lists.now)
        ≡ map (annotations_in tomls) (ways path.now)
        → IfOk result (λ v. annotations_at all.now v.items ≡ counting r tomls path.now) }
{
    let mut list = Vec::new(alloc);
    let mut rest = path;
    for numbers in lists {
        add_some(&mut list, last_covering(alloc, all, numbers, rest)?)?;
        rest = behind_slash(rest);
    }
    Ok(list)
}

/// The numbers of the annotations that count for a path, from the root to its folder. The trail
/// moves from the path before to this one.
pub fn counting(alloc: Global, trail: &mut Trail<'_>, path: &str) -> Result<Vec<usize>, AllocError>
    ensures same { OnOk result (trail.new.folders.now ≡ trail.old.folders.now) }
    ensures counting { (r : Reader) → IsRightReader r → (tomls : List TomlText)
        → Holds tomls trail.old.folders.now → IfOk result (λ v.
        annotations_at trail.old.folders.now.all.items v.items ≡ counting r tomls path.now) }
{
    *trail = trail.to(alloc, path)?;
    counting_along(alloc, trail.folders.all.as_slice(), trail.lists(), path)
}
