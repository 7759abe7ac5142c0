//! What a file's own texts and the annotations that count give together.

ghost use Rattle.std.specs.Prelude.{◌≡◌, ◌++◌, ◌∷◌, [], List, IfOk, OnOk, option_map, option_to_list};
ghost use Rattle.std.specs.List.{slice_get};
ghost use Rattle.desk_tree_infos.specs.Information.{texts_of, some_or, given};
ghost use Rattle.desk_tree_infos.specs.Sharing.{annotations_at, texts_at, texts_or_none, all_texts};

use desk_tree_annotations::{Annotation, Precedence, SharedText, SharedTexts};
use std::alloc::{AllocError, Global};

/// What is asked about a file.
#[derive(Clone, Copy)]
pub enum Subject {
    /// Its copyright notices.
    Notices,
    /// Its licences.
    Licences,
}

/// The texts of a file: those of annotations, by their numbers, and its own.
#[derive(Drop)]
pub struct Sources {
    pub(crate) numbers: Vec<usize>,
    pub(crate) own: Vec<SharedText>,
}

/// The annotation with a number.
pub(crate) fn annotation_at(all: &[Annotation], number: usize) -> Option<&Annotation>
    ensures { option_map (λ a. a.now) result ≡ slice_get all.now number }
{
    all.get(number)
}

// The texts of an annotation.
fn texts_of<'m>(of: Subject, annotation: &'m Annotation) -> &'m SharedTexts
    ensures { result.now ≡ texts_of of annotation.now }
{
    match of {
        Subject::Notices => &annotation.notices,
        Subject::Licences => &annotation.licences,
    }
}

/// The texts of the annotation with a number, if there is one.
pub(crate) fn texts_at<'m>(
    of: Subject,
    all: &'m [Annotation],
    number: usize,
) -> Option<&'m SharedTexts>
    ensures { texts_or_none (option_map (λ texts. texts.now) result)
        ≡ texts_at all.now of (number ∷ []) }
{
    match annotation_at(all, number) {
        Some(annotation) => Some(texts_of(of, annotation)),
        None => None,
    }
}

/// Adds the number of an annotation, if there is one.
pub(crate) fn add_some(list: &mut Vec<usize>, found: Option<usize>) -> Result<(), AllocError>
    ensures { OnOk result (list.new.items ≡ list.old.items ++ option_to_list found) }
{
    if let Some(number) = found {
        list.push(number)?;
    }
    Ok(())
}

// The nearest `closest` annotation that has some texts: this one, or the one so far.
fn nearer(
    of: Subject,
    annotation: &Annotation,
    number: usize,
    closest: Option<usize>,
) -> Option<usize>
    ensures { (all : List Annotation) → slice_get all number ≡ Some annotation.now
        → texts_at all of (option_to_list result)
        ≡ some_or (texts_of of annotation.now) (texts_at all of (option_to_list closest)) }
{
    if texts_of(of, annotation).is_empty() {
        closest
    } else {
        Some(number)
    }
}

// The texts of annotations, and then a file's own or, if it has none, those of the nearest
// `closest` annotation.
fn with_own(
    numbers: Vec<usize>,
    own: Vec<SharedText>,
    closest: Option<usize>,
) -> Result<Sources, AllocError>
    ensures { (all : List Annotation) (of : Subject) → IfOk result (λ g. all_texts all of g
        ≡ texts_at all of numbers.items
        ++ some_or own.items (texts_at all of (option_to_list closest))) }
{
    if own.is_empty() {
        let mut numbers = numbers;
        add_some(&mut numbers, closest)?;
        return Ok(Sources { numbers, own });
    }
    Ok(Sources { numbers, own })
}

/// The texts of a file: its own, and those of the annotations that count. The list has room for no
/// more numbers than there are such annotations, because in a deep tree each file has many.
pub fn sources_of(
    alloc: Global,
    of: Subject,
    own: Vec<SharedText>,
    all: &[Annotation],
    counting: &[usize],
) -> Result<Sources, AllocError>
    ensures { IfOk result (λ g. all_texts all.now of g
        ≡ given of own.items (annotations_at all.now counting.now)) }
{
    let mut numbers = Vec::with_capacity(alloc, counting.len())?;
    let mut closest = None;
    for number in counting {
        let Some(annotation) = annotation_at(all, *number) else {
            continue;
        };
        match annotation.precedence {
            Precedence::Override => {
                numbers.push(*number)?;
                let own = Vec::new(alloc);
                return Ok(Sources { numbers, own });
            }
            Precedence::Aggregate => numbers.push(*number)?,
            Precedence::Closest => closest = nearer(of, annotation, *number, closest),
        }
    }
    with_own(numbers, own, closest)
}
