//! Licences of a REUSE.toml that no document can hold.

ghost use Rattle.std.specs.Prelude.{◌≡◌, ◌++◌, List, OnOk};
ghost use Rattle.desk_tree_annotations.specs.declared.annotation.Annotation.{Annotation};
ghost use Rattle.desk_tree_annotations.specs.Reading.{Read};
ghost use Rattle.desk_tree_annotations.specs.Sifting.{Agrees};
ghost use Rattle.desk_tree_gather.specs.Blanks.{has_blank_end, has_blank, blank_at, blanks_from, blanks_read};

use desk_base::Items;
use desk_tree_annotations::{Annotation, AnnotationsFault, SharedText};
use std::alloc::AllocError;

/// An annotation with a licence that has a blank at an end.
#[derive(Drop)]
pub struct Blank {
    /// The path of its REUSE.toml.
    pub path: SharedText,
    /// Its index, from 0.
    pub index: usize,
}

// Whether a text begins or ends with a blank.
fn has_blank_end(text: &str) -> bool
    ensures { result ≡ has_blank_end text.now }
{
    let bytes = text.as_bytes();
    bytes.starts_with(b" ")
        || bytes.starts_with(b"\t")
        || bytes.ends_with(b" ")
        || bytes.ends_with(b"\t")
}

fn has_blank(annotation: &Annotation) -> bool
    ensures { result ≡ has_blank annotation.now }
{
    let licences = &annotation.licences;
    for place in 0..licences.len() {
        if has_blank_end(licences.at(place)) {
            return true;
        }
    }
    false
}

// Adds an annotation if it has such a licence.
fn add_blank(
    blanks: &mut Items<Blank>,
    path: &SharedText,
    index: usize,
    annotation: &Annotation,
) -> Result<(), AllocError>
    ensures { OnOk result (blanks.new ≡ blanks.old ++ blank_at path.now index annotation.now) }
{
    if has_blank(annotation) {
        let path = path.clone()?;
        blanks.push(Blank { path, index })?;
    }
    Ok(())
}

// Adds those of some annotations.
fn add_each(
    blanks: &mut Items<Blank>,
    path: &SharedText,
    annotations: &[Annotation],
) -> Result<(), AllocError>
    ensures { OnOk result (blanks.new ≡ blanks.old ++ blanks_from path.now 0 annotations.now) }
{
    for (index, annotation) in annotations.iter().enumerate() {
        add_blank(blanks, path, index, annotation)?;
    }
    Ok(())
}

/// Adds those of a REUSE.toml, given its annotations that can be read and what is wrong with the
/// others: none, unless all can be read.
pub(crate) fn add_blanks(
    blanks: &mut Items<Blank>,
    path: &SharedText,
    faults: &[AnnotationsFault],
    annotations: &[Annotation],
) -> Result<(), AllocError>
    ensures { (read : Read (List Annotation)) → Agrees read faults.now annotations.now
        → OnOk result (blanks.new ≡ blanks.old ++ blanks_read path.now read) }
{
    if faults.is_empty() {
        add_each(blanks, path, annotations)
    } else {
        Ok(())
    }
}
