//! Reads a text as a REUSE.toml.

ghost use Rattle.std.specs.Prelude.{◌≡◌, ◌⊎◌, IfOk, IfErr, Ok, Err, alloc_error, codes};
ghost use Rattle.std.specs.Option.{ok_or};
ghost use Rattle.toml.specs.Data.{get_member};
ghost use Rattle.toml.specs.Parse.{parse_document};
ghost use Rattle.toml.specs.View.{table_view, items_view};
ghost use Rattle.desk_tree_annotations.specs.Right.{Reading, IsRight};
ghost use Rattle.desk_tree_annotations.specs.Reading.{listed, entries_in, annotations_of};
ghost use Rattle.desk_tree_annotations.specs.Shown.{Gives};

use crate::annotation::{Annotation, Annotations};
use crate::entries::each_annotation;
use crate::fault::{AnnotationFault, AnnotationsFault};
use crate::values::{is_version, member};
use desk_base::Items;
use std::alloc::{AllocError, Global};
use toml::{Table, Value};

// The entries that are listed in a table.
fn entries(table: &Table) -> Result<&[Value], AnnotationsFault>
    ensures { Gives (listed (get_member (codes "annotations") (table_view table.now))) (λ values.
        items_view values.now) result }
{
    let Some(value) = member(table, "annotations") else {
        return Ok(&[]);
    };
    match value.as_array() {
        Some(values) => Ok(values.as_slice()),
        None => Err(AnnotationsFault::BadAnnotation(0, AnnotationFault::BadKind)),
    }
}

/// The entries of a table of version 1.
pub(crate) fn entries_in(table: &Table) -> Result<&[Value], AnnotationsFault>
    ensures { Gives (entries_in (table_view table.now)) (λ values. items_view values.now) result }
{
    if is_version(member(table, "version")) {
        entries(table)
    } else {
        Err(AnnotationsFault::BadToml)
    }
}

/// The table of a text.
pub(crate) fn table_of(
    alloc: Global,
    text: &str,
) -> Result<Result<Table, AnnotationsFault>, AllocError>
    ensures { IfOk result (Gives (ok_or (parse_document text.now) AnnotationsFault.BadToml)
        table_view) }
{
    match toml::table_from_str(alloc, text) {
        Ok(table) => Ok(Ok(table)),
        Err(error) => {
            if error.is_memory() {
                Err(AllocError)
            } else {
                Ok(Err(AnnotationsFault::BadToml))
            }
        }
    }
}

// The annotations of a text.
fn of_text(
    alloc: Global,
    text: &str,
) -> Result<Result<Vec<Annotation>, AnnotationsFault>, AllocError>
    ensures { (r : Reading) → IsRight r
        → IfOk result (Gives (annotations_of r text.now) (λ list. list.items)) }
{
    let table = match table_of(alloc, text)? {
        Ok(table) => table,
        Err(fault) => return Ok(Err(fault)),
    };
    match entries_in(&table) {
        Ok(values) => each_annotation(alloc, values),
        Err(fault) => Ok(Err(fault)),
    }
}

impl Annotations {
    /// The annotations of a REUSE.toml, or its first fault: those of the whole document first, then
    /// those of each annotation in turn.
    ///
    /// For each right reading the answer is that of `annotations_of`; `Memory` means lack of memory
    /// and nothing else.
    pub fn read(alloc: Global, text: &str) -> Result<Annotations, AnnotationsFault>
        ensures ok { (r : Reading) → IsRight r
            → IfOk result (λ a. annotations_of r text.now ≡ Ok a.list) }
        ensures err { (r : Reading) → IsRight r → IfErr result (λ f.
            (f ≡ AnnotationsFault.Memory alloc_error) ⊎ (annotations_of r text.now ≡ Err f)) }
    {
        match of_text(alloc, text) {
            Ok(Ok(list)) => Ok(Annotations {
                list: Items::from_vec(list),
            }),
            Ok(Err(fault)) => Err(fault),
            Err(error) => Err(AnnotationsFault::Memory(error)),
        }
    }
}
