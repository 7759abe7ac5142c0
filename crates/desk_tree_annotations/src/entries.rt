//! The entries of a REUSE.toml, each an annotation.

ghost use Rattle.std.specs.Prelude.{◌≡◌, IfOk, codes};
ghost use Rattle.toml.specs.Data.{get_member};
ghost use Rattle.toml.specs.View.{view, table_view, items_view};
ghost use Rattle.desk_tree_annotations.specs.Right.{Reading, IsRight};
ghost use Rattle.desk_tree_annotations.specs.Values.{texts_of, texts_at, precedence_text};
ghost use Rattle.desk_tree_annotations.specs.Reading.{each, written_by, written_at, annotation_of, annotation_at};
ghost use Rattle.desk_tree_annotations.specs.Shown.{Gives, written_in};

use crate::annotation::Annotation;
use crate::expressions::are_expressions;
use crate::fault::{AnnotationFault, AnnotationsFault};
use crate::shared::SharedTexts;
use crate::values::{globs, member, precedence_of, precedence_text, texts_at, texts_of};
use desk_base::TextList;
use std::alloc::{AllocError, Global};
use toml::{Table, Value};

/// The texts of an annotation.
#[derive(Drop)]
pub(crate) struct Written<'a> {
    pub(crate) paths: TextList,
    pub(crate) precedence: &'a str,
    pub(crate) notices: TextList,
    pub(crate) licences: TextList,
}

// The texts of an annotation that has a path.
fn written_by<'a>(
    alloc: Global,
    table: &'a Table,
    path: &Value,
    index: usize,
) -> Result<Result<Written<'a>, AnnotationsFault>, AllocError>
    ensures { let ms = table_view table.now in IfOk result
        (Gives (written_by index (texts_of (view path.now))
        (precedence_text (get_member (codes "precedence") ms))
        (texts_at (get_member (codes "SPDX-FileCopyrightText") ms))
        (texts_at (get_member (codes "SPDX-License-Identifier") ms))) written_in) }
{
    let fault = AnnotationsFault::BadAnnotation(index, AnnotationFault::BadKind);
    let Some(paths) = texts_of(alloc, path)? else {
        return Ok(Err(fault));
    };
    let Some(precedence) = precedence_text(table) else {
        return Ok(Err(fault));
    };
    let Some(notices) = texts_at(alloc, table, "SPDX-FileCopyrightText")? else {
        return Ok(Err(fault));
    };
    let Some(licences) = texts_at(alloc, table, "SPDX-License-Identifier")? else {
        return Ok(Err(fault));
    };
    Ok(Ok(Written {
        paths,
        precedence,
        notices,
        licences,
    }))
}

// The texts of an annotation.
fn written_at(
    alloc: Global,
    value: &Value,
    index: usize,
) -> Result<Result<Written<'_>, AnnotationsFault>, AllocError>
    ensures { IfOk result (Gives (written_at index (view value.now)) written_in) }
{
    let Some(table) = value.as_table() else {
        return Ok(Err(AnnotationsFault::BadAnnotation(index, AnnotationFault::BadKind)));
    };
    match member(table, "path") {
        Some(path) => written_by(alloc, table, path, index),
        None => Ok(Err(AnnotationsFault::BadAnnotation(index, AnnotationFault::NoPath))),
    }
}

// The annotation with these texts.
fn annotation_of(
    alloc: Global,
    written: Written<'_>,
    index: usize,
) -> Result<Result<Annotation, AnnotationsFault>, AllocError>
    ensures { (r : Reading) → IsRight r → IfOk result (λ a.
        a ≡ annotation_of r index (written_in written.entry)) }
{
    let Some(precedence) = precedence_of(written.precedence) else {
        return Ok(Err(AnnotationsFault::BadAnnotation(index, AnnotationFault::BadPrecedence)));
    };
    if !are_expressions(alloc, &written.licences)? {
        return Ok(Err(AnnotationsFault::BadAnnotation(index, AnnotationFault::BadExpression)));
    }
    Ok(Ok(Annotation {
        paths: globs(alloc, &written.paths)?,
        precedence,
        notices: SharedTexts::of(alloc, written.notices)?,
        licences: SharedTexts::of(alloc, written.licences)?,
    }))
}

/// The annotation of an entry.
pub(crate) fn annotation_at(
    alloc: Global,
    value: &Value,
    index: usize,
) -> Result<Result<Annotation, AnnotationsFault>, AllocError>
    ensures { (r : Reading) → IsRight r
        → IfOk result (λ a. a ≡ annotation_at r index (view value.now)) }
{
    match written_at(alloc, value, index)? {
        Ok(written) => annotation_of(alloc, written, index),
        Err(fault) => Ok(Err(fault)),
    }
}

/// The annotations of a list, in its order.
pub(crate) fn each_annotation(
    alloc: Global,
    values: &[Value],
) -> Result<Result<Vec<Annotation>, AnnotationsFault>, AllocError>
    ensures { (r : Reading) → IsRight r → IfOk result
        (Gives (each (annotation_at r) 0 (items_view values.now)) (λ list. list.items)) }
{
    let mut list = Vec::new(alloc);
    for (i, value) in values.iter().enumerate() {
        match annotation_at(alloc, value, i)? {
            Ok(annotation) => list.push(annotation)?,
            Err(fault) => return Ok(Err(fault)),
        }
    }
    Ok(Ok(list))
}
