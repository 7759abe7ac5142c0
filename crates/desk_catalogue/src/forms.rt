//! The forms of a catalogue.

ghost use Rattle.std.specs.Prelude.{◌≡◌, [], IfOk, Some, codes};
ghost use Rattle.toml.specs.Data.{get_member};
ghost use Rattle.toml.specs.View.{table_view, items_view};
ghost use Rattle.desk_catalogue.specs.Reading.{each, with_form, is_form_count, forms_listed, forms_once, forms_of};
ghost use Rattle.desk_catalogue.specs.Shown.{Gives};
ghost use Rattle.desk_base.specs.Borrowed.{texts, texts_in};

use crate::order::is_kept;
use crate::values::{id_of, member};
use desk_base::{Items, Text, limits};
use desk_model::{CatalogueFault, CataloguePart};
use std::alloc::{AllocError, Global};
use toml::{Table, Value};

// The forms of a list.
fn each_form<'a>(
    alloc: Global,
    values: &'a [Value],
) -> Result<Result<Vec<&'a str>, CatalogueFault>, AllocError>
    ensures { IfOk result (Gives (each with_form [] 0 (items_view values.now)) texts_in) }
{
    let mut forms = Vec::new(alloc);
    for (i, value) in values.iter().enumerate() {
        match id_of(value) {
            Some(form) => forms.push(form)?,
            None => {
                return Ok(Err(CatalogueFault::BadKind(CataloguePart::Forms, i)));
            }
        }
    }
    Ok(Ok(forms))
}

// Whether a catalogue may list this many forms.
fn is_form_count(number: usize) -> bool
    ensures { result ≡ is_form_count number }
{
    1 <= number && number <= limits::FORMS
}

// The forms of a list, if there are as many as there may be.
fn forms_listed<'a>(
    alloc: Global,
    values: &'a [Value],
) -> Result<Result<Vec<&'a str>, CatalogueFault>, AllocError>
    ensures { IfOk result (Gives (forms_listed (Some (items_view values.now))) texts_in) }
{
    if is_form_count(values.len()) {
        each_form(alloc, values)
    } else {
        Ok(Err(CatalogueFault::BadKind(CataloguePart::Forms, 0)))
    }
}

// The forms, if none occurs twice.
fn forms_once(
    alloc: Global,
    listed: &[&str],
) -> Result<Result<Items<Text>, CatalogueFault>, AllocError>
    ensures { IfOk result (Gives (forms_once [] 0 (texts listed.now)) (λ forms. forms)) }
{
    let mut forms = Items::new(alloc);
    for (i, form) in listed.iter().enumerate() {
        if is_kept(forms.as_slice(), form) {
            return Ok(Err(CatalogueFault::Twice(CataloguePart::Forms, i)));
        }
        forms.push(Text::of(alloc, form)?)?;
    }
    Ok(Ok(forms))
}

/// The forms, in their order.
pub(crate) fn forms_of(
    alloc: Global,
    table: &Table,
) -> Result<Result<Items<Text>, CatalogueFault>, AllocError>
    ensures { IfOk result (Gives (forms_of (get_member (codes "forms") (table_view table.now)))
        (λ forms. forms)) }
{
    let Some(value) = member(table, "forms") else {
        return Ok(Err(CatalogueFault::Missing(CataloguePart::Forms, 0)));
    };
    let Some(values) = value.as_array() else {
        return Ok(Err(CatalogueFault::BadKind(CataloguePart::Forms, 0)));
    };
    match forms_listed(alloc, values.as_slice())? {
        Ok(listed) => forms_once(alloc, listed.as_slice()),
        Err(fault) => Ok(Err(fault)),
    }
}
