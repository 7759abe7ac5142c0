//! The duties of a catalogue, whose codes are kept.

ghost use Rattle.std.specs.Prelude.{◌≡◌, [], IfOk, codes};
ghost use Rattle.toml.specs.Data.{get_member};
ghost use Rattle.toml.specs.View.{view, table_view, items_view};
ghost use Rattle.desk_catalogue.specs.Reading.{each, duty_at, with_duty, duties_of};
ghost use Rattle.desk_catalogue.specs.Shown.{Gives, codes_in};

use crate::entries::tables_of;
use crate::values::{id_of, member, title_of};
use desk_model::{CatalogueFault, CataloguePart};
use std::alloc::{AllocError, Global};
use std::collections::BTreeSet;
use toml::{Table, Value};

// The code of a duty.
fn duty_at(value: &Value, index: usize) -> Result<&str, CatalogueFault>
    ensures { Gives (duty_at index (view value.now)) (λ text. text.now) result }
{
    let Some(table) = value.as_table() else {
        return Err(CatalogueFault::BadKind(CataloguePart::Duty, index));
    };
    let Some(code) = member(table, "code") else {
        return Err(CatalogueFault::Missing(CataloguePart::Duty, index));
    };
    let Some(title) = member(table, "title") else {
        return Err(CatalogueFault::Missing(CataloguePart::Duty, index));
    };
    let Some(code) = id_of(code) else {
        return Err(CatalogueFault::BadKind(CataloguePart::Duty, index));
    };
    match title_of(title) {
        Some(_) => Ok(code),
        None => Err(CatalogueFault::BadKind(CataloguePart::Duty, index)),
    }
}

// The codes of a list of duties, if none occurs twice.
fn each_duty<'a>(
    alloc: Global,
    values: &'a [Value],
) -> Result<Result<BTreeSet<&'a str>, CatalogueFault>, AllocError>
    ensures { IfOk result (Gives (each with_duty [] 0 (items_view values.now)) codes_in) }
{
    let mut duties = BTreeSet::new(alloc);
    for (i, value) in values.iter().enumerate() {
        match duty_at(value, i) {
            Ok(code) => {
                if !duties.insert(code)? {
                    return Ok(Err(CatalogueFault::Twice(CataloguePart::Duty, i)));
                }
            }
            Err(fault) => return Ok(Err(fault)),
        }
    }
    Ok(Ok(duties))
}

/// The codes of the duties.
pub(crate) fn duties_of(
    alloc: Global,
    table: &Table,
) -> Result<Result<BTreeSet<&str>, CatalogueFault>, AllocError>
    ensures { IfOk result (Gives (duties_of (get_member (codes "duty") (table_view table.now))) codes_in) }
{
    match tables_of(table, "duty", CataloguePart::Duty) {
        Ok(values) => each_duty(alloc, values),
        Err(fault) => Ok(Err(fault)),
    }
}
