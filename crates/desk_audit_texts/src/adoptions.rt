//! Checks that each adoption maps a plain reference to a plain licence, neither with anything
//! added.

ghost use Rattle.std.specs.Prelude.{◌≡◌, ◌&&◌, IfOk};
ghost use Rattle.std.specs.List.{list_all};
ghost use Rattle.desk_model.specs.Readings.{Readings};
ghost use Rattle.desk_snapshot.specs.Conditions.{is_that, is_printed, is_adoption};

use crate::printed::{is_printed, is_that};
use desk_access::texts::Texts;
use desk_snapshot::StoredAdoption;
use std::alloc::{AllocError, Global};

/// Whether a text is only a reference, as it is printed.
fn is_reference<T: Texts>(alloc: Global, texts: &T, text: &str) -> Result<bool, AllocError>
    ensures { (w : Readings) → T.are_right w → IfOk result (λ is.
        is ≡ is_printed w text.now && is_that text.now (w.reference text.now)) }
{
    if !is_printed(alloc, texts, text)? {
        return Ok(false);
    }
    Ok(is_that(text, texts.reference(alloc, text)?))
}

/// Whether a text is only a licence, as it is printed.
fn is_licence<T: Texts>(alloc: Global, texts: &T, text: &str) -> Result<bool, AllocError>
    ensures { (w : Readings) → T.are_right w → IfOk result (λ is.
        is ≡ is_printed w text.now && w.is_licence text.now) }
{
    Ok(is_printed(alloc, texts, text)? && texts.is_licence(text))
}

/// Whether an adoption maps a plain reference to a plain licence.
fn is_adoption<T: Texts>(alloc: Global, texts: &T, row: &StoredAdoption) -> Result<bool, AllocError>
    ensures { (w : Readings) → T.are_right w → IfOk result (λ is. is ≡ is_adoption w row.now) }
{
    Ok(
        is_reference(alloc, texts, row.reference.as_str())?
            && is_licence(alloc, texts, row.licence.as_str())?,
    )
}

/// Whether each adoption maps a plain reference to a plain licence.
pub(crate) fn are_adoptions<T: Texts>(
    alloc: Global,
    texts: &T,
    rows: &[StoredAdoption],
) -> Result<bool, AllocError>
    ensures { (w : Readings) → T.are_right w → IfOk result (λ are.
        are ≡ list_all (is_adoption w) rows.now) }
{
    for row in rows {
        if !is_adoption(alloc, texts, row)? {
            return Ok(false);
        }
    }
    Ok(true)
}
