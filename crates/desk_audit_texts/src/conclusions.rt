//! Checks that the office's conclusions are expressions.

ghost use Rattle.std.specs.Prelude.{◌≡◌, IfOk};
ghost use Rattle.std.specs.List.{list_all};
ghost use Rattle.desk_model.specs.Readings.{Readings};

use desk_access::texts::Texts;
use desk_model::Profile;
use desk_snapshot::StoredConclusion;
use std::alloc::{AllocError, Global};

/// Whether a text is an expression with its operators in capitals.
fn is_expression<T: Texts>(alloc: Global, texts: &T, text: &str) -> Result<bool, AllocError>
    ensures { (w : Readings) → T.are_right w
        → IfOk result (λ is. is ≡ w.is_expression Profile.Capitals text.now) }
{
    Ok(texts.expression(alloc, Profile::Capitals, text)?.is_some())
}

/// Whether each conclusion is an expression with its operators in capitals.
pub(crate) fn are_expressions<T: Texts>(
    alloc: Global,
    texts: &T,
    rows: &[StoredConclusion],
) -> Result<bool, AllocError>
    ensures { (w : Readings) → T.are_right w → IfOk result (λ are.
        are ≡ list_all (λ row. w.is_expression Profile.Capitals row.expression) rows.now) }
{
    for row in rows {
        if !is_expression(alloc, texts, row.expression.as_str())? {
            return Ok(false);
        }
    }
    Ok(true)
}
