//! Which texts are licence expressions.

ghost use Rattle.std.specs.Prelude.{◌≡◌, true, IfOk, IfSome};
ghost use Rattle.std.specs.List.{list_all};
ghost use Rattle.desk_tree_annotations.specs.Right.{Tells, Reading, IsRight};

use desk_base::TextList;
use desk_expr::{parse, unless_memory};
use std::alloc::{AllocError, Global};

/// Whether a text is a licence expression, with operators in capitals (SPDX 2.3, Annex D). The only
/// error is lack of memory.
pub fn is_expression(alloc: Global, text: &str) -> Result<bool, AllocError>
    ensures { IfOk result (Tells text.now) }
{
    match parse(alloc, text) {
        Ok(_) => Ok(true),
        Err(fault) => {
            unless_memory(fault)?;
            Ok(false)
        }
    }
}

/// The same, with a text that is known to be an expression, if any: a text that equals it isn't
/// read again.
pub fn is_expression_beside(
    alloc: Global,
    text: &str,
    known: Option<&str>,
) -> Result<bool, AllocError>
    requires { IfSome known (λ k. Tells k.now true) }
    ensures { IfOk result (Tells text.now) }
{
    if let Some(known) = known {
        if known == text {
            return Ok(true);
        }
    }
    is_expression(alloc, text)
}

/// Whether each text is a licence expression.
pub(crate) fn are_expressions(alloc: Global, listed: &TextList) -> Result<bool, AllocError>
    ensures { (r : Reading) → IsRight r
        → IfOk result (λ b. b ≡ list_all r.is_expression listed.now) }
{
    for place in 0..listed.len() {
        let is_read = is_expression(alloc, listed.at(place))?;
        if !is_read {
            return Ok(false);
        }
    }
    Ok(true)
}
