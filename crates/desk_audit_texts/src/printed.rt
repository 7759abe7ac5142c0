//! Texts that are terms as they are printed.

ghost use Rattle.std.specs.Prelude.{◌≡◌, IfOk};
ghost use Rattle.desk_model.specs.Readings.{Readings};
ghost use Rattle.desk_snapshot.specs.Conditions.{is_that, is_printed};

use desk_access::texts::Texts;
use desk_base::Text;
use std::alloc::{AllocError, Global};

/// Whether a text is the one that is given, if one is.
pub(crate) fn is_that(text: &str, told: Option<Text>) -> bool
    ensures { result ≡ is_that text.now told }
{
    match told {
        Some(told) => text == told.as_str(),
        None => false,
    }
}

/// Whether a text is a term as it is printed.
pub(crate) fn is_printed<T: Texts>(alloc: Global, texts: &T, text: &str) -> Result<bool, AllocError>
    ensures { (w : Readings) → T.are_right w → IfOk result (λ is. is ≡ is_printed w text.now) }
{
    Ok(is_that(text, texts.term(alloc, text)?))
}
