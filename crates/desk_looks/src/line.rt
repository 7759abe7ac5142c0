//! The line that says what a file looks like.

ghost use Rattle.std.specs.Prelude.{◌≡◌, IfOk};
ghost use Rattle.std.specs.String.{string_bytes};
ghost use Rattle.desk_looks.specs.Words.{look_line};

use crate::look::Look;
use std::alloc::{AllocError, Global};

/// The line that says what a file looks like, or nothing if there is nothing to say.
pub fn look_line(alloc: Global, look: Option<Look>) -> Result<String, AllocError>
    ensures { IfOk result (λ line. string_bytes line ≡ look_line look) }
{
    match look {
        None => Ok(String::new(alloc)),
        Some(look) => {
            let words = look.words();
            format!(in alloc; "it looks like {words}\n")
        }
    }
}
