//! Sets of borrowed texts.

ghost use Rattle.std.specs.Prelude.{IfOk};
ghost use Rattle.desk_base.specs.Borrowed.{texts};
ghost use Rattle.desk_base.specs.TextSets.{IsSetOf};

use std::alloc::{AllocError, Global};
use std::collections::BTreeSet;

/// The set of some texts. The only error is lack of memory.
pub fn text_set<'a>(alloc: Global, listed: &[&'a str]) -> Result<BTreeSet<&'a str>, AllocError>
    ensures { IfOk result (IsSetOf (texts listed.now)) }
{
    let mut set = BTreeSet::new(alloc);
    for text in listed {
        set.insert(*text)?;
    }
    Ok(set)
}
