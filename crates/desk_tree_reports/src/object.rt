//! The report as a JSON object.

ghost use Rattle.std.specs.Prelude.{◌≡◌, List, IfOk};
ghost use Rattle.desk_tree_problems.specs.declared.row.Row.{Row};
ghost use Rattle.desk_tree_reports.specs.Reports.{json_text};
ghost use Rattle.desk_tree_problems.specs.Rows.{AreRows};

use crate::long_text::LongText;
use crate::telling::{Form, with_problems};
use desk_tree_problems::Problems;
use std::alloc::{AllocError, Global};

/// The object of a tree, with a line feed at its end.
pub(crate) fn json_text(alloc: Global, problems: &Problems) -> Result<LongText, AllocError>
    ensures { IfOk result (λ text. (rows : List Row) × AreRows problems.now rows
        × (text ≡ json_text rows problems.now.covered)) }
{
    let covered = problems.covered;
    let front = format!(in alloc; "{{\"covered\":{covered},\"problems\":[")?;
    let mut text = LongText::new(alloc);
    text.add(alloc, front.as_bytes())?;
    let mut text = with_problems(alloc, text, Form::Json, problems)?;
    text.add(alloc, b"]}\n")?;
    Ok(text)
}
