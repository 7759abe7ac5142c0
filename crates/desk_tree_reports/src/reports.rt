//! The report on a tree.

ghost use Rattle.std.specs.Prelude.{◌≡◌, [], List, IfOk};
ghost use Rattle.desk_tree_infos.specs.Readers.{Reader, IsRightReader};
ghost use Rattle.desk_tree_reports.specs.Reports.{text_of, AreBlankLines, IsReport};
ghost use Rattle.desk_tree_problems.specs.Rows.{AreRows};
ghost use Rattle.desk_tree_problems.specs.declared.row.Row.{Row};

use crate::counting::number_of;
use crate::long_text::LongText;
use crate::object::json_text;
use crate::summary::lines_text;
use crate::telling::problem_lines;
use desk_base::TextList;
use desk_tree_gather::SourceFile;
use desk_tree_problems::{Kind, Problems, problems_of};
use std::alloc::{AllocError, Global};

/// The report on a tree.
#[derive(Drop)]
pub struct Report {
    /// Its text: a line for each problem and one that counts them, or a JSON object and a line
    /// feed.
    pub text: LongText,
    /// Whether the tree has no problem.
    pub is_clean: bool,
}

// The problems as a text.
fn text_of(alloc: Global, json: bool, problems: &Problems) -> Result<LongText, AllocError>
    ensures { IfOk result (λ text. (rows : List Row) × AreRows problems.now rows
        × (text ≡ text_of json rows problems.now.covered)) }
{
    if json {
        json_text(alloc, problems)
    } else {
        lines_text(alloc, problems)
    }
}

// Drops the keys of the missing texts: a report shows their names instead, so it needn't keep both.
fn let_keys_go(alloc: Global, problems: &mut Problems)
    ensures { problems.new ≡ record problems.old { missing = [] } }
{
    problems.missing = TextList::new(alloc);
}

/// The report on a tree, as lines or as a JSON object. The only error is lack of memory.
///
/// For each right reader it is that of `IsReport`.
pub fn report_on(alloc: Global, files: Vec<SourceFile>, json: bool) -> Result<Report, AllocError>
    ensures { (r : Reader) → IsRightReader r → IfOk result (IsReport r files.items json) }
{
    let mut problems = problems_of(alloc, files)?;
    let number = number_of(&problems)?;
    let_keys_go(alloc, &mut problems);
    Ok(Report {
        text: text_of(alloc, json, &problems)?,
        is_clean: number == 0,
    })
}

/// The lines of the report on a tree about licences in REUSE.toml files that no document can hold.
/// The only error is lack of memory.
///
/// For each right reader they are those of `AreBlankLines`.
pub fn blank_lines(alloc: Global, files: Vec<SourceFile>) -> Result<LongText, AllocError>
    ensures { (r : Reader) → IsRightReader r
        → IfOk result (λ text. AreBlankLines r files.items text) }
{
    let problems = problems_of(alloc, files)?;
    problem_lines(alloc, &problems, Some(Kind::BlankAtEnd))
}
