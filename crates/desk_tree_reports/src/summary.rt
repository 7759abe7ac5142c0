//! The report as lines.

ghost use Rattle.std.specs.Prelude.{◌≡◌, ◌++◌, List, length, IfOk, OnOk, codes};
ghost use Rattle.std.specs.String.{string_bytes};
ghost use Rattle.desk_tree_problems.specs.declared.row.Row.{Row};
ghost use Rattle.desk_tree_reports.specs.Reports.{some_count, counts_of, counts, summary, lines_text};
ghost use Rattle.desk_tree_problems.specs.Rows.{AreRows};

use crate::counting::{count_of, number_of};
use crate::long_text::LongText;
use crate::telling::problem_lines;
use desk_tree_problems::{Kind, Problems, kinds};
use std::alloc::{AllocError, Global};

// A kind with how many there are, if there are some.
fn some_count(alloc: Global, kind: Kind, count: usize) -> Result<String, AllocError>
    ensures { IfOk result (λ words. string_bytes words ≡ some_count kind count) }
{
    if count == 0 {
        return String::from_str(alloc, "");
    }
    let name = kind.name();
    format!(in alloc; ", {name}: {count}")
}

// The counts by some kinds.
fn counts_of(alloc: Global, problems: &Problems, kinds: &[Kind]) -> Result<Vec<u8>, AllocError>
    ensures { (rows : List Row) → AreRows problems.now rows
        → IfOk result (λ text. text.items ≡ counts_of kinds.now rows) }
{
    let mut text = Vec::new(alloc);
    for kind in kinds {
        let words = some_count(alloc, *kind, count_of(problems, *kind))?;
        text.extend_from_slice(words.as_bytes())?;
    }
    Ok(text)
}

// The counts by kind, or that there is nothing to count.
fn counts(alloc: Global, problems: &Problems, number: usize) -> Result<Vec<u8>, AllocError>
    ensures { (rows : List Row) → AreRows problems.now rows → number ≡ length rows
        → IfOk result (λ text. text.items ≡ counts rows) }
{
    if number == 0 {
        let words = String::from_str(alloc, "; nothing is wrong by the desk's rules")?;
        return Ok(words.into_bytes());
    }
    counts_of(alloc, problems, &kinds())
}

// Adds the line that counts the problems.
fn add_summary(alloc: Global, text: &mut LongText, problems: &Problems) -> Result<(), AllocError>
    ensures { (rows : List Row) → AreRows problems.now rows
        → OnOk result (text.new ≡ text.old ++ summary rows problems.now.covered) }
{
    let count = number_of(problems)?;
    let covered = problems.covered;
    let words = format!(in alloc; "problems: {count}, covered files: {covered}")?;
    let counts = counts(alloc, problems, count)?;
    text.add(alloc, words.as_bytes())?;
    text.add(alloc, counts.as_slice())?;
    text.add(alloc, b"\n")?;
    Ok(())
}

/// A line for each problem, and one that counts them.
pub(crate) fn lines_text(alloc: Global, problems: &Problems) -> Result<LongText, AllocError>
    ensures { IfOk result (λ text. (rows : List Row) × AreRows problems.now rows
        × (text ≡ lines_text rows problems.now.covered)) }
{
    let mut text = problem_lines(alloc, problems, None)?;
    add_summary(alloc, &mut text, problems)?;
    Ok(text)
}
