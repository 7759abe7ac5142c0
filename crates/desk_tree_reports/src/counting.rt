//! How many problems there are.

ghost use Rattle.std.specs.Prelude.{◌≡◌, ◌+◌, List, nat_eq, length, count_by, sum, IfOk};
ghost use Rattle.desk_tree_problems.specs.declared.row.Row.{Row};
ghost use Rattle.desk_tree_reports.specs.Reports.{count_of};
ghost use Rattle.desk_tree_problems.specs.Rows.{kind_number, flaw_kind, AreRows};

use desk_tree_gather::Flaw;
use desk_tree_problems::{Kind, Problems};
use std::alloc::AllocError;

// The kind of a flaw.
fn kind_of(flaw: &Flaw) -> Kind
    ensures { result ≡ flaw_kind flaw.now }
{
    match flaw {
        Flaw::TooManyFiles => Kind::TooManyFiles,
        Flaw::BadPath(_) => Kind::BadPath,
        Flaw::TwicePath(_) => Kind::TwicePath,
        Flaw::BadToml(_) => Kind::BadToml,
        Flaw::BadAnnotation(_, _, _) => Kind::BadAnnotation,
        Flaw::BadExpression(_, _, _) => Kind::BadExpression,
    }
}

// How many flaws are of a kind.
fn flaws_of(flaws: &[Flaw], kind: Kind) -> usize
    ensures { result
        ≡ count_by (λ flaw. nat_eq (kind_number (flaw_kind flaw)) (kind_number kind)) flaws.now }
{
    let number = kind.number();
    flaws
        .iter()
        .filter(|flaw| kind_of(flaw).number() == number)
        .count()
}

/// How many problems are of a kind.
pub(crate) fn count_of(problems: &Problems, kind: Kind) -> usize
    ensures { (rows : List Row) → AreRows problems.now rows → result ≡ count_of kind rows }
{
    match kind {
        Kind::Dep5 => usize::from(problems.dep5),
        Kind::BlankAtEnd => problems.blanks.as_slice().len(),
        Kind::Missing => problems.names.len(),
        Kind::Unused => problems.unused.as_slice().len(),
        Kind::Bare => problems.bare.as_slice().len(),
        _ => flaws_of(problems.flaws.as_slice(), kind),
    }
}

// The sum of some numbers, each of which counts things in memory. A sum too large for its type is
// an error.
fn total(counts: &[usize]) -> Result<usize, AllocError>
    ensures { IfOk result (λ total. total ≡ sum counts.now) }
{
    let mut total = 0usize;
    for count in counts {
        let Some(more) = total.checked_add(*count) else {
            return Err(AllocError);
        };
        total = more;
    }
    Ok(total)
}

/// How many problems there are.
pub(crate) fn number_of(problems: &Problems) -> Result<usize, AllocError>
    ensures { (rows : List Row) → AreRows problems.now rows
        → IfOk result (λ number. number ≡ length rows) }
{
    total(&[
        usize::from(problems.dep5),
        problems.flaws.as_slice().len(),
        problems.blanks.as_slice().len(),
        problems.names.len(),
        problems.unused.as_slice().len(),
        problems.bare.as_slice().len(),
    ])
}
