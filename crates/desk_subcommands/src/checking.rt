//! Whether a choice of terms satisfies an expression, and whether it still does without one of
//! them.

ghost use Rattle.std.specs.Prelude.{◌≡◌, ◌++◌, ◌∷◌, [], ℕ, IfOk, IfErr, List, map};
ghost use Rattle.std.specs.Io.KnownBytes.{Appends, Keeps};
ghost use Rattle.desk_subcommands.specs.Failures.{IfMemory, IsOfOutput};
ghost use Rattle.desk_subcommands.specs.Report.{IsReadTo, IsReport, IsVerdict, SpellTerms, Tells, TellsOnce};

use crate::failure::Failure;
use crate::report::Report;
use desk_alts::{Verdict, check_choice};
use desk_expr::{Expr, Profile, Term, parse_in, parse_term, unless_memory};
use std::alloc::{AllocError, Global};
use std::io::Write;

/// What a list of words spells.
#[derive(Drop)]
enum Terms<'a> {
    /// A term for each word.
    All(Vec<Term>),
    /// The first word that spells no term.
    Bad(&'a str),
}

fn read_terms<'a>(alloc: Global, words: &'a [&'a str]) -> Result<Terms<'a>, AllocError>
    ensures { IfOk result (IsReadTo (map (λ w. w.now) words.entry.now)) }
{
    let mut terms = Vec::new(alloc);
    for word in words {
        match parse_term(alloc, word) {
            Ok(term) => terms.push(term)?,
            Err(fault) => {
                unless_memory(fault)?;
                return Ok(Terms::Bad(word));
            }
        }
    }
    Ok(Terms::All(terms))
}

/// How the terms of the words satisfy the expression.
fn verdict<'a>(tree: &Expr, terms: &[Term], words: &'a [&'a str]) -> Report<'a>
    requires { SpellTerms (map (λ w. w.now) words.now) terms.now }
    ensures { IsVerdict (map (λ w. w.now) words.entry.now) terms.now tree.now result }
{
    match check_choice(tree, terms) {
        Verdict::NotEnough => Report::NotEnough,
        Verdict::Superfluous(place) => {
            // There are as many words as terms.
            prove!(place < words.len());
            Report::Superfluous(words[place])
        }
        Verdict::Minimal => Report::Minimal,
    }
}

fn judge<'a>(
    alloc: Global,
    expression: &str,
    profile: Profile,
    words: &'a [&'a str],
) -> Result<Report<'a>, AllocError>
    ensures { IfOk result (IsReport profile expression.now (map (λ w. w.now) words.entry.now)) }
{
    let tree = match parse_in(alloc, expression, profile) {
        Ok(tree) => tree,
        Err(fault) => return Ok(Report::Fault(unless_memory(fault)?)),
    };
    match read_terms(alloc, words)? {
        Terms::Bad(word) => Ok(Report::BadTerm(word)),
        Terms::All(terms) => Ok(verdict(&tree, terms.as_slice(), words)),
    }
}

/// Writes whether the words spell a minimal choice of terms for the licence expression, whose
/// operators are written by the profile, as one line, and returns the program's status. If no
/// memory is left, nothing is written.
pub fn check<W: Write>(
    alloc: Global,
    expression: &str,
    profile: Profile,
    words: &[&str],
    writer: &mut W,
) -> Result<u8, Failure>
    ensures told { IfOk result (λ status. (line : List ℕ)
        × Tells profile expression.now (map (λ w. w.now) words.now) line status
        × Appends (W.contents writer.old) (W.contents writer.new) (line ++ 10 ∷ [])) }
    ensures once { TellsOnce profile expression.now (map (λ w. w.now) words.now) }
    ensures fails { IfErr result IsOfOutput }
    ensures memory { IfErr result
        (IfMemory (Keeps (W.contents writer.old) (W.contents writer.new))) }
{
    let report = judge(alloc, expression, profile, words)?;
    let line = format!(in alloc; "{report}\n")?;
    writer.write_all(line.as_bytes())?;
    writer.flush()?;
    Ok(report.status())
}
