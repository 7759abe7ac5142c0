//! Prints terms and expressions.

ghost use Rattle.std.specs.Prelude.{◌≡◌, ◌≤◌, ◌<◌, ◌∷◌, [], ◌++◌, OnOk, IfOk, IsTrue, length, if◌then◌else◌};
ghost use Rattle.std.specs.String.{string_bytes};
ghost use Rattle.desk_expr.specs.Words.{is_term};
ghost use Rattle.desk_expr.specs.Spelling.{Spells, SpellsTermAlone};
ghost use Rattle.desk_expr.specs.Printing.{printed_term, printed_in, printed, IsWellFormed, encloses_all, encloses_any};

use crate::expr::{Expr, Node};
use crate::term::Term;
use std::alloc::{AllocError, Global};

/// Where a part of an expression is.
#[derive(Clone, Copy)]
pub(crate) enum Place {
    Top,
    InAll,
    InAny,
}

fn encloses_all(place: Place) -> bool
    ensures { result ≡ encloses_all place }
{
    matches!(place, Place::InAll)
}

fn encloses_any(place: Place) -> bool
    ensures { result ≡ encloses_any place }
{
    !matches!(place, Place::Top)
}

// Adds a printed term to a text.
fn add_term(text: &mut String, term: &Term) -> Result<(), AllocError>
    ensures { OnOk result (string_bytes text.new ≡ string_bytes text.old ++ printed_term term.now) }
{
    text.push_str(term.key.as_str())?;
    if term.plus {
        text.push_str("+")?;
    }
    if let Some(exception) = &term.exception {
        text.push_str(" WITH ")?;
        text.push_str(exception.as_str())?;
    }
    Ok(())
}

// Adds a piece if it is wanted.
fn add_if(text: &mut String, wanted: bool, piece: &str) -> Result<(), AllocError>
    ensures { OnOk result (string_bytes text.new
        ≡ string_bytes text.old ++ (if wanted then piece.now else [])) }
{
    if wanted {
        text.push_str(piece)?;
    }
    Ok(())
}

fn first_and_others(parts: &[Expr]) -> (&Expr, &[Expr])
    requires { 2 ≤ length parts.now }
    ensures parts { parts.now ≡ result.0.now ∷ result.1.now }
    ensures several { 0 < length result.1.now }
{
    (&parts[0], &parts[1..])
}

impl Expr {
    // Adds the printed tree to a text.
    fn add_to(&self, text: &mut String, place: Place) -> Result<(), AllocError>
        ensures text { OnOk result (string_bytes text.new
            ≡ string_bytes text.old ++ printed_in place self.now) }
        ensures well_formed { OnOk result (IsWellFormed self.now) }
    {
        match &self.node {
            Node::One(leaf) => add_term(text, leaf.term())?,
            Node::All(parts) => {
                let enclosed = encloses_all(place);
                add_if(text, enclosed, "(")?;
                let (first, others) = first_and_others(parts.as_slice());
                first.add_to(text, Place::InAll)?;
                for part in others {
                    text.push_str(" AND ")?;
                    part.add_to(text, Place::InAll)?;
                }
                add_if(text, enclosed, ")")?;
            }
            Node::Any(parts) => {
                let enclosed = encloses_any(place);
                add_if(text, enclosed, "(")?;
                let (first, others) = first_and_others(parts.as_slice());
                first.add_to(text, Place::InAny)?;
                for part in others {
                    text.push_str(" OR ")?;
                    part.add_to(text, Place::InAny)?;
                }
                add_if(text, enclosed, ")")?;
            }
        }
        Ok(())
    }
}

/// The term as a word, followed by `WITH` and its exception if it has one (SPDX 2.3, Annex D.2 to
/// D.4).
pub fn print_term(alloc: Global, term: &Term) -> Result<String, AllocError>
    ensures text { IfOk result (λ s. string_bytes s ≡ printed_term term.now) }
    ensures spells { IsTrue (is_term term.now)
        → IfOk result (λ s. SpellsTermAlone (string_bytes s) term.now) }
{
    let mut text = String::new(alloc);
    add_term(&mut text, term)?;
    Ok(text)
}

/// The expression as a text that spells it: one space on either side of each operator, no
/// parentheses around an All under an Any, but around every other All or Any under another node.
pub fn print(alloc: Global, expr: &Expr) -> Result<String, AllocError>
    ensures text { IfOk result (λ s. string_bytes s ≡ printed expr.now) }
    ensures spells { IfOk result (λ s. Spells (string_bytes s) expr.now) }
    ensures well_formed { OnOk result (IsWellFormed expr.now) }
{
    let mut text = String::new(alloc);
    expr.add_to(&mut text, Place::Top)?;
    Ok(text)
}
