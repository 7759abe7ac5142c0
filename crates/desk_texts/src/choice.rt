//! How the terms of a choice satisfy an expression.
//!
//! Whether an expression is true depends only on its own terms. So of a choice, which may list
//! millions of terms, only the first copy of each of these is kept, and the first of all other
//! terms: at most 1,025 terms.

ghost use Rattle.std.specs.Prelude.{◌≡◌, ◌<◌, ◌++◌, ◌∷◌, [], List, length, vec_len, IfOk, OnOk};
ghost use Rattle.desk_expr.specs.declared.term.Term.{Term};
ghost use Rattle.desk_expr.specs.Occurring.{AreTermsOf};
ghost use Rattle.desk_texts.specs.Choices.{AreFirst, AreKept, IsKeptOf, IsSlot};
ghost use Rattle.desk_texts.specs.Expressions.{IsVerdict, JudgesTerms};

use crate::term::read_term;
use desk_alts::{TermTable, check_choice};
use desk_base::TextList;
use desk_expr::{Expr, Term};
use desk_model::Verdict;
use std::alloc::{AllocError, Global};

/// What is kept of a choice, in its order.
#[derive(Drop)]
struct Kept {
    // Whether a term with this slot is kept.
    is_met: Vec<bool>,
    terms: Vec<Term>,
    // The place of each term in the choice.
    places: Vec<usize>,
}

/// The slot of a term: its place among an expression's own terms. All others share the last one.
fn slot_of(own: &TermTable, term: &Term) -> usize
    ensures { IsSlot own.now term.now result }
{
    match own.place(term) {
        Some(place) => place,
        None => own.terms().len(),
    }
}

impl Kept {
    /// Nothing is kept yet.
    fn new(alloc: Global, own: &TermTable) -> Result<Kept, AllocError>
        ensures { IfOk result (AreKept own.now []) }
    {
        Ok(Kept {
            is_met: vec![in alloc; false; own.terms().len() + 1]?,
            terms: Vec::new(alloc),
            places: Vec::new(alloc),
        })
    }

    /// Adds the term at a place, if it's the first with this slot.
    fn add(&mut self, slot: usize, place: usize, term: Term) -> Result<(), AllocError>
        requires { slot < vec_len self.old.is_met }
        ensures { (own chosen : List Term) → AreKept own chosen self.old → IsSlot own term slot
            → place ≡ length chosen → OnOk result (AreKept own (chosen ++ term ∷ []) self.new) }
    {
        if self.is_met[slot] {
            return Ok(());
        }
        self.is_met[slot] = true;
        self.terms.push(term)?;
        self.places.push(place)?;
        Ok(())
    }
}

/// What is kept of the terms that texts spell, if each spells one.
fn kept_of(alloc: Global, own: &TermTable, words: &TextList) -> Result<Option<Kept>, AllocError>
    ensures { IfOk result (IsKeptOf own.now words.now) }
{
    let mut kept = Kept::new(alloc, own)?;
    for place in 0..words.len() {
        let Some(term) = read_term(alloc, words.at(place))? else {
            return Ok(None);
        };
        kept.add(slot_of(own, &term), place, term)?;
    }
    Ok(Some(kept))
}

/// How a choice satisfies an expression, by what is kept of it.
fn verdict_of(expr: &Expr, kept: &Kept) -> Verdict
    requires { vec_len kept.now.places ≡ vec_len kept.now.terms }
    ensures { (own chosen : List Term) → AreTermsOf expr.now own
        → AreFirst own chosen kept.now.terms.items kept.now.places.items
        → IsVerdict expr.now chosen result }
{
    match check_choice(expr, kept.terms.as_slice()) {
        desk_alts::Verdict::NotEnough => Verdict::NotEnough,
        desk_alts::Verdict::Superfluous(i) => Verdict::Superfluous(kept.places[i]),
        desk_alts::Verdict::Minimal => Verdict::Minimal,
    }
}

/// How texts that spell terms satisfy an expression.
pub(crate) fn verdict(alloc: Global, expr: &Expr, words: &TextList) -> Result<Verdict, AllocError>
    ensures { IfOk result (JudgesTerms expr.now words.now) }
{
    let own = TermTable::of(alloc, expr)?;
    match kept_of(alloc, &own, words)? {
        Some(kept) => Ok(verdict_of(expr, &kept)),
        None => Ok(Verdict::NotEnough),
    }
}
