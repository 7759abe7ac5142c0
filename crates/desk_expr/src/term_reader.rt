//! Reads a text as one licence term.

ghost use Rattle.std.specs.Prelude.{◌≡◌, ℕ, List, ◌∷◌, [], ◌++◌, ◌⊎◌, IfOk, IfErr, alloc_error};
ghost use Rattle.desk_expr.specs.declared.term.Term.{Term};
ghost use Rattle.desk_tokens.specs.Tokens.{Lexeme, lexeme};
ghost use Rattle.desk_expr.specs.Grammar.{SpellsTerm};
ghost use Rattle.desk_tokens.specs.Words.{IsWordOf};
ghost use Rattle.desk_expr.specs.Spelling.{symbol, SpellsTermAlone, SpellsTermAloneBy, SpellsTermWithin, SpellsTermWithinBy, IsStop, IsStopBy};
ghost use Rattle.desk_expr.specs.TermReading.{TermSteps, TermStops, TermEnds, TermFalls};

use crate::expr::Leaf;
use crate::fault::ParseFault;
use crate::term::Term;
use crate::word::{Halt, exception_of, is_bad, leaf_of, with_exception};
use desk_base::{Profile, limits};
use desk_tokens::{Kind, Token, tokens_in};
use std::alloc::Global;

/// What comes before the next token.
#[derive(Drop)]
pub(crate) enum TermState {
    /// A word is wanted.
    Start,
    /// A word, which an exception may follow.
    Word(Leaf),
    /// A word and `WITH`.
    Exception(Leaf),
    /// A word with an exception.
    Done(Leaf),
}

impl TermState {
    // Reads one token.
    fn step(self, alloc: Global, token: &Token<'_>) -> Result<TermState, Halt>
        requires { IsWordOf token.now.kind token.now.text.now }
        ensures ok { IfOk result (TermSteps self (symbol token.now.kind token.now.text.now)) }
        ensures err { IfErr result (TermStops self (symbol token.now.kind token.now.text.now)) }
    {
        match self {
            TermState::Start => match leaf_of(alloc, token.kind, token.text) {
                Ok(leaf) => Ok(TermState::Word(leaf)),
                Err(halt) => Err(halt),
            },
            TermState::Word(leaf) => match token.kind {
                Kind::With => Ok(TermState::Exception(leaf)),
                _ => Err(Halt::Unexpected),
            },
            TermState::Exception(leaf) => match exception_of(alloc, token.kind, token.text) {
                Ok(key) => Ok(TermState::Done(with_exception(leaf, key))),
                Err(halt) => Err(halt),
            },
            TermState::Done(_) => Err(Halt::Unexpected),
        }
    }

    // The term, if a text of this length can end here.
    fn finish(self, length: usize) -> Result<Term, ParseFault>
        ensures ok { IfOk result (TermEnds self) }
        ensures err { IfErr result (TermFalls self length) }
    {
        match self {
            TermState::Start => Err(ParseFault::Empty(0)),
            TermState::Word(leaf) | TermState::Done(leaf) => Ok(leaf.into_term()),
            TermState::Exception(_) => Err(ParseFault::Unexpected(length)),
        }
    }
}

/// The term that the text spells: a licence id, perhaps with a plus, or a reference, and perhaps
/// `WITH` and an exception id (SPDX 2.3, Annex D.2 and D.4); or the first place at which it stops.
/// `WITH` is in capitals.
pub fn parse_term(alloc: Global, text: &str) -> Result<Term, ParseFault>
    ensures spelled { IfOk result (SpellsTermWithin text.now) }
    ensures stop { IfErr result (IsStop SpellsTerm text.now) }
    ensures complete { IfErr result (λ f. f ≡ ParseFault.Memory alloc_error
        ⊎ ((t : Term) → SpellsTermWithin text.now t → ⊥)) }
    ensures only { (a b : Term) → SpellsTermAlone text.now a → SpellsTermAlone text.now b → a ≡ b }
{
    parse_term_in(alloc, text, Profile::Capitals)
}

/// The term that the text spells by a profile of operators, or the first place at which it stops,
/// as `parse_term` says.
pub fn parse_term_in(alloc: Global, text: &str, profile: Profile) -> Result<Term, ParseFault>
    ensures spelled { IfOk result (SpellsTermWithinBy profile text.now) }
    ensures stop { IfErr result (IsStopBy SpellsTerm profile text.now) }
    ensures complete { IfErr result (λ f. f ≡ ParseFault.Memory alloc_error
        ⊎ ((t : Term) → SpellsTermWithinBy profile text.now t → ⊥)) }
    ensures only { (a b : Term) → SpellsTermAloneBy profile text.now a
        → SpellsTermAloneBy profile text.now b → a ≡ b }
{
    if text.len() > limits::EXPRESSION_BYTES {
        return Err(ParseFault::TooLong(0));
    }
    let mut state = TermState::Start;
    for token in tokens_in(text, profile) {
        if is_bad(token.kind) {
            return Err(ParseFault::BadToken(token.start));
        }
        match state.step(alloc, &token) {
            Ok(next) => state = next,
            Err(halt) => return Err(halt.at(token.start)),
        }
    }
    state.finish(text.len())
}
