//! Reads a text as a licence expression.

ghost use Rattle.std.specs.Prelude.{◌≡◌, ℕ, List, [], ◌∷◌, ◌++◌, ◌⊎◌, IfOk, IfErr, alloc_error};
ghost use Rattle.desk_expr.specs.Tree.{Tree};
ghost use Rattle.desk_tokens.specs.Tokens.{Lexeme, lexeme};
ghost use Rattle.desk_expr.specs.Grammar.{SpellsTree};
ghost use Rattle.desk_tokens.specs.Words.{IsWordOf};
ghost use Rattle.desk_expr.specs.Spelling.{symbols, Spells, SpellsBy, SpellsWithin, SpellsWithinBy, IsStop, IsStopBy};

use crate::counts::Counts;
use crate::expr::Expr;
use crate::fault::ParseFault;
use crate::reader::Reader;
use crate::word::{Halt, is_bad};
use desk_base::{Profile, limits};
use desk_tokens::{Token, tokens_in};
use std::alloc::Global;

/// What has been read of a text, and the counts to which its limits apply.
#[derive(Drop)]
pub(crate) struct Progress {
    pub(crate) reader: Reader,
    pub(crate) counts: Counts,
    pub(crate) started: bool,
}

impl Progress {
    ghost use Rattle.desk_expr.specs.Progress.{HasRead, StopsAfter, EndsAfter};

    fn new(alloc: Global) -> Progress
        ensures { HasRead [] result }
    {
        Progress {
            reader: Reader::new(alloc),
            counts: Counts::new(alloc),
            started: false,
        }
    }

    // Reads one token.
    fn step(self, alloc: Global, token: &Token<'_>) -> Result<Progress, ParseFault>
        requires { IsWordOf token.now.kind token.now.text.now }
        ensures ok { IfOk result (λ n. (front : List Lexeme) → HasRead front self
            → HasRead (front ++ lexeme token.now ∷ []) n) }
        ensures err { IfErr result (λ f. (front : List Lexeme) → HasRead front self
            → StopsAfter front (lexeme token.now) f) }
    {
        if is_bad(token.kind) {
            return Err(ParseFault::BadToken(token.start));
        }
        let Progress {
            reader,
            counts,
            started: _,
        } = self;
        let reader = match reader.step(alloc, token) {
            Ok(reader) => reader,
            Err(halt) => return Err(halt.at(token.start)),
        };
        match counts.count(token) {
            Ok(counts) => Ok(Progress {
                reader,
                counts,
                started: true,
            }),
            Err(fault) => Err(fault),
        }
    }

    // The tree, if a text of this length can end here.
    fn finish(self, length: usize) -> Result<Expr, ParseFault>
        ensures ok { IfOk result (λ e. (front : List Lexeme) → HasRead front self
            → SpellsTree (symbols front) e) }
        ensures err { IfErr result (λ f. (front : List Lexeme) → HasRead front self
            → EndsAfter front length f) }
    {
        let Progress {
            reader,
            counts,
            started,
        } = self;
        if !started {
            return Err(ParseFault::Empty(0));
        }
        match reader.finish() {
            Ok(tree) => Ok(tree),
            Err(Halt::Unexpected) => Err(ParseFault::Unexpected(length)),
            Err(Halt::Unclosed) => Err(ParseFault::Unclosed(counts.last_open())),
            Err(Halt::Memory(error)) => Err(ParseFault::Memory(error)),
        }
    }
}

/// The expression that the text spells (SPDX 2.3, Annex D), or the first place at which it stops.
/// Operators are in capitals.
pub fn parse(alloc: Global, text: &str) -> Result<Expr, ParseFault>
    ensures spelled { IfOk result (SpellsWithin text.now) }
    ensures stop { IfErr result (IsStop SpellsTree text.now) }
    ensures complete { IfErr result (λ f. f ≡ ParseFault.Memory alloc_error
        ⊎ ((e : Tree) → SpellsWithin text.now e → ⊥)) }
    ensures only { (a b : Tree) → Spells text.now a → Spells text.now b → a ≡ b }
{
    parse_in(alloc, text, Profile::Capitals)
}

/// The expression that the text spells by a profile of operators (SPDX 2.3, Annex D), or the first
/// place at which it stops.
pub fn parse_in(alloc: Global, text: &str, profile: Profile) -> Result<Expr, ParseFault>
    ensures spelled { IfOk result (SpellsWithinBy profile text.now) }
    ensures stop { IfErr result (IsStopBy SpellsTree profile text.now) }
    ensures complete { IfErr result (λ f. f ≡ ParseFault.Memory alloc_error
        ⊎ ((e : Tree) → SpellsWithinBy profile text.now e → ⊥)) }
    ensures only { (a b : Tree) → SpellsBy profile text.now a → SpellsBy profile text.now b
        → a ≡ b }
{
    if text.len() > limits::EXPRESSION_BYTES {
        return Err(ParseFault::TooLong(0));
    }
    let mut progress = Progress::new(alloc);
    for token in tokens_in(text, profile) {
        match progress.step(alloc, &token) {
            Ok(next) => progress = next,
            Err(fault) => return Err(fault),
        }
    }
    progress.finish(text.len())
}
