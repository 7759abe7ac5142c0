//! Counts what the limits of an expression apply to: open parentheses and terms.

ghost use Rattle.std.specs.Prelude.{◌≡◌, ◌≤◌, ◌-◌, ℕ, List, OnOk, IfOk, IfErr, [], false, length, slice_get, Some};
ghost use Rattle.desk_base.specs.Limits.{expression_terms as most_terms};
ghost use Rattle.desk_tokens.specs.Tokens.{lexeme};
ghost use Rattle.desk_expr.specs.Spelling.{symbol, open_after, is_word, is_with};

use crate::fault::ParseFault;
use desk_base::limits;
use desk_tokens::{Kind, Token};
use std::alloc::{AllocError, Global};

/// The places of the parentheses that are still open, in the order of the text, the number of terms
/// so far, and whether the last token is `WITH`.
#[derive(Drop)]
pub(crate) struct Counts {
    pub(crate) open_places: Vec<usize>,
    pub(crate) terms: usize,
    pub(crate) after_with: bool,
    pub(crate) ghost few: { terms ≤ most_terms },
}

// The parentheses still open after a token.
fn note_parenthesis(open_places: &mut Vec<usize>, token: &Token<'_>) -> Result<(), AllocError>
    ensures { OnOk result (open_places.new.items
        ≡ open_after open_places.old.items (lexeme token.now)) }
{
    match token.kind {
        Kind::Opening => {
            open_places.push(token.start)?;
        }
        Kind::Closing => {
            open_places.pop();
        }
        _ => {}
    }
    Ok(())
}

fn is_word(kind: Kind) -> bool
    ensures { (w : List ℕ) → result ≡ is_word (symbol kind w) }
{
    matches!(kind, Kind::Licence | Kind::LicenceOrLater | Kind::Reference)
}

fn is_with(kind: Kind) -> bool
    ensures { (w : List ℕ) → result ≡ is_with (symbol kind w) }
{
    matches!(kind, Kind::With)
}

impl Counts {
    ghost use Rattle.desk_expr.specs.Counting.{CountsToken, IsOver};

    // Nothing is counted yet.
    pub(crate) fn new(alloc: Global) -> Counts
        ensures open_places { result.open_places.items ≡ [] }
        ensures terms { result.terms ≡ 0 }
        ensures after_with { result.after_with ≡ false }
    {
        Counts {
            open_places: Vec::new(alloc),
            terms: 0,
            after_with: false,
        }
    }

    // Counts a token.
    pub(crate) fn count(self, token: &Token<'_>) -> Result<Counts, ParseFault>
        ensures ok { IfOk result (CountsToken self (lexeme token.now)) }
        ensures err { IfErr result (IsOver self (lexeme token.now)) }
    {
        let Counts {
            mut open_places,
            mut terms,
            after_with,
        } = self;
        if let Err(error) = note_parenthesis(&mut open_places, token) {
            return Err(ParseFault::Memory(error));
        }
        if is_word(token.kind) && !after_with {
            terms += 1;
        }
        if open_places.len() > limits::OPEN_PARENTHESES {
            return Err(ParseFault::TooDeep(token.start));
        }
        if terms > limits::EXPRESSION_TERMS {
            return Err(ParseFault::TooManyTerms(token.start));
        }
        Ok(Counts {
            open_places,
            terms,
            after_with: is_with(token.kind),
        })
    }

    // The place of the last parenthesis that is still open.
    pub(crate) fn last_open(&self) -> usize
        ensures { (p : ℕ) → slice_get self.now.open_places.items
            (length self.now.open_places.items - 1) ≡ Some p → result ≡ p }
    {
        self.open_places.last().copied().unwrap_or(0)
    }
}
