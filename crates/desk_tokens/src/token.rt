//! Tokens of licence expressions.

ghost use Rattle.std.specs.Prelude.{◌≡◌, ℕ, List, map};
ghost use Rattle.std.specs.Iterator.{Drains};
ghost use Rattle.desk_tokens.specs.declared.token.Token.{Token};
ghost use Rattle.desk_tokens.specs.Tokens.{AreTokens, AreTokensBy, lexeme};
ghost use Rattle.desk_tokens.specs.Given.{TokenGiven};

use crate::cut::TokenCuts;
use desk_base::Profile;

/// What a token is.
#[derive(Clone, Copy, Debug, PartialEq, Eq)]
pub enum Kind {
    /// `(`
    Opening,
    /// `)`
    Closing,
    /// `AND`, or by `Profile::Either` also `and`.
    And,
    /// `OR`, likewise.
    Or,
    /// `WITH`, likewise.
    With,
    /// A licence or exception id.
    Licence,
    /// A licence id directly followed by `+`.
    LicenceOrLater,
    /// A `LicenseRef-`, perhaps of another document.
    Reference,
    /// Any other run of bytes.
    Bad,
}

/// A parenthesis, or a longest run of bytes that are neither blanks nor parentheses.
#[derive(Clone, Copy)]
pub struct Token<'a> {
    /// The token's slice of the text.
    pub text: &'a str,
    /// The place of its first byte, counted from 0.
    pub start: usize,
    /// The place after its last byte.
    pub end: usize,
    /// What it is.
    pub kind: Kind,
}

/// Cuts a text into its tokens: what `next` returns until it returns none are the tokens of the
/// text, in order, each at its place and with its kind. Operators are in capitals.
pub fn tokens<'a>(text: &'a str) -> TokenCuts<'a>
    ensures rest { result.rest.now ≡ text.now }
    ensures place { result.place ≡ 0 }
    ensures tokens { (given : List Token) → Drains TokenGiven result given
        → AreTokens 0 text.now (map lexeme given) }
{
    tokens_in(text, Profile::Capitals)
}

/// Cuts a text into its tokens as `tokens` does, with operators as the profile has them.
pub fn tokens_in<'a>(text: &'a str, profile: Profile) -> TokenCuts<'a>
    ensures rest { result.rest.now ≡ text.now }
    ensures place { result.place ≡ 0 }
    ensures profile { result.profile ≡ profile }
    ensures tokens { (given : List Token) → Drains TokenGiven result given
        → AreTokensBy profile 0 text.now (map lexeme given) }
{
    TokenCuts {
        rest: text,
        place: 0,
        profile,
    }
}
