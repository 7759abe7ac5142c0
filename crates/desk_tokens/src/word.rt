//! Words of licence expressions.

ghost use Rattle.std.specs.Prelude.{◌≡◌};
ghost use Rattle.desk_tokens.specs.Words.{without_plus};

/// A word without the plus that may be at its end (SPDX 2.3, Annex D.3).
pub fn without_plus(word: &str) -> &str
    ensures { result.now ≡ without_plus word.now }
{
    word.strip_suffix("+").unwrap_or(word)
}
