//! Patterns of paths (REUSE Specification 3.3, "REUSE.toml", `path`).

ghost use Rattle.std.specs.Prelude.{◌≡◌, ◌≢◌, ◌↔◌, ◌<◌, ◌==◌, ℕ, List, length, All, IsTrue, IfSome, IfNone, IfOk};
ghost use Rattle.std.specs.List.{count_by};
ghost use Rattle.desk_tree_patterns.specs.declared.glob.Piece.{Piece};
ghost use Rattle.desk_tree_patterns.specs.declared.glob.Piece.TheVariants.{InPath};
ghost use Rattle.desk_tree_patterns.specs.Glob.{IsMatch, Begins, Spells};

use crate::matching::{matches, matches_soon};
use std::alloc::{AllocError, Global};
use std::marker::Model;

/// A piece of a pattern.
#[derive(Clone, Copy)]
pub enum Piece {
    /// A byte that matches only itself.
    Byte(u8),
    /// `*`: any bytes except `/`, or none.
    InName,
    /// `**`: any bytes, or none.
    InPath,
}

// One asterisk or two.
#[derive(Clone, Copy)]
pub(crate) enum Star {
    Single,
    Double,
}

// A star, and how many literal bytes are between the star before it and this one.
#[derive(Clone, Copy)]
pub(crate) struct Part {
    pub before: u32,
    pub star: Star,
}

// The first piece of a pattern, and what follows it.
fn first_piece(pattern: &[u8]) -> Option<(Piece, &[u8])>
    ensures some { IfSome result (λ r. Begins pattern.now r.0 r.1.now) }
    ensures less { IfSome result (λ r. length r.1.now < length pattern.now) }
    ensures none { IfNone result (length pattern.now ≡ 0) }
{
    match pattern {
        [b'*', b'*', rest @ ..] => Some((Piece::InPath, rest)),
        [b'*', rest @ ..] => Some((Piece::InName, rest)),
        [b'\\', byte, rest @ ..] => Some((Piece::Byte(*byte), rest)),
        [byte, rest @ ..] => Some((Piece::Byte(*byte), rest)),
        [] => None,
    }
}

/// A pattern of paths, seen as its pieces.
///
/// `*` matches any bytes except `/`, `**` any bytes, `\*` an asterisk and `\\` a backslash. A
/// pattern is read from the left: two asterisks are `**`, and a backslash makes the byte after it
/// match only itself, or at the end matches itself. So each text is a pattern. It takes one byte of
/// memory for each byte that matches only itself, and eight for each star.
#[derive(Drop)]
pub struct Glob {
    // The bytes that match only themselves, one after another.
    bytes: Vec<u8>,
    // The stars in order.
    parts: Vec<Part>,
}

impl Model for Glob {
    ghost use Rattle.std.specs.Prelude.{List};
    ghost use Rattle.desk_tree_patterns.specs.declared.glob.Piece.{Piece};
    ghost use Rattle.desk_tree_patterns.specs.Parts.{pieces};

    ghost Value = { List Piece };

    ghost view = { λ g. pieces g.bytes.items g.parts.items };
}

impl Glob {
    /// The pieces of a pattern. The only error is lack of memory: it also occurs if 2 ^ 32 bytes or
    /// more match only themselves with no star between them.
    pub fn parse(alloc: Global, pattern: &str) -> Result<Glob, AllocError>
        ensures { IfOk result (λ g. Spells pattern.now g) }
    {
        let mut bytes = Vec::new(alloc);
        let mut parts = Vec::new(alloc);
        // The bytes since the last star.
        let mut before: u32 = 0;
        let mut rest = pattern.as_bytes();
        while let Some((piece, more)) = first_piece(rest) {
            match piece {
                Piece::Byte(byte) => {
                    let Some(longer) = before.checked_add(1) else {
                        return Err(AllocError);
                    };
                    bytes.push(byte)?;
                    before = longer;
                }
                Piece::InName => {
                    let star = Star::Single;
                    parts.push(Part { before, star })?;
                    before = 0;
                }
                Piece::InPath => {
                    let star = Star::Double;
                    parts.push(Part { before, star })?;
                    before = 0;
                }
            }
            rest = more;
        }
        Ok(Glob { bytes, parts })
    }

    /// Whether the pattern matches the whole path: whether the path divides into stretches, one for
    /// each piece in order.
    pub fn matches(&self, path: &str) -> bool
        ensures { IsTrue result ↔ IsMatch self.now path.now }
    {
        let path = path.as_bytes();
        matches(self.parts.as_slice(), self.bytes.as_slice(), path)
    }

    /// The same, but fast even if the search goes back often: it then goes over rows of all places
    /// of the pattern. The only error is lack of memory for these.
    pub fn matches_soon(&self, alloc: Global, path: &str) -> Result<bool, AllocError>
        ensures { IfOk result (λ found. IsTrue found ↔ IsMatch self.now path.now) }
    {
        matches_soon(
            alloc,
            self.parts.as_slice(),
            self.bytes.as_slice(),
            path.as_bytes(),
        )
    }
}

/// A pattern can be read in only one way.
pub fn one_glob()
    ensures { (pattern : List ℕ) (a b : List Piece) → Spells pattern a → Spells pattern b → a ≡ b }
{}

/// Each text is a pattern.
pub fn each_text_is_a_glob()
    ensures { (pattern : List ℕ) → (pieces : List Piece) × Spells pattern pieces }
{}

/// A `*` never takes a `/`: if a pattern without `**` matches a path, both have the same number of
/// slashes.
pub fn stars_take_no_slash()
    ensures { (pattern path : List ℕ) (pieces : List Piece) → Spells pattern pieces
        → All (λ p. p ≢ InPath) pieces → IsMatch pieces path
        → count_by (λ b. b == 47) path ≡ count_by (λ b. b == 47) pattern }
{}
