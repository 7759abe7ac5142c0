//! Owned lists of texts.

ghost use Rattle.std.specs.Prelude.{◌≡◌, ◌<◌, ◌++◌, ◌∷◌, [], length, slice_index, slice_index_or, OnOk, OnErr};

use std::alloc::{AllocError, Global};
use std::marker::Model;

/// An owned list of texts in one buffer, seen as the list of the texts' bytes. Each text takes four
/// bytes besides its own.
#[derive(Drop)]
pub struct TextList {
    // The texts, one after another.
    bytes: String,
    // Where each ends.
    ends: Vec<u32>,
}

impl Model for TextList {
    ghost use Rattle.std.specs.Prelude.{List, ℕ};
    ghost use Rattle.std.specs.String.{string_bytes};
    ghost use Rattle.desk_base.specs.Pieces.{pieces, AreEnds};

    ghost Value = { List (List ℕ) };

    ghost view = { λ t. pieces (string_bytes t.bytes) 0 t.ends.items };

    ghost invariant = { λ t. AreEnds (string_bytes t.bytes) 0 t.ends.items };
}

/// Where the text at a place begins: the first at 0, each other where the one before it ends.
fn start_of(ends: &[u32], place: usize) -> u32
    requires { place < length ends.now }
    ensures { result ≡ slice_index (0 ∷ ends.now) place }
{
    if place == 0 { 0 } else { ends[place - 1] }
}

impl TextList {
    /// An empty list.
    pub fn new(alloc: Global) -> TextList
        ensures { result ≡ [] }
    {
        TextList {
            bytes: String::new(alloc),
            ends: Vec::new(alloc),
        }
    }

    /// How many texts there are.
    pub fn len(&self) -> usize
        ensures { result ≡ length self.now }
    {
        self.ends.len()
    }

    /// The text at a place, from 0.
    pub fn at(&self, place: usize) -> &str
        requires { place < length self.now }
        ensures { result.now ≡ slice_index_or self.now place [] }
    {
        let start = start_of(self.ends.as_slice(), place);
        &self.bytes[start as usize..self.ends[place] as usize]
    }

    /// Adds a text at the end. If all texts together would have 2 ^ 32 bytes or more, it fails as
    /// if no memory were left.
    pub fn push(&mut self, text: &str) -> Result<(), AllocError>
        ensures ok { OnOk result (self.new ≡ self.old ++ text.now ∷ []) }
        ensures err { OnErr result (self.new ≡ self.old) }
    {
        let Ok(end) = u32::try_from(self.bytes.len() + text.len()) else {
            return Err(AllocError);
        };
        // Room for the text is reserved first, so that its end is never added without it.
        self.bytes.reserve(text.len())?;
        self.ends.push(end)?;
        self.bytes.push_str(text)
    }
}
