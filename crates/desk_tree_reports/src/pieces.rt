//! Texts of pieces, some of which have several holders.

ghost use Rattle.std.specs.Prelude.{◌≡◌, ◌++◌, [], length, IfOk, OnOk};
ghost use Rattle.std.specs.Io.KnownBytes.{Appends};
ghost use Rattle.desk_tree_reports.specs.Pieces.{woven};

use desk_base::TextList;
use std::alloc::{AllocError, Global};
use std::io::{self, Write};
use std::marker::Model;
use std::rc::Rc;

// A list with this many pieces is full.
const PIECES_FULL: usize = 4_096;

/// Bytes that may have several holders. A clone takes no memory for them.
#[derive(Drop)]
pub(crate) struct SharedBytes {
    bytes: Rc<Vec<u8>>,
}

impl Model for SharedBytes {
    ghost use Rattle.std.specs.Prelude.{List, ℕ};

    ghost Value = { List ℕ };

    ghost view = { λ b. b.bytes.value.items };
}

impl SharedBytes {
    /// These bytes, which keep their place in memory.
    pub(crate) fn of(alloc: Global, bytes: Vec<u8>) -> Result<SharedBytes, AllocError>
        ensures { IfOk result (λ b. b ≡ bytes.items) }
    {
        Ok(SharedBytes {
            bytes: Rc::new(alloc, bytes)?,
        })
    }

    /// The bytes themselves.
    pub(crate) fn as_slice(&self) -> &[u8]
        ensures { result.now ≡ self.now }
    {
        self.bytes.as_slice()
    }
}

impl Clone for SharedBytes {
    ghost is_clone = { λ a b. b ≡ a };

    fn clone(&self) -> Result<SharedBytes, AllocError> {
        Ok(SharedBytes {
            bytes: self.bytes.clone()?,
        })
    }
}

/// An owned text, seen as its bytes: pieces, each of bytes of its own and then of bytes that have
/// several holders.
#[derive(Drop)]
pub(crate) struct Pieces {
    owns: TextList,
    shares: Vec<SharedBytes>,
}

impl Model for Pieces {
    ghost use Rattle.std.specs.Prelude.{◌≡◌, List, ℕ, length};
    ghost use Rattle.desk_tree_reports.specs.Pieces.{woven};

    ghost Value = { List ℕ };

    ghost view = { λ p. woven p.owns p.shares.items };

    ghost invariant = { λ p. length p.owns ≡ length p.shares.items };
}

// Writes a piece.
fn write_piece<W: Write>(writer: &mut W, own: &str, share: &SharedBytes) -> io::Result<()>
    ensures { OnOk result (Appends (W.contents writer.old) (W.contents writer.new)
        (own.now ++ share.now)) }
{
    writer.write_all(own.as_bytes())?;
    writer.write_all(share.as_slice())
}

// Writes pieces one after the other.
fn write_pieces<W: Write>(writer: &mut W, owns: &TextList, shares: &[SharedBytes]) -> io::Result<()>
    requires { length owns.now ≡ length shares.now }
    ensures { OnOk result (Appends (W.contents writer.old) (W.contents writer.new)
        (woven owns.now shares.now)) }
{
    for place in 0..owns.len() {
        write_piece(writer, owns.at(place), &shares[place])?;
    }
    Ok(())
}

impl Pieces {
    /// An empty text.
    pub(crate) fn new(alloc: Global) -> Pieces
        ensures { result ≡ [] }
    {
        Pieces {
            owns: TextList::new(alloc),
            shares: Vec::new(alloc),
        }
    }

    /// Whether there are so many that others belong in another list, so that no list needs a large
    /// place in memory.
    pub(crate) fn is_full(&self) -> bool {
        self.shares.len() >= PIECES_FULL
    }

    /// Adds a piece at the end.
    pub(crate) fn push(&mut self, own: &str, share: SharedBytes) -> Result<(), AllocError>
        ensures { OnOk result (self.new ≡ self.old ++ (own.now ++ share)) }
    {
        // Room for what is shared is reserved first, so that the piece's own bytes are never added
        // without it.
        self.shares.reserve(1)?;
        self.owns.push(own)?;
        self.shares.push(share)?;
        Ok(())
    }

    /// Writes the text.
    pub(crate) fn write_to<W: Write>(&self, writer: &mut W) -> io::Result<()>
        ensures { OnOk result (Appends (W.contents writer.old) (W.contents writer.new) self.now) }
    {
        write_pieces(writer, &self.owns, self.shares.as_slice())
    }
}
