//! Long texts.

ghost use Rattle.std.specs.Prelude.{◌≡◌, ◌++◌, [], OnOk};
ghost use Rattle.std.specs.Io.KnownBytes.{Appends};
ghost use Rattle.desk_tree_reports.specs.LongTexts.{block_text, joined};

use crate::pieces::{Pieces, SharedBytes};
use std::alloc::{AllocError, Global};
use std::io::{self, Write};
use std::marker::Model;
use std::mem;

// A block with this many bytes takes no more.
const BYTES_FULL: usize = 65_000;

// A part of a text: pieces, and then bytes.
#[derive(Drop)]
pub(crate) struct Block {
    pub(crate) pieces: Pieces,
    pub(crate) bytes: Vec<u8>,
}

impl Block {
    // An empty part.
    fn new(alloc: Global) -> Block
        ensures { block_text result ≡ [] }
    {
        Block {
            pieces: Pieces::new(alloc),
            bytes: Vec::new(alloc),
        }
    }

    // Adds bytes that have several holders: the bytes before them become a piece with these.
    fn add_shared(&mut self, share: SharedBytes) -> Result<(), AllocError>
        ensures { OnOk result (block_text self.new ≡ block_text self.old ++ share) }
    {
        match str::from_utf8(self.bytes.as_slice()) {
            Ok(own) => {
                self.pieces.push(own, share)?;
                self.bytes.clear();
                Ok(())
            }
            Err(_) => self.bytes.extend_from_slice(share.as_slice()),
        }
    }
}

/// An owned text in blocks, seen as its bytes. What many rows have in common, such as a long path,
/// is kept once, and blocks are small enough to fit into the gaps that other things leave in
/// memory.
#[derive(Drop)]
pub struct LongText {
    full: Vec<Block>,
    last: Block,
}

impl Model for LongText {
    ghost use Rattle.std.specs.Prelude.{◌++◌, List, ℕ};
    ghost use Rattle.desk_tree_reports.specs.LongTexts.{block_text, joined};

    ghost Value = { List ℕ };

    ghost view = { λ t. joined t.full.items ++ block_text t.last };
}

// Writes a block.
fn write_block<W: Write>(writer: &mut W, block: &Block) -> io::Result<()>
    ensures { OnOk result
        (Appends (W.contents writer.old) (W.contents writer.new) (block_text block.now)) }
{
    block.pieces.write_to(writer)?;
    writer.write_all(block.bytes.as_slice())
}

// Writes blocks one after the other.
fn write_blocks<W: Write>(writer: &mut W, blocks: &[Block]) -> io::Result<()>
    ensures { OnOk result
        (Appends (W.contents writer.old) (W.contents writer.new) (joined blocks.now)) }
{
    for block in blocks {
        write_block(writer, block)?;
    }
    Ok(())
}

impl LongText {
    /// An empty text.
    pub(crate) fn new(alloc: Global) -> LongText
        ensures { result ≡ [] }
    {
        LongText {
            full: Vec::new(alloc),
            last: Block::new(alloc),
        }
    }

    // Begins another block if the last one is full.
    fn end_block(&mut self, alloc: Global) -> Result<(), AllocError>
        ensures { OnOk result (self.new ≡ self.old) }
    {
        if self.last.bytes.len() < BYTES_FULL && !self.last.pieces.is_full() {
            return Ok(());
        }
        let mut block = mem::replace(&mut self.last, Block::new(alloc));
        block.bytes.shrink_to_fit();
        self.full.push(block)?;
        Ok(())
    }

    /// Adds bytes.
    pub(crate) fn add(&mut self, alloc: Global, bytes: &[u8]) -> Result<(), AllocError>
        ensures { OnOk result (self.new ≡ self.old ++ bytes.now) }
    {
        self.last.bytes.extend_from_slice(bytes)?;
        self.end_block(alloc)
    }

    /// Adds bytes that have several holders.
    pub(crate) fn add_shared(&mut self, alloc: Global, share: SharedBytes) -> Result<(), AllocError>
        ensures { OnOk result (self.new ≡ self.old ++ share) }
    {
        self.last.add_shared(share)?;
        self.end_block(alloc)
    }

    /// Writes the text.
    pub fn write_to<W: Write>(&self, writer: &mut W) -> io::Result<()>
        ensures { OnOk result (Appends (W.contents writer.old) (W.contents writer.new) self.now) }
    {
        write_blocks(writer, self.full.as_slice())?;
        write_block(writer, &self.last)
    }
}
