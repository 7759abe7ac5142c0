//! Reads a request, as far as is needed.

ghost use Rattle.std.specs.Prelude.{◌≡◌, ◌≢◌, ◌++◌, List, ℕ, All, length, false, IfOk, IfErr, MatchOption};
ghost use Rattle.std.specs.Io.KnownBytes.{Consumes};
ghost use Rattle.std.specs.List.{list_all};
ghost use Rattle.desk_http_head.specs.Heads.{is_line_byte};
ghost use Rattle.desk_http_head.specs.Framings.{IsAwaited};
ghost use Rattle.desk_http.specs.Receiving.{IsSettled, IsReceived, IsPrompt, IsOfReader, IsUndue};
ghost use Rattle.desk_script.specs.Script.{AreLeft};

use crate::limits::{HEAD_BYTES, PIECE_BYTES, READS};
use desk_http_head::{Awaited, Framing, frame};
use memchr::memchr;
use std::alloc::Global;
use std::io::Read;
use thiserror::Error;

/// Why a connection got no reply, or not all of it.
#[derive(Clone, Copy, Debug, Drop, PartialEq, Eq, Error)]
pub enum ServeFault {
    #[error("cannot read a request")]
    Read,
    #[error("cannot write a reply")]
    Write,
    #[error("too many turns of reading")]
    Turns,
}

/// What was received.
#[derive(Drop)]
pub enum Received {
    /// No byte came.
    Nothing,
    /// No memory was left for the bytes that came.
    Memory,
    /// The bytes that came.
    Bytes(Vec<u8>),
}

fn has_lf(bytes: &[u8]) -> bool
    ensures { result ≡ false → All (λ b. b ≢ 10) bytes.now }
{
    match memchr(b'\n', bytes) {
        Some(_) => true,
        None => false,
    }
}

fn is_line_byte(byte: u8) -> bool
    ensures { result ≡ is_line_byte byte }
{
    byte == b'\n' || byte == b'\r'
}

fn are_line_ends(bytes: &[u8]) -> bool
    ensures { result ≡ list_all is_line_byte bytes.now }
{
    bytes.iter().all(|byte| is_line_byte(*byte))
}

/// Whether the bytes have to be looked at again after a piece came.
fn is_due(awaited: Awaited, came: &[u8], count: usize) -> bool
    ensures { result ≡ false → IsUndue came.now count awaited }
{
    match awaited {
        Awaited::Start => count >= HEAD_BYTES || !are_line_ends(came),
        Awaited::Head => count >= HEAD_BYTES || has_lf(came),
        Awaited::Body(wanted) => count >= wanted,
    }
}

/// What is awaited after a piece came, if anything.
fn awaited_after(awaited: Awaited, came: &[u8], bytes: &[u8]) -> Option<Awaited>
    ensures { (front : List ℕ) → bytes.now ≡ front ++ came.now → IsAwaited front awaited
        → MatchOption result (IsSettled bytes.now) (IsAwaited bytes.now) }
{
    if !is_due(awaited, came, bytes.len()) {
        return Some(awaited);
    }
    match frame(bytes) {
        Framing::Part(next) => Some(next),
        Framing::Bad(_) => None,
        Framing::Whole { .. } => None,
    }
}

/// Reads until a request is whole or refused, or the reader ends: at most 1,048,576 times, each
/// time at most 16,384 bytes.
pub fn receive<R: Read>(alloc: Global, reader: &mut R) -> Result<Received, ServeFault>
    ensures ok { IfOk result
        (λ received. (bytes : List ℕ) × AreLeft (R.remaining reader.old) bytes
        × IsReceived bytes received) }
    ensures prompt { IsPrompt (R.remaining reader.old) (R.remaining reader.new) }
    ensures fault { IfErr result (λ fault. (bytes : List ℕ) × IsOfReader fault (length bytes)
        × Consumes (R.remaining reader.old) (R.remaining reader.new) bytes) }
{
    let mut bytes = Vec::new(alloc);
    let mut awaited = Awaited::Start;
    let mut piece = [0u8; PIECE_BYTES];
    for turn in 0..READS {
        let Ok(taken) = reader.read(&mut piece) else {
            return Err(ServeFault::Read);
        };
        if taken == 0 {
            return Ok(received_at_end(bytes));
        }
        let came = &piece[..taken];
        let Ok(()) = bytes.extend_from_slice(came) else {
            return Ok(Received::Memory);
        };
        match awaited_after(awaited, came, bytes.as_slice()) {
            Some(next) => awaited = next,
            None => return Ok(Received::Bytes(bytes)),
        }
    }
    Err(ServeFault::Turns)
}

/// What was received when the reader ended.
fn received_at_end(bytes: Vec<u8>) -> Received
    ensures { IsReceived bytes.items result }
{
    if bytes.is_empty() {
        Received::Nothing
    } else {
        Received::Bytes(bytes)
    }
}
