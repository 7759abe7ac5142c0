//! Bytes as lines.

ghost use Rattle.std.specs.Prelude.{◌≡◌, ◌+◌, ◌<◌, ◌^◌, ℕ, List, length, IfOk};
ghost use Rattle.std.specs.Iterator.{at_most, Drains};
ghost use Rattle.desk_base.specs.declared.lines.Line.{Line};
ghost use Rattle.desk_base.specs.Lines.{IsLine, AreLines, CutsInto, LineText};

use memchr::memchr;
use std::alloc::{AllocError, Global};

/// How a line ends.
#[derive(Clone, Copy)]
pub enum LineEnd {
    /// With only a line feed.
    Lf,
    /// With a carriage return and a line feed.
    CrLf,
    /// At the end of the bytes.
    Nothing,
}

/// A line of some bytes.
#[derive(Clone, Copy)]
pub struct Line<'a> {
    /// Its number, from 1.
    pub number: u64,
    /// Its bytes without its end.
    pub text: &'a [u8],
    /// How it ends.
    pub end: LineEnd,
}

/// The first line of some bytes, its end, and what follows it.
pub fn first_line(bytes: &[u8]) -> (&[u8], LineEnd, &[u8])
    requires { 0 < length bytes.now }
    ensures line { IsLine bytes.now result.0.now result.1 result.2.now }
    ensures shorter { length result.2.now < length bytes.now }
{
    let Some(n) = memchr(b'\n', bytes) else {
        return (bytes, LineEnd::Nothing, &bytes[bytes.len()..]);
    };
    let rest = &bytes[n + 1..];
    if n > 0 && bytes[n - 1] == b'\r' {
        return (&bytes[..n - 1], LineEnd::CrLf, rest);
    }
    (&bytes[..n], LineEnd::Lf, rest)
}

/// The lines of some bytes, from the first.
#[derive(Drop)]
pub struct Lines<'a> {
    /// What hasn't been cut yet.
    pub rest: &'a [u8],
    /// The number of the next line.
    pub number: u64,
    ghost fits: { number + length rest.now < 2 ^ 64 },
}

impl<'a> Lines<'a> {
    ghost use Rattle.desk_base.specs.NextLine.{LineGiven};

    /// The lines of some bytes: what `next` returns until it returns none. They end with LF or
    /// CRLF, the last one also at the end of the bytes; a CR without LF is an ordinary byte.
    pub fn of(bytes: &'a [u8]) -> Lines<'a>
        ensures rest { result.rest.now ≡ bytes.now }
        ensures number { result.number ≡ 1 }
        ensures lines { (given : List Line) → Drains LineGiven result given
            → AreLines 1 bytes.now given }
    {
        Lines {
            rest: bytes,
            number: 1,
        }
    }

    /// All lines of some bytes, in a list.
    pub fn listed(alloc: Global, bytes: &'a [u8]) -> Result<Vec<Line<'a>>, AllocError>
        ensures { IfOk result (λ v. AreLines 1 bytes.now v.items) }
    {
        let mut lines = Vec::new(alloc);
        for line in Lines::of(bytes) {
            lines.push(line)?;
        }
        Ok(lines)
    }
}

impl<'a> Iterator for Lines<'a> {
    type Item = Line<'a>;

    ghost use Rattle.desk_base.specs.NextLine.{LineGiven};

    ghost next_gives = { LineGiven };

    ghost remaining = { λ s. at_most (length s.rest.now) };

    fn next(&mut self) -> Option<Line<'a>> {
        if self.rest.is_empty() {
            return None;
        }
        let number = self.number;
        let (text, end, rest) = first_line(self.rest);
        self.rest = rest;
        self.number = number + 1;
        Some(Line { number, text, end })
    }
}

/// There is only one way to cut bytes into lines.
pub fn one_cutting()
    ensures { (bytes : List ℕ) (a b : List LineText) → CutsInto 1 bytes a → CutsInto 1 bytes b
        → a ≡ b }
{}
