//! The fields of a text, one after another.

ghost use Rattle.std.specs.Prelude.{◌≡◌, ◌+◌, ◌≤◌, ◌<◌, ◌^◌, ◌⊎◌, ℕ, List, [], length, map, IfOk, IfErr, IfSome, IfNone, Ok, Err, Result, IsUtf8};
ghost use Rattle.std.specs.Iterator.{at_most, Drains};
ghost use Rattle.desk_fields.specs.declared.fault.DocFault.{DocFault};
ghost use Rattle.desk_fields.specs.declared.scan.Field.{Field};
ghost use Rattle.desk_fields.specs.Cutting.{Reads, behind_mark, FieldText};
ghost use Rattle.desk_fields.specs.Found.{field_text};

use crate::DocFault;
use crate::scan::{Field, first_field};
use std::alloc::Global;

/// The fields of a text, one after another, without a list of them.
///
/// After a fault it returns nothing more.
#[derive(Drop)]
pub struct Scanner<'a> {
    /// What hasn't been cut yet.
    pub rest: &'a str,
    /// The line on which that begins, from 1.
    pub line: u64,
    ghost fits: { line + length rest.now < 2 ^ 64 },
    ghost utf8: { ∥ IsUtf8 rest.now ∥₁ },
}

// The text without a byte order mark at its start.
fn behind_mark(text: &str) -> &str
    ensures { result.now ≡ behind_mark text.now }
{
    match text.strip_prefix("\u{feff}") {
        Some(rest) => rest,
        None => text,
    }
}

impl<'a> Scanner<'a> {
    ghost use Rattle.desk_fields.specs.NextField.{FieldGiven, reading, EndsAtFault};

    /// The fields of a text, from the first: what `next` returns until it returns none.
    pub fn of(text: &'a str) -> Scanner<'a>
        ensures rest { result.rest.now ≡ behind_mark text.now }
        ensures line { result.line ≡ 1 }
        ensures fields { (given : List (Result Field DocFault)) → Drains FieldGiven result given
            → Reads 1 (behind_mark text.now) (reading given) }
        ensures last { (given : List (Result Field DocFault)) → Drains FieldGiven result given
            → EndsAtFault given }
    {
        Scanner {
            rest: behind_mark(text),
            line: 1,
        }
    }
}

impl<'a> Iterator for Scanner<'a> {
    type Item = Result<Field<'a>, DocFault>;

    ghost use Rattle.desk_fields.specs.NextField.{FieldGiven};

    ghost next_gives = { FieldGiven };

    ghost remaining = { λ s. at_most (length s.rest.now) };

    fn next(&mut self) -> Option<Result<Field<'a>, DocFault>> {
        match first_field(self.rest, self.line) {
            Ok(found) => {
                self.rest = found.rest;
                self.line = found.line;
                match found.field {
                    Some(field) => Some(Ok(field)),
                    None => None,
                }
            }
            Err(fault) => {
                self.rest = "";
                Some(Err(fault))
            }
        }
    }
}

/// The fields of a text, each with the line on which it begins.
pub fn fields<'a>(alloc: Global, text: &'a str) -> Result<Vec<Field<'a>>, DocFault>
    ensures ok { IfOk result (λ v. Reads 1 (behind_mark text.now) (Ok (map field_text v.items))) }
    ensures err { IfErr result
        (λ e. (e ≡ DocFault.Memory) ⊎ Reads 1 (behind_mark text.now) (Err e)) }
{
    let mut found = Vec::new(alloc);
    for field in Scanner::of(text) {
        match field {
            Ok(field) => found.push(field)?,
            Err(fault) => return Err(fault),
        }
    }
    Ok(found)
}

/// A text is read in only one way, whatever line it begins on: as one list of fields, or with one
/// fault.
pub fn one_reading()
    ensures { (line : ℕ) (text : List ℕ) (a b : Result (List FieldText) DocFault)
        → Reads line text a
        → Reads line text b → a ≡ b }
{}
