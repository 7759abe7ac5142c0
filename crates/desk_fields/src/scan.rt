//! The pieces of a text.

ghost use Rattle.std.specs.Prelude.{◌≡◌, ◌≢◌, ◌+◌, ◌≤◌, ◌<◌, ◌^◌, ◌==◌, ℕ, List, ◌++◌, ◌∷◌, length, take, drop, count_by, codes, All, IsTrue, IfOk, IfErr, IfSome, IfNone, None, Some, Ok, Err, false, true, map, slice_index, ◌⊎◌, IsUtf8, Result};
ghost use Rattle.desk_fields.specs.declared.fault.DocFault.{DocFault};
ghost use Rattle.desk_base.specs.Lines.{IsLine};
ghost use Rattle.desk_fields.specs.Text.{trimmed, skip_blanks};
ghost use Rattle.desk_fields.specs.Pieces.{is_bare, IsTagged, Opens, opened, AllBlank, NoLf, IsFirstEnd};
ghost use Rattle.desk_fields.specs.Cutting.{Fails};
ghost use Rattle.desk_fields.specs.Found.{IsFound};
ghost use Rattle.desk_fields.specs.NextField.{Reaches, FailsNext};

use crate::DocFault;
use crate::text::{first_line, skip_blanks, trim};

/// A field of a document.
#[derive(Clone, Copy)]
pub struct Field<'a> {
    /// The line on which it begins, from 1.
    pub line: u64,
    /// What precedes the first colon, without blanks at its ends.
    pub tag: &'a str,
    /// What is between `<text>` and `</text>`, or the rest of the line without blanks at its ends.
    pub value: &'a str,
}

// A piece's field, and where the text continues.
#[derive(Clone, Copy)]
pub(crate) struct Found<'a> {
    pub field: Option<Field<'a>>,
    pub rest: &'a str,
    pub line: u64,
}

// Whether a line has only blanks, or a comment.
fn is_bare(line: &str) -> bool
    ensures { result ≡ is_bare line.now }
{
    let core = skip_blanks(line).as_bytes();
    core.is_empty() || core[0] == b'#'
}

// What precedes and follows the first colon of a line that has a tag.
fn around_colon(line: &str) -> Option<(&str, &str)>
    requires { is_bare line.now ≡ false }
    ensures none { IfNone result ((before after : List ℕ) → All (λ b. b ≢ 58) before
        → line.now ≡ before ++ (58 ∷ after) → length (trimmed before) ≡ 0) }
    ensures cut { IfSome result (λ r. line.now ≡ r.0.now ++ (58 ∷ r.1.now)) }
    ensures tagged { IfSome result (λ r. All (λ b. b ≢ 58) r.0.now × (0 < length (trimmed r.0.now))
        × (slice_index (trimmed r.0.now) 0 ≢ 35)) }
{
    let Some((front, after)) = line.split_once(':') else {
        return None;
    };
    if trim(front).is_empty() {
        return None;
    }
    Some((front, after))
}

// What follows the `<text>` with which a value begins.
fn behind_opening(after: &str) -> Option<&str>
    ensures none { IfNone result (Opens after.now → ⊥) }
    ensures some { IfSome result (λ r. skip_blanks after.now ≡ codes "<text>" ++ r.now) }
{
    skip_blanks(after).strip_prefix("<text>")
}

// The end of a text, from where a given end of its first line begins.
fn text_behind<'a>(text: &'a str, line: &str, inner: &str) -> &'a str
    requires line { text.now ≡ line.now ++ drop (length line.now) text.now }
    requires inner { (front : List ℕ) × (b : ℕ) × (b < 128)
        × (line.now ≡ front ++ (b ∷ inner.now)) }
    ensures { (front : List ℕ) → line.now ≡ front ++ inner.now → text.now ≡ front ++ result.now }
{
    text.split_at(line.len() - inner.len()).1
}

// The value before the first `</text>`, and what follows that.
fn around_closing(inner: &str) -> Option<(&str, &str)>
    ensures none { IfNone result ((xs ys : List ℕ) → inner.now ≢ xs ++ (codes "</text>" ++ ys)) }
    ensures utf8 { IfSome result (λ r. IsUtf8 r.1.now) }
    ensures some { IfSome result (λ r. (inner.now ≡ r.0.now ++ (codes "</text>" ++ r.1.now))
        × IsFirstEnd r.0.now) }
{
    inner.split_once("</text>")
}

fn line_feeds(text: &str) -> usize
    ensures value { result ≡ count_by (λ b. b == 10) text.now }
    ensures bound { result ≤ length text.now }
{
    text.as_bytes().iter().filter(|b| **b == b'\n').count()
}

// The field in `<text>` with which a text begins, if the start of its value is known.
fn text_piece<'a>(
    text: &'a str,
    line: u64,
    front: &'a str,
    inner: &'a str,
) -> Result<Found<'a>, DocFault>
    requires opened { (gap : List ℕ) × AllBlank gap × (text.now ≡ opened front.now gap inner.now) }
    requires tagged { IsTagged front.now }
    requires room { line + length text.now < 2 ^ 64 }
    ensures ok { IfOk result (λ f. IsFound line text.now f) }
    ensures room { IfOk result (λ f. (f.line + length f.rest.now ≤ line + length text.now)
        × (length f.rest.now < length text.now)) }
    ensures utf8 { IfOk result (λ f. IsUtf8 f.rest.now) }
    ensures err { IfErr result (λ e. Fails line text.now e) }
{
    let Some((value, more)) = around_closing(inner) else {
        return Err(DocFault::OpenText(line));
    };
    let feeds = line_feeds(value) as u64;
    let field = Some(Field {
        line,
        tag: trim(front),
        value,
    });
    if more.is_empty() {
        return Ok(Found {
            field,
            rest: more,
            line: line + feeds + 1,
        });
    }
    let (tail, _, rest) = first_line(more);
    if !skip_blanks(tail).is_empty() {
        return Err(DocFault::AfterText(line + feeds));
    }
    Ok(Found {
        field,
        rest,
        line: line + feeds + 1,
    })
}

// The first piece of a text.
fn first_piece<'a>(text: &'a str, line: u64) -> Result<Found<'a>, DocFault>
    requires some { 0 < length text.now }
    requires room { line + length text.now < 2 ^ 64 }
    ensures ok { IfOk result (λ f. IsFound line text.now f) }
    ensures room { IfOk result (λ f. (f.line + length f.rest.now ≤ line + length text.now)
        × (length f.rest.now < length text.now)) }
    ensures utf8 { IfOk result (λ f. IsUtf8 f.rest.now) }
    ensures err { IfErr result (λ e. Fails line text.now e) }
{
    let (body, _, rest) = first_line(text);
    if is_bare(body) {
        return Ok(Found {
            field: None,
            rest,
            line: line + 1,
        });
    }
    let Some((front, after)) = around_colon(body) else {
        return Err(DocFault::NoColon(line));
    };
    if let Some(inner) = behind_opening(after) {
        let inner = text_behind(text, body, inner);
        return text_piece(text, line, front, inner);
    }
    let field = Field {
        line,
        tag: trim(front),
        value: trim(after),
    };
    Ok(Found {
        field: Some(field),
        rest,
        line: line + 1,
    })
}

// The first field of a text and where the text continues after it, or the end of the text if it has
// no field.
pub(crate) fn first_field<'a>(text: &'a str, line: u64) -> Result<Found<'a>, DocFault>
    requires room { line + length text.now < 2 ^ 64 }
    ensures ok { IfOk result (λ f. Reaches line text.now f.field f.line f.rest.now) }
    ensures ends { IfOk result (λ f. IfNone f.field (length f.rest.now ≡ 0)) }
    ensures room { IfOk result (λ f. f.line + length f.rest.now ≤ line + length text.now) }
    ensures less { IfOk result (λ f. IfSome f.field (λ _. length f.rest.now < length text.now)) }
    ensures utf8 { IfOk result (λ f. IsUtf8 f.rest.now) }
    ensures err { IfErr result (λ e. FailsNext line text.now e) }
    ensures some { IfErr result (λ _. 0 < length text.now) }
{
    let mut found = Found {
        field: None,
        rest: text,
        line,
    };
    while found.field.is_none() && !found.rest.is_empty() {
        found = match first_piece(found.rest, found.line) {
            Ok(piece) => piece,
            Err(fault) => return Err(fault),
        };
    }
    Ok(found)
}
