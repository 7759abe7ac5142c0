//! Fills the gaps of a bill.

ghost use Rattle.std.specs.Prelude.{◌≡◌, List, map, count_by, option_map, IfOk};
ghost use Rattle.std.specs.Option.{option_or};
ghost use Rattle.desk_fill.specs.declared.fill.Fill.{Fill};
ghost use Rattle.desk_fill.specs.Filling.{credit_for, filled, filled_line, filled_text, gaps_of, lacks_body, lacks_credit, text_for};
ghost use Rattle.desk_fill.specs.Subjects.{Indexes, credit_entries, text_entries};

use crate::fill::Fill;
use crate::index::{Index, credit_index, subject_of_package, subject_of_title, text_index};
use crate::values::is_nothing;
use desk_base::{Items, Text};
use desk_model::{Bill, BillLine, BillText};
use desk_tokens::is_reference;
use std::alloc::{AllocError, Global};

/// What the notices of a release lack.
#[derive(Clone, Copy, Debug, PartialEq, Eq)]
pub struct Gaps {
    /// How many packages have no copyright.
    pub credits: usize,
    /// How many terms have no text.
    pub texts: usize,
}

// Whether a package has no copyright.
fn lacks_credit(line: &BillLine) -> bool
    ensures { result ≡ lacks_credit line.now }
{
    match &line.copyright {
        Some(copyright) => is_nothing(copyright.as_str()),
        None => true,
    }
}

// Whether there is no text of a term.
fn lacks_body(text: &BillText) -> bool
    ensures { result ≡ lacks_body text.now }
{
    match &text.body {
        Some(body) => is_reference(text.title.as_str().as_bytes()) && is_nothing(body.as_str()),
        None => true,
    }
}

/// How many packages of a bill have no copyright, and how many of its terms no text.
pub fn gaps_of(bill: &Bill) -> Gaps
    ensures { result ≡ gaps_of bill.now }
{
    let lines = bill.lines.as_slice().iter();
    let texts = bill.texts.as_slice().iter();
    Gaps {
        credits: lines.filter(|line| lacks_credit(*line)).count(),
        texts: texts.filter(|text| lacks_body(*text)).count(),
    }
}

// The text of the first credit for a package.
fn credit_for<'a>(
    alloc: Global,
    credits: &Index<'a>,
    line: &BillLine,
) -> Result<Option<&'a Text>, AllocError>
    ensures { (fills : List Fill) → Indexes (credit_entries fills) credits.now
        → IfOk result (λ found. option_map (λ text. text.now) found ≡ credit_for fills line.now) }
{
    let any = subject_of_package(alloc, &line.name, None)?;
    let own = subject_of_package(alloc, &line.name, line.version.as_ref())?;
    let of_any = credits.place(&any);
    let of_own = credits.place(&own);
    Ok(credits.text(of_any.min(of_own)))
}

// The first text that has a title.
fn text_for<'a>(
    alloc: Global,
    texts: &Index<'a>,
    title: &str,
) -> Result<Option<&'a Text>, AllocError>
    ensures { (fills : List Fill) → Indexes (text_entries fills) texts.now
        → IfOk result (λ found. option_map (λ text. text.now) found ≡ text_for fills title.now) }
{
    let subject = subject_of_title(alloc, title)?;
    let place = texts.place(&subject);
    Ok(texts.text(place))
}

// A copy of what was found or, if nothing was, what there is.
fn found_or(found: Option<&Text>, given: Option<Text>) -> Result<Option<Text>, AllocError>
    ensures { IfOk result (λ value. value
        ≡ option_or (option_map (λ text. text.now) found.entry) given) }
{
    match found {
        Some(text) => Ok(Some(text.clone()?)),
        None => Ok(given),
    }
}

// A package with its copyright, if it is given or in the files.
fn filled_line(alloc: Global, credits: &Index<'_>, line: BillLine) -> Result<BillLine, AllocError>
    ensures { (fills : List Fill) → Indexes (credit_entries fills) credits.now
        → IfOk result (λ made. made ≡ filled_line fills line) }
{
    if !lacks_credit(&line) {
        return Ok(line);
    }
    let found = credit_for(alloc, credits, &line)?;
    let BillLine {
        name,
        version,
        rules,
        copyright,
    } = line;
    Ok(BillLine {
        name,
        version,
        rules,
        copyright: found_or(found, copyright)?,
    })
}

// A text with its body, if it is given or in the files.
fn filled_text(alloc: Global, texts: &Index<'_>, text: BillText) -> Result<BillText, AllocError>
    ensures { (fills : List Fill) → Indexes (text_entries fills) texts.now
        → IfOk result (λ made. made ≡ filled_text fills text) }
{
    if !lacks_body(&text) {
        return Ok(text);
    }
    let found = text_for(alloc, texts, text.title.as_str())?;
    let BillText { title, body } = text;
    Ok(BillText {
        title,
        body: found_or(found, body)?,
    })
}

// The packages with what was missing.
fn filled_lines(
    alloc: Global,
    index: &Index<'_>,
    lines: Items<BillLine>,
) -> Result<Items<BillLine>, AllocError>
    ensures { (fills : List Fill) → Indexes (credit_entries fills) index.now
        → IfOk result (λ made. made ≡ map (filled_line fills) lines) }
{
    let mut filled = Vec::with_capacity(alloc, lines.as_slice().len())?;
    for line in lines.into_vec() {
        filled.push(filled_line(alloc, index, line)?)?;
    }
    Ok(Items::from_vec(filled))
}

// The texts with what was missing.
fn filled_texts(
    alloc: Global,
    index: &Index<'_>,
    texts: Items<BillText>,
) -> Result<Items<BillText>, AllocError>
    ensures { (fills : List Fill) → Indexes (text_entries fills) index.now
        → IfOk result (λ made. made ≡ map (filled_text fills) texts) }
{
    let mut filled = Vec::with_capacity(alloc, texts.as_slice().len())?;
    for text in texts.into_vec() {
        filled.push(filled_text(alloc, index, text)?)?;
    }
    Ok(Items::from_vec(filled))
}

/// The bill with its gaps filled: a package without a copyright, NONE or NOASSERTION gets the text
/// of the first credit for it, and a term without a text, or a reference with NONE or NOASSERTION
/// in place of one, the first text of its name. The first file counts before the next. What is
/// given stays.
pub fn filled(alloc: Global, bill: Bill, fills: &[Fill]) -> Result<Bill, AllocError>
    ensures { IfOk result (λ made. made ≡ filled fills.now bill) }
{
    let Bill {
        release,
        form,
        lines,
        texts,
    } = bill;
    Ok(Bill {
        release,
        form,
        lines: filled_lines(alloc, &credit_index(alloc, fills)?, lines)?,
        texts: filled_texts(alloc, &text_index(alloc, fills)?, texts)?,
    })
}
