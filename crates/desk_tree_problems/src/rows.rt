//! What is reported about each problem.

ghost use Rattle.std.specs.Prelude.{◌≡◌, ◌++◌, ◌<◌, nat_lt, None, IfOk, option_map, codes};
ghost use Rattle.std.specs.List.{list_any};
ghost use Rattle.std.specs.String.{string_bytes};
ghost use Rattle.desk_tree_lint.specs.Shown.{name_at};
ghost use Rattle.desk_tree_gather.specs.declared.flaw.Flaw.TheVariants.{BadAnnotation, BadExpression};
ghost use Rattle.desk_tree_problems.specs.Rows.{flaw_row, annotation_words, StopsAt, path_words, quoted, expression_words, stop_words, IsFlawRow, dep5_rows, blank_row, named_words, text_words, missing_row, unused_row, lacking_words, bare_row};

use crate::bare::{Bare, Lacking};
use crate::row::{Kind, Row, row_of};
use desk_base::Text;
use desk_expr::{ParseFault, parse, unless_memory};
use desk_tree_annotations::AnnotationFault;
use desk_tree_gather::{Blank, Flaw};
use desk_tree_lint::NameAt;
use std::alloc::{AllocError, Global};

// How many bytes a text may have to be quoted.
const QUOTED_MOST: usize = 200;

// What is wrong with an annotation.
fn annotation_words(fault: AnnotationFault) -> &'static str
    ensures { result.now ≡ annotation_words fault }
{
    match fault {
        AnnotationFault::NoPath => "no path: give it the paths of its files",
        AnnotationFault::BadKind => "a value of another kind: write a text or a list of texts",
        AnnotationFault::BadPrecedence =>
            "an unknown precedence: write closest, aggregate or override",
        AnnotationFault::BadExpression => {
            "a licence that is no expression: write one as in SPDX 2.3, Annex D"
        }
    }
}

// The row of an annotation.
fn annotation_row(
    alloc: Global,
    path: &str,
    index: usize,
    fault: AnnotationFault,
) -> Result<Row, AllocError>
    ensures { IfOk result (λ row. row ≡ flaw_row (BadAnnotation path.now index fault) None) }
{
    let words = annotation_words(fault);
    let message = format!(in alloc; "annotation {index}, counted from 0, has {words}")?;
    row_of(alloc, Kind::BadAnnotation, path, message.as_str())
}

// The fault at which a text that isn't a licence expression stops.
fn stop_of(alloc: Global, text: &str) -> Result<Option<ParseFault>, AllocError>
    ensures { IfOk result (StopsAt text.now) }
{
    match parse(alloc, text) {
        Ok(_) => Ok(None),
        Err(fault) => Ok(Some(unless_memory(fault)?)),
    }
}

// That, in words.
fn stop_words(alloc: Global, stop: Option<ParseFault>) -> Result<String, AllocError>
    ensures { IfOk result (λ words. string_bytes words ≡ stop_words stop) }
{
    match stop {
        Some(fault) => {
            let name = fault.name();
            let place = fault.place();
            format!(in alloc; " ({name} at {place})")
        }
        None => String::from_str(alloc, ""),
    }
}

// A text in quotes, or how long it is.
fn quote(alloc: Global, text: &str) -> Result<String, AllocError>
    ensures { IfOk result (λ words. string_bytes words ≡ quoted text.now) }
{
    let length = text.len();
    if length > QUOTED_MOST {
        format!(in alloc; "a text of {length} bytes")
    } else {
        format!(in alloc; "'{text}'")
    }
}

// What is wrong with a tag, and what to do.
fn expression_words(
    alloc: Global,
    text: &str,
    stop: Option<ParseFault>,
) -> Result<String, AllocError>
    ensures { IfOk result (λ words. string_bytes words ≡ expression_words text.now stop) }
{
    let quoted = quote(alloc, text)?;
    let stop = stop_words(alloc, stop)?;
    let quoted = quoted.as_str();
    let stop = stop.as_str();
    format!(in alloc;
        "{quoted}{stop} is no licence expression: mend it, state the licence in FILE.license beside the \
         file, or put REUSE-IgnoreStart before the line and REUSE-IgnoreEnd behind it"
    )
}

// The row of a tag that isn't a licence expression.
fn expression_row(alloc: Global, path: &str, line: u64, text: &str) -> Result<Row, AllocError>
    ensures { IfOk result (IsFlawRow (BadExpression path.now line text.now)) }
{
    let stop = stop_of(alloc, text)?;
    let message = expression_words(alloc, text, stop)?;
    Ok(Row {
        kind: Kind::BadExpression,
        path: Text::of(alloc, path)?,
        line: Some(line),
        message: Text::of(alloc, message.as_str())?,
    })
}

// Whether some byte is below 32.
fn has_low(bytes: &[u8]) -> bool
    ensures { result ≡ list_any (λ b. nat_lt b 32) bytes.now }
{
    bytes.iter().any(|byte| *byte < 32)
}

// What is wrong with a path that can't be in a tree.
fn path_words(path: &str) -> &'static str
    ensures { result.now ≡ path_words path.now }
{
    if has_low(path.as_bytes()) {
        return "a byte below 32 in the path, as a line end or a tab: give the file another name";
    }
    if path.as_bytes().ends_with(b" ") {
        return "a blank at the end of the path: give the file another name";
    }
    "an empty part, . or .. in the path: give its parts from the root, each a name"
}

/// The row of a flaw.
pub fn flaw_row(alloc: Global, flaw: &Flaw) -> Result<Row, AllocError>
    ensures { IfOk result (IsFlawRow flaw.now) }
{
    match flaw {
        Flaw::TooManyFiles => row_of(
            alloc,
            Kind::TooManyFiles,
            ".",
            "more than 10,000 files: remove files that are not part of the source",
        ),
        Flaw::BadPath(path) => {
            let path = path.as_str();
            row_of(alloc, Kind::BadPath, path, path_words(path))
        }
        Flaw::TwicePath(path) => row_of(
            alloc,
            Kind::TwicePath,
            path.as_str(),
            "a path that stands twice: keep one of the files",
        ),
        Flaw::BadToml(path) => row_of(
            alloc,
            Kind::BadToml,
            path.as_str(),
            "no TOML document of version 1: mend it, with version = 1 at its top",
        ),
        Flaw::BadAnnotation(path, index, fault) => {
            annotation_row(alloc, path.as_str(), *index, *fault)
        }
        Flaw::BadExpression(path, line, text) => {
            expression_row(alloc, path.as_str(), *line, text.as_str())
        }
    }
}

/// The rows of older annotations.
pub fn dep5_rows(alloc: Global, dep5: bool) -> Result<Vec<Row>, AllocError>
    ensures { IfOk result (λ rows. rows.items ≡ dep5_rows dep5) }
{
    let mut rows = Vec::new(alloc);
    if dep5 {
        rows.push(row_of(
            alloc,
            Kind::Dep5,
            ".reuse/dep5",
            "this file isn't read: write what it says into a REUSE.toml, and take it away; \
             until then no text is called unused",
        )?)?;
    }
    Ok(rows)
}

/// The row of an annotation with a licence that no document can hold.
pub fn blank_row(alloc: Global, blank: &Blank) -> Result<Row, AllocError>
    ensures { IfOk result (λ row. row ≡ blank_row blank.now) }
{
    let index = blank.index;
    let message = format!(in alloc;
        "annotation {index}, counted from 0, has a licence with a blank at an end, \
         which no document can hold: take the blank away"
    )?;
    row_of(
        alloc,
        Kind::BlankAtEnd,
        blank.path.as_str(),
        message.as_str(),
    )
}

// Which file names a licence.
fn named_words(alloc: Global, path: Option<&str>) -> Result<String, AllocError>
    ensures { IfOk result (λ words. string_bytes words
        ≡ named_words (option_map (λ p. p.now) path.entry)) }
{
    match path {
        Some(path) => format!(in alloc; ", which {path} names"),
        None => String::from_str(alloc, ""),
    }
}

/// What to do about a missing text.
pub fn text_words(alloc: Global, id: &str) -> Result<String, AllocError>
    ensures { IfOk result (λ words. string_bytes words ≡ text_words id.now) }
{
    if id.as_bytes().starts_with(b"DocumentRef-") {
        String::from_str(
            alloc,
            ": its text is in another document, so name a licence whose text is in LICENSES/",
        )
    } else {
        format!(in alloc; ": add it as LICENSES/{id}.txt")
    }
}

/// The row of a text that is missing.
pub fn missing_row(alloc: Global, name: NameAt<'_>) -> Result<Row, AllocError>
    ensures { IfOk result (λ row. row ≡ missing_row (name_at name.entry)) }
{
    let named = named_words(alloc, name.path)?;
    let text = text_words(alloc, name.id)?;
    let id = name.id;
    let named = named.as_str();
    let text = text.as_str();
    let message = format!(in alloc; "no text of {id}{named}{text}")?;
    row_of(alloc, Kind::Missing, "LICENSES/", message.as_str())
}

/// The row of a text that nothing uses.
pub fn unused_row(alloc: Global, path: &str) -> Result<Row, AllocError>
    ensures { IfOk result (λ row. row ≡ unused_row path.now) }
{
    row_of(
        alloc,
        Kind::Unused,
        path,
        "no file uses this text: take it away, or state its licence where it is used",
    )
}

fn lacking_words(lacking: Lacking) -> &'static str
    ensures { result.now ≡ lacking_words lacking }
{
    match lacking {
        Lacking::Notice => {
            "no SPDX-FileCopyrightText (a notice without it doesn't count): \
             state one in the file, beside it in FILE.license, or in REUSE.toml"
        }
        Lacking::Licence => {
            "no SPDX-License-Identifier (a licence without it doesn't count): \
             state one in the file, beside it in FILE.license, or in REUSE.toml"
        }
        Lacking::Both => {
            "no SPDX-FileCopyrightText and no SPDX-License-Identifier (what is said without them doesn't count): \
             state them in the file, beside it in FILE.license, or in REUSE.toml"
        }
    }
}

/// The row of a file that lacks something.
pub fn bare_row(alloc: Global, bare: &Bare) -> Result<Row, AllocError>
    ensures { IfOk result (λ row. row ≡ bare_row bare.now) }
{
    row_of(
        alloc,
        Kind::Bare,
        bare.path.as_str(),
        lacking_words(bare.lacking),
    )
}
