//! Refusals in words.

ghost use Rattle.std.specs.Prelude.{◌≡◌, ◌++◌, map, IfOk, OnOk};
ghost use Rattle.std.specs.List.{flat_map};
ghost use Rattle.desk_model.specs.declared.refusal.Refusal.{Refusal};
ghost use Rattle.desk_explain.specs.Explanations.{entries_named};
ghost use Rattle.desk_answers.specs.Refusals.{AreWanting, cause_line, cause_text, causes_of, fault_of, framed, IsRefused, is_catalogue_fault, is_document_fault, is_expression_fault, is_of, is_refusal, refused_text};

use crate::rows::WANTING_NAMES;
use crate::tables::columns_of;
use desk_base::{Text, add_shown};
use desk_explain::{Entry, Kind, entries};
use desk_model::Refusal;
use desk_words::RefusalWords;
use std::alloc::{AllocError, Global};

/// A refusal that a freeze would meet.
#[derive(Drop)]
pub struct WantingLine<'a> {
    /// The refusal itself.
    pub refusal: &'a Refusal,
    /// What it says in words behind its name.
    pub words: Text,
}

/// What a usual cause is one of.
#[derive(Clone, Copy)]
pub enum Subject {
    /// A refusal.
    Refusal,
    /// The fault of a document with this number.
    Document(u8),
    /// The fault of an expression with this number.
    Expression(u8),
    /// The fault of a catalogue with this number.
    Catalogue(u8),
}

// The fault that a refusal reports, if it does.
fn fault_of(refusal: &Refusal) -> Option<Subject>
    ensures { result ≡ fault_of refusal.now }
{
    match refusal {
        Refusal::BadDocument(fault) => Some(Subject::Document(fault.number())),
        Refusal::BadExpression(fault) => Some(Subject::Expression(fault.number())),
        Refusal::BadCatalogue(fault) => Some(Subject::Catalogue(fault.number())),
        _ => None,
    }
}

// Whether this is the kind of a refusal.
fn is_refusal(kind: Kind) -> bool
    ensures { result ≡ is_refusal kind }
{
    match kind {
        Kind::Refusal { .. } => true,
        _ => false,
    }
}

// Whether this is the kind of the fault of a document with this number.
fn is_document_fault(wanted: u8, kind: Kind) -> bool
    ensures { result ≡ is_document_fault wanted kind }
{
    match kind {
        Kind::DocumentFault { number } => wanted == number,
        _ => false,
    }
}

// Whether this is the kind of the fault of an expression with this number.
fn is_expression_fault(wanted: u8, kind: Kind) -> bool
    ensures { result ≡ is_expression_fault wanted kind }
{
    match kind {
        Kind::ExpressionFault { number } => wanted == number,
        _ => false,
    }
}

// Whether this is the kind of the fault of a catalogue with this number.
fn is_catalogue_fault(wanted: u8, kind: Kind) -> bool
    ensures { result ≡ is_catalogue_fault wanted kind }
{
    match kind {
        Kind::CatalogueFault { number } => wanted == number,
        _ => false,
    }
}

// Whether a name of this kind is the subject's.
fn is_of(subject: Subject, kind: Kind) -> bool
    ensures { result ≡ is_of subject kind }
{
    match subject {
        Subject::Refusal => is_refusal(kind),
        Subject::Document(wanted) => is_document_fault(wanted, kind),
        Subject::Expression(wanted) => is_expression_fault(wanted, kind),
        Subject::Catalogue(wanted) => is_catalogue_fault(wanted, kind),
    }
}

// What a refusal says in words behind its name.
fn words_of(alloc: Global, refusal: &Refusal) -> Result<Text, AllocError> {
    let words = RefusalWords::of(refusal);
    let whole = format!(in alloc; "{words}")?;
    match whole.as_str().split_once(": ") {
        Some((_, words)) => Text::of(alloc, words),
        None => Text::of(alloc, whole.as_str()),
    }
}

// Adds a value between words.
#[tactic(auto, unfolding(crate::specs::Refusals::framed))]
fn add_framed(text: &mut Vec<u8>, before: &str, value: &str, after: &str) -> Result<(), AllocError>
    ensures { OnOk result (text.new.items
        ≡ text.old.items ++ framed before.now value.now after.now) }
{
    text.extend_from_slice(before.as_bytes())?;
    text.extend_from_slice(value.as_bytes())?;
    text.extend_from_slice(after.as_bytes())
}

// Adds a usual cause, if there is one.
fn add_cause_text(text: &mut Vec<u8>, cause: Option<&str>) -> Result<(), AllocError>
    ensures { OnOk result (text.new.items ≡ text.old.items ++ cause_text cause.entry) }
{
    match cause {
        Some(cause) => add_framed(text, "usual cause: ", cause, "\n"),
        None => Ok(()),
    }
}

// Adds the usual cause of an entry that is for the subject.
fn add_cause(text: &mut Vec<u8>, entry: &Entry, subject: Subject) -> Result<(), AllocError>
    ensures { OnOk result (text.new.items ≡ text.old.items ++ cause_line subject entry.now) }
{
    if is_of(subject, entry.kind) {
        add_cause_text(text, entry.cause)
    } else {
        Ok(())
    }
}

// Adds the usual cause of each entry that is for the subject and has one.
fn add_causes(text: &mut Vec<u8>, entries: &[Entry], subject: Subject) -> Result<(), AllocError>
    ensures { OnOk result (text.new.items
        ≡ text.old.items ++ flat_map (cause_line subject) entries.now) }
{
    for entry in entries {
        add_cause(text, entry, subject)?;
    }
    Ok(())
}

// The usual causes of a fault by these tables.
fn fault_causes(alloc: Global, tables: &[&[Entry]], subject: Subject) -> Result<Vec<u8>, AllocError>
    ensures { IfOk result (λ text. text.items
        ≡ flat_map (λ table. flat_map (cause_line subject) table.now) tables.now) }
{
    let mut text = Vec::new(alloc);
    for table in tables {
        add_causes(&mut text, table, subject)?;
    }
    Ok(text)
}

// The usual causes of what has this name.
fn refusal_causes(alloc: Global, tables: &[&[Entry]], name: &str) -> Result<Vec<u8>, AllocError>
    ensures { IfOk result (λ text. text.items
        ≡ flat_map (cause_line Subject.Refusal) (entries_named name.now tables.now)) }
{
    let found = entries(alloc, tables, name)?;
    let mut text = Vec::new(alloc);
    add_causes(&mut text, found.as_slice(), Subject::Refusal)?;
    Ok(text)
}

// The usual causes of the fault that a refusal reports or, if there are none, of the refusal.
fn causes_of(
    alloc: Global,
    tables: &[&[Entry]],
    name: &str,
    fault: Option<Subject>,
) -> Result<Vec<u8>, AllocError>
    ensures { IfOk result (λ text. text.items ≡ causes_of tables.now name.now fault) }
{
    if let Some(subject) = fault {
        let text = fault_causes(alloc, tables, subject)?;
        if !text.is_empty() {
            return Ok(text);
        }
    }
    refusal_causes(alloc, tables, name)
}

// A refusal by its name, the fault that it reports and its words.
fn named_text(
    alloc: Global,
    tables: &[&[Entry]],
    name: &str,
    fault: Option<Subject>,
    words: &str,
) -> Result<Vec<u8>, AllocError>
    ensures { IfOk result (λ text. text.items
        ≡ refused_text tables.now name.now fault words.now) }
{
    let causes = causes_of(alloc, tables, name, fault)?;
    let mut text = Vec::new(alloc);
    add_framed(&mut text, "refused: ", name, ": ")?;
    add_shown(&mut text, words)?;
    text.extend_from_slice(b"\n")?;
    text.extend_from_slice(causes.as_slice())?;
    add_framed(&mut text, "more: desk explain ", name, "\n")?;
    Ok(text)
}

/// A refusal in words, with the usual cause by these tables of the fault that it reports or else of
/// the refusal, and where to read on.
pub(crate) fn refusal_text(
    alloc: Global,
    tables: &[&[Entry]],
    refusal: &Refusal,
) -> Result<Vec<u8>, AllocError>
    ensures { IfOk result (λ text. IsRefused tables.now refusal.now text.items) }
{
    let words = words_of(alloc, refusal)?;
    named_text(
        alloc,
        tables,
        refusal.name(),
        fault_of(refusal),
        words.as_str(),
    )
}

// A line for each refusal.
fn lines_of<'a>(alloc: Global, refusals: &'a [Refusal]) -> Result<Vec<WantingLine<'a>>, AllocError>
    ensures { IfOk result (λ lines. map (λ line. line.refusal.now) lines.items ≡ refusals.now) }
{
    let mut lines = Vec::new(alloc);
    for refusal in refusals {
        let words = words_of(alloc, refusal)?;
        lines.push(WantingLine { refusal, words })?;
    }
    Ok(lines)
}

/// A table of refusals, in words.
pub(crate) fn wanting_text(alloc: Global, refusals: &[Refusal]) -> Result<Vec<u8>, AllocError>
    ensures { IfOk result (λ text. AreWanting refusals.now text.items) }
{
    let lines = lines_of(alloc, refusals)?;
    columns_of(alloc, &WANTING_NAMES, lines.as_slice())
}
