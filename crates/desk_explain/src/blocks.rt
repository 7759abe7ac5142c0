//! The text of entries.

ghost use Rattle.std.specs.Prelude.{◌≡◌, ◌++◌, flat_map, IfOk, OnOk};
ghost use Rattle.std.specs.String.{string_bytes};
ghost use Rattle.desk_explain.specs.Explanations.{block, cause_label, heading, line, meaning_label, page};

use crate::entry::{Entry, Kind};
use std::alloc::{AllocError, Global};

fn meaning_label(kind: &Kind) -> &'static str
    ensures { result.now ≡ meaning_label kind.now }
{
    match kind {
        Kind::Condition { .. } => "What must hold",
        _ => "What is wrong",
    }
}

fn cause_label(kind: &Kind) -> &'static str
    ensures { result.now ≡ cause_label kind.now }
{
    match kind {
        Kind::DocumentFault { .. } => "Usual cause, and what is wanted",
        _ => "Usual cause",
    }
}

/// The page that has the words, and what else it says.
fn page(kind: &Kind) -> &'static str
    ensures { result.now ≡ page kind.now }
{
    match kind {
        Kind::Finding { .. } => "docs/REQUESTS.md",
        Kind::CatalogueFault { .. } => "docs/CATALOGUE.md",
        Kind::Condition { .. } => "docs/AUDIT.md",
        Kind::Problem => "docs/LINT.md",
        _ => "docs/REFUSALS.md",
    }
}

// Adds a line of a block, if there is something to say.
fn add_line(text: &mut String, label: &str, words: Option<&str>) -> Result<(), AllocError>
    ensures { OnOk result (string_bytes text.new
        ≡ string_bytes text.old ++ line label.now words.entry) }
{
    if let Some(words) = words {
        text.push_str("  ")?;
        text.push_str(label)?;
        text.push_str(": ")?;
        text.push_str(words)?;
        text.push_str("\n")?;
    }
    Ok(())
}

fn heading(alloc: Global, entry: &Entry) -> Result<String, AllocError>
    ensures { IfOk result (λ text. string_bytes text ≡ heading entry.now) }
{
    let (name, kind) = (entry.name, entry.kind);
    format!(in alloc; "{name}: {kind}\n")
}

// Adds the block of an entry.
fn add_block(alloc: Global, text: &mut String, entry: &Entry) -> Result<(), AllocError>
    ensures { OnOk result (string_bytes text.new ≡ string_bytes text.old ++ block entry.now) }
{
    text.push_str(&heading(alloc, entry)?)?;
    add_line(text, meaning_label(&entry.kind), entry.meaning)?;
    add_line(text, cause_label(&entry.kind), entry.cause)?;
    add_line(text, "Page", Some(page(&entry.kind)))
}

/// The text of entries: a block for each, with its name, what the name means, what is wrong, the
/// usual cause, and the page that has these words.
pub fn explanation(alloc: Global, entries: &[Entry]) -> Result<String, AllocError>
    ensures { IfOk result (λ text. string_bytes text ≡ flat_map block entries.now) }
{
    let mut text = String::new(alloc);
    for entry in entries {
        add_block(alloc, &mut text, entry)?;
    }
    Ok(text)
}
