//! The pieces that cells are made of.

ghost use Rattle.std.specs.Prelude.{◌≡◌, ◌++◌, decimal, OnOk};
ghost use Rattle.std.specs.String.{string_bytes};
ghost use Rattle.desk_page.specs.Escapes.{escaped};
ghost use Rattle.desk_page.specs.Pieces.{counted, framed, paired};

use crate::escape::add_escaped;
use std::alloc::{AllocError, Global};

/// Adds a text between fixed ones.
#[tactic(auto, unfolding(crate::specs::Pieces::framed))]
pub(crate) fn add_framed(
    text: &mut String,
    before: &str,
    value: &str,
    after: &str,
) -> Result<(), AllocError>
    ensures { OnOk result (string_bytes text.new
        ≡ string_bytes text.old ++ framed before.now value.now after.now) }
{
    text.push_str(before)?;
    add_escaped(text, value)?;
    text.push_str(after)
}

// Adds a number after a fixed text.
fn add_number(alloc: Global, text: &mut String, before: &str, number: u64) -> Result<(), AllocError>
    ensures { OnOk result (string_bytes text.new
        ≡ string_bytes text.old ++ before.now ++ decimal number) }
{
    let number = format!(in alloc; "{number}")?;
    text.push_str(before)?;
    text.push_str(number.as_str())
}

/// Adds a number between fixed texts.
#[tactic(auto, unfolding(crate::specs::Pieces::counted))]
pub(crate) fn add_counted(
    alloc: Global,
    text: &mut String,
    before: &str,
    number: u64,
    after: &str,
) -> Result<(), AllocError>
    ensures { OnOk result (string_bytes text.new
        ≡ string_bytes text.old ++ counted before.now number after.now) }
{
    add_number(alloc, text, before, number)?;
    text.push_str(after)
}

/// The fixed texts around two numbers.
#[derive(Clone, Copy)]
pub(crate) struct Frame<'a> {
    pub before: &'a str,
    pub between: &'a str,
    pub after: &'a str,
}

/// Adds two numbers between fixed texts.
#[tactic(auto, unfolding(crate::specs::Pieces::paired))]
pub(crate) fn add_paired(
    alloc: Global,
    text: &mut String,
    frame: &Frame,
    number: u64,
    other: u64,
) -> Result<(), AllocError>
    ensures { OnOk result (string_bytes text.new ≡ string_bytes text.old
        ++ paired frame.now.before.now number frame.now.between.now other frame.now.after.now) }
{
    add_number(alloc, text, frame.before, number)?;
    add_number(alloc, text, frame.between, other)?;
    text.push_str(frame.after)
}
