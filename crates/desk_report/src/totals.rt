//! The counts of a release's duties.

ghost use Rattle.std.specs.Prelude.{◌≡◌, ◌++◌, IfOk, OnOk};
ghost use Rattle.std.specs.String.{string_bytes};
ghost use Rattle.desk_report.specs.Lines.{counted, totals_line};

use desk_model::Totals;
use std::alloc::{AllocError, Global};

// Adds a word and a count.
fn add_count(alloc: Global, text: &mut String, word: &str, count: u64) -> Result<(), AllocError>
    ensures { OnOk result (string_bytes text.new
        ≡ string_bytes text.old ++ counted word.now count) }
{
    let counted = format!(in alloc; "{word} {count}")?;
    text.push_str(counted.as_str())
}

/// How many duties of a release were raised and how many are in each state:
/// `raised N open N met N waived N withdrawn N`, ended by LF.
pub fn totals_text(alloc: Global, totals: &Totals) -> Result<String, AllocError>
    ensures { IfOk result (λ text. string_bytes text ≡ totals_line totals.now) }
{
    let mut text = String::new(alloc);
    add_count(alloc, &mut text, "raised", totals.raised)?;
    add_count(alloc, &mut text, " open", totals.still_open)?;
    add_count(alloc, &mut text, " met", totals.met)?;
    add_count(alloc, &mut text, " waived", totals.waived)?;
    add_count(alloc, &mut text, " withdrawn", totals.withdrawn)?;
    text.push_str("\n")?;
    Ok(text)
}
