//! Sets of terms.

ghost use Rattle.std.specs.Prelude.{◌≡◌, ◌++◌, IfOk, OnOk};
ghost use Rattle.std.specs.List.{flat_map};
ghost use Rattle.std.specs.String.{string_bytes};
ghost use Rattle.desk_answers.specs.Sets.{behind, joined, set_line, sets_shown};

use desk_base::{Items, Text, add_shown};
use std::alloc::{AllocError, Global};

// Adds a term after a comma and a blank.
fn add_behind(text: &mut String, term: &Text) -> Result<(), AllocError>
    ensures { OnOk result (string_bytes text.new ≡ string_bytes text.old ++ behind term.now) }
{
    text.push_str(", ")?;
    text.push_str(term.as_str())
}

// Adds each of these terms after a comma and a blank.
fn add_others(text: &mut String, terms: &[Text]) -> Result<(), AllocError>
    ensures { OnOk result (string_bytes text.new
        ≡ string_bytes text.old ++ flat_map behind terms.now) }
{
    for term in terms {
        add_behind(text, term)?;
    }
    Ok(())
}

/// Terms, joined by a comma and a blank.
pub(crate) fn joined(alloc: Global, terms: &[Text]) -> Result<Text, AllocError>
    ensures { IfOk result (λ text. text ≡ joined terms.now) }
{
    match terms {
        [] => Text::of(alloc, ""),
        [term, others @ ..] => {
            let mut text = String::from_str(alloc, term.as_str())?;
            add_others(&mut text, others)?;
            Ok(Text::from(text))
        }
    }
}

// Adds the line of a set.
fn add_set(alloc: Global, text: &mut Vec<u8>, terms: &[Text]) -> Result<(), AllocError>
    ensures { OnOk result (text.new.items ≡ text.old.items ++ set_line terms.now) }
{
    let terms = joined(alloc, terms)?;
    add_shown(text, terms.as_str())?;
    text.extend_from_slice(b"\n")
}

/// A line for each set of terms.
#[tactic(auto, unfolding(crate::specs::Sets::sets_shown))]
pub(crate) fn sets_text(alloc: Global, sets: &[Items<Text>]) -> Result<Vec<u8>, AllocError>
    ensures { IfOk result (λ text. text.items ≡ sets_shown sets.now) }
{
    let mut text = Vec::new(alloc);
    for set in sets {
        add_set(alloc, &mut text, set.as_slice())?;
    }
    Ok(text)
}
