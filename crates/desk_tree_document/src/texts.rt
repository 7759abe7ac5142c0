//! Licences as one text, and notices as one text.

ghost use Rattle.std.specs.Prelude.{◌≡◌, ◌++◌, IfOk, OnOk, codes};
ghost use Rattle.std.specs.List.{list_any};
ghost use Rattle.std.specs.String.{string_bytes};
ghost use Rattle.desk_tree_annotations.specs.Right.{Reading, IsRight};
ghost use Rattle.desk_tree_document.specs.Texts.{holds_close, others_joined, expression_of, expression_read, others_below, copyright_of};
ghost use Rattle.desk_tree_gather.specs.Shown.{Gives};

use desk_base::Text;
use desk_tree_annotations::{SharedText, is_expression};
use desk_tree_gather::GatherFault;
use std::alloc::{AllocError, Global};

const CLOSE: &[u8] = b"</text>";

// Adds licences, each in parentheses, after the first.
fn add_others(text: &mut String, licences: &[SharedText]) -> Result<(), AllocError>
    ensures { OnOk result (string_bytes text.new
        ≡ string_bytes text.old ++ others_joined licences.now) }
{
    for licence in licences {
        text.push_str(" AND (")?;
        text.push_str(licence.as_str())?;
        text.push_str(")")?;
    }
    Ok(())
}

// Licences joined into one expression.
fn expression_of(alloc: Global, licences: &[SharedText]) -> Result<Text, AllocError>
    ensures { IfOk result (λ t. t ≡ expression_of licences.now) }
{
    match licences {
        [] => Text::of(alloc, "NOASSERTION"),
        [licence] => Text::of(alloc, licence.as_str()),
        [licence, others @ ..] => {
            let mut text = String::from_str(alloc, "(")?;
            text.push_str(licence.as_str())?;
            text.push_str(")")?;
            add_others(&mut text, others)?;
            Text::of(alloc, text.as_str())
        }
    }
}

/// Licences joined into one expression, if the result is one.
pub(crate) fn expression_read(
    alloc: Global,
    licences: &[SharedText],
) -> Result<Result<Text, GatherFault>, AllocError>
    ensures { (r : Reading) → IsRight r
        → IfOk result (Gives (expression_read r licences.now) (λ t. t)) }
{
    let text = expression_of(alloc, licences)?;
    let told = is_expression(alloc, text.as_str())?;
    if told {
        Ok(Ok(text))
    } else {
        Ok(Err(GatherFault::ExpressionTooLong))
    }
}

// Whether `</text>` is in a text.
fn holds_close(text: &[u8]) -> bool
    ensures { result ≡ holds_close text.now }
{
    let mut rest = text;
    while let Some((_, after)) = rest.split_first() {
        if rest.starts_with(CLOSE) {
            return true;
        }
        rest = after;
    }
    false
}

// Whether `</text>` is in one of some notices.
fn some_hold_close(notices: &[SharedText]) -> bool
    ensures { result ≡ list_any holds_close notices.now }
{
    for notice in notices {
        if holds_close(notice.as_str().as_bytes()) {
            return true;
        }
    }
    false
}

// Adds notices, each on its own line, below the first.
fn add_below(text: &mut String, notices: &[SharedText]) -> Result<(), AllocError>
    ensures { OnOk result (string_bytes text.new
        ≡ string_bytes text.old ++ others_below notices.now) }
{
    for notice in notices {
        text.push_str("\n")?;
        text.push_str(notice.as_str())?;
    }
    Ok(())
}

/// Notices joined into one text.
pub(crate) fn copyright_of(alloc: Global, notices: &[SharedText]) -> Result<Text, AllocError>
    ensures { IfOk result (λ t. t ≡ copyright_of notices.now) }
{
    let Some((notice, others)) = notices.split_first() else {
        return Text::of(alloc, "NOASSERTION");
    };
    if some_hold_close(notices) {
        return Text::of(alloc, "NOASSERTION");
    }
    let mut text = String::from_str(alloc, notice.as_str())?;
    add_below(&mut text, others)?;
    Text::of(alloc, text.as_str())
}
