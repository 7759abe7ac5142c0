//! Choices as requests.

ghost use Rattle.std.specs.Prelude.{◌≡◌, IfOk};
ghost use Rattle.std.specs.String.{string_bytes};
ghost use Rattle.serde_json.specs.Data.{string};
ghost use Rattle.serde_json.specs.View.{view};
ghost use Rattle.desk_wanting.specs.Requests.{choice_line, choice_lines_text, choose_request, text_list};

use crate::sole_choice::SoleChoice;
use desk_base::Text;
use serde_json::{Value, json};
use std::alloc::{AllocError, Global};

fn text_value(alloc: Global, text: &str) -> Result<Value, AllocError>
    ensures { IfOk result (λ v. view v ≡ string text.now) }
{
    json!(in alloc; text)
}

/// A list of texts.
fn text_list(alloc: Global, texts: &[Text]) -> Result<Value, AllocError>
    ensures { IfOk result (λ v. view v ≡ text_list texts.now) }
{
    let mut values = Vec::new(alloc);
    for text in texts {
        values.push(text_value(alloc, text.as_str())?)?;
    }
    Ok(Value::Array(values))
}

/// The request for a choice in a release.
fn choose_request(alloc: Global, release: &Text, choice: &SoleChoice) -> Result<Value, AllocError>
    ensures { IfOk result (λ v. view v ≡ choose_request release.now choice.now) }
{
    let document = choice.document;
    let package = choice.package_id.as_str();
    let release = release.as_str();
    let terms = choice.terms.as_slice();
    json!(in alloc; {
        "do": "choose", "document": document, "package": package, "release": release,
        "terms": text_list(alloc, terms)?
    })
}

/// The request as a line.
fn choice_line(alloc: Global, release: &Text, choice: &SoleChoice) -> Result<String, AllocError>
    ensures { IfOk result (λ line. string_bytes line ≡ choice_line release.now choice.now) }
{
    let value = choose_request(alloc, release, choice)?;
    let line = value.to_string(alloc);
    drop(value);
    let mut line = line?;
    line.push_str("\n")?;
    Ok(line)
}

/// The requests for choices in a release, a line of JSON each, in their order.
///
/// # Errors
///
/// Out of memory.
pub fn choice_lines(
    alloc: Global,
    release: &Text,
    choices: &[SoleChoice],
) -> Result<String, AllocError>
    ensures { IfOk result (λ lines.
        string_bytes lines ≡ choice_lines_text release.now choices.now) }
{
    let mut lines = String::new(alloc);
    for choice in choices {
        let line = choice_line(alloc, release, choice)?;
        lines.push_str(line.as_str())?;
    }
    Ok(lines)
}
