//! Whether a field has a licence.

ghost use Rattle.std.specs.Prelude.{◌≡◌, ℕ, List, IfOk, Option, false, is_some};
ghost use Rattle.std.specs.Option.{option_map_or};
ghost use Rattle.desk_expr.specs.Tree.{Tree};
ghost use Rattle.desk_findings.specs.Fields.{IsReading};
ghost use Rattle.desk_tagvalue.specs.Entries.{value_text};
ghost use Rattle.desk_import.specs.Summaries.{grants_nothing, is_declared, is_licence};

use desk_base::Profile;
use desk_findings::{expression_in, is_no_licence};
use std::alloc::{AllocError, Global};

// Whether a value is an expression by the profile of operators.
fn is_read(alloc: Global, text: &str, profile: Profile) -> Result<bool, AllocError>
    ensures { (reads : List ℕ → Option Tree) → IsReading profile reads
        → IfOk result (λ is. is ≡ is_some (reads text.now)) }
{
    let expression = expression_in(alloc, text, profile)?;
    let is = expression.is_some();
    drop(expression);
    Ok(is)
}

/// Whether a field has a licence: it is an expression by the profile of operators, and neither
/// `NONE` nor `NOASSERTION`.
pub(crate) fn is_licence(
    alloc: Global,
    field: Option<&str>,
    profile: Profile,
) -> Result<bool, AllocError>
    ensures { (reads : List ℕ → Option Tree) → IsReading profile reads
        → IfOk result (λ is. is ≡ is_licence reads (value_text field.entry)) }
{
    match field {
        Some(text) if !is_no_licence(text) => is_read(alloc, text, profile),
        _ => Ok(false),
    }
}

// Whether a field has npm's word for a package that nobody else may use.
fn grants_nothing(field: Option<&str>) -> bool
    ensures { result ≡ option_map_or grants_nothing (value_text field.entry) false }
{
    match field {
        Some(text) => text == "UNLICENSED",
        None => false,
    }
}

/// Whether a declared field has a licence, which npm's `UNLICENSED` is not.
pub(crate) fn is_declared(
    alloc: Global,
    field: Option<&str>,
    profile: Profile,
) -> Result<bool, AllocError>
    ensures { (reads : List ℕ → Option Tree) → IsReading profile reads
        → IfOk result (λ is. is ≡ is_declared reads (value_text field.entry)) }
{
    let is_licence = is_licence(alloc, field, profile)?;
    Ok(is_licence && !grants_nothing(field))
}
