//! Licence expressions in the fields of a document.

ghost use Rattle.std.specs.Prelude.{◌≡◌, ℕ, List, IfOk, OnOk, Option, Some, alloc_error};
ghost use Rattle.std.specs.List.{list_any};
ghost use Rattle.std.specs.Str.{bytes_eq};
ghost use Rattle.desk_expr.specs.Tree.{Tree};
ghost use Rattle.desk_tagvalue.specs.Parts.{DocumentText};
ghost use Rattle.desk_tagvalue.specs.Seen.{has_key};
ghost use Rattle.desk_findings.specs.Fields.{is_only_word, is_no_licence, IsReading, is_undefined, uses_undefined};

use desk_base::Profile;
use desk_expr::{Expr, Term, parse_in, terms, unless_memory};
use desk_fields::{skip_blanks, split_word};
use desk_tagvalue::behind;
use std::alloc::{AllocError, Global};
use std::collections::BTreeSet;

// Whether a text is only this word.
fn is_only_word(word: &str, text: &str) -> bool
    ensures { result ≡ is_only_word word.now text.now }
{
    let (first, after) = split_word(text);
    first == word && skip_blanks(after).is_empty()
}

/// Whether a value is only `NONE` or `NOASSERTION`.
pub fn is_no_licence(text: &str) -> bool
    ensures { result ≡ is_no_licence text.now }
{
    is_only_word("NONE", text) || is_only_word("NOASSERTION", text)
}

/// The expression that a value is by the profile of operators, if it is one.
pub fn expression_in(
    alloc: Global,
    text: &str,
    profile: Profile,
) -> Result<Option<Expr>, AllocError>
    ensures { (reads : List ℕ → Option Tree) → IsReading profile reads
        → IfOk result (λ e. e ≡ reads text.now) }
{
    match parse_in(alloc, text, profile) {
        Ok(expr) => Ok(Some(expr)),
        Err(fault) => {
            unless_memory(fault)?;
            Ok(None)
        }
    }
}

// Whether a term is a reference that no extracted licence defines.
fn is_undefined(defined: &BTreeSet<&str>, term: &Term) -> bool
    ensures { (d : DocumentText) → ((q : List ℕ)
        → has_key q defined.now ≡ list_any (λ x. bytes_eq x.id q) d.extracted)
        → result ≡ is_undefined d term.now }
{
    let key = term.key.as_str();
    match behind(key, "LicenseRef-") {
        Some(_) => !defined.contains(key),
        None => false,
    }
}

fn any_undefined(defined: &BTreeSet<&str>, terms: &[Term]) -> bool
    ensures { (d : DocumentText) → ((q : List ℕ)
        → has_key q defined.now ≡ list_any (λ x. bytes_eq x.id q) d.extracted)
        → result ≡ list_any (is_undefined d) terms.now }
{
    for term in terms {
        if is_undefined(defined, term) {
            return true;
        }
    }
    false
}

/// Whether an expression uses a reference that no extracted licence defines.
pub(crate) fn uses_undefined(
    alloc: Global,
    defined: &BTreeSet<&str>,
    expr: &Expr,
) -> Result<bool, AllocError>
    ensures { (d : DocumentText) → ((q : List ℕ)
        → has_key q defined.now ≡ list_any (λ x. bytes_eq x.id q) d.extracted)
        → IfOk result (λ b. b ≡ uses_undefined d (Some expr.now)) }
{
    let used = terms(alloc, expr)?;
    Ok(any_undefined(defined, used.as_slice()))
}
