//! Licence expressions in the fields of a document.

ghost use Rattle.std.specs.Prelude.{◌≡◌, ◌<◌, IfOk, OnOk};
ghost use Rattle.desk_expr.specs.Faults.{fault_number};
ghost use Rattle.desk_texts.specs.Expressions.{word_place, IsRead, fault_of, IsFault};
ghost use Rattle.desk_findings.specs.Fields.{is_no_licence};

use desk_expr::{Expr, ParseFault, Profile, parse_in, unless_memory};
use desk_fields::skip_blanks;
use desk_findings::is_no_licence;
use desk_model::ExpressionFault;
use std::alloc::{AllocError, Global};

/// The expression that a value is by a profile of operators.
pub(crate) fn read_expression(
    alloc: Global,
    text: &str,
    profile: Profile,
) -> Result<Option<Expr>, AllocError>
    ensures { IfOk result (IsRead profile text.now) }
{
    if is_no_licence(text) {
        return Ok(None);
    }
    match parse_in(alloc, text, profile) {
        Ok(expr) => Ok(Some(expr)),
        Err(fault) => {
            unless_memory(fault)?;
            Ok(None)
        }
    }
}

/// Where the first word of a text begins.
fn word_place(text: &str) -> usize
    ensures { result ≡ word_place text.now }
{
    text.len() - skip_blanks(text).len()
}

/// The fault of a text that stops, or an error if it is that no memory was left.
fn fault_of(fault: ParseFault) -> Result<ExpressionFault, AllocError>
    ensures fault { IfOk result (λ told. told ≡ fault_of fault) }
    ensures stop { OnOk result (0 < fault_number fault) }
{
    match fault {
        ParseFault::Memory(error) => Err(error),
        ParseFault::Empty(place) => Ok(ExpressionFault::Empty(place)),
        ParseFault::BadToken(place) => Ok(ExpressionFault::BadToken(place)),
        ParseFault::Unexpected(place) => Ok(ExpressionFault::Unexpected(place)),
        ParseFault::Unclosed(place) => Ok(ExpressionFault::Unclosed(place)),
        ParseFault::TooDeep(place) => Ok(ExpressionFault::TooDeep(place)),
        ParseFault::TooLong(place) => Ok(ExpressionFault::TooLong(place)),
        ParseFault::TooManyTerms(place) => Ok(ExpressionFault::TooManyTerms(place)),
    }
}

/// Why a value isn't a licence expression by a profile of operators, if it isn't one. If reading
/// stops, the fault is the one that stops it, even if the text is too long.
pub(crate) fn expression_fault(
    alloc: Global,
    text: &str,
    profile: Profile,
) -> Result<Option<ExpressionFault>, AllocError>
    ensures { IfOk result (IsFault profile text.now) }
{
    match parse_in(alloc, text, profile) {
        Ok(_) if is_no_licence(text) => Ok(Some(ExpressionFault::Unexpected(word_place(text)))),
        Ok(_) => Ok(None),
        Err(fault) => Ok(Some(fault_of(fault)?)),
    }
}
