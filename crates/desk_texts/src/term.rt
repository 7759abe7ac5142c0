//! Terms as texts.

ghost use Rattle.std.specs.Prelude.{◌≡◌, IfOk};
ghost use Rattle.std.specs.Option.{option_map};
ghost use Rattle.desk_catalogue.specs.Terms.{IsTermOf};
ghost use Rattle.desk_texts.specs.Terms.{IsTerm, reference_in, is_licence, adopted_as, licence_id_in, exception_in};

use desk_base::{Text, is_idstring_of_bytes};
use desk_expr::{Term, parse_term, print_term, unless_memory};
use desk_fields::split_word;
use desk_tagvalue::behind;
use desk_tokens::{is_reference, without_plus};
use std::alloc::{AllocError, Global};

/// The term that a text spells.
pub(crate) fn read_term(alloc: Global, text: &str) -> Result<Option<Term>, AllocError>
    ensures { IfOk result (IsTerm text.now) }
{
    match parse_term(alloc, text) {
        Ok(term) => Ok(Some(term)),
        Err(fault) => {
            unless_memory(fault)?;
            Ok(None)
        }
    }
}

/// The term that a text spells, as printed.
pub(crate) fn printed_term(alloc: Global, text: &str) -> Result<Option<Text>, AllocError>
    ensures { IfOk result (IsTermOf text.now) }
{
    match read_term(alloc, text)? {
        Some(term) => {
            let printed = print_term(alloc, &term)?;
            Ok(Some(Text::of(alloc, printed.as_str())?))
        }
        None => Ok(None),
    }
}

/// The reference that a printed term names.
fn reference_in(term: &str) -> Option<&str>
    ensures { option_map (λ word. word.now) result ≡ reference_in term.now }
{
    let (word, _) = split_word(term);
    if is_reference(word.as_bytes()) {
        Some(word)
    } else {
        None
    }
}

/// The same as an owned text.
pub(crate) fn reference_of(alloc: Global, term: &str) -> Result<Option<Text>, AllocError>
    ensures { IfOk result (λ reference. reference ≡ reference_in term.now) }
{
    match reference_in(term) {
        Some(reference) => Ok(Some(Text::of(alloc, reference)?)),
        None => Ok(None),
    }
}

/// Whether a printed term is only a licence: no reference, no plus, no exception.
pub(crate) fn is_licence(term: &str) -> bool
    ensures { result ≡ is_licence term.now }
{
    is_idstring_of_bytes(term.as_bytes()) && !is_reference(term.as_bytes())
}

/// A licence, with the exception of a printed term.
pub(crate) fn adopted_as(alloc: Global, licence: &str, term: &str) -> Result<Text, AllocError>
    ensures { IfOk result (λ adopted. adopted ≡ adopted_as licence.now term.now) }
{
    let (_, exception) = split_word(term);
    let mut adopted = String::from_str(alloc, licence)?;
    adopted.push_str(exception)?;
    Text::of(alloc, adopted.as_str())
}

/// The id of the licence that a printed term names, without its plus and exception.
pub(crate) fn licence_id_of(alloc: Global, term: &str) -> Result<Text, AllocError>
    ensures { IfOk result (λ id. id ≡ licence_id_in term.now) }
{
    let (word, _) = split_word(term);
    Text::of(alloc, without_plus(word))
}

/// The exception of a printed term, if it has one.
fn exception_in(term: &str) -> Option<&str>
    ensures { option_map (λ id. id.now) result ≡ exception_in term.now }
{
    let (_, rest) = split_word(term);
    behind(rest, " WITH ")
}

/// The same as an owned text.
pub(crate) fn exception_of(alloc: Global, term: &str) -> Result<Option<Text>, AllocError>
    ensures { IfOk result (λ exception. exception ≡ exception_in term.now) }
{
    match exception_in(term) {
        Some(exception) => Ok(Some(Text::of(alloc, exception)?)),
        None => Ok(None),
    }
}
