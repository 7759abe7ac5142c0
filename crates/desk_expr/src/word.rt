//! The terms and exceptions that words are.

ghost use Rattle.std.specs.Prelude.{◌≡◌, ◌↔◌, ℕ, List, Option, OnOk, IfOk, IfErr, [], ◌∷◌, ◌++◌, Some, None, IsTrue, alloc_error};
ghost use Rattle.desk_expr.specs.declared.term.Term.{Term};
ghost use Rattle.desk_expr.specs.Grammar.{word};
ghost use Rattle.desk_tokens.specs.Words.{IsWordOf, is_licence_or_later, is_reference};
ghost use Rattle.desk_expr.specs.Words.{licence_term, or_later_term, reference_term, with_exception, is_term, is_folded_id};
ghost use Rattle.desk_base.specs.Idstring.{is_idstring};
ghost use Rattle.desk_expr.specs.Spelling.{symbol};
ghost use Rattle.desk_base.specs.Folded.{folded};

use crate::expr::Leaf;
use crate::fault::ParseFault;
use crate::term::Term;
use desk_base::Key;
use desk_tokens::Kind;
use std::alloc::{AllocError, Global};

/// Why reading stops.
#[derive(Clone, Copy)]
pub(crate) enum Halt {
    /// The token, or the end, can't be there.
    Unexpected,
    /// A parenthesis is open at the end.
    Unclosed,
    /// No memory was left.
    Memory(AllocError),
}

impl Halt {
    ghost use Rattle.desk_expr.specs.Halting.{fault_at};

    // The fault at a token or at the end.
    pub(crate) fn at(self, place: usize) -> ParseFault
        ensures { result ≡ fault_at self place }
    {
        match self {
            Halt::Memory(error) => ParseFault::Memory(error),
            Halt::Unexpected | Halt::Unclosed => ParseFault::Unexpected(place),
        }
    }
}

pub(crate) fn is_bad(kind: Kind) -> bool
    ensures { IsTrue result ↔ (kind ≡ Kind.Bad) }
{
    matches!(kind, Kind::Bad)
}

// Adds an item. Lack of memory is one of the reasons to stop.
pub(crate) fn push<T: Drop>(list: &mut Vec<T>, item: T) -> Result<(), Halt>
    ensures ok { OnOk result (list.new.items ≡ list.old.items ++ item ∷ []) }
    ensures err { IfErr result (λ h. h ≡ Halt.Memory alloc_error) }
{
    match list.push(item) {
        Ok(()) => Ok(()),
        Err(_) => Err(Halt::Memory(AllocError)),
    }
}

// The key of an id.
fn folded_key(alloc: Global, text: &str) -> Result<Key, Halt>
    ensures ok { IfOk result (λ k. k ≡ folded text.now) }
    ensures err { IfErr result (λ h. h ≡ Halt.Memory alloc_error) }
{
    match Key::folded(alloc, text) {
        Ok(key) => Ok(key),
        Err(error) => Err(Halt::Memory(error)),
    }
}

// The key of a reference.
fn exact_key(alloc: Global, text: &str) -> Result<Key, Halt>
    ensures ok { IfOk result (λ k. k ≡ text.now) }
    ensures err { IfErr result (λ h. h ≡ Halt.Memory alloc_error) }
{
    match Key::exact(alloc, text) {
        Ok(key) => Ok(key),
        Err(error) => Err(Halt::Memory(error)),
    }
}

fn licence(alloc: Global, text: &str) -> Result<Leaf, Halt>
    requires { IsTrue (is_idstring text.now) }
    ensures ok { IfOk result (λ t. t ≡ licence_term text.now) }
    ensures err { IfErr result (λ h. h ≡ Halt.Memory alloc_error) }
{
    let key = folded_key(alloc, text)?;
    Ok(Leaf::new(Term {
        key,
        plus: false,
        exception: None,
    }))
}

fn licence_or_later(alloc: Global, text: &str) -> Result<Leaf, Halt>
    requires { IsTrue (is_licence_or_later text.now) }
    ensures ok { IfOk result (λ t. t ≡ or_later_term text.now) }
    ensures err { IfErr result (λ h. h ≡ Halt.Memory alloc_error) }
{
    let (id, _plus) = text.split_at(text.len() - 1);
    let key = folded_key(alloc, id)?;
    Ok(Leaf::new(Term {
        key,
        plus: true,
        exception: None,
    }))
}

fn reference(alloc: Global, text: &str) -> Result<Leaf, Halt>
    requires { IsTrue (is_reference text.now) }
    ensures ok { IfOk result (λ t. t ≡ reference_term text.now) }
    ensures err { IfErr result (λ h. h ≡ Halt.Memory alloc_error) }
{
    let key = exact_key(alloc, text)?;
    Ok(Leaf::new(Term {
        key,
        plus: false,
        exception: None,
    }))
}

// The term that a single token is.
pub(crate) fn leaf_of(alloc: Global, kind: Kind, text: &str) -> Result<Leaf, Halt>
    requires { IsWordOf kind text.now }
    ensures ok { IfOk result (λ t. (o : Option (List ℕ)) × (symbol kind text.now ≡ word t o)) }
    ensures err { IfErr result (λ h. h ≡ Halt.Unexpected → (t : Term) (o : Option (List ℕ))
        → symbol kind text.now ≡ word t o → ⊥) }
    ensures closed { IfErr result (λ h. h ≡ Halt.Unclosed → ⊥) }
{
    match kind {
        Kind::Licence => licence(alloc, text),
        Kind::LicenceOrLater => licence_or_later(alloc, text),
        Kind::Reference => reference(alloc, text),
        _ => Err(Halt::Unexpected),
    }
}

// The exception that a token after `WITH` is.
pub(crate) fn exception_of(alloc: Global, kind: Kind, text: &str) -> Result<Key, Halt>
    requires { IsWordOf kind text.now }
    ensures ok { IfOk result (λ x. (u : Term) × (symbol kind text.now ≡ word u (Some x))) }
    ensures well_formed { IfOk result (λ x. IsTrue (is_folded_id x)) }
    ensures err { IfErr result (λ h. h ≡ Halt.Unexpected → (u : Term) (x : List ℕ)
        → symbol kind text.now ≡ word u (Some x) → ⊥) }
    ensures closed { IfErr result (λ h. h ≡ Halt.Unclosed → ⊥) }
{
    match kind {
        Kind::Licence => folded_key(alloc, text),
        _ => Err(Halt::Unexpected),
    }
}

// The term with an exception.
pub(crate) fn with_exception(leaf: Leaf, exception: Key) -> Leaf
    requires { IsTrue (is_folded_id exception) }
    ensures { result ≡ with_exception leaf exception }
{
    let Term {
        key,
        plus,
        exception: _,
    } = leaf.into_term();
    Leaf::new(Term {
        key,
        plus,
        exception: Some(exception),
    })
}
