//! Each reference without an adoption is listed once.

ghost use Rattle.std.specs.Prelude.{◌≡◌, ◌++◌, ◌∷◌, [], IfOk, IfErr, OnOk, if◌then◌else◌};
ghost use Rattle.std.specs.List.{list_any};
ghost use Rattle.desk_model.specs.declared.command.Fault.TheVariants.{Memory};
ghost use Rattle.desk_model.specs.Obstacles.{is_told, names_reference, told_once};

use desk_base::Text;
use desk_model::{Fault, Refusal};
use std::alloc::{AllocError, Global};

/// Whether a refusal names a reference of a document as one without an adoption.
fn names_reference(document: u32, reference: &Text, refusal: &Refusal) -> bool
    ensures { result ≡ names_reference document reference.now refusal.now }
{
    match refusal {
        Refusal::NotAdopted {
            document: other,
            reference: told,
        } => *other == document && told.as_str() == reference.as_str(),
        _ => false,
    }
}

/// Whether one of some refusals names a reference of a document.
fn tell_reference(told: &[Refusal], document: u32, reference: &Text) -> bool
    ensures { result ≡ list_any (names_reference document reference.now) told.now }
{
    told.iter()
        .any(|refusal| names_reference(document, reference, refusal))
}

/// Whether a refusal is for a reference without an adoption that others already name.
fn is_told(told: &[Refusal], refusal: &Refusal) -> bool
    ensures { result ≡ is_told told.now refusal.now }
{
    match refusal {
        Refusal::NotAdopted {
            document,
            reference,
        } => tell_reference(told, *document, reference),
        _ => false,
    }
}

/// Adds a refusal, unless it is for a reference without an adoption that those before it already
/// name.
fn add_once(told: &mut Vec<Refusal>, refusal: Refusal) -> Result<(), AllocError>
    ensures { OnOk result (told.new.items
        ≡ told.old.items ++ (if is_told told.old.items refusal then [] else refusal ∷ [])) }
{
    if is_told(told.as_slice(), &refusal) {
        drop(refusal);
        return Ok(());
    }
    told.push(refusal)?;
    Ok(())
}

/// The refusals, with each reference without an adoption only where it is named first.
pub(crate) fn told_once(alloc: Global, refusals: Vec<Refusal>) -> Result<Vec<Refusal>, Fault>
    ensures found { IfOk result (λ told. told.items ≡ told_once [] refusals.items) }
    ensures fault { IfErr result (λ fault. fault ≡ Memory) }
{
    let mut told = Vec::new(alloc);
    for refusal in refusals {
        add_once(&mut told, refusal)?;
    }
    Ok(told)
}
