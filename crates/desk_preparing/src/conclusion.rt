//! Concludes licences of packages, and adopts references as licences.

ghost use Rattle.std.specs.Prelude.{◌≡◌, ◌&&◌, IfOk, IfErr, is_some};
ghost use Rattle.desk_model.specs.Readings.{Readings};
ghost use Rattle.desk_model.specs.Faults.{MayFail};
ghost use Rattle.desk_model.specs.Conclusions.{conclusion_row};
ghost use Rattle.desk_model.specs.Answers.{refused_alone};
ghost use Rattle.desk_access.specs.Seen.{Looked, OfRows};
ghost use Rattle.desk_access.specs.Plans.{IsPlan, IsPlanOf, IsSound, Plans, SparesStore};
ghost use Rattle.desk_preparing.specs.Concluding.{AreAdopted, adopt_known, adopted_row, conclude_in, conclude_known, licence_alone, reference_alone};
ghost use Rattle.desk_model.specs.declared.command.Answer.TheVariants.{Done};
ghost use Rattle.desk_model.specs.declared.command.Command.TheVariants.{Adopt, Conclude};

use crate::looking::{has_package, number_of};
use desk_access::store::Store;
use desk_access::texts::Texts;
use desk_base::{Text, limits};
use desk_model::{AdoptionRow, Change, ConclusionRow, Fault, Limit, Plan, Profile, Refusal};
use desk_packages::{make, refuse};
use std::alloc::{AllocError, Global};

fn conclusion_plan(document: u32, package_id: &Text, expression: &Text) -> Result<Plan, AllocError>
    ensures { IfOk result (λ plan. plan
        ≡ Plan.Make Done (Change.Concluded
        (conclusion_row document package_id.now expression.now))) }
{
    Ok(make(Change::Concluded(ConclusionRow {
        document,
        package_id: package_id.clone()?,
        expression: expression.clone()?,
    })))
}

/// Concludes an expression for a package of a document that was found, if no release holds a
/// choice for it.
fn conclude_in<S: Store>(
    store: &mut S,
    document: u32,
    package_id: &Text,
    expression: &Text,
) -> Result<Plan, Fault>
    ensures plan { IfOk result (λ plan.
        OfRows (λ t. IsPlan (conclude_in t document package_id.now)
        (Change.Concluded (conclusion_row document package_id.now expression.now)) plan)
        (S.seen store.old) (S.seen store.new)) }
    ensures kept { Plans (S.seen store.old) (S.seen store.new) result }
    ensures fault { IfErr result (MayFail S.tells) }
{
    if !has_package(store, document, package_id)? {
        return Ok(refuse(Refusal::UnknownPackage));
    }
    if let Some(release) = store.holder(document, package_id.as_str())? {
        return Ok(refuse(Refusal::Chosen { release }));
    }
    Ok(conclusion_plan(document, package_id, expression)?)
}

/// Concludes an expression for a package, if no release holds a choice for it.
fn conclude_for<S: Store>(
    store: &mut S,
    document: u64,
    package_id: &Text,
    expression: &Text,
) -> Result<Plan, Fault>
    ensures plan { IfOk result (λ plan.
        OfRows (λ t. IsPlan (conclude_known t document package_id.now)
        (Change.Concluded (conclusion_row document package_id.now expression.now)) plan)
        (S.seen store.old) (S.seen store.new)) }
    ensures kept { Plans (S.seen store.old) (S.seen store.new) result }
    ensures fault { IfErr result (MayFail S.tells) }
{
    let Some(number) = number_of(store, document)? else {
        return Ok(refuse(Refusal::UnknownDocument));
    };
    conclude_in(store, number, package_id, expression)
}

/// Concludes an expression for a package, in place of an earlier one.
pub fn conclude<T: Texts, S: Store>(
    alloc: Global,
    texts: &T,
    store: &mut S,
    document: u64,
    package_id: &Text,
    expression: &Text,
) -> Result<Plan, Fault>
    ensures plan { (w : Readings) → T.are_right w → IfOk result (λ plan.
        OfRows (IsPlanOf w (Conclude document package_id.now expression.now) plan)
        (S.seen store.old) (S.seen store.new)) }
    ensures kept { Plans (S.seen store.old) (S.seen store.new) result }
    ensures alone { (w : Readings) → T.are_right w
        → SparesStore (refused_alone w (Conclude document package_id.now expression.now)) result }
    ensures fault { IfErr result (MayFail S.tells) }
{
    if let Some(fault) = texts.expression_fault(alloc, Profile::Capitals, expression.as_str())? {
        return Ok(refuse(Refusal::BadExpression(fault)));
    }
    conclude_for(store, document, package_id, expression)
}

/// A reference and the licence that it is adopted as, or which of the two isn't one.
#[derive(Drop)]
enum AdoptionRead {
    Pair { reference: Text, licence: Text },
    BadTerm(usize),
}

/// The plain reference that a text spells.
fn read_reference<T: Texts>(
    alloc: Global,
    texts: &T,
    text: &Text,
) -> Result<Option<Text>, AllocError>
    ensures { (w : Readings) → T.are_right w
        → IfOk result (λ found. found ≡ reference_alone w text.now) }
{
    let Some(term) = texts.term(alloc, text.as_str())? else {
        return Ok(None);
    };
    match texts.reference(alloc, term.as_str())? {
        Some(reference) if reference.as_str() == term.as_str() => Ok(Some(term)),
        _ => Ok(None),
    }
}

/// The plain licence that a text spells.
fn read_licence<T: Texts>(alloc: Global, texts: &T, text: &Text) -> Result<Option<Text>, AllocError>
    ensures { (w : Readings) → T.are_right w
        → IfOk result (λ found. found ≡ licence_alone w text.now) }
{
    match texts.term(alloc, text.as_str())? {
        Some(term) if texts.is_licence(term.as_str()) => Ok(Some(term)),
        _ => Ok(None),
    }
}

fn read_adoption<T: Texts>(
    alloc: Global,
    texts: &T,
    reference: &Text,
    licence: &Text,
) -> Result<AdoptionRead, AllocError>
    ensures { (w : Readings) → T.are_right w
        → IfOk result (AreAdopted w reference.now licence.now) }
{
    let Some(reference) = read_reference(alloc, texts, reference)? else {
        return Ok(AdoptionRead::BadTerm(0));
    };
    let Some(licence) = read_licence(alloc, texts, licence)? else {
        return Ok(AdoptionRead::BadTerm(1));
    };
    Ok(AdoptionRead::Pair { reference, licence })
}

/// Adopts a reference as a licence, both read, if there is room.
fn adopt_read<S: Store>(
    store: &mut S,
    document: u64,
    reference: Text,
    licence: Text,
) -> Result<Plan, Fault>
    ensures plan { IfOk result (λ plan.
        OfRows (λ t. IsPlan (adopt_known t document reference)
        (Change.Adopted (adopted_row document reference licence)) plan)
        (S.seen store.old) (S.seen store.new)) }
    ensures kept { Plans (S.seen store.old) (S.seen store.new) result }
    ensures fault { IfErr result (MayFail S.tells) }
{
    let Some(number) = number_of(store, document)? else {
        return Ok(refuse(Refusal::UnknownDocument));
    };
    if store.adoption(number, reference.as_str())?.is_none()
        && store.adoption_count(number)? >= limits::ADOPTIONS
    {
        return Ok(refuse(Refusal::Full(Limit::Adoptions)));
    }
    Ok(make(Change::Adopted(AdoptionRow {
        document: number,
        reference,
        licence,
    })))
}

/// Adopts a reference of a document as a licence, in place of an earlier one.
pub fn adopt<T: Texts, S: Store>(
    alloc: Global,
    texts: &T,
    store: &mut S,
    document: u64,
    reference: &Text,
    licence: &Text,
) -> Result<Plan, Fault>
    ensures plan { (w : Readings) → T.are_right w → IfOk result (λ plan.
        OfRows (IsPlanOf w (Adopt document reference.now licence.now) plan)
        (S.seen store.old) (S.seen store.new)) }
    ensures kept { Plans (S.seen store.old) (S.seen store.new) result }
    ensures alone { (w : Readings) → T.are_right w
        → SparesStore (refused_alone w (Adopt document reference.now licence.now)) result }
    ensures fault { IfErr result (MayFail S.tells) }
{
    match read_adoption(alloc, texts, reference, licence)? {
        AdoptionRead::BadTerm(i) => Ok(refuse(Refusal::BadTerm(i))),
        AdoptionRead::Pair { reference, licence } => {
            adopt_read(store, document, reference, licence)
        }
    }
}
