//! The conclusion in force for a package.

ghost use Rattle.std.specs.Prelude.{◌≡◌, IfOk, IfErr};
ghost use Rattle.desk_model.specs.Readings.{Readings};
ghost use Rattle.desk_model.specs.Faults.{MayFail};
ghost use Rattle.desk_model.specs.Conclusions.{profile_in};
ghost use Rattle.desk_history.specs.FromTables.{conclusion_found};
ghost use Rattle.desk_access.specs.Seen.{Looked, OfRows};
ghost use Rattle.desk_packages.specs.Claims.{read_claim, InForceOf};

use desk_access::store::Store;
use desk_access::texts::Texts;
use desk_model::{Conclusion, Fault, PackageRow, Profile};
use std::alloc::{AllocError, Global};

/// What may be the conclusion in force for a package.
#[derive(Drop)]
pub enum Claim {
    /// The office's, which was read when it was recorded.
    Office(Conclusion),
    /// The package's own field, which is a conclusion if it is an expression.
    Field(Conclusion),
    /// There is neither.
    Nothing,
}

/// The conclusion in force for a package, its text read once.
#[derive(Drop)]
pub enum InForce<E> {
    /// It is this expression.
    Expression(E),
    /// The office's, whose text isn't an expression: no terms are enough for it.
    NoExpression,
    /// There is none.
    Nothing,
}

/// The profile of a package's document.
fn profile_of<S: Store>(store: &mut S, row: &PackageRow) -> Result<Profile, Fault>
    ensures found { IfOk result (λ profile.
        OfRows (λ t. profile ≡ profile_in t.document row.now) (S.seen store.old)
        (S.seen store.new)) }
    ensures kept { Looked (S.seen store.old) (S.seen store.new) result }
    ensures fault { IfErr result (MayFail S.tells) }
{
    match store.document(u64::from(row.document))? {
        Some((_, profile)) => Ok(profile),
        None => Ok(Profile::Capitals),
    }
}

/// What may be the conclusion in force for a package, without reading its text.
pub fn claim_of<S: Store>(store: &mut S, row: &PackageRow) -> Result<Claim, Fault>
    ensures found { (w : Readings) → IfOk result (λ claim.
        OfRows (λ t. read_claim w claim ≡ conclusion_found w t row.now)
        (S.seen store.old) (S.seen store.new)) }
    ensures kept { Looked (S.seen store.old) (S.seen store.new) result }
    ensures fault { IfErr result (MayFail S.tells) }
{
    if let Some(text) = store.conclusion(row.document, row.id.as_str())? {
        return Ok(Claim::Office(Conclusion {
            profile: Profile::Capitals,
            text,
        }));
    }
    let profile = profile_of(store, row)?;
    match &row.concluded {
        Some(text) => Ok(Claim::Field(Conclusion {
            profile,
            text: text.clone()?,
        })),
        None => Ok(Claim::Nothing),
    }
}

/// The conclusion in force, read from a candidate for it.
pub fn read_claim<T: Texts>(
    alloc: Global,
    texts: &T,
    claim: &Claim,
) -> Result<InForce<T::Expression>, AllocError>
    ensures { (w : Readings) → T.are_right w
        → IfOk result (InForceOf T.is_of w (read_claim w claim.now)) }
{
    match claim {
        Claim::Office(conclusion) => {
            match texts.expression(alloc, conclusion.profile, conclusion.text.as_str())? {
                Some(expression) => Ok(InForce::Expression(expression)),
                None => Ok(InForce::NoExpression),
            }
        }
        Claim::Field(conclusion) => {
            match texts.expression(alloc, conclusion.profile, conclusion.text.as_str())? {
                Some(expression) => Ok(InForce::Expression(expression)),
                None => Ok(InForce::Nothing),
            }
        }
        Claim::Nothing => Ok(InForce::Nothing),
    }
}

/// The conclusion in force for a package, with its text read.
pub fn in_force<T: Texts, S: Store>(
    alloc: Global,
    texts: &T,
    store: &mut S,
    row: &PackageRow,
) -> Result<InForce<T::Expression>, Fault>
    ensures found { (w : Readings) → T.are_right w → IfOk result (λ read.
        OfRows (λ t. InForceOf T.is_of w (conclusion_found w t row.now) read)
        (S.seen store.old) (S.seen store.new)) }
    ensures kept { Looked (S.seen store.old) (S.seen store.new) result }
    ensures fault { IfErr result (MayFail S.tells) }
{
    let claim = claim_of(store, row)?;
    Ok(read_claim(alloc, texts, &claim)?)
}

/// The conclusion in force for a package: the office's or, if there is none, its own field if that
/// is an expression.
pub fn conclusion_of<T: Texts, S: Store>(
    alloc: Global,
    texts: &T,
    store: &mut S,
    row: &PackageRow,
) -> Result<Option<Conclusion>, Fault>
    ensures found { (w : Readings) → T.are_right w → IfOk result (λ found.
        OfRows (λ t. found ≡ conclusion_found w t row.now) (S.seen store.old) (S.seen store.new)) }
    ensures kept { Looked (S.seen store.old) (S.seen store.new) result }
    ensures fault { IfErr result (MayFail S.tells) }
{
    match claim_of(store, row)? {
        Claim::Office(conclusion) => Ok(Some(conclusion)),
        Claim::Field(conclusion) => {
            match texts.expression(alloc, conclusion.profile, conclusion.text.as_str())? {
                Some(_) => Ok(Some(conclusion)),
                None => Ok(None),
            }
        }
        Claim::Nothing => Ok(None),
    }
}
