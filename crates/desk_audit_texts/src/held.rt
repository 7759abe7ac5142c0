//! Checks that choices are ones that can be held.

ghost use Rattle.std.specs.Prelude.{◌≡◌, ℕ, List, ◌&&◌, IfOk, IfSome, not, true, false, find};
ghost use Rattle.std.specs.List.{list_all, list_any};
ghost use Rattle.std.specs.Option.{option_map_or};
ghost use Rattle.desk_base.specs.declared.profile.Profile.{Profile};
ghost use Rattle.desk_model.specs.Readings.{Readings};
ghost use Rattle.desk_snapshot.specs.Conditions.{are_minimal, is_choice, is_minimal, is_printed, is_withdrawn, ships_under, terms_at};
ghost use Rattle.desk_snapshot.specs.Rows.{is_attachment, is_choice_of, is_release};

use crate::in_force::in_force;
use crate::printed::is_printed;
use desk_access::texts::Texts;
use desk_base::TextList;
use desk_model::{ReleaseState, Verdict};
use desk_snapshot::{
    ByAttachment, ByChoice, ById, ByName, Snapshot, StoredChoice, StoredPackage, StoredRelease,
};
use std::alloc::{AllocError, Global};

/// Whether each text is a term as it is printed.
fn are_printed<T: Texts>(alloc: Global, texts: &T, terms: &TextList) -> Result<bool, AllocError>
    ensures { (w : Readings) → T.are_right w → IfOk result (λ are.
        are ≡ list_all (is_printed w) terms.now) }
{
    for i in 0..terms.len() {
        if !is_printed(alloc, texts, terms.at(i))? {
            return Ok(false);
        }
    }
    Ok(true)
}

/// Whether terms are a minimal set.
fn is_minimal(verdict: Verdict) -> bool
    ensures { result ≡ is_minimal verdict }
{
    match verdict {
        Verdict::Minimal => true,
        _ => false,
    }
}

/// Whether terms are printed ones and a minimal set for an expression.
fn are_minimal<T: Texts>(
    alloc: Global,
    texts: &T,
    expression: &T::Expression,
    terms: &TextList,
) -> Result<bool, AllocError>
    ensures { (w : Readings) → T.are_right w → (profile : Profile) (text : List ℕ)
        → T.is_of profile text expression.now
        → IfOk result (λ are. are
        ≡ are_minimal w terms.now (record { profile = profile; text = text })) }
{
    if !are_printed(alloc, texts, terms)? {
        return Ok(false);
    }
    Ok(is_minimal(texts.verdict(alloc, expression, terms)?))
}

/// Whether a package ships, and terms are a minimal set for its conclusion.
fn ships_under<T: Texts>(
    alloc: Global,
    texts: &T,
    snapshot: &Snapshot,
    terms: &TextList,
    row: &StoredPackage,
) -> Result<bool, AllocError>
    ensures { (w : Readings) → T.are_right w → IfOk result (λ ships.
        ships ≡ ships_under w snapshot.now terms.now row.now) }
{
    if row.shipped != 1 {
        return Ok(false);
    }
    match in_force(alloc, texts, snapshot, row)? {
        Some(expression) => are_minimal(alloc, texts, &expression, terms),
        None => Ok(false),
    }
}

/// Whether a choice is for the same package in the same release as another.
fn is_alike(row: &StoredChoice, other: &StoredChoice) -> bool
    ensures { result ≡ is_choice_of row.now.release row.now.document row.now.package_id other.now }
{
    other.release.as_str() == row.release.as_str()
        && (other.document == row.document && other.package_id.as_str() == row.package_id.as_str())
}

/// The terms that a release holds for a package.
fn terms_at(alloc: Global, snapshot: &Snapshot, row: &StoredChoice) -> Result<TextList, AllocError>
    ensures { IfOk result (λ terms. terms ≡ terms_at snapshot.now row.now) }
{
    let key = ByChoice {
        release: row.release.as_str(),
        document: row.document,
        package_id: row.package_id.as_str(),
    };
    let mut terms = TextList::new(alloc);
    for other in snapshot.choice.among(&key) {
        if is_alike(row, other) {
            terms.push(other.term.as_str())?;
        }
    }
    Ok(terms)
}

/// Whether a release is withdrawn.
fn is_withdrawn(release: &StoredRelease) -> bool
    ensures { result ≡ is_withdrawn release.now }
{
    release.state.as_str() == ReleaseState::Withdrawn.name()
}

/// Whether there is a release with a name that isn't withdrawn.
fn may_hold(snapshot: &Snapshot, name: &str) -> bool
    ensures { result ≡ option_map_or (λ release. not (is_withdrawn release))
        (find (is_release name.now) snapshot.now.releases) false }
{
    match snapshot.releases.find(&ByName { name }) {
        Some(release) => !is_withdrawn(release),
        None => false,
    }
}

/// Whether a document is attached to a release.
fn is_attached(snapshot: &Snapshot, release: &str, document: i64) -> bool
    ensures { result ≡ list_any (is_attachment release.now document) snapshot.now.attached }
{
    snapshot
        .attached
        .find(&ByAttachment { release, document })
        .is_some()
}

/// Whether a choice is one that can be held.
fn is_choice<T: Texts>(
    alloc: Global,
    texts: &T,
    snapshot: &Snapshot,
    row: &StoredChoice,
) -> Result<bool, AllocError>
    ensures { (w : Readings) → T.are_right w
        → IfOk result (λ is. is ≡ is_choice w snapshot.now row.now) }
{
    let release = row.release.as_str();
    if !(may_hold(snapshot, release) && is_attached(snapshot, release, row.document)) {
        return Ok(false);
    }
    let key = ById {
        document: row.document,
        id: row.package_id.as_str(),
    };
    let Some(package_row) = snapshot.packages.find(&key) else {
        return Ok(false);
    };
    let terms = terms_at(alloc, snapshot, row)?;
    ships_under(alloc, texts, snapshot, &terms, package_row)
}

/// Whether a choice is one that can be held, if the one before it, if there is one, is one: then so
/// is another for the same package.
fn is_choice_after<T: Texts>(
    alloc: Global,
    texts: &T,
    snapshot: &Snapshot,
    told: Option<&StoredChoice>,
    row: &StoredChoice,
) -> Result<bool, AllocError>
    ensures { (w : Readings) → T.are_right w
        → IfSome told.entry (λ before. is_choice w snapshot.now before.now ≡ true)
        → IfOk result (λ is. is ≡ is_choice w snapshot.now row.now) }
{
    match told {
        Some(before) if is_alike(before, row) => Ok(true),
        _ => is_choice(alloc, texts, snapshot, row),
    }
}

/// Whether each choice is one that can be held. Those for one package are side by side, so each
/// package is judged only once.
pub(crate) fn are_choices<T: Texts>(
    alloc: Global,
    texts: &T,
    snapshot: &Snapshot,
) -> Result<bool, AllocError>
    ensures { (w : Readings) → T.are_right w → IfOk result (λ are.
        are ≡ list_all (is_choice w snapshot.now) snapshot.now.choice) }
{
    let mut told: Option<&StoredChoice> = None;
    for row in snapshot.choice.as_slice() {
        if !is_choice_after(alloc, texts, snapshot, told, row)? {
            return Ok(false);
        }
        told = Some(row);
    }
    Ok(true)
}
