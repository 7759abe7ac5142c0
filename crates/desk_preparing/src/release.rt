//! Opens releases, and attaches documents to them.

ghost use Rattle.std.specs.Prelude.{◌≡◌, ◌≤◌, ◌<◌, ◌+◌, ◌^◌, ◌↔◌, IsTrue, IfOk, IfErr, map, length, Ok, Some, false};
ghost use Rattle.std.specs.List.{list_any, list_all};
ghost use Rattle.desk_model.specs.Readings.{Readings};
ghost use Rattle.desk_model.specs.Faults.{MayFail};
ghost use Rattle.desk_model.specs.Texts.{is_release_name};
ghost use Rattle.desk_model.specs.Answers.{refused_alone};
ghost use Rattle.desk_history.specs.FromTables.{opened_change};
ghost use Rattle.desk_access.specs.Seen.{OfRows};
ghost use Rattle.desk_access.specs.Plans.{IsPlan, IsPlanOf, Plans, SparesStore};
ghost use Rattle.desk_preparing.specs.Opening.{attach_in, attached_row, open_next};
ghost use Rattle.desk_model.specs.declared.command.Command.TheVariants.{OpenRelease, Attach};

use crate::looking::{number_of, state_of};
use desk_access::store::Store;
use desk_base::{Text, is_idstring, limits};
use desk_model::{AttachedRow, Change, Fault, Limit, Plan, Refusal, ReleaseRow, ReleaseState};
use desk_packages::{make, refuse, unready};

/// Whether the text is a name for a release: an idstring of at most 64 bytes.
pub fn is_release_name(text: &str) -> bool
    ensures { result ≡ is_release_name text.now }
{
    text.len() <= limits::NAME_BYTES && is_idstring(text)
}

/// Opens a release whose name is free, in a form of the catalogue, if there is room.
fn open_next<S: Store>(store: &mut S, release: &Text, form: &Text) -> Result<Plan, Fault>
    ensures plan { IfOk result (λ plan.
        OfRows (λ t. IsPlan (open_next (length t.releases))
        (opened_change t release.now form.now) plan) (S.seen store.old) (S.seen store.new)) }
    ensures kept { Plans (S.seen store.old) (S.seen store.new) result }
    ensures fault { IfErr result (MayFail S.tells) }
{
    let count = store.release_count()?;
    if count >= limits::RELEASES {
        return Ok(refuse(Refusal::Full(Limit::Releases)));
    }
    Ok(make(Change::Opened(ReleaseRow {
        name: release.clone()?,
        place: count as u32 + 1,
        form: form.clone()?,
        state: ReleaseState::IsOpen,
        revision: 0,
    })))
}

/// Opens a release.
pub fn open_release<S: Store>(store: &mut S, release: &Text, form: &Text) -> Result<Plan, Fault>
    ensures plan { (w : Readings) → IfOk result (λ plan.
        OfRows (IsPlanOf w (OpenRelease release.now form.now) plan)
        (S.seen store.old) (S.seen store.new)) }
    ensures kept { Plans (S.seen store.old) (S.seen store.new) result }
    ensures alone { (w : Readings)
        → SparesStore (refused_alone w (OpenRelease release.now form.now)) result }
    ensures fault { IfErr result (MayFail S.tells) }
{
    if !is_release_name(release.as_str()) {
        return Ok(refuse(Refusal::BadName));
    }
    if !store.has_form(form.as_str())? {
        return Ok(refuse(Refusal::UnknownForm));
    }
    if store.release(release.as_str())?.is_some() {
        return Ok(refuse(Refusal::NameTaken));
    }
    open_next(store, release, form)
}

/// Attaches a document that was found to a release in this state.
fn attach_in<S: Store>(
    store: &mut S,
    state: ReleaseState,
    release: &Text,
    document: u32,
) -> Result<Plan, Fault>
    ensures plan { IfOk result (λ plan.
        OfRows (λ t. IsPlan (attach_in t state release.now document)
        (Change.Attached (attached_row release.now document)) plan) (S.seen store.old)
        (S.seen store.new)) }
    ensures kept { Plans (S.seen store.old) (S.seen store.new) result }
    ensures fault { IfErr result (MayFail S.tells) }
{
    if let Some(refusal) = unready(state) {
        return Ok(refuse(refusal));
    }
    if store.is_attached(release.as_str(), u64::from(document))? {
        return Ok(refuse(Refusal::AlreadyAttached));
    }
    if store.attached_count(release.as_str())? >= limits::ATTACHED {
        return Ok(refuse(Refusal::Full(Limit::Attached)));
    }
    Ok(make(Change::Attached(AttachedRow {
        release: release.clone()?,
        document,
    })))
}

/// Attaches a document to a release.
pub fn attach<S: Store>(store: &mut S, release: &Text, document: u64) -> Result<Plan, Fault>
    ensures plan { (w : Readings) → IfOk result (λ plan.
        OfRows (IsPlanOf w (Attach release.now document) plan) (S.seen store.old)
        (S.seen store.new)) }
    ensures kept { Plans (S.seen store.old) (S.seen store.new) result }
    ensures alone { (w : Readings)
        → SparesStore (refused_alone w (Attach release.now document)) result }
    ensures fault { IfErr result (MayFail S.tells) }
{
    let Some(state) = state_of(store, release)? else {
        return Ok(refuse(Refusal::UnknownRelease));
    };
    let Some(number) = number_of(store, document)? else {
        return Ok(refuse(Refusal::UnknownDocument));
    };
    attach_in(store, state, release, number)
}
