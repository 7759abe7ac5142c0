//! Freezes releases, and raises their duties.

ghost use Rattle.std.specs.Prelude.{◌≡◌, ◌≤◌, ◌<◌, ◌+◌, ◌^◌, IfOk, IfErr, map, length};
ghost use Rattle.std.specs.List.{enumerate_from};
ghost use Rattle.desk_model.specs.Readings.{Readings};
ghost use Rattle.desk_model.specs.Faults.{MayFail};
ghost use Rattle.desk_model.specs.Answers.{refused_alone};
ghost use Rattle.desk_history.specs.FromTables.{new_duty, raised_row, froze_rows, froze_as, freeze_change_found};
ghost use Rattle.desk_access.specs.Seen.{Looked, OfRows};
ghost use Rattle.desk_access.specs.Plans.{IsPlan, IsPlanOf, Plans, SparesStore};
ghost use Rattle.desk_duties.specs.Freezing.{freeze_fits, freeze_open_found};
ghost use Rattle.desk_model.specs.declared.command.Command.TheVariants.{Freeze};

use crate::duty::read_day;
use crate::gathering::{Freezing, Gathered, freeze_packages};
use desk_access::store::Store;
use desk_access::texts::Texts;
use desk_base::{Day, Items, Text, limits};
use desk_model::{
    Answer, Change, ChangeRow, DutyRow, DutyState, Fault, Limit, Owed, Plan, Refusal, Word,
};
use desk_packages::{refuse, shipped_packages, unready};
use std::alloc::{AllocError, Global};

/// The rows of new duties.
fn duty_rows(alloc: Global, first: u32, owed: Vec<Owed>) -> Result<Vec<DutyRow>, AllocError>
    requires { first + length owed.items < 2 ^ 32 }
    ensures { IfOk result (λ rows. rows.items ≡ map new_duty (enumerate_from first owed.items)) }
{
    let mut rows = Vec::new(alloc);
    let mut number = first;
    for owed in owed {
        rows.push(DutyRow {
            number,
            release: owed.release,
            document: owed.document,
            package_id: owed.package_id,
            term: owed.term,
            code: owed.code,
            rule: owed.rule,
            state: DutyState::IsOpen,
        })?;
        number += 1;
    }
    Ok(rows)
}

/// The first changes of new duties.
fn raised_rows(alloc: Global, day: Day, duties: &[DutyRow]) -> Result<Vec<ChangeRow>, AllocError>
    ensures { IfOk result (λ rows. rows.items ≡ map (raised_row day) duties.now) }
{
    let mut rows = Vec::new(alloc);
    for duty in duties {
        rows.push(ChangeRow {
            duty: duty.number,
            step: 1,
            day,
            word: Word::Raised,
            body: Text::of(alloc, "")?,
            last_day: None,
        })?;
    }
    Ok(rows)
}

/// The rows of a freeze.
fn froze(
    alloc: Global,
    release: &Text,
    revision: u64,
    day: Day,
    first: u32,
    gathered: Gathered,
) -> Result<Change, AllocError>
    requires { first + length gathered.owed.items < 2 ^ 32 }
    ensures { IfOk result (λ change. change
        ≡ froze_rows release.now revision day gathered.frozen.items
        (map new_duty (enumerate_from first gathered.owed.items))) }
{
    let duties = duty_rows(alloc, first, gathered.owed)?;
    let changes = raised_rows(alloc, day, duties.as_slice())?;
    Ok(Change::Froze {
        release: release.clone()?,
        revision,
        frozen: Items::from_vec(gathered.frozen),
        duties: Items::from_vec(duties),
        changes: Items::from_vec(changes),
    })
}

/// Freezes a release with what was gathered, if there is room for its duties.
fn freeze_gathered<S: Store>(
    alloc: Global,
    store: &mut S,
    release: &Text,
    day: Day,
    gathered: Gathered,
) -> Result<Plan, Fault>
    ensures plan { IfOk result (λ plan.
        OfRows (λ t. IsPlan (freeze_fits (length t.duty) (length gathered.owed.items))
        (froze_as t release.now day gathered.frozen.items gathered.owed.items) plan)
        (S.seen store.old) (S.seen store.new)) }
    ensures kept { Plans (S.seen store.old) (S.seen store.new) result }
    ensures fault { IfErr result (MayFail S.tells) }
{
    let old = store.duty_count()?;
    let new = gathered.owed.len() as u64;
    if old > limits::DUTIES || new > limits::DUTIES - old {
        return Ok(refuse(Refusal::Full(Limit::Duties)));
    }
    let first = old as u32 + 1;
    let revision = store.revision_count()?;
    let change = froze(alloc, release, revision, day, first, gathered)?;
    Ok(Plan::Make {
        answer: Answer::Frozen {
            first,
            count: new as u32,
        },
        change,
    })
}

/// Freezes an open release that ships in this form.
fn freeze_open<T: Texts, S: Store>(
    alloc: Global,
    texts: &T,
    store: &mut S,
    release: &Text,
    form: &Text,
    day: Day,
) -> Result<Plan, Fault>
    ensures plan { (w : Readings) → T.are_right w → IfOk result (λ plan.
        OfRows (λ t. IsPlan (freeze_open_found w t release.now form.now)
        (freeze_change_found w t release.now form.now day) plan)
        (S.seen store.old) (S.seen store.new)) }
    ensures kept { Plans (S.seen store.old) (S.seen store.new) result }
    ensures fault { IfErr result (MayFail S.tells) }
{
    let attached = store.attached(release.as_str())?;
    if attached.is_empty() {
        return Ok(refuse(Refusal::EmptyRelease));
    }
    let packages = shipped_packages(alloc, store, attached.as_slice())?;
    let mut gathered = Gathered {
        frozen: Vec::new(alloc),
        owed: Vec::new(alloc),
    };
    let freezing = Freezing { release, form };
    if let Some(refusal) = freeze_packages(
        alloc,
        texts,
        store,
        &freezing,
        packages.as_slice(),
        &mut gathered,
    )? {
        return Ok(refuse(refusal));
    }
    freeze_gathered(alloc, store, release, day, gathered)
}

/// Freezes a release.
pub fn freeze<T: Texts, S: Store>(
    alloc: Global,
    texts: &T,
    store: &mut S,
    release: &Text,
    day: &Text,
) -> Result<Plan, Fault>
    ensures plan { (w : Readings) → T.are_right w → IfOk result (λ plan.
        OfRows (IsPlanOf w (Freeze release.now day.now) plan) (S.seen store.old)
        (S.seen store.new)) }
    ensures kept { Plans (S.seen store.old) (S.seen store.new) result }
    ensures alone { (w : Readings) → T.are_right w
        → SparesStore (refused_alone w (Freeze release.now day.now)) result }
    ensures fault { IfErr result (MayFail S.tells) }
{
    let Some(day) = read_day(day) else {
        return Ok(refuse(Refusal::BadDay));
    };
    let Some(row) = store.release(release.as_str())? else {
        return Ok(refuse(Refusal::UnknownRelease));
    };
    if let Some(refusal) = unready(row.state) {
        return Ok(refuse(refusal));
    }
    freeze_open(alloc, texts, store, release, &row.form, day)
}
