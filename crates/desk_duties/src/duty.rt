//! Meets, waives and reopens duties.

ghost use Rattle.std.specs.Prelude.{◌≡◌, ◌≤◌, ◌<◌, ◌+◌, ◌∷◌, [], IfOk, IfErr, MatchOption, Option, unwrap_or, true, false};
ghost use Rattle.desk_base.specs.Day.{is_day};
ghost use Rattle.desk_model.specs.Readings.{Readings};
ghost use Rattle.desk_model.specs.Faults.{MayFail};
ghost use Rattle.desk_model.specs.States.{goes_from};
ghost use Rattle.desk_model.specs.Texts.{is_before};
ghost use Rattle.desk_model.specs.Moves.{change_row, is_over};
ghost use Rattle.desk_model.specs.Answers.{gone, settled, refused_by, refused_alone};
ghost use Rattle.desk_history.specs.FromTables.{moved_change, moved_found, state_found};
ghost use Rattle.desk_access.specs.Seen.{Looked, OfRows};
ghost use Rattle.desk_access.specs.Plans.{IsPlan, IsPlanOf, Plans, SparesStore};
ghost use Rattle.desk_duties.specs.Moving.{AreDays, IsNextStep, IsRead, move_as, move_from, move_known};
ghost use Rattle.desk_model.specs.declared.command.Command.TheVariants.{Meet, Waive, Reopen};

use desk_access::store::Store;
use desk_base::{Day, Items, Text, limits};
use desk_model::{
    Change, ChangeRow, DutyRow, DutyState, Fault, Limit, Move, Plan, Refusal, ReleaseState, Word,
    is_note,
};
use desk_packages::{make, refuse};
use std::alloc::{AllocError, Global};

/// The day that a text is, if it is one.
pub(crate) fn read_day(text: &Text) -> Option<Day>
    ensures { MatchOption result
        (is_day text.now ≡ false) (λ day. (is_day text.now ≡ true) × (day ≡ text.now)) }
{
    Day::parse(text.as_str())
}

pub(crate) fn refusal_if_gone(state: ReleaseState) -> Option<Refusal>
    ensures { result ≡ gone state }
{
    match state {
        ReleaseState::Withdrawn => Some(Refusal::ReleaseState(ReleaseState::Withdrawn)),
        _ => None,
    }
}

fn goes_from(word: Word, state: DutyState) -> bool
    ensures { result ≡ goes_from word state }
{
    match word {
        Word::Met | Word::Waived => state == DutyState::IsOpen,
        Word::Reopened => state == DutyState::Met || state == DutyState::Waived,
        _ => false,
    }
}

fn refusal_if_settled(word: Word, state: DutyState) -> Option<Refusal>
    ensures { result ≡ settled word state }
{
    if goes_from(word, state) {
        return None;
    }
    Some(Refusal::DutyState(state))
}

/// Whether one day is before another.
fn is_before(day: Day, other: Day) -> bool
    ensures { result ≡ is_before day other }
{
    day.as_bytes().cmp(other.as_bytes()).is_lt()
}

/// A move that was read, or why there is none.
#[derive(Drop)]
enum Read {
    Move(Move),
    Refused(Refusal),
}

/// The day of a move, and the last day of a waiver that ends.
#[derive(Drop)]
struct Days {
    day: Day,
    last_day: Option<Day>,
}

fn read_days(day: &Text, until: &Option<Text>) -> Option<Days>
    ensures { AreDays day.now until.now result }
{
    let day = read_day(day)?;
    let Some(text) = until else {
        return Some(Days {
            day,
            last_day: None,
        });
    };
    let last = read_day(text)?;
    Some(Days {
        day,
        last_day: Some(last),
    })
}

fn is_over(day: Day, last_day: &Option<Day>) -> bool
    ensures { result ≡ is_over day last_day.now }
{
    match last_day {
        Some(last) => is_before(*last, day),
        None => false,
    }
}

/// Reads a move: its days, its text, and whether it ends before its day.
fn read_move(word: Word, day: &Text, text: &Text, until: &Option<Text>) -> Result<Read, AllocError>
    ensures { IfOk result (IsRead word day.now text.now until.now) }
{
    let Some(Days { day, last_day }) = read_days(day, until) else {
        return Ok(Read::Refused(Refusal::BadDay));
    };
    if !is_note(text.as_str()) {
        return Ok(Read::Refused(Refusal::BadText));
    }
    if is_over(day, &last_day) {
        return Ok(Read::Refused(Refusal::BadEnd));
    }
    let body = text.clone()?;
    Ok(Read::Move(Move {
        day,
        word,
        body,
        last_day,
    }))
}

/// The state of a release, or open if there is no such release.
fn release_state<S: Store>(store: &mut S, name: &Text) -> Result<ReleaseState, Fault>
    ensures found { IfOk result (λ state.
        OfRows (λ t. state ≡ unwrap_or (state_found t name.now) ReleaseState.IsOpen)
        (S.seen store.old) (S.seen store.new)) }
    ensures kept { Looked (S.seen store.old) (S.seen store.new) result }
    ensures fault { IfErr result (MayFail S.tells) }
{
    match store.release(name.as_str())? {
        Some(row) => Ok(row.state),
        None => Ok(ReleaseState::IsOpen),
    }
}

/// The change that consists of a duty's next move.
fn one_change(alloc: Global, duty: u32, step: u32, made: Move) -> Result<Change, AllocError>
    ensures { IfOk result (λ change. change ≡ Change.Moved (change_row duty step made ∷ [])) }
{
    let mut changes = Items::new(alloc);
    changes.push(ChangeRow {
        duty,
        step,
        day: made.day,
        word: made.word,
        body: made.body,
        last_day: made.last_day,
    })?;
    Ok(Change::Moved { changes })
}

/// The step of a duty's next move, or why it can't be moved.
fn next_step<S: Store>(
    store: &mut S,
    word: Word,
    row: &DutyRow,
) -> Result<Result<u32, Refusal>, Fault>
    ensures found { IfOk result (λ found.
        OfRows (λ t. IsNextStep t word row.now found) (S.seen store.old) (S.seen store.new)) }
    ensures kept { Looked (S.seen store.old) (S.seen store.new) result }
    ensures fault { IfErr result (MayFail S.tells) }
{
    if let Some(refusal) = refusal_if_gone(release_state(store, &row.release)?) {
        return Ok(Err(refusal));
    }
    if let Some(refusal) = refusal_if_settled(word, row.state) {
        return Ok(Err(refusal));
    }
    let steps = store.steps(u64::from(row.number))?;
    if steps >= limits::CHANGES {
        return Ok(Err(Refusal::Full(Limit::Changes)));
    }
    Ok(Ok(steps as u32 + 1))
}

/// Moves a duty that was found.
fn move_found<S: Store>(
    alloc: Global,
    store: &mut S,
    row: &DutyRow,
    made: Move,
) -> Result<Plan, Fault>
    ensures plan { IfOk result (λ plan.
        OfRows (λ t. IsPlan (move_from t made.word row.now) (moved_change t row.now.number made)
        plan)
        (S.seen store.old) (S.seen store.new)) }
    ensures kept { Plans (S.seen store.old) (S.seen store.new) result }
    ensures fault { IfErr result (MayFail S.tells) }
{
    match next_step(store, made.word, row)? {
        Ok(step) => Ok(make(one_change(alloc, row.number, step, made)?)),
        Err(refusal) => Ok(refuse(refusal)),
    }
}

/// Moves the duty with this number.
fn move_numbered<S: Store>(
    alloc: Global,
    store: &mut S,
    duty: u64,
    made: Move,
) -> Result<Plan, Fault>
    ensures plan { IfOk result (λ plan.
        OfRows (λ t. IsPlan (move_known t made.word duty) (moved_change t duty made) plan)
        (S.seen store.old) (S.seen store.new)) }
    ensures kept { Plans (S.seen store.old) (S.seen store.new) result }
    ensures fault { IfErr result (MayFail S.tells) }
{
    let Some(row) = store.duty(duty)? else {
        return Ok(refuse(Refusal::UnknownDuty));
    };
    move_found(alloc, store, &row, made)
}

/// Moves a duty as a command says.
fn move_duty<S: Store>(
    alloc: Global,
    store: &mut S,
    word: Word,
    duty: u64,
    day: &Text,
    text: &Text,
    until: &Option<Text>,
) -> Result<Plan, Fault>
    ensures plan { IfOk result (λ plan.
        OfRows (λ t. IsPlan (moved_found t word duty day.now text.now until.now)
        (moved_change t duty (move_as word day.now text.now until.now)) plan)
        (S.seen store.old) (S.seen store.new)) }
    ensures kept { Plans (S.seen store.old) (S.seen store.new) result }
    ensures alone { SparesStore (refused_by day.now text.now until.now) result }
    ensures fault { IfErr result (MayFail S.tells) }
{
    match read_move(word, day, text, until)? {
        Read::Refused(refusal) => Ok(refuse(refusal)),
        Read::Move(made) => move_numbered(alloc, store, duty, made),
    }
}

/// Meets a duty.
pub fn meet<S: Store>(
    alloc: Global,
    store: &mut S,
    duty: u64,
    day: &Text,
    text: &Text,
) -> Result<Plan, Fault>
    ensures plan { (w : Readings) → IfOk result (λ plan.
        OfRows (IsPlanOf w (Meet duty day.now text.now) plan) (S.seen store.old)
        (S.seen store.new)) }
    ensures kept { Plans (S.seen store.old) (S.seen store.new) result }
    ensures alone { (w : Readings)
        → SparesStore (refused_alone w (Meet duty day.now text.now)) result }
    ensures fault { IfErr result (MayFail S.tells) }
{
    move_duty(alloc, store, Word::Met, duty, day, text, &None)
}

/// Waives a duty, up to a last day if one is given.
pub fn waive<S: Store>(
    alloc: Global,
    store: &mut S,
    duty: u64,
    day: &Text,
    text: &Text,
    until: &Option<Text>,
) -> Result<Plan, Fault>
    ensures plan { (w : Readings) → IfOk result (λ plan.
        OfRows (IsPlanOf w (Waive duty day.now text.now until.now) plan)
        (S.seen store.old) (S.seen store.new)) }
    ensures kept { Plans (S.seen store.old) (S.seen store.new) result }
    ensures alone { (w : Readings)
        → SparesStore (refused_alone w (Waive duty day.now text.now until.now)) result }
    ensures fault { IfErr result (MayFail S.tells) }
{
    move_duty(alloc, store, Word::Waived, duty, day, text, until)
}

/// Reopens a duty.
pub fn reopen<S: Store>(
    alloc: Global,
    store: &mut S,
    duty: u64,
    day: &Text,
    text: &Text,
) -> Result<Plan, Fault>
    ensures plan { (w : Readings) → IfOk result (λ plan.
        OfRows (IsPlanOf w (Reopen duty day.now text.now) plan) (S.seen store.old)
        (S.seen store.new)) }
    ensures kept { Plans (S.seen store.old) (S.seen store.new) result }
    ensures alone { (w : Readings)
        → SparesStore (refused_alone w (Reopen duty day.now text.now)) result }
    ensures fault { IfErr result (MayFail S.tells) }
{
    move_duty(alloc, store, Word::Reopened, duty, day, text, &None)
}
