//! The changes of a duty one by one.

ghost use Rattle.std.specs.Prelude.{◌≡◌, pos, int_le};
ghost use Rattle.std.specs.Option.{option_copied};
ghost use Rattle.desk_base.specs.Day.{is_day};
ghost use Rattle.desk_model.specs.Texts.{is_before};
ghost use Rattle.desk_snapshot.specs.Changes.{has_room, is_body, is_formed, is_raising, is_waiver_of, leaves, may_move};

use desk_base::{Day, limits};
use desk_model::{DutyState, Word, is_note};
use desk_snapshot::StoredChange;

fn is_day(text: &str) -> bool
    ensures { result ≡ is_day text.now }
{
    Day::parse(text).is_some()
}

/// Whether a day is before another; written days compare by their bytes.
pub(crate) fn is_before(day: &str, other: &str) -> bool
    ensures { result ≡ is_before day.now other.now }
{
    day.cmp(other).is_lt()
}

/// Whether a move is possible from a state. A waiver can be ended if its last day is before the day
/// of the end.
pub(crate) fn may_move(from: DutyState, end: Option<&str>, day: &str, word: Word) -> bool
    ensures { result ≡ may_move from (option_copied end.entry) day.now word }
{
    match from {
        DutyState::IsOpen => matches!(word, Word::Met | Word::Waived | Word::Withdrawn),
        DutyState::Met => matches!(word, Word::Reopened),
        DutyState::Waived => match word {
            Word::Reopened | Word::Withdrawn => true,
            Word::Ended => end.is_some_and(|last| is_before(last, day)),
            _ => false,
        },
        DutyState::Withdrawn => false,
    }
}

fn is_body(word: Word, text: &str) -> bool
    ensures { result ≡ is_body word text.now }
{
    match word {
        Word::Raised | Word::Ended => text.is_empty(),
        _ => is_note(text),
    }
}

/// Whether the step of a change is within the limit for its word.
fn has_room(word: Word, row: &StoredChange) -> bool
    ensures { result ≡ has_room word row.now.step }
{
    match word {
        Word::Met | Word::Waived | Word::Reopened => row.step <= limits::CHANGES as i64,
        _ => true,
    }
}

/// Whether a change has the right form: a day that exists, a word, its text, and a step within the
/// limit.
pub(crate) fn is_formed(row: &StoredChange) -> bool
    ensures { result ≡ is_formed row.now }
{
    let Some(word) = Word::named(row.word.as_str()) else {
        return false;
    };
    if !is_day(row.day.as_str()) {
        return false;
    }
    if !is_body(word, row.body.as_str()) {
        return false;
    }
    has_room(word, row)
}

/// Whether a change is the one by which a freeze raised its duty.
pub(crate) fn is_raising(row: &StoredChange) -> bool
    ensures { result ≡ is_raising row.now }
{
    row.word.as_str() == Word::Raised.name()
}

/// Whether a change leaves its duty in a state.
pub(crate) fn leaves(state: &str, row: &StoredChange) -> bool
    ensures { result ≡ leaves state.now row.now }
{
    Word::named(row.word.as_str()).is_some_and(|word| word.state_after().name() == state)
}

/// Whether a waiver with a last day may be at a change.
pub(crate) fn is_waiver_of(row: &StoredChange, last_day: &str) -> bool
    ensures { result ≡ is_waiver_of row.now last_day.now }
{
    row.word.as_str() == Word::Waived.name()
        && is_day(last_day)
        && !is_before(last_day, row.day.as_str())
}
