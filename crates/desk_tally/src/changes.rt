//! What changes of the rows mean for duties.

ghost use Rattle.std.specs.Prelude.{◌≡◌, true, IfNone, IfOk, IfSome, map};
ghost use Rattle.desk_model.specs.States.{state_after};
ghost use Rattle.desk_tally.specs.Stands.{are_duties, shift_of};
ghost use Rattle.desk_tally.specs.Kept.{are_raised};

use crate::stand::Shift;
use desk_base::Items;
use desk_model::{ChangeRow, DutyRow, DutyState, Word};
use std::alloc::{AllocError, Global};

/// The state in which a change with this word leaves a duty.
pub fn state_after(word: Word) -> DutyState
    ensures { result ≡ state_after word }
{
    match word {
        Word::Raised | Word::Reopened | Word::Ended => DutyState::IsOpen,
        Word::Met => DutyState::Met,
        Word::Waived => DutyState::Waived,
        Word::Withdrawn => DutyState::Withdrawn,
    }
}

/// Whether these are new duties of a release, open and with the numbers from `first` on.
pub(crate) fn are_raised(first: u64, release: &str, duties: &[DutyRow]) -> bool
    ensures { result ≡ are_raised first release.now duties.now }
{
    let mut number = first;
    for duty in duties {
        if u64::from(duty.number) != number
            || duty.release.as_str() != release
            || duty.state != DutyState::IsOpen
        {
            return false;
        }
        number += 1;
    }
    true
}

/// The states into which changes put their duties, or `None` if one of these isn't from 1 to
/// `count`.
pub(crate) fn shifts_of(
    alloc: Global,
    count: usize,
    changes: &[ChangeRow],
) -> Result<Option<Items<Shift>>, AllocError>
    ensures is { IfOk result (λ found. IfSome found (λ shifts. shifts ≡ map shift_of changes.now)) }
    ensures within { IfOk result
        (λ found. IfSome found (λ shifts. are_duties count shifts ≡ true)) }
    ensures none { IfOk result (λ found. IfNone found
        (are_duties count (map shift_of changes.now) ≡ true → ⊥)) }
{
    let mut shifts = Vec::with_capacity(alloc, changes.len())?;
    for change in changes {
        if change.duty == 0 || change.duty as usize > count {
            return Ok(None);
        }
        shifts.push(Shift {
            duty: change.duty,
            state: state_after(change.word),
        })?;
    }
    Ok(Some(Items::from_vec(shifts)))
}
