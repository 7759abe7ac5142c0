//! The end of a waiver.

ghost use Rattle.std.specs.Prelude.{◌≡◌};
ghost use Rattle.desk_model.specs.Moves.{is_over};

use desk_base::Day;

/// Whether a waiver with this last day, or without one, is over on a day: its last day is before
/// the day. On its last day it isn't.
pub fn is_over(day: Day, last_day: &Option<Day>) -> bool
    ensures { result ≡ is_over day last_day.now }
{
    match last_day {
        Some(last) => last.as_bytes().cmp(day.as_bytes()).is_lt(),
        None => false,
    }
}
