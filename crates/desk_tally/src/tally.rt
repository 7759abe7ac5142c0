//! How many duties of one release are in each state.

ghost use Rattle.std.specs.Prelude.{◌≡◌, ℕ, ◌+◌, ◌≤◌};
ghost use Rattle.desk_model.specs.States.{is_open, is_met, is_waived, is_withdrawn};
ghost use Rattle.desk_tally.specs.Numbers.{number_of, one_if};

use desk_model::{DutyState, Totals};

/// How many duties of a release were raised, and how many of these are in each state.
#[derive(Clone, Copy, PartialEq, Eq)]
pub struct Tally {
    /// All of them.
    pub raised: u64,
    /// Those that are open.
    pub still_open: u64,
    /// Those that are met.
    pub met: u64,
    /// Those that are waived.
    pub waived: u64,
    /// Those that are withdrawn.
    pub withdrawn: u64,
    pub ghost balanced: { raised ≡ still_open + met + waived + withdrawn },
    pub ghost limited: { raised ≤ 100000 },
}

impl Tally {
    ghost use Rattle.desk_tally.specs.Totals.{totals_in};

    /// The tally of a release with no duties.
    pub fn new() -> Tally
        ensures { totals_in result
            ≡ record { raised = 0; still_open = 0; met = 0; waived = 0; withdrawn = 0 } }
    {
        Tally {
            raised: 0,
            still_open: 0,
            met: 0,
            waived: 0,
            withdrawn: 0,
        }
    }

    /// Counts this many more duties as raised and open. With them there are at most 100,000.
    pub fn raise(&mut self, n: u64)
        requires { self.old.raised + n ≤ 100000 }
        ensures raised { self.new.raised ≡ self.old.raised + n }
        ensures still_open { self.new.still_open ≡ self.old.still_open + n }
        ensures met { self.new.met ≡ self.old.met }
        ensures waived { self.new.waived ≡ self.old.waived }
        ensures withdrawn { self.new.withdrawn ≡ self.old.withdrawn }
    {
        self.raised += n;
        self.still_open += n;
    }

    /// Moves one duty from a state, which some duty must have, to another.
    pub fn move_one(&mut self, from: DutyState, to: DutyState)
        requires { 1 ≤ number_of from (totals_in self.old) }
        ensures raised { self.new.raised ≡ self.old.raised }
        ensures still_open { self.new.still_open + one_if (is_open from)
            ≡ self.old.still_open + one_if (is_open to) }
        ensures met { self.new.met + one_if (is_met from) ≡ self.old.met + one_if (is_met to) }
        ensures waived { self.new.waived + one_if (is_waived from)
            ≡ self.old.waived + one_if (is_waived to) }
        ensures withdrawn { self.new.withdrawn + one_if (is_withdrawn from)
            ≡ self.old.withdrawn + one_if (is_withdrawn to) }
    {
        match from {
            DutyState::IsOpen => self.still_open -= 1,
            DutyState::Met => self.met -= 1,
            DutyState::Waived => self.waived -= 1,
            DutyState::Withdrawn => self.withdrawn -= 1,
        }
        match to {
            DutyState::IsOpen => self.still_open += 1,
            DutyState::Met => self.met += 1,
            DutyState::Waived => self.waived += 1,
            DutyState::Withdrawn => self.withdrawn += 1,
        }
    }

    /// The numbers, in the form of an answer.
    pub fn totals(&self) -> Totals
        ensures { result ≡ totals_in self.now }
    {
        Totals {
            raised: self.raised,
            still_open: self.still_open,
            met: self.met,
            waived: self.waived,
            withdrawn: self.withdrawn,
        }
    }
}
