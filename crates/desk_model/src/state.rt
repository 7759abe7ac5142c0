//! The states of releases and duties.

/// The state of a release. It is printed as `open`, `frozen` or `withdrawn`.
#[derive(Clone, Copy, PartialEq, Eq)]
pub enum ReleaseState {
    /// Documents can be attached, and terms chosen.
    IsOpen,
    /// Its duties were raised, and its terms are recorded.
    Frozen,
    /// It holds no choice any more, and nothing changes it.
    Withdrawn,
}

impl ReleaseState {
    ghost use Rattle.std.specs.Prelude.{◌≡◌, IfNone, IfSome};
    ghost use Rattle.desk_model.specs.Names.{release_state_name, release_state_named};

    /// The word for the state.
    pub fn name(&self) -> &'static str
        ensures { result.now ≡ release_state_name self.now }
    {
        match self {
            ReleaseState::IsOpen => "open",
            ReleaseState::Frozen => "frozen",
            ReleaseState::Withdrawn => "withdrawn",
        }
    }

    /// The state with this name, if there is one.
    pub fn named(text: &str) -> Option<ReleaseState>
        ensures value { result ≡ release_state_named text.now }
        ensures some { IfSome result (λ it. text.now ≡ release_state_name it) }
        ensures none { IfNone result ((it : ReleaseState) → text.now ≡ release_state_name it → ⊥) }
    {
        match text {
            "open" => Some(ReleaseState::IsOpen),
            "frozen" => Some(ReleaseState::Frozen),
            "withdrawn" => Some(ReleaseState::Withdrawn),
            _ => None,
        }
    }
}

/// The state of a duty. It is printed as `open`, `met`, `waived` or `withdrawn`.
#[derive(Clone, Copy, PartialEq, Eq)]
pub enum DutyState {
    /// It is to be met or waived.
    IsOpen,
    /// It was done, with evidence.
    Met,
    /// The office lets it off, perhaps up to a last day.
    Waived,
    /// Its release was withdrawn while it was open or waived.
    Withdrawn,
}

impl DutyState {
    ghost use Rattle.std.specs.Prelude.{◌≡◌, IfNone, IfSome};
    ghost use Rattle.desk_model.specs.Names.{duty_state_name, duty_state_named};

    /// The word for the state.
    pub fn name(&self) -> &'static str
        ensures { result.now ≡ duty_state_name self.now }
    {
        match self {
            DutyState::IsOpen => "open",
            DutyState::Met => "met",
            DutyState::Waived => "waived",
            DutyState::Withdrawn => "withdrawn",
        }
    }

    /// The state with this name, if there is one.
    pub fn named(text: &str) -> Option<DutyState>
        ensures value { result ≡ duty_state_named text.now }
        ensures some { IfSome result (λ it. text.now ≡ duty_state_name it) }
        ensures none { IfNone result ((it : DutyState) → text.now ≡ duty_state_name it → ⊥) }
    {
        match text {
            "open" => Some(DutyState::IsOpen),
            "met" => Some(DutyState::Met),
            "waived" => Some(DutyState::Waived),
            "withdrawn" => Some(DutyState::Withdrawn),
            _ => None,
        }
    }
}

/// What a change of a duty was. It is printed as `raised`, `met`, `waived`, `reopened`, `withdrawn`
/// or `ended`.
#[derive(Clone, Copy, PartialEq, Eq)]
pub enum Word {
    /// A freeze raised it: always its first change.
    Raised,
    /// It was met.
    Met,
    /// It was waived.
    Waived,
    /// It is open again, after it was met or waived.
    Reopened,
    /// Its release was withdrawn.
    Withdrawn,
    /// Its waiver ended, and it is open again.
    Ended,
}

impl Word {
    ghost use Rattle.std.specs.Prelude.{◌≡◌, IfNone, IfSome};
    ghost use Rattle.desk_model.specs.Names.{word_name, word_named};
    ghost use Rattle.desk_model.specs.States.{state_after};

    /// The word as it is printed.
    pub fn name(&self) -> &'static str
        ensures { result.now ≡ word_name self.now }
    {
        match self {
            Word::Raised => "raised",
            Word::Met => "met",
            Word::Waived => "waived",
            Word::Reopened => "reopened",
            Word::Withdrawn => "withdrawn",
            Word::Ended => "ended",
        }
    }

    /// The word with this name, if there is one.
    pub fn named(text: &str) -> Option<Word>
        ensures value { result ≡ word_named text.now }
        ensures some { IfSome result (λ it. text.now ≡ word_name it) }
        ensures none { IfNone result ((it : Word) → text.now ≡ word_name it → ⊥) }
    {
        match text {
            "raised" => Some(Word::Raised),
            "met" => Some(Word::Met),
            "waived" => Some(Word::Waived),
            "reopened" => Some(Word::Reopened),
            "withdrawn" => Some(Word::Withdrawn),
            "ended" => Some(Word::Ended),
            _ => None,
        }
    }

    /// The state in which a change with this word leaves a duty.
    pub fn state_after(self) -> DutyState
        ensures { result ≡ state_after self }
    {
        match self {
            Word::Raised | Word::Reopened | Word::Ended => DutyState::IsOpen,
            Word::Met => DutyState::Met,
            Word::Waived => DutyState::Waived,
            Word::Withdrawn => DutyState::Withdrawn,
        }
    }
}
