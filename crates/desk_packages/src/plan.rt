//! Plans that commands have in common, a refusal and a change, and why a release can't be worked
//! on.

ghost use Rattle.std.specs.Prelude.{◌≡◌};
ghost use Rattle.desk_model.specs.Answers.{unready};

use desk_model::{Answer, Change, Plan, Refusal, ReleaseState};

/// The command is refused.
pub fn refuse(refusal: Refusal) -> Plan
    ensures { result ≡ Plan.Leave (Answer.Refused refusal) }
{
    Plan::Leave(Answer::Refused(refusal))
}

/// The command makes this change, and is then done.
pub fn make(change: Change) -> Plan
    ensures { result ≡ Plan.Make Answer.Done change }
{
    Plan::Make {
        answer: Answer::Done,
        change,
    }
}

/// Why a release in this state can't be worked on, if it can't.
pub fn unready(state: ReleaseState) -> Option<Refusal>
    ensures { result ≡ unready state }
{
    match state {
        ReleaseState::IsOpen => None,
        ReleaseState::Frozen => Some(Refusal::ReleaseState(ReleaseState::Frozen)),
        ReleaseState::Withdrawn => Some(Refusal::ReleaseState(ReleaseState::Withdrawn)),
    }
}
