//! The status of each outcome.

ghost use Rattle.std.specs.Prelude.{◌≡◌};
ghost use Rattle.desk_http.specs.OutcomeStatuses.{is_absent, is_conflict, refusal_status, outcome_status};

use desk_http_head::Status;
use desk_model::{Answer, Fault, Outcome};

/// Whether a refusal with this number says that a document, package, release or duty doesn't exist.
fn is_absent(number: u8) -> bool
    ensures { result ≡ is_absent number }
{
    number == 4 || number == 5 || number == 12 || number == 23
}

/// Whether a refusal with this number says that what the desk holds doesn't allow the request.
fn is_conflict(number: u8) -> bool
    ensures { result ≡ is_conflict number }
{
    number == 3
        || number == 7
        || number == 10
        || number == 13
        || number == 14
        || number == 20
        || number == 24
}

/// The status of a refusal.
fn refusal_status(number: u8) -> Status
    ensures { result ≡ refusal_status number }
{
    if is_absent(number) {
        Status::NotFound
    } else if is_conflict(number) {
        Status::Conflict
    } else {
        Status::UnprocessableContent
    }
}

/// The status of the reply to an outcome.
pub fn status_of(outcome: &Outcome) -> Status
    ensures { result ≡ outcome_status outcome.now }
{
    match outcome {
        Outcome::Answered(Answer::Refused(why)) => refusal_status(why.number()),
        Outcome::Answered(_) => Status::Ok,
        Outcome::Failed(Fault::Memory) => Status::ServiceUnavailable,
        Outcome::Failed(Fault::Store(_)) => Status::InternalServerError,
    }
}
