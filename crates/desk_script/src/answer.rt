//! Answers the request of a line.

ghost use Rattle.std.specs.Prelude.{◌≡◌, List};
ghost use Rattle.desk_model.specs.Readings.{Readings};
ghost use Rattle.desk_model.specs.Tables.{tables};
ghost use Rattle.desk_model.specs.Answers.{IsHistory};
ghost use Rattle.desk_model.specs.declared.command.Command.{Command};
ghost use Rattle.desk_json.specs.Requests.{request_in};
ghost use Rattle.desk_json.specs.declared.request.Request.TheVariants.{Act, Ask};
ghost use Rattle.desk_script.specs.Replies.{Replies};
ghost use Rattle.desk_script.specs.declared.answer.Reply.TheVariants.{Became};

use crate::watch::Watch;
use desk_core::desk::Desk;
use desk_json::{Request, read_command};
use desk_model::{Command, Fault, Outcome, Query};
use std::alloc::Global;

/// The reply to a line.
#[derive(Drop)]
pub enum Reply {
    /// The outcome of its request.
    Became(Outcome),
    /// It isn't a request.
    NoRequest,
}

/// Applies a command, and passes on the bytes of an import so that they are not copied.
pub fn command_outcome<D: Desk>(desk: &mut D, command: Command) -> Outcome
    ensures { Replies D.are_right D.tells D.stands (D.seen desk.old) (Act command) (Became result)
        (D.seen desk.new) }
{
    match command {
        Command::Import { bytes, profile } => Outcome::from(desk.import(bytes, profile)),
        other => {
            let became = desk.apply(&other);
            drop(other);
            Outcome::from(became)
        }
    }
}

/// Asks a question.
pub fn question_outcome<D: Desk>(desk: &mut D, query: &Query) -> Outcome
    ensures { Replies D.are_right D.tells D.stands (D.seen desk.old) (Ask query.now) (Became result)
        (D.seen desk.new) }
{
    Outcome::from(desk.ask(query))
}

/// Answers the request in the text of a line. If no memory is left to read it, it fails. The text
/// is dropped before the desk answers, so that it can use its memory.
pub fn answer_line<D: Desk, V: Watch>(
    alloc: Global,
    desk: &mut D,
    watch: &mut V,
    text: Vec<u8>,
) -> Reply
    ensures replies { Replies D.are_right D.tells D.stands (D.seen desk.old) (request_in text.items)
        result (D.seen desk.new) }
    ensures same { V.stops watch.new ≡ V.stops watch.old }
{
    match read_command(alloc, text.as_slice()) {
        Ok(Request::Act(command)) => {
            drop(text);
            Reply::Became(command_outcome(desk, command))
        }
        Ok(Request::Ask(query)) => {
            drop(text);
            let outcome = question_outcome(desk, &query);
            drop(query);
            Reply::Became(outcome)
        }
        Ok(Request::BadCommand) => {
            watch.no_request(Some(text.as_slice()));
            Reply::NoRequest
        }
        Err(_) => Reply::Became(Outcome::Failed(Fault::Memory)),
    }
}
