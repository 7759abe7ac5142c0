//! A request, answered as one of a script is. A terminal gets the answer in columns and words.

ghost use Rattle.std.specs.Prelude.{◌≡◌, ℕ, List, IfOk, IfErr};
ghost use Rattle.std.specs.Io.KnownBytes.{Appends, Keeps};
ghost use Rattle.desk_answers.specs.Answers.{IsShown};
ghost use Rattle.desk_model.specs.declared.command.Outcome.TheVariants.{Failed};
ghost use Rattle.desk_script.specs.Replies.{Replies};
ghost use Rattle.desk_script.specs.Texts.{line_of};
ghost use Rattle.desk_script.specs.declared.answer.Reply.{Reply};
ghost use Rattle.desk_script.specs.declared.answer.Reply.TheVariants.{Became};
ghost use Rattle.desk_subcommands.specs.Failures.{IfMemory, IsOfOutput, OfRequest};
ghost use Rattle.desk_subcommands.specs.Filing.{answer_status, no_text};
ghost use Rattle.desk_views.specs.Asking.{form_on, number_held, HasReplied, HasShown, HasTold, TellsFault};

use desk_answers::answer_text;
use desk_core::desk::Desk;
use desk_json::{Request, bad_command_line};
use desk_model::{Answer, CatalogueFault, Outcome, Refusal};
use desk_script::{Reply, command_outcome, question_outcome};
use desk_subcommands::{Failure, Teller, refuse_catalogue, tell, write_line, write_text};
use std::alloc::Global;
use std::io::Write;

// The program's status if a request isn't done.
const REFUSED: u8 = 1;

/// How the reply to a request is written.
#[derive(Clone, Copy)]
pub enum ReplyForm {
    /// As the line that a script writes.
    Line,
    /// For a terminal: rows in columns with their names, or words.
    Columns,
}

impl ReplyForm {
    /// The form for a terminal or for another output: the line, if it is asked for.
    pub fn on(is_terminal: bool, is_line_wanted: bool) -> ReplyForm
        ensures { result ≡ form_on is_terminal is_line_wanted }
    {
        if is_terminal && !is_line_wanted {
            ReplyForm::Columns
        } else {
            ReplyForm::Line
        }
    }
}

/// The reply of a desk to a request.
pub fn reply_to<D: Desk>(desk: &mut D, request: Request) -> Reply
    ensures { Replies D.are_right D.tells D.stands (D.seen desk.old) request result
        (D.seen desk.new) }
{
    match request {
        Request::Act(command) => Reply::Became(command_outcome(desk, command)),
        Request::Ask(query) => {
            let outcome = question_outcome(desk, &query);
            drop(query);
            Reply::Became(outcome)
        }
        Request::BadCommand => Reply::NoRequest,
    }
}

/// The number of the document of an import, if it was imported before.
pub fn number_held(reply: &Reply) -> Option<u32>
    ensures { result ≡ number_held reply.now }
{
    match reply {
        Reply::Became(Outcome::Answered(Answer::Again(number))) => Some(*number),
        _ => None,
    }
}

/// Writes a reply as a line, explains why a request isn't done, and returns the program's status.
fn tell_reply<W: Write, E: Write>(
    alloc: Global,
    reply: &Reply,
    writer: &mut W,
    teller: &mut Teller<E>,
) -> Result<u8, Failure>
    ensures done { IfOk result
        (HasTold (W.contents writer.old) (W.contents writer.new) reply.now) }
    ensures failed { IfErr result (OfRequest
        (λ fault. (reply.now ≡ Became (Failed fault))
        × Appends (W.contents writer.old) (W.contents writer.new) (line_of reply.now))
        (Unit {0})) }
    ensures memory { IfErr result
        (IfMemory (Keeps (W.contents writer.old) (W.contents writer.new))) }
{
    match reply {
        Reply::Became(outcome) => {
            let told = tell(alloc, outcome, writer);
            teller.explain(outcome);
            told
        }
        Reply::NoRequest => {
            write_line(writer, bad_command_line())?;
            Ok(1)
        }
    }
}

// The program's status for an answer: refused, or done.
fn status_of(answer: &Answer) -> u8
    ensures { result ≡ answer_status answer.now }
{
    match answer {
        Answer::Refused(_) => REFUSED,
        _ => 0,
    }
}

/// Writes an answer as a terminal shows it, and returns the program's status.
fn show_answer<W: Write>(alloc: Global, answer: &Answer, writer: &mut W) -> Result<u8, Failure>
    ensures done { IfOk result (λ status. (text : List ℕ) × IsShown answer.now text
        × Appends (W.contents writer.old) (W.contents writer.new) text
        × (status ≡ answer_status answer.now)) }
    ensures fails { IfErr result IsOfOutput }
    ensures memory { IfErr result
        (IfMemory (Keeps (W.contents writer.old) (W.contents writer.new))) }
{
    let text = answer_text(alloc, answer)?;
    write_text(writer, text.as_slice())?;
    Ok(status_of(answer))
}

/// Writes a reply as a terminal shows it, and returns the program's status. Nothing is written of a
/// fault, which the failure reports.
fn show_reply<W: Write>(alloc: Global, reply: &Reply, writer: &mut W) -> Result<u8, Failure>
    ensures done { IfOk result
        (HasShown (W.contents writer.old) (W.contents writer.new) reply.now) }
    ensures failed { IfErr result (OfRequest
        (λ fault. (reply.now ≡ Became (Failed fault))
        × Keeps (W.contents writer.old) (W.contents writer.new))
        (Unit {0})) }
    ensures memory { IfErr result
        (IfMemory (Keeps (W.contents writer.old) (W.contents writer.new))) }
{
    match reply {
        Reply::Became(Outcome::Answered(answer)) => show_answer(alloc, answer, writer),
        Reply::Became(Outcome::Failed(fault)) => Err(Failure::Request(*fault)),
        Reply::NoRequest => {
            write_text(writer, b"no request\n")?;
            Ok(REFUSED)
        }
    }
}

/// Writes a reply in a form, and returns the program's status.
pub fn reply_in<W: Write, E: Write>(
    alloc: Global,
    reply: &Reply,
    form: ReplyForm,
    writer: &mut W,
    teller: &mut Teller<E>,
) -> Result<u8, Failure>
    ensures done { IfOk result
        (HasReplied form (W.contents writer.old) (W.contents writer.new) reply.now) }
    ensures failed { IfErr result (OfRequest
        (λ fault. (reply.now ≡ Became (Failed fault))
        × TellsFault form (W.contents writer.old) (W.contents writer.new) reply.now)
        (Unit {0})) }
    ensures memory { IfErr result
        (IfMemory (Keeps (W.contents writer.old) (W.contents writer.new))) }
{
    match form {
        ReplyForm::Line => tell_reply(alloc, reply, writer, teller),
        ReplyForm::Columns => show_reply(alloc, reply, writer),
    }
}

/// Writes in a form that a catalogue isn't text, which is refused as not being a TOML document, and
/// returns the program's status. A line is explained besides.
pub fn refuse_text<W: Write, E: Write>(
    alloc: Global,
    form: ReplyForm,
    writer: &mut W,
    teller: &mut Teller<E>,
) -> Result<u8, Failure>
    ensures told { IfOk result
        (HasReplied form (W.contents writer.old) (W.contents writer.new) (Became no_text)) }
    ensures fails { IfErr result IsOfOutput }
    ensures memory { IfErr result
        (IfMemory (Keeps (W.contents writer.old) (W.contents writer.new))) }
{
    match form {
        ReplyForm::Line => refuse_catalogue(alloc, writer, teller),
        ReplyForm::Columns => {
            let refusal = Refusal::BadCatalogue(CatalogueFault::NotToml);
            let answer = Answer::Refused(refusal);
            let told = show_answer(alloc, &answer, writer);
            drop(answer);
            told
        }
    }
}

/// Lets a desk answer a request, writes the reply in a form, and returns the program's status: 0 if
/// it is done or answered, 1 if it is refused. As a line the reply is that of a script, and a refusal
/// is explained besides. If the desk fails, the line and the failure say so; in columns the failure
/// alone does. If the reply can't be written, what the desk did is not undone.
pub fn answer_request<D: Desk, W: Write, E: Write>(
    alloc: Global,
    desk: &mut D,
    request: Request,
    form: ReplyForm,
    writer: &mut W,
    teller: &mut Teller<E>,
) -> Result<u8, Failure>
    ensures done { IfOk result (λ status. (reply : Reply)
        × Replies D.are_right D.tells D.stands (D.seen desk.old) request reply (D.seen desk.new)
        × HasReplied form (W.contents writer.old) (W.contents writer.new) reply status) }
    ensures failed { IfErr result (OfRequest
        (λ fault. Replies D.are_right D.tells D.stands (D.seen desk.old) request
        (Became (Failed fault)) (D.seen desk.new)
        × TellsFault form (W.contents writer.old) (W.contents writer.new) (Became (Failed fault)))
        ((reply : Reply)
        × Replies D.are_right D.tells D.stands (D.seen desk.old) request reply (D.seen desk.new))) }
    ensures memory { IfErr result
        (IfMemory (Keeps (W.contents writer.old) (W.contents writer.new))) }
{
    let reply = reply_to(desk, request);
    let told = reply_in(alloc, &reply, form, writer, teller);
    drop(reply);
    told
}
