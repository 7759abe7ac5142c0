//! What keeps a release from being frozen.

ghost use Rattle.std.specs.Prelude.{◌≡◌, ◌++◌, IfOk, IfErr, OnOk, map};
ghost use Rattle.std.specs.List.{flat_map};
ghost use Rattle.std.specs.Io.KnownBytes.{Appends, Keeps};
ghost use Rattle.desk_model.specs.declared.command.Answer.TheVariants.{Refused};
ghost use Rattle.desk_model.specs.declared.command.Outcome.TheVariants.{Answered};
ghost use Rattle.desk_subcommands.specs.Failures.{IfMemory, IsOfOutput};
ghost use Rattle.desk_subcommands.specs.Filing.{outcome_line};
ghost use Rattle.desk_views.specs.Wanting.{refusal_lines, wanting_status};

use desk_json::reply_line;
use desk_model::{Answer, Outcome, Refusal};
use desk_subcommands::{Failure, Teller, write_text};
use std::alloc::{AllocError, Global};
use std::io::Write;

/// Refusals as the outcomes of requests.
fn outcomes_of(alloc: Global, refusals: Vec<Refusal>) -> Result<Vec<Outcome>, AllocError>
    ensures { IfOk result (λ outcomes. outcomes.items
        ≡ map (λ refusal. Answered (Refused refusal)) refusals.items) }
{
    let mut outcomes = Vec::new(alloc);
    for refusal in refusals {
        outcomes.push(Outcome::Answered(Answer::Refused(refusal)))?;
    }
    Ok(outcomes)
}

/// Adds the line of a reply.
fn add_line(alloc: Global, text: &mut Vec<u8>, outcome: &Outcome) -> Result<(), AllocError>
    ensures { OnOk result (text.new.items ≡ text.old.items ++ outcome_line outcome.now) }
{
    let line = reply_line(alloc, outcome)?;
    text.extend_from_slice(line.as_bytes())?;
    text.push(b'\n')?;
    Ok(())
}

/// The lines of replies.
fn lines_of(alloc: Global, outcomes: &[Outcome]) -> Result<Vec<u8>, AllocError>
    ensures { IfOk result (λ text. text.items ≡ flat_map outcome_line outcomes.now) }
{
    let mut text = Vec::new(alloc);
    for outcome in outcomes {
        add_line(alloc, &mut text, outcome)?;
    }
    Ok(text)
}

/// The program's status: 0 if there is no refusal, and else 1.
fn status_of(refusals: &[Refusal]) -> u8
    ensures { result ≡ wanting_status refusals.now }
{
    if refusals.is_empty() { 0 } else { 1 }
}

/// Explains what each outcome means.
fn explain_all<E: Write>(outcomes: &[Outcome], teller: &mut Teller<E>) {
    for outcome in outcomes {
        teller.explain(outcome);
    }
}

/// Writes the refusals that keep a release from being frozen, each as the line of a reply, and
/// returns the program's status: 0 if there are none, and else 1. What each means is explained
/// besides the lines.
pub fn tell_wanting<W: Write, E: Write>(
    alloc: Global,
    refusals: Vec<Refusal>,
    writer: &mut W,
    teller: &mut Teller<E>,
) -> Result<u8, Failure>
    ensures told { IfOk result (λ status. (status ≡ wanting_status refusals.items)
        × Appends (W.contents writer.old) (W.contents writer.new) (refusal_lines refusals.items)) }
    ensures fails { IfErr result IsOfOutput }
    ensures memory { IfErr result
        (IfMemory (Keeps (W.contents writer.old) (W.contents writer.new))) }
{
    let status = status_of(refusals.as_slice());
    let outcomes = outcomes_of(alloc, refusals)?;
    let text = lines_of(alloc, outcomes.as_slice())?;
    write_text(writer, text.as_slice())?;
    explain_all(outcomes.as_slice(), teller);
    Ok(status)
}
