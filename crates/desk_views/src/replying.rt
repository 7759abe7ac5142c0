//! Replies in place of a text: that a request is refused, or that the desk failed.

ghost use Rattle.std.specs.Prelude.{◌≡◌, IfErr, IfOk};
ghost use Rattle.std.specs.Result.{IsErr};
ghost use Rattle.std.specs.Io.KnownBytes.{Appends, Keeps};
ghost use Rattle.desk_model.specs.declared.command.Answer.TheVariants.{Refused};
ghost use Rattle.desk_model.specs.declared.command.Outcome.TheVariants.{Answered, Failed};
ghost use Rattle.desk_subcommands.specs.Failures.{IfMemory, IsOfOutput, OfRequest};
ghost use Rattle.desk_subcommands.specs.Filing.{outcome_line};

use desk_model::{Answer, Fault, Outcome, Refusal};
use desk_subcommands::{Failure, Teller, tell};
use std::alloc::Global;
use std::io::Write;

/// Writes the reply to a request that is refused, explains why, and returns the program's status.
pub fn tell_refusal<W: Write, E: Write>(
    alloc: Global,
    refusal: Refusal,
    writer: &mut W,
    teller: &mut Teller<E>,
) -> Result<u8, Failure>
    ensures told { IfOk result (λ status. (status ≡ 1)
        × Appends (W.contents writer.old) (W.contents writer.new)
        (outcome_line (Answered (Refused refusal)))) }
    ensures fails { IfErr result IsOfOutput }
    ensures memory { IfErr result
        (IfMemory (Keeps (W.contents writer.old) (W.contents writer.new))) }
{
    let outcome = Outcome::Answered(Answer::Refused(refusal));
    let told = tell(alloc, &outcome, writer);
    teller.explain(&outcome);
    drop(outcome);
    told
}

/// Writes the reply that a desk failed. The failure says so too, if the reply could be written.
pub fn tell_fault<W: Write>(alloc: Global, fault: Fault, writer: &mut W) -> Result<u8, Failure>
    ensures fails { IsErr result }
    ensures told { IfErr result (OfRequest (λ told. Appends (W.contents writer.old)
        (W.contents writer.new) (outcome_line (Failed told))) (Unit {0})) }
    ensures cause { IfErr result (OfRequest (λ told. told ≡ fault) (Unit {0})) }
    ensures memory { IfErr result
        (IfMemory (Keeps (W.contents writer.old) (W.contents writer.new))) }
{
    let outcome = Outcome::Failed(fault);
    let told = tell(alloc, &outcome, writer);
    drop(outcome);
    told
}
