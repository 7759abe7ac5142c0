//! Replies as JSON.

ghost use Rattle.std.specs.Prelude.{◌≡◌, IfOk, string_bytes};
ghost use Rattle.serde_json.specs.View.{view};
ghost use Rattle.serde_json.specs.Written.{compact_text};
ghost use Rattle.desk_json.specs.Parts.{cheapest_rows};
ghost use Rattle.desk_json.specs.Integers.{refusal_has_integers};
ghost use Rattle.desk_json.specs.Replies.{revision_reply, document_reply, done_reply, frozen_reply, closed_reply, rows_reply, bill_reply, refusal_reply, answer_reply, fault_reply, reply_text, bad_command_text, fault_word};
ghost use Rattle.desk_model.specs.declared.command.Fault.TheVariants.{Memory};
ghost use Rattle.desk_model.specs.declared.command.Outcome.TheVariants.{Failed};

use crate::refusals::refusal_values;
use crate::row::{Row, reply_from, reply_of, row_text, value_text};
use desk_model::{Answer, Bill, Cheapest, Fault, Outcome, Refusal, Totals};
use serde_json::{Value, json};
use std::alloc::{AllocError, Global};

fn revision(alloc: Global, revision: u32) -> Result<Value, AllocError>
    ensures { IfOk result (λ v. view v ≡ revision_reply revision) }
{
    json!(in alloc; {"revision": revision})
}

fn document(alloc: Global, document: u32, new: bool) -> Result<Value, AllocError>
    ensures { IfOk result (λ v. view v ≡ document_reply document new) }
{
    json!(in alloc; {"document": document, "new": new})
}

fn done_reply(alloc: Global) -> Result<Value, AllocError>
    ensures { IfOk result (λ v. view v ≡ done_reply) }
{
    json!(in alloc; {"done": true})
}

fn frozen_reply(alloc: Global, first: u32, count: u32) -> Result<Value, AllocError>
    ensures { IfOk result (λ v. view v ≡ frozen_reply first count) }
{
    json!(in alloc; {"count": count, "first": first})
}

fn closed_reply(alloc: Global, count: u64) -> Result<Value, AllocError>
    ensures { IfOk result (λ v. view v ≡ closed_reply count) }
{
    json!(in alloc; {"closed": count})
}

fn totals(alloc: Global, totals: &Totals) -> Result<String, AllocError>
    ensures { IfOk result (λ text. string_bytes text
        ≡ compact_text (answer_reply (Answer.Totals totals.now))) }
{
    let others: [Totals; 0] = [];
    reply_from(alloc, totals, &others)
}

fn cheapest(alloc: Global, found: &Option<Cheapest>) -> Result<String, AllocError>
    ensures { IfOk result (λ text. string_bytes text
        ≡ compact_text (rows_reply (cheapest_rows found.now))) }
{
    let others: [Cheapest; 0] = [];
    match found {
        Some(found) => reply_from(alloc, found, &others),
        None => reply_of(alloc, &others),
    }
}

fn bill(alloc: Global, bill: &Bill) -> Result<Value, AllocError>
    ensures { IfOk result (λ v. view v ≡ bill_reply bill.now) }
{
    let release = bill.release.as_str();
    json!(in alloc; {"bill": release})
}

impl Row for Refusal {
    ghost json = { refusal_reply };

    ghost has_integers = { refusal_has_integers };

    fn value(&self, alloc: Global) -> Result<Value, AllocError> {
        let at = refusal_values(alloc, self)?;
        let name = self.name();
        let number = self.number();
        json!(in alloc; {"at": at, "name": name, "refused": number})
    }
}

fn fault(alloc: Global, fault: &Fault) -> Result<Value, AllocError>
    ensures { IfOk result (λ v. view v ≡ fault_reply (fault_word fault.now)) }
{
    let word = match fault {
        Fault::Memory => "memory",
        Fault::Store(_) => "store",
    };
    json!(in alloc; {"fault": word})
}

fn answer_text(alloc: Global, answer: &Answer) -> Result<String, AllocError>
    ensures { IfOk result (λ text. string_bytes text ≡ compact_text (answer_reply answer.now)) }
{
    match answer {
        Answer::Revision(number) => value_text(alloc, revision(alloc, *number)?),
        Answer::Imported(number) => value_text(alloc, document(alloc, *number, true)?),
        Answer::Again(number) => value_text(alloc, document(alloc, *number, false)?),
        Answer::Done => value_text(alloc, done_reply(alloc)?),
        Answer::Frozen { first, count } => value_text(alloc, frozen_reply(alloc, *first, *count)?),
        Answer::Closed(count) => value_text(alloc, closed_reply(alloc, *count)?),
        Answer::Duties(lines) => reply_of(alloc, lines.as_slice()),
        Answer::Totals(row) => totals(alloc, row),
        Answer::Changes(changes) => reply_of(alloc, changes.as_slice()),
        Answer::Findings(findings) => reply_of(alloc, findings.as_slice()),
        Answer::Release { release, packages } => reply_from(alloc, release, packages.as_slice()),
        Answer::Alternatives(sets) => reply_of(alloc, sets.as_slice()),
        Answer::Cheapest(found) => cheapest(alloc, found),
        Answer::Bill(given) => value_text(alloc, bill(alloc, given)?),
        Answer::Releases(lines) => reply_of(alloc, lines.as_slice()),
        Answer::Documents(lines) => reply_of(alloc, lines.as_slice()),
        Answer::OpenDuties(lines) => reply_of(alloc, lines.as_slice()),
        Answer::Wanting(refusals) => reply_of(alloc, refusals.as_slice()),
        Answer::Gaps(gaps) => reply_of(alloc, gaps.as_slice()),
        Answer::Refused(reason) => row_text(alloc, reason),
    }
}

/// The reply to an outcome, without a line end.
pub fn reply_line(alloc: Global, outcome: &Outcome) -> Result<String, AllocError>
    ensures { IfOk result (λ line. string_bytes line ≡ reply_text outcome.now) }
{
    match outcome {
        Outcome::Answered(answer) => answer_text(alloc, answer),
        Outcome::Failed(reason) => value_text(alloc, fault(alloc, reason)?),
    }
}

/// The reply to anything that isn't a request, without a line end.
pub fn bad_command_line() -> &'static str
    ensures { result.now ≡ bad_command_text }
{
    "{\"fault\":\"command\"}"
}

/// The reply to a request for which no memory was left, without a line end.
pub fn memory_line() -> &'static str
    ensures { result.now ≡ reply_text (Failed Memory) }
{
    "{\"fault\":\"memory\"}"
}
