//! What is proposed for a document that the desk of a file holds.

ghost use Rattle.std.specs.Prelude.{◌≡◌, ℕ, pos, List, Option, find, IfErr, IfOk};
ghost use Rattle.std.specs.Io.KnownBytes.{Appends, Keeps};
ghost use Rattle.desk_expr.specs.Tree.{Tree};
ghost use Rattle.desk_findings.specs.Fields.{IsReading};
ghost use Rattle.desk_model.specs.Readings.{Readings};
ghost use Rattle.desk_model.specs.Tables.{tables};
ghost use Rattle.desk_access.specs.Seen.{Kept, Looked};
ghost use Rattle.desk_core.specs.Desks.{InHistory};
ghost use Rattle.desk_inspect.specs.Inspecting.{TellsFault};
ghost use Rattle.desk_inspect.specs.Proposing.{Proposes, ProposesBoth, ProposesRow, TellsProposals, choice_lines_in};
ghost use Rattle.desk_snapshot.specs.Conditions.{profile_at};
ghost use Rattle.desk_subcommands.specs.Failures.{IfMemory, IsOfOutput, OfRequest};
ghost use Rattle.desk_texts.specs.Right.{AreRight};
ghost use Rattle.desk_views.specs.Proposing.{is_document, open_releases_with};

use desk_base::Text;
use desk_core::{Desk, Fault};
use desk_model::Refusal;
use desk_snapshot::Snapshot;
use desk_store::SqlDesk;
use desk_subcommands::{Failure, Teller};
use desk_texts::Standard;
use desk_views::{
    add_choices_for, document_row, open_releases, propose_held, tell_fault, tell_refusal,
};
use sqlite::Alter;
use std::alloc::Global;
use std::io::Write;

// The requests for the sole choices of releases, as far as they are for packages of a document.
fn choice_lines<S: Alter>(
    alloc: Global,
    desk: &mut SqlDesk<S>,
    document: u32,
    releases: &[Text],
) -> Result<Vec<u8>, Fault>
    ensures found { IfOk result (λ text. InHistory AreRight (λ w h.
        text.items ≡ choice_lines_in w (tables w h) document releases.now)
        (⟦<SqlDesk<S> as Desk>⟧.seen desk.old) (⟦<SqlDesk<S> as Desk>⟧.seen desk.new)) }
    ensures kept { Looked (⟦<SqlDesk<S> as Desk>⟧.seen desk.old)
        (⟦<SqlDesk<S> as Desk>⟧.seen desk.new) result }
{
    let mut text = Vec::new(alloc);
    for release in releases {
        let found = desk.sole_choices(alloc, release)?;
        add_choices_for(alloc, &mut text, release, document, found)?;
    }
    Ok(text)
}

// The requests for the sole choices of the open releases to which a document is attached, as far as
// they are for its packages.
fn held_choices<S: Alter>(
    alloc: Global,
    desk: &mut SqlDesk<S>,
    snapshot: &Snapshot,
    document: u32,
) -> Result<Vec<u8>, Fault>
    ensures found { IfOk result (λ text. InHistory AreRight (λ w h.
        text.items ≡ choice_lines_in w (tables w h) document
        (open_releases_with snapshot.now (pos document)))
        (⟦<SqlDesk<S> as Desk>⟧.seen desk.old) (⟦<SqlDesk<S> as Desk>⟧.seen desk.new)) }
    ensures kept { Looked (⟦<SqlDesk<S> as Desk>⟧.seen desk.old)
        (⟦<SqlDesk<S> as Desk>⟧.seen desk.new) result }
{
    let releases = open_releases(alloc, snapshot, document)?;
    choice_lines(alloc, desk, document, releases.as_slice())
}

// Writes the conclusions that are proposed for a document with these bytes, and then requests for
// choices. If the bytes are no document, only the reply to them is written.
fn tell_proposals<W: Write, T: Write>(
    alloc: Global,
    snapshot: &Snapshot,
    document: u32,
    bytes: &[u8],
    choices: &[u8],
    writer: &mut W,
    notes: &mut T,
) -> Result<u8, Failure>
    ensures told { (w : Readings) (reads : List ℕ → Option Tree) → AreRight w
        → IsReading (profile_at snapshot.now (pos document)) reads
        → IfOk result (λ status. (text : List ℕ)
        × ProposesBoth w reads snapshot.now document bytes.now choices.now text status
        × Appends (W.contents writer.old) (W.contents writer.new) text) }
    ensures fails { IfErr result IsOfOutput }
    ensures memory { IfErr result
        (IfMemory (Keeps (W.contents writer.old) (W.contents writer.new))) }
{
    let status = propose_held(alloc, &Standard, snapshot, document, bytes, writer, notes)?;
    if status != 0 {
        return Ok(status);
    }
    writer.write_all(choices)?;
    writer.flush()?;
    Ok(0)
}

// Writes what is proposed for a document, with these requests for choices.
fn tell_document<W: Write, E: Write, T: Write>(
    alloc: Global,
    snapshot: &Snapshot,
    document: u32,
    choices: &[u8],
    writer: &mut W,
    teller: &mut Teller<E>,
    notes: &mut T,
) -> Result<u8, Failure>
    ensures told { (w : Readings) (reads : List ℕ → Option Tree) → AreRight w
        → IsReading (profile_at snapshot.now (pos document)) reads
        → IfOk result (λ status. (text : List ℕ)
        × ProposesRow w reads snapshot.now document choices.now
        (find (is_document document) snapshot.now.document) text status
        × Appends (W.contents writer.old) (W.contents writer.new) text) }
    ensures fails { IfErr result IsOfOutput }
    ensures memory { IfErr result
        (IfMemory (Keeps (W.contents writer.old) (W.contents writer.new))) }
{
    match document_row(snapshot, document) {
        Some(row) => {
            let bytes = row.bytes.as_slice();
            tell_proposals(alloc, snapshot, document, bytes, choices, writer, notes)
        }
        None => tell_refusal(alloc, Refusal::UnknownDocument, writer, teller),
    }
}

// The same for a document of these rows, which are those of a desk.
fn tell_held<S: Alter, W: Write, E: Write, T: Write>(
    alloc: Global,
    desk: &mut SqlDesk<S>,
    snapshot: &Snapshot,
    document: u32,
    writer: &mut W,
    teller: &mut Teller<E>,
    notes: &mut T,
) -> Result<u8, Failure>
    ensures done { IfOk result (λ status. InHistory AreRight (λ w h.
        Proposes w snapshot.now (tables w h) document (W.contents writer.old)
        (W.contents writer.new) status)
        (⟦<SqlDesk<S> as Desk>⟧.seen desk.old) (⟦<SqlDesk<S> as Desk>⟧.seen desk.new)) }
    ensures failed { IfErr result (OfRequest
        (TellsFault (W.contents writer.old) (W.contents writer.new)) (Unit {0})) }
    ensures kept { Kept (⟦<SqlDesk<S> as Desk>⟧.seen desk.old)
        (⟦<SqlDesk<S> as Desk>⟧.seen desk.new) }
    ensures memory { IfErr result
        (IfMemory (Keeps (W.contents writer.old) (W.contents writer.new))) }
{
    match held_choices(alloc, desk, snapshot, document) {
        Ok(choices) => {
            let choices = choices.as_slice();
            tell_document(alloc, snapshot, document, choices, writer, teller, notes)
        }
        Err(fault) => tell_fault(alloc, fault, writer),
    }
}

/// Writes what is proposed for a document of a desk, as requests, a line of JSON each, and returns
/// the program's status: its declared licences as conclusions and then, for each open release to
/// which it is attached, the choices for its packages that have only one. If the desk holds no
/// document with this number, the reply is that it is unknown. How many conclusions are proposed is
/// reported in a note. If the desk fails, both the reply and the failure say so. The desk is as it
/// was.
pub fn proposals<S: Alter, W: Write, E: Write, T: Write>(
    alloc: Global,
    desk: &mut SqlDesk<S>,
    document: u32,
    writer: &mut W,
    teller: &mut Teller<E>,
    notes: &mut T,
) -> Result<u8, Failure>
    ensures done { IfOk result (
        TellsProposals AreRight document (⟦<SqlDesk<S> as Desk>⟧.seen desk.old)
        (⟦<SqlDesk<S> as Desk>⟧.seen desk.new) (W.contents writer.old) (W.contents writer.new)) }
    ensures failed { IfErr result (OfRequest
        (TellsFault (W.contents writer.old) (W.contents writer.new)) (Unit {0})) }
    ensures kept { Kept (⟦<SqlDesk<S> as Desk>⟧.seen desk.old)
        (⟦<SqlDesk<S> as Desk>⟧.seen desk.new) }
    ensures memory { IfErr result
        (IfMemory (Keeps (W.contents writer.old) (W.contents writer.new))) }
{
    match desk.snapshot() {
        Ok(snapshot) => {
            let told = tell_held(alloc, desk, &snapshot, document, writer, teller, notes);
            drop(snapshot);
            told
        }
        Err(fault) => tell_fault(alloc, fault, writer),
    }
}
