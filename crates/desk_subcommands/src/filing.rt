//! The commands whose texts are in files: importing a document, and loading a catalogue.

ghost use Rattle.std.specs.Prelude.{◌≡◌, ◌++◌, ◌∷◌, [], IfOk, IfErr, OnOk, MatchOption, codes};
ghost use Rattle.std.specs.String.{string_bytes};
ghost use Rattle.std.specs.Io.KnownBytes.{Appends, Keeps};
ghost use Rattle.std.specs.Str.{IsUtf8};
ghost use Rattle.desk_model.specs.declared.command.Answer.{Answer};
ghost use Rattle.desk_model.specs.declared.command.Command.TheVariants.{Import, LoadCatalogue};
ghost use Rattle.desk_model.specs.declared.command.Outcome.TheVariants.{Answered, Failed};
ghost use Rattle.desk_report.specs.Terminal.{text_on};
ghost use Rattle.desk_subcommands.specs.Failures.{IfMemory, IfUntold, IsOfOutput, OfRequest};
ghost use Rattle.desk_subcommands.specs.Filing.{answer_status, Comes, HasFailed, IsAnswered, IsUntold, no_desk_line, no_desk_name, no_text, outcome_line};

use crate::failure::Failure;
use crate::teller::Teller;
use desk_base::{Items, Text};
use desk_core::desk::Desk;
use desk_import::Origin;
use desk_json::{memory_line, reply_line};
use desk_model::{Answer, CatalogueFault, Command, Fault, Outcome, Profile, Refusal};
use desk_report::lines_shown;
use desk_snapshot::AuditFault;
use std::alloc::{AllocError, Global};
use std::io::Write;

/// Why a file contains no desk that this program can use.
#[derive(Clone, Copy, Drop, PartialEq, Eq)]
pub enum NoDesk {
    /// It has a table `meta`, but not exactly the tables of a desk.
    NotADesk,
    /// Its tables are of another version.
    BadVersion,
    /// Its tables aren't sound: the first condition of an audit that they don't meet.
    Unsound(AuditFault),
}

// The name of the reason why a file contains no desk.
fn no_desk_name(reason: NoDesk) -> &'static str
    ensures { result.now ≡ no_desk_name reason }
{
    match reason {
        NoDesk::NotADesk => "NotADesk",
        NoDesk::BadVersion => "BadVersion",
        NoDesk::Unsound(fault) => fault.name(),
    }
}

fn status_of(answer: &Answer) -> u8
    ensures { result ≡ answer_status answer.now }
{
    match answer {
        Answer::Refused(_) => 1,
        _ => 0,
    }
}

/// Writes a text as a line.
pub fn write_line<W: Write>(writer: &mut W, text: &str) -> Result<(), Failure>
    ensures ok { OnOk result
        (Appends (W.contents writer.old) (W.contents writer.new) (text.now ++ 10 ∷ [])) }
    ensures err { IfErr result IsOfOutput }
    ensures memory { IfErr result
        (IfMemory (Keeps (W.contents writer.old) (W.contents writer.new))) }
{
    writer.write_all(text.as_bytes())?;
    writer.write_all(b"\n")?;
    writer.flush()?;
    Ok(())
}

/// Writes all of a text.
pub fn write_text<W: Write>(writer: &mut W, text: &[u8]) -> Result<(), Failure>
    ensures ok { OnOk result (Appends (W.contents writer.old) (W.contents writer.new) text.now) }
    ensures err { IfErr result IsOfOutput }
    ensures memory { IfErr result
        (IfMemory (Keeps (W.contents writer.old) (W.contents writer.new))) }
{
    writer.write_all(text)?;
    writer.flush()?;
    Ok(())
}

/// Writes a text; on a terminal, in the form that is safe to show.
pub(crate) fn write_on<W: Write>(
    alloc: Global,
    text: &str,
    is_terminal: bool,
    writer: &mut W,
) -> Result<(), Failure>
    ensures ok { OnOk result (Appends (W.contents writer.old) (W.contents writer.new)
        (text_on is_terminal text.now)) }
    ensures err { IfErr result IsOfOutput }
    ensures memory { IfErr result
        (IfMemory (Keeps (W.contents writer.old) (W.contents writer.new))) }
    ensures untold { IfErr result
        (IfUntold (Keeps (W.contents writer.old) (W.contents writer.new))) }
{
    if is_terminal {
        let shown = lines_shown(alloc, text)?;
        writer.write_all(shown.as_slice())?;
    } else {
        writer.write_all(text.as_bytes())?;
    }
    writer.flush()?;
    Ok(())
}

// Writes the reply to an outcome as a line. Reporting that no memory was left takes no memory.
fn write_reply<W: Write>(alloc: Global, outcome: &Outcome, writer: &mut W) -> Result<(), Failure>
    ensures ok { OnOk result (Appends (W.contents writer.old) (W.contents writer.new)
        (outcome_line outcome.now)) }
    ensures err { IfErr result IsOfOutput }
    ensures memory { IfErr result
        (IfMemory (Keeps (W.contents writer.old) (W.contents writer.new))) }
{
    match outcome {
        Outcome::Failed(Fault::Memory) => write_line(writer, memory_line()),
        _ => {
            let text = reply_line(alloc, outcome)?;
            write_line(writer, text.as_str())
        }
    }
}

/// Writes the reply to an outcome as a line, and returns the program's status. If the desk failed,
/// both the reply and the failure say so.
pub fn tell<W: Write>(alloc: Global, outcome: &Outcome, writer: &mut W) -> Result<u8, Failure>
    ensures done { IfOk result (λ status. (answer : Answer) × (outcome.now ≡ Answered answer)
        × Appends (W.contents writer.old) (W.contents writer.new) (outcome_line (Answered answer))
        × (status ≡ answer_status answer)) }
    ensures failed { IfErr result (OfRequest
        (λ fault. (outcome.now ≡ Failed fault)
        × Appends (W.contents writer.old) (W.contents writer.new) (outcome_line outcome.now))
        (Unit {0})) }
    ensures memory { IfErr result
        (IfMemory (Keeps (W.contents writer.old) (W.contents writer.new))) }
{
    write_reply(alloc, outcome, writer)?;
    match outcome {
        Outcome::Answered(answer) => Ok(status_of(answer)),
        Outcome::Failed(fault) => Err(Failure::Request(*fault)),
    }
}

// Imports a document.
fn import_bytes<D: Desk>(desk: &mut D, bytes: Items<u8>, profile: Profile) -> Outcome
    ensures { Comes D.are_right D.tells D.stands (Import bytes profile) (D.seen desk.old)
        (D.seen desk.new) result }
{
    Outcome::from(desk.import(bytes, profile))
}

// Loads a catalogue.
fn load_text<D: Desk>(desk: &mut D, text: Text) -> Outcome
    ensures { Comes D.are_right D.tells D.stands (LoadCatalogue text) (D.seen desk.old)
        (D.seen desk.new) result }
{
    let command = Command::LoadCatalogue { text };
    let became = desk.apply(&command);
    drop(command);
    Outcome::from(became)
}

// Writes the reply to an outcome as `tell` does, and reports why the request isn't carried out.
fn answer<W: Write, E: Write>(
    alloc: Global,
    outcome: Outcome,
    writer: &mut W,
    teller: &mut Teller<E>,
) -> Result<u8, Failure>
    ensures done { IfOk result (λ status. (answer : Answer) × (outcome ≡ Answered answer)
        × Appends (W.contents writer.old) (W.contents writer.new) (outcome_line (Answered answer))
        × (status ≡ answer_status answer)) }
    ensures failed { IfErr result (OfRequest
        (λ fault. (outcome ≡ Failed fault)
        × Appends (W.contents writer.old) (W.contents writer.new) (outcome_line outcome))
        (Unit {0})) }
    ensures memory { IfErr result
        (IfMemory (Keeps (W.contents writer.old) (W.contents writer.new))) }
{
    let told = tell(alloc, &outcome, writer);
    teller.explain(&outcome);
    drop(outcome);
    told
}

/// Has a desk import a document, as the request `import` does, writes the reply as a line, and
/// returns the program's status. If the desk fails, both the reply and the failure say so. If the
/// reply can't be written, what the desk did is not undone. Besides the reply, it reports what the
/// file of the bytes is.
pub fn import<D: Desk, W: Write, E: Write>(
    alloc: Global,
    desk: &mut D,
    bytes: Items<u8>,
    profile: Profile,
    origin: &Origin,
    writer: &mut W,
    teller: &mut Teller<E>,
) -> Result<u8, Failure>
    ensures done { IfOk result
        (IsAnswered D.are_right D.tells D.stands (Import bytes profile) (D.seen desk.old)
        (D.seen desk.new)
        (W.contents writer.old) (W.contents writer.new)) }
    ensures failed { IfErr result (OfRequest
        (HasFailed D.are_right D.tells D.stands (Import bytes profile) (D.seen desk.old)
        (D.seen desk.new) (W.contents writer.old) (W.contents writer.new))
        (IsUntold D.are_right D.tells D.stands (Import bytes profile) (D.seen desk.old)
        (D.seen desk.new))) }
    ensures memory { IfErr result
        (IfMemory (Keeps (W.contents writer.old) (W.contents writer.new))) }
{
    let outcome = import_bytes(desk, bytes, profile);
    let told = answer(alloc, outcome, writer, teller);
    teller.report(origin);
    told
}

/// Has a desk load a catalogue, as the request `catalogue` does, writes the reply as a line, and
/// returns the program's status. If the desk fails, both the reply and the failure say so. If the
/// reply can't be written, what the desk did is not undone.
pub fn catalogue<D: Desk, W: Write, E: Write>(
    alloc: Global,
    desk: &mut D,
    text: Text,
    writer: &mut W,
    teller: &mut Teller<E>,
) -> Result<u8, Failure>
    ensures done { IfOk result
        (IsAnswered D.are_right D.tells D.stands (LoadCatalogue text) (D.seen desk.old)
        (D.seen desk.new)
        (W.contents writer.old) (W.contents writer.new)) }
    ensures failed { IfErr result (OfRequest
        (HasFailed D.are_right D.tells D.stands (LoadCatalogue text) (D.seen desk.old)
        (D.seen desk.new) (W.contents writer.old) (W.contents writer.new))
        (IsUntold D.are_right D.tells D.stands (LoadCatalogue text) (D.seen desk.old)
        (D.seen desk.new))) }
    ensures memory { IfErr result
        (IfMemory (Keeps (W.contents writer.old) (W.contents writer.new))) }
{
    let outcome = load_text(desk, text);
    answer(alloc, outcome, writer, teller)
}

/// The text that bytes are, or `None` if they are not UTF-8.
pub fn text_of(alloc: Global, bytes: &[u8]) -> Result<Option<Text>, AllocError>
    ensures { IfOk result (λ found. MatchOption found (¬ (IsUtf8 bytes.now)) (λ text.
        (text ≡ bytes.now) × IsUtf8 bytes.now)) }
{
    match str::from_utf8(bytes) {
        Ok(text) => Ok(Some(Text::of(alloc, text)?)),
        Err(_) => Ok(None),
    }
}

/// Writes the reply to the loading of a catalogue that isn't text, which is refused as not being a
/// TOML document, and returns the program's status.
pub fn refuse_catalogue<W: Write, E: Write>(
    alloc: Global,
    writer: &mut W,
    teller: &mut Teller<E>,
) -> Result<u8, Failure>
    ensures told { IfOk result (λ status. (status ≡ 1)
        × Appends (W.contents writer.old) (W.contents writer.new) (outcome_line no_text)) }
    ensures fails { IfErr result IsOfOutput }
    ensures memory { IfErr result
        (IfMemory (Keeps (W.contents writer.old) (W.contents writer.new))) }
{
    let outcome = Outcome::Answered(Answer::Refused(Refusal::BadCatalogue(
        CatalogueFault::NotToml,
    )));
    answer(alloc, outcome, writer, teller)
}

// The line that says why a file contains no desk, without its end.
fn no_desk_text(alloc: Global, reason: NoDesk) -> Result<String, AllocError>
    ensures { IfOk result (λ text. string_bytes text ≡ codes "fault: " ++ no_desk_name reason) }
{
    let mut text = String::from_str(alloc, "fault: ")?;
    text.push_str(no_desk_name(reason))?;
    Ok(text)
}

/// Writes why a file contains no desk, as a line, and returns the program's status.
pub fn refuse_database<W: Write>(
    alloc: Global,
    reason: NoDesk,
    writer: &mut W,
) -> Result<u8, Failure>
    ensures told { IfOk result (λ status. (status ≡ 1)
        × Appends (W.contents writer.old) (W.contents writer.new) (no_desk_line reason)) }
    ensures fails { IfErr result IsOfOutput }
    ensures memory { IfErr result
        (IfMemory (Keeps (W.contents writer.old) (W.contents writer.new))) }
{
    let text = no_desk_text(alloc, reason)?;
    write_line(writer, text.as_str())?;
    Ok(1)
}
