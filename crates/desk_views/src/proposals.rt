//! The conclusions that are proposed for a document, written out.

ghost use Rattle.std.specs.Prelude.{◌≡◌, ℕ, List, Option, IfOk, IfErr};
ghost use Rattle.std.specs.Io.KnownBytes.{Appends, Keeps};
ghost use Rattle.desk_expr.specs.Tree.{Tree};
ghost use Rattle.desk_findings.specs.Fields.{IsReading};
ghost use Rattle.desk_model.specs.Readings.{Readings};
ghost use Rattle.desk_tagvalue.specs.Documents.{document_text};
ghost use Rattle.desk_subcommands.specs.Failures.{IfMemory, IsOfOutput};
ghost use Rattle.desk_views.specs.Proposals.{HasLines, IsRefused, Proposes};

use desk_access::texts::Texts;
use desk_base::Profile;
use desk_import::{Proposals, Standing, proposals_of};
use desk_model::{Answer, Outcome, Refusal};
use desk_subcommands::{Failure, Teller, tell};
use desk_tagvalue::{Document, Package, read};
use std::alloc::{AllocError, Global};
use std::io::Write;

// Adds the line that names a package that is left out, and what it declares.
fn add_left_out(alloc: Global, text: &mut String, package: &Package<'_>) -> Result<(), AllocError> {
    let id = package.id;
    let line = match package.declared {
        Some(declared) => {
            format!(in alloc;
                "left out: {id}, which declares {declared:?}, no licence expression\n"
            )?
        }
        None => format!(in alloc; "left out: {id}, which declares no licence\n")?,
    };
    text.push_str(line.as_str())
}

// The lines that name the packages that are left out.
fn left_out_lines(
    alloc: Global,
    packages: &[Package<'_>],
    standings: &[Standing],
) -> Result<String, AllocError> {
    let mut text = String::new(alloc);
    for (package, standing) in packages.iter().zip(standings) {
        if let Standing::Neither = standing {
            add_left_out(alloc, &mut text, package)?;
        }
    }
    Ok(text)
}

// Reports how many conclusions are proposed, and names the packages that are left out. The lines
// themselves may go into a file.
fn tell_counts<T: Write>(
    alloc: Global,
    profile: Profile,
    proposals: &Proposals,
    packages: &[Package<'_>],
    teller: &mut T,
) -> Result<(), Failure> {
    let profile = profile.number();
    let left_out = left_out_lines(alloc, packages, proposals.standings.as_slice())?;
    let told = format!(in alloc; "read by profile {profile}: {proposals}\n{left_out}")?;
    teller.write_all(told.as_bytes())?;
    Ok(())
}

/// Writes the requests that conclude the declared licence of each package of a document that ships
/// without a conclusion, as `propose` does for the bytes of one.
pub fn write_proposals<W: Write, T: Write>(
    alloc: Global,
    number: u32,
    document: &Document<'_>,
    profile: Profile,
    writer: &mut W,
    teller: &mut T,
) -> Result<u8, Failure>
    ensures told { (reads : List ℕ → Option Tree) → IsReading profile reads
        → IfOk result (λ status. (text : List ℕ)
        × HasLines reads number (document_text document.now) text status
        × Appends (W.contents writer.old) (W.contents writer.new) text) }
    ensures fails { IfErr result IsOfOutput }
    ensures memory { IfErr result
        (IfMemory (Keeps (W.contents writer.old) (W.contents writer.new))) }
{
    let proposals = proposals_of(alloc, number, document, profile)?;
    writer.write_all(proposals.lines.as_bytes())?;
    writer.flush()?;
    // If that can't be reported, the lines are still written.
    let packages = document.packages.as_slice();
    let _told = tell_counts(alloc, profile, &proposals, packages, teller);
    Ok(0)
}

/// Writes the reply to an import of bytes that are no document, and returns the program's status.
pub fn refuse_document<X: Texts, W: Write>(
    alloc: Global,
    texts: &X,
    bytes: &[u8],
    writer: &mut W,
) -> Result<u8, Failure>
    ensures told { (w : Readings) → X.are_right w → IfOk result (λ status. (text : List ℕ)
        × IsRefused w bytes.now text status
        × Appends (W.contents writer.old) (W.contents writer.new) text) }
    ensures fails { IfErr result IsOfOutput }
    ensures memory { IfErr result
        (IfMemory (Keeps (W.contents writer.old) (W.contents writer.new))) }
{
    match texts.document(alloc, bytes)? {
        Err(fault) => {
            let outcome = Outcome::Answered(Answer::Refused(Refusal::BadDocument(fault)));
            let told = tell(alloc, &outcome, writer);
            drop(outcome);
            told
        }
        // It is a document, so there was no memory to read it before.
        Ok(document) => {
            drop(document);
            Err(Failure::Memory(AllocError))
        }
    }
}

/// Explains why bytes are no document, if that is why nothing is proposed for them.
pub fn explain_document<X: Texts, E: Write>(
    alloc: Global,
    texts: &X,
    bytes: &[u8],
    teller: &mut Teller<E>,
) {
    if let Ok(Err(fault)) = texts.document(alloc, bytes) {
        let outcome = Outcome::Answered(Answer::Refused(Refusal::BadDocument(fault)));
        teller.explain(&outcome);
        drop(outcome);
    }
}

/// Writes the requests that conclude the declared licence of each package of a document that ships
/// without a conclusion, and returns the program's status. The desk knows the document by this
/// number, and its licence expressions are read by the profile. For bytes that are no document, the
/// reply is that to an import of them. How many conclusions are proposed, and how many packages are
/// left out, is reported to another writer.
pub fn propose<X: Texts, W: Write, T: Write>(
    alloc: Global,
    texts: &X,
    number: u32,
    bytes: &[u8],
    profile: Profile,
    writer: &mut W,
    teller: &mut T,
) -> Result<u8, Failure>
    ensures told { (w : Readings) (reads : List ℕ → Option Tree) → X.are_right w
        → IsReading profile reads
        → IfOk result (λ status. (text : List ℕ) × Proposes w reads number bytes.now text status
        × Appends (W.contents writer.old) (W.contents writer.new) text) }
    ensures fails { IfErr result IsOfOutput }
    ensures memory { IfErr result
        (IfMemory (Keeps (W.contents writer.old) (W.contents writer.new))) }
{
    match read(alloc, bytes) {
        Ok(document) => write_proposals(alloc, number, &document, profile, writer, teller),
        Err(_fault) => refuse_document(alloc, texts, bytes, writer),
    }
}
