//! What is proposed for a document that a desk holds.

ghost use Rattle.std.specs.Prelude.{◌≡◌, pos, ℕ, List, Option, find, map, IfOk, IfErr};
ghost use Rattle.std.specs.Io.KnownBytes.{Appends, Keeps};
ghost use Rattle.std.specs.Option.{option_copied};
ghost use Rattle.desk_expr.specs.Tree.{Tree};
ghost use Rattle.desk_findings.specs.Fields.{IsReading};
ghost use Rattle.desk_model.specs.Readings.{Readings};
ghost use Rattle.desk_snapshot.specs.Conditions.{profile_at};
ghost use Rattle.desk_tagvalue.specs.Documents.{document_text};
ghost use Rattle.desk_tagvalue.specs.Views.{package_text};
ghost use Rattle.desk_subcommands.specs.Failures.{IfMemory, IsOfOutput};
ghost use Rattle.desk_views.specs.Proposing.{ProposesHeld, document_held, is_document, is_open_with, open_releases_with, with_conclusion};

use crate::proposals::{refuse_document, write_proposals};
use desk_access::texts::Texts;
use desk_base::{Items, Text};
use desk_model::ReleaseState;
use desk_snapshot::{ByAttachment, ByPackage, Snapshot, StoredDocument, StoredRelease, profile_at};
use desk_subcommands::Failure;
use desk_tagvalue::{Document, Package, read};
use std::alloc::{AllocError, Global};
use std::io::Write;

/// The row of the document with this number, if the desk holds one.
pub fn document_row(snapshot: &Snapshot, number: u32) -> Option<&StoredDocument>
    ensures { option_copied result ≡ find (is_document number) snapshot.now.document }
{
    let number = i64::from(number);
    snapshot
        .document
        .as_slice()
        .iter()
        .find(|row| row.number == number)
}

// A package with the office's conclusion in place of its own, if there is one.
fn with_conclusion<'a>(snapshot: &'a Snapshot, document: i64, text: &Package<'a>) -> Package<'a>
    ensures { package_text result ≡ with_conclusion snapshot.now document (package_text text.now) }
{
    let key = ByPackage {
        document,
        package_id: text.id,
    };
    match snapshot.conclusion.find(&key) {
        Some(row) => Package {
            concluded: Some(row.expression.as_str()),
            ..*text
        },
        None => *text,
    }
}

fn packages_held<'a>(
    alloc: Global,
    snapshot: &'a Snapshot,
    document: i64,
    packages: &[Package<'a>],
) -> Result<Vec<Package<'a>>, AllocError>
    ensures { IfOk result (λ held. map package_text held.items
        ≡ map (λ text. with_conclusion snapshot.now document (package_text text)) packages.now) }
{
    let mut held = Vec::with_capacity(alloc, packages.len())?;
    for text in packages {
        held.push(with_conclusion(snapshot, document, text))?;
    }
    Ok(held)
}

// A document with the office's conclusions.
fn document_held<'a>(
    alloc: Global,
    snapshot: &'a Snapshot,
    number: i64,
    document: Document<'a>,
) -> Result<Document<'a>, AllocError>
    ensures { IfOk result (λ held. document_text held
        ≡ document_held snapshot.now number (document_text document.entry)) }
{
    let packages = match packages_held(alloc, snapshot, number, document.packages.as_slice()) {
        Ok(packages) => packages,
        Err(error) => {
            drop(document);
            return Err(error);
        }
    };
    Ok(Document {
        packages: Items::from_vec(packages),
        ..document
    })
}

/// Writes the requests that conclude the declared licence of each package of a document that ships
/// without a conclusion, and returns the program's status. The desk holds the document under this
/// number, with these bytes. What the office concluded counts as a conclusion too, and is read by
/// the document's profile, like those of the document. All else is as for
/// `desk_subcommands::propose`.
pub fn propose_held<X: Texts, W: Write, T: Write>(
    alloc: Global,
    texts: &X,
    snapshot: &Snapshot,
    number: u32,
    bytes: &[u8],
    writer: &mut W,
    teller: &mut T,
) -> Result<u8, Failure>
    ensures told { (w : Readings) (reads : List ℕ → Option Tree) → X.are_right w
        → IsReading (profile_at snapshot.now (pos number)) reads
        → IfOk result (λ status. (text : List ℕ)
        × ProposesHeld w reads snapshot.now number bytes.now text status
        × Appends (W.contents writer.old) (W.contents writer.new) text) }
    ensures fails { IfErr result IsOfOutput }
    ensures memory { IfErr result
        (IfMemory (Keeps (W.contents writer.old) (W.contents writer.new))) }
{
    match read(alloc, bytes) {
        Ok(document) => {
            let document = document_held(alloc, snapshot, i64::from(number), document)?;
            let profile = profile_at(snapshot, i64::from(number));
            let status = write_proposals(alloc, number, &document, profile, writer, teller);
            drop(document);
            status
        }
        Err(fault) => {
            drop(fault);
            refuse_document(alloc, texts, bytes, writer)
        }
    }
}

// Whether a release is open and a document is attached to it.
fn is_open_with(snapshot: &Snapshot, document: i64, release: &StoredRelease) -> bool
    ensures { result ≡ is_open_with snapshot.now document release.now }
{
    let key = ByAttachment {
        release: release.name.as_str(),
        document,
    };
    release.state.as_str() == ReleaseState::IsOpen.name() && snapshot.attached.find(&key).is_some()
}

/// The names of the open releases to which the document with this number is attached, in the order
/// of the table.
pub fn open_releases(
    alloc: Global,
    snapshot: &Snapshot,
    number: u32,
) -> Result<Vec<Text>, AllocError>
    ensures { IfOk result (λ names. names.items ≡ open_releases_with snapshot.now (pos number)) }
{
    let document = i64::from(number);
    let mut names = Vec::new(alloc);
    for release in snapshot.releases.as_slice() {
        if is_open_with(snapshot, document, release) {
            names.push(release.name.clone()?)?;
        }
    }
    Ok(names)
}
