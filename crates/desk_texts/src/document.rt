//! What the desk keeps of a document.

ghost use Rattle.std.specs.Prelude.{◌≡◌, ◌≢◌, IfOk, OnOk, Option, Result, map, ℕ, Bool, List};
ghost use Rattle.desk_fields.specs.declared.fault.DocFault.{DocFault};
ghost use Rattle.desk_fields.specs.Tags.{tag_name};
ghost use Rattle.desk_tagvalue.specs.Documents.{Spells, document_text};
ghost use Rattle.desk_tagvalue.specs.Entries.{value_text};
ghost use Rattle.desk_tagvalue.specs.Parts.{DocumentText};
ghost use Rattle.desk_tagvalue.specs.Views.{package_text, extracted_text};
ghost use Rattle.desk_texts.specs.Documents.{package_of, reference_of, sorted_by, marked, document_of, fault_of, Keeps};
ghost use Rattle.desk_texts.specs.Shipments.{shipment_text};
ghost use Rattle.desk_bom.specs.Shipping.{AreShippingMarks};

use crate::sorting::{Identified, sorted_by};
use desk_base::{Items, Text};
use desk_bom::{first_mark, ships};
use desk_fields::Tag;
use desk_model::{Document, DocumentFault, Package, Reference};
use desk_tagvalue::{DocFault, Extracted, read};
use std::alloc::{AllocError, Global};
use std::collections::VecDeque;

/// A package of a document, and whether the document ships it.
#[derive(Clone, Copy)]
struct Shipment<'s, 'a> {
    text: &'s desk_tagvalue::Package<'a>,
    ships: bool,
}

impl Identified for Shipment<'_, '_> {
    ghost id_of = { λ s. s.text.now.id.now };

    fn id(&self) -> &str {
        self.text.id
    }
}

impl Identified for Extracted<'_> {
    ghost id_of = { λ x. x.id.now };

    fn id(&self) -> &str {
        self.id
    }
}

fn copy_of(alloc: Global, value: Option<&str>) -> Result<Option<Text>, AllocError>
    ensures { IfOk result (λ copy. copy ≡ value_text value.entry) }
{
    match value {
        Some(text) => Ok(Some(Text::of(alloc, text)?)),
        None => Ok(None),
    }
}

fn package_of(alloc: Global, shipment: &Shipment<'_, '_>) -> Result<Package, AllocError>
    ensures { IfOk result (λ kept. kept ≡ package_of (shipment_text shipment.now)) }
{
    let text = shipment.text;
    Ok(Package {
        id: Text::of(alloc, text.id)?,
        name: Text::of(alloc, text.name)?,
        version: copy_of(alloc, text.version)?,
        concluded: copy_of(alloc, text.concluded)?,
        copyright: copy_of(alloc, text.copyright)?,
        shipped: shipment.ships,
    })
}

fn reference_of(alloc: Global, extracted: &Extracted<'_>) -> Result<Reference, AllocError>
    ensures { IfOk result (λ kept. kept ≡ reference_of (extracted_text extracted.now)) }
{
    Ok(Reference {
        id: Text::of(alloc, extracted.id)?,
        body: copy_of(alloc, extracted.text)?,
    })
}

fn package_copies(
    alloc: Global,
    shipments: VecDeque<&Shipment<'_, '_>>,
) -> Result<Items<Package>, AllocError>
    ensures { IfOk result (λ kept. kept
        ≡ map (λ s. package_of (shipment_text s.now)) shipments.entry.items) }
{
    let mut kept = Vec::with_capacity(alloc, shipments.len())?;
    for shipment in shipments {
        kept.push(package_of(alloc, shipment)?)?;
    }
    Ok(Items::from_vec(kept))
}

fn shipments<'s, 'a>(
    alloc: Global,
    packages: &'s [desk_tagvalue::Package<'a>],
    marks: &[bool],
) -> Result<Vec<Shipment<'s, 'a>>, AllocError>
    ensures { IfOk result (λ found. map shipment_text found.items
        ≡ marked (map package_text packages.now) marks.now) }
{
    let mut found = Vec::with_capacity(alloc, packages.len())?;
    let mut rest = marks;
    for text in packages {
        let (ships, behind) = first_mark(rest);
        found.push(Shipment { text, ships })?;
        rest = behind;
    }
    Ok(found)
}

fn packages_of(alloc: Global, shipments: &[Shipment<'_, '_>]) -> Result<Items<Package>, AllocError>
    ensures { IfOk result (λ kept. kept ≡ map package_of (sorted_by (λ m.
        m.0.id) (map shipment_text shipments.now))) }
{
    let sorted = sorted_by(alloc, shipments)?;
    let kept = package_copies(alloc, sorted)?;
    Ok(kept)
}

fn reference_copies(
    alloc: Global,
    extracted: VecDeque<&Extracted<'_>>,
) -> Result<Items<Reference>, AllocError>
    ensures { IfOk result (λ kept. kept ≡ map (λ x.
        reference_of (extracted_text x.now)) extracted.entry.items) }
{
    let mut kept = Vec::with_capacity(alloc, extracted.len())?;
    for one in extracted {
        kept.push(reference_of(alloc, one)?)?;
    }
    Ok(Items::from_vec(kept))
}

fn references_of(alloc: Global, extracted: &[Extracted<'_>]) -> Result<Items<Reference>, AllocError>
    ensures { IfOk result (λ kept. kept ≡ map reference_of (sorted_by (λ x.
        x.id) (map extracted_text extracted.now))) }
{
    let sorted = sorted_by(alloc, extracted)?;
    let kept = reference_copies(alloc, sorted)?;
    Ok(kept)
}

fn document_of(
    alloc: Global,
    document: &desk_tagvalue::Document<'_>,
) -> Result<Document, AllocError>
    ensures { IfOk result (λ kept. (marks : List Bool)
        × AreShippingMarks (document_text document.now) marks
        × (kept ≡ document_of marks (document_text document.now))) }
{
    let marks = ships(alloc, document)?;
    let shipments = shipments(alloc, document.packages.as_slice(), marks.as_slice())?;
    Ok(Document {
        namespace: Text::of(alloc, document.namespace)?,
        packages: packages_of(alloc, shipments.as_slice())?,
        references: references_of(alloc, document.extracted.as_slice())?,
    })
}

fn tag_text(alloc: Global, tag: Tag) -> Result<Text, AllocError>
    ensures { IfOk result (λ text. text ≡ tag_name tag) }
{
    Text::of(alloc, tag.name())
}

/// A document's fault, or an error if it is that no memory was left.
fn fault_of(alloc: Global, fault: DocFault) -> Result<DocumentFault, AllocError>
    ensures fault { IfOk result (λ kept. kept ≡ fault_of fault) }
    ensures told { OnOk result (fault ≡ DocFault.Memory → ⊥) }
{
    match fault {
        DocFault::Memory => Err(AllocError),
        DocFault::NotUtf8 => Ok(DocumentFault::NotUtf8),
        DocFault::NoColon(line) => Ok(DocumentFault::NoColon(line)),
        DocFault::OpenText(line) => Ok(DocumentFault::OpenText(line)),
        DocFault::AfterText(line) => Ok(DocumentFault::AfterText(line)),
        DocFault::BadVersion(line) => Ok(DocumentFault::BadVersion(line)),
        DocFault::Missing(line, tag) => Ok(DocumentFault::Missing {
            line,
            tag: tag_text(alloc, tag)?,
        }),
        DocFault::BadId(line) => Ok(DocumentFault::BadId(line)),
        DocFault::DuplicateId(line) => Ok(DocumentFault::DuplicateId(line)),
        DocFault::Repeated(line, tag) => Ok(DocumentFault::Repeated {
            line,
            tag: tag_text(alloc, tag)?,
        }),
        DocFault::BadRelationship(line) => Ok(DocumentFault::BadRelationship(line)),
        DocFault::TooLarge => Ok(DocumentFault::TooLarge),
        DocFault::TooManyElements(line) => Ok(DocumentFault::TooManyElements(line)),
    }
}

/// The document that bytes spell, as the desk keeps it, with which of its packages ship, or the
/// fault of the bytes.
pub(crate) fn read_document(
    alloc: Global,
    bytes: &[u8],
) -> Result<Result<Document, DocumentFault>, AllocError>
    ensures { IfOk result (λ answer. (read : Result DocumentText DocFault) × Spells bytes.now read
        × Keeps read answer) }
{
    match read(alloc, bytes) {
        Ok(document) => Ok(Ok(document_of(alloc, &document)?)),
        Err(fault) => Ok(Err(fault_of(alloc, fault)?)),
    }
}
