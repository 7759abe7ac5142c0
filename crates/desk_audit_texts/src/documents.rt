//! Checks the documents, their packages and their extracted licences.

ghost use Rattle.std.specs.Prelude.{◌≡◌, ◌∷◌, [], IfOk, map, true, false};
ghost use Rattle.std.specs.Bool.{Decides};
ghost use Rattle.std.specs.List.{list_all};
ghost use Rattle.std.specs.Option.{MatchOption};
ghost use Rattle.desk_model.specs.Readings.{Readings};
ghost use Rattle.desk_audit_texts.specs.Listed.{AreListed, IsReadAs};
ghost use Rattle.desk_snapshot.specs.Conditions.{is_profile};
ghost use Rattle.desk_snapshot.specs.Reports.{IsFirst};
ghost use Rattle.desk_snapshot.specs.declared.fault.AuditFault.TheVariants.{BadDocument, BadPackage};

use crate::left::{are_used_up, left_behind};
use crate::numbering::{Numbered, are_numbered};
use desk_access::texts::Texts;
use desk_model::Document;
use desk_snapshot::{AuditFault, Snapshot, StoredDocument, StoredReading};
use std::alloc::{AllocError, Global};

/// Whether the rows of profiles are those of the documents, in their order.
fn are_profiled(readings: &[StoredReading], documents: &[StoredDocument]) -> bool
    ensures { Decides result
        (map (λ row. row.document) readings.now ≡ map (λ row. row.number) documents.now) }
{
    let mut rest = readings;
    for document in documents {
        let Some((reading, behind)) = rest.split_first() else {
            return false;
        };
        if reading.document != document.number {
            return false;
        }
        rest = behind;
    }
    rest.is_empty()
}

/// Whether each row has the number of a profile.
fn are_profiles(readings: &[StoredReading]) -> bool
    ensures { result ≡ list_all is_profile readings.now }
{
    readings
        .iter()
        .all(|row| row.profile == 1 || row.profile == 2)
}

/// Whether the documents are numbered from 1, and each has a profile.
fn are_listed(snapshot: &Snapshot) -> bool
    ensures { Decides result (AreListed snapshot.now) }
{
    let documents = snapshot.document.as_slice();
    let readings = snapshot.reading.as_slice();
    are_numbered(documents) && are_profiled(readings, documents) && are_profiles(readings)
}

/// The document that the bytes of a row are, if they are one with the namespace of the row.
fn document_read<T: Texts>(
    alloc: Global,
    texts: &T,
    row: &StoredDocument,
) -> Result<Option<Document>, AllocError>
    ensures { (w : Readings) → T.are_right w → IfOk result (IsReadAs w row.now) }
{
    let Ok(document) = texts.document(alloc, row.bytes.as_slice())? else {
        return Ok(None);
    };
    if document.namespace != row.namespace {
        return Ok(None);
    }
    Ok(Some(document))
}

/// The first of `BadDocument` and `BadPackage` whose condition isn't met. The bytes of each
/// document are read once. The only error is lack of memory.
pub fn document_fault<T: Texts>(
    alloc: Global,
    texts: &T,
    snapshot: &Snapshot,
) -> Result<Option<AuditFault>, AllocError>
    ensures { (w : Readings) → T.are_right w
        → IfOk result (IsFirst w snapshot.now (BadDocument ∷ BadPackage ∷ [])) }
{
    if !are_listed(snapshot) {
        return Ok(Some(AuditFault::BadDocument));
    }
    let documents = snapshot.document.as_slice();
    let mut packages = Some(snapshot.packages.as_slice());
    let mut extracted = Some(snapshot.extracted.as_slice());
    for row in documents {
        let Some(document) = document_read(alloc, texts, row)? else {
            return Ok(Some(AuditFault::BadDocument));
        };
        let number = row.number();
        packages = left_behind(packages, number, document.packages.as_slice());
        extracted = left_behind(extracted, number, document.references.as_slice());
    }
    if !are_used_up(packages) || !are_used_up(extracted) {
        return Ok(Some(AuditFault::BadPackage));
    }
    Ok(None)
}
