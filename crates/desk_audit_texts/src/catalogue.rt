//! Checks the revisions of the catalogue and their rules.

ghost use Rattle.std.specs.Prelude.{◌≡◌, ◌∷◌, [], IfOk};
ghost use Rattle.desk_model.specs.Readings.{Readings};
ghost use Rattle.desk_snapshot.specs.Reports.{IsFirst};
ghost use Rattle.desk_snapshot.specs.declared.fault.AuditFault.TheVariants.{BadRevision, BadRule};

use crate::left::{are_used_up, left_behind};
use crate::numbering::{Numbered, are_numbered};
use desk_access::texts::Texts;
use desk_snapshot::{AuditFault, Snapshot};
use std::alloc::{AllocError, Global};

/// The first of `BadRevision` and `BadRule` whose condition isn't met. Each body is read once. The
/// only error is lack of memory.
pub fn catalogue_fault<T: Texts>(
    alloc: Global,
    texts: &T,
    snapshot: &Snapshot,
) -> Result<Option<AuditFault>, AllocError>
    ensures { (w : Readings) → T.are_right w
        → IfOk result (IsFirst w snapshot.now (BadRevision ∷ BadRule ∷ [])) }
{
    let catalogue = snapshot.catalogue.as_slice();
    if !are_numbered(catalogue) {
        return Ok(Some(AuditFault::BadRevision));
    }
    let mut left = Some(snapshot.rule.as_slice());
    for row in catalogue {
        match texts.catalogue(alloc, row.body.as_str())? {
            Ok(read) => left = left_behind(left, row.number(), read.rules.as_slice()),
            Err(_) => return Ok(Some(AuditFault::BadRevision)),
        }
    }
    if !are_used_up(left) {
        return Ok(Some(AuditFault::BadRule));
    }
    Ok(None)
}
