//! Checks what the office decided.

ghost use Rattle.std.specs.Prelude.{◌≡◌, IfOk, [], ◌∷◌};
ghost use Rattle.std.specs.Bool.{Decides};
ghost use Rattle.desk_model.specs.Readings.{Readings};
ghost use Rattle.desk_snapshot.specs.Conditions.{AreChoices};
ghost use Rattle.desk_snapshot.specs.Reports.{IsFirst};

use crate::adoptions::are_adoptions;
use crate::conclusions::are_expressions;
use crate::held::are_choices;
use crate::kept::are_kept;
use crate::places::are_places;
use desk_access::texts::Texts;
use desk_snapshot::{AuditFault, Snapshot};
use std::alloc::{AllocError, Global};

/// Whether the office can have made the conclusions, adoptions, places and choices.
fn is_met<T: Texts>(alloc: Global, texts: &T, snapshot: &Snapshot) -> Result<bool, AllocError>
    ensures { (w : Readings) → T.are_right w
        → IfOk result (λ is. Decides is (AreChoices w snapshot.now)) }
{
    Ok(
        are_expressions(alloc, texts, snapshot.conclusion.as_slice())?
            && are_adoptions(alloc, texts, snapshot.adoption.as_slice())?
            && are_places(alloc, snapshot.releases.as_slice())?
            && are_choices(alloc, texts, snapshot)?
            && are_kept(snapshot),
    )
}

/// The fault `BadChoice` if the office can't have made the conclusions, adoptions, places and
/// choices, or none if it can. The only error is lack of memory.
pub fn choice_fault<T: Texts>(
    alloc: Global,
    texts: &T,
    snapshot: &Snapshot,
) -> Result<Option<AuditFault>, AllocError>
    ensures { (w : Readings) → T.are_right w
        → IfOk result (IsFirst w snapshot.now (AuditFault.BadChoice ∷ [])) }
{
    if is_met(alloc, texts, snapshot)? {
        Ok(None)
    } else {
        Ok(Some(AuditFault::BadChoice))
    }
}
