//! The audit of a desk's tables: the first of ten conditions (`desk_snapshot`) that their rows
//! don't meet.
//!
//! `desk_audit_texts` judges the conditions for which texts are read. This crate judges those of
//! duties: their numbers, what they are owed for, their changes and their states. It also puts all
//! ten in order.
#![tactic(auto)]

mod changes;
mod duties;
mod moves;
mod numbers;
mod owed;
mod rules;
mod states;
mod words;

ghost use Rattle.std.specs.Prelude.{◌≡◌, pos, [], ◌∷◌, IfOk};
ghost use Rattle.std.specs.Bool.{Decides};
ghost use Rattle.desk_model.specs.Readings.{Readings};
ghost use Rattle.desk_snapshot.specs.Reports.{IsFirst, IsReport};
ghost use Rattle.desk_snapshot.specs.declared.fault.AuditFault.TheVariants.{BadChange, BadChoice, BadDocument, BadDuty, BadMeta, BadNumber, BadPackage, BadRevision, BadRule, BadState};
ghost use Rattle.desk_texts.specs.Right.{AreRight};

pub use changes::change_fault;
use desk_access::texts::Texts;
use desk_audit_texts::{catalogue_fault, choice_fault, document_fault};
use desk_snapshot::{AuditFault, AuditReport, Snapshot, StoredMeta};
use desk_texts::Standard;
pub use duties::duty_fault;
pub use numbers::number_fault;
pub use states::state_fault;
use std::alloc::{AllocError, Global};

/// The version of the tables that a desk has.
const VERSION: i64 = 3;

/// Whether there is one row, with this version.
fn has_version(rows: &[StoredMeta]) -> bool
    ensures { Decides result (rows.now ≡ (record { version = pos 3 }) ∷ []) }
{
    match rows {
        [row] => row.version == VERSION,
        _ => false,
    }
}

/// The first condition of versions, catalogues and documents that isn't met.
fn fault_of_texts<T: Texts>(
    alloc: Global,
    texts: &T,
    snapshot: &Snapshot,
) -> Result<Option<AuditFault>, AllocError>
    ensures { (w : Readings) → T.are_right w → IfOk result (IsFirst w snapshot.now
        (BadMeta ∷ BadRevision ∷ BadRule ∷ BadDocument ∷ BadPackage ∷ [])) }
{
    if !has_version(snapshot.meta.as_slice()) {
        return Ok(Some(AuditFault::BadMeta));
    }
    let found = catalogue_fault(alloc, texts, snapshot)?;
    match found {
        Some(fault) => Ok(Some(fault)),
        None => document_fault(alloc, texts, snapshot),
    }
}

/// The first condition of changes and states that isn't met.
fn fault_of_changes(snapshot: &Snapshot) -> Option<AuditFault>
    ensures { (w : Readings) → IsFirst w snapshot.now (BadChange ∷ BadState ∷ []) result }
{
    match change_fault(snapshot) {
        Some(fault) => Some(fault),
        None => state_fault(snapshot),
    }
}

/// The first condition of what is owed, of changes and of states that isn't met.
fn fault_of_owed(alloc: Global, snapshot: &Snapshot) -> Result<Option<AuditFault>, AllocError>
    ensures { IfOk result (λ found. (w : Readings) → IsFirst w snapshot.now
        (BadDuty ∷ BadChange ∷ BadState ∷ []) found) }
{
    let found = duty_fault(alloc, snapshot)?;
    match found {
        Some(fault) => Ok(Some(fault)),
        None => Ok(fault_of_changes(snapshot)),
    }
}

/// The first condition of duties and their changes that isn't met.
fn fault_of_duties(alloc: Global, snapshot: &Snapshot) -> Result<Option<AuditFault>, AllocError>
    ensures { (w : Readings) → IfOk result (IsFirst w snapshot.now
        (BadNumber ∷ BadDuty ∷ BadChange ∷ BadState ∷ [])) }
{
    match number_fault(snapshot) {
        Some(fault) => Ok(Some(fault)),
        None => fault_of_owed(alloc, snapshot),
    }
}

/// The first condition of what the office decided, of duties and of their changes that isn't met.
fn fault_of_office<T: Texts>(
    alloc: Global,
    texts: &T,
    snapshot: &Snapshot,
) -> Result<Option<AuditFault>, AllocError>
    ensures { (w : Readings) → T.are_right w → IfOk result (IsFirst w snapshot.now
        (BadChoice ∷ BadNumber ∷ BadDuty ∷ BadChange ∷ BadState ∷ [])) }
{
    let found = choice_fault(alloc, texts, snapshot)?;
    match found {
        Some(fault) => Ok(Some(fault)),
        None => fault_of_duties(alloc, snapshot),
    }
}

/// The first of the ten conditions that isn't met.
fn first_fault<T: Texts>(
    alloc: Global,
    texts: &T,
    snapshot: &Snapshot,
) -> Result<Option<AuditFault>, AllocError>
    ensures { (w : Readings) → T.are_right w → IfOk result (IsFirst w snapshot.now
        (BadMeta ∷ BadRevision ∷ BadRule ∷ BadDocument ∷ BadPackage
        ∷ BadChoice ∷ BadNumber ∷ BadDuty ∷ BadChange ∷ BadState ∷ [])) }
{
    let found = fault_of_texts(alloc, texts, snapshot)?;
    match found {
        Some(fault) => Ok(Some(fault)),
        None => fault_of_office(alloc, texts, snapshot),
    }
}

/// The report on a snapshot: sound if the ten conditions are met, or else the first that isn't.
/// Texts are read by their standards.
pub fn judge(alloc: Global, snapshot: &Snapshot) -> Result<AuditReport, AllocError>
    ensures { (w : Readings) → AreRight w → IfOk result (IsReport w snapshot.now) }
{
    let found = first_fault(alloc, &Standard, snapshot)?;
    match found {
        Some(fault) => Ok(AuditReport::Unsound(fault)),
        None => Ok(AuditReport::Sound),
    }
}
