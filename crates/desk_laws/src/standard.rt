//! The desk in memory that reads texts by their standards: its main contract, without any premise.
//!
//! `run_commands` runs a list of commands on an empty desk. Its contract is about each right
//! reading of texts (`AreRight`; `desk_history_laws` proves that there is one and no other), the
//! definitions of the recorded history, and nothing else.

ghost use Rattle.std.specs.Prelude.{◌≡◌, [], IfOk, length};
ghost use Rattle.desk_model.specs.Readings.{Readings};
ghost use Rattle.desk_model.specs.Answers.{IsHistory};
ghost use Rattle.desk_model.specs.Faults.{MayAllBecome};
ghost use Rattle.desk_model.specs.Runs.{AreAnswers, history_after};
ghost use Rattle.desk_model.specs.Tables.{tables};
ghost use Rattle.desk_texts.specs.Right.{AreRight};

use desk_core::desk::{Desk, MemDesk, TableDesk, run_in_memory};
use desk_memory::MemStore;
use desk_model::{Command, Outcome};
use desk_texts::Standard;
use std::alloc::{AllocError, Global};

/// The desk in memory that reads texts by their standards.
pub type StandardDesk = MemDesk<Standard>;

/// Runs commands on an empty desk, and returns what became of each, and the desk.
///
/// Whatever is repeated or refused: each outcome that isn't a fault is the answer at its place,
/// after the commands recorded before it; these are a recorded history, and the rows at the end are
/// its tables; the only fault is that no memory is left.
pub fn run_commands(
    alloc: Global,
    commands: &[Command],
) -> Result<(Vec<Outcome>, StandardDesk), AllocError>
    ensures answers { (w : Readings) → AreRight w → IfOk result (λ done.
        AreAnswers w [] commands.now done.0.items) }
    ensures history { (w : Readings) → AreRight w → IfOk result (λ done.
        IsHistory w (history_after [] commands.now done.0.items)) }
    ensures rows { (w : Readings) → AreRight w → IfOk result (λ done.
        (⟦<TableDesk<Standard, MemStore> as Desk>⟧.seen done.1).holds
        (tables w (history_after [] commands.now done.0.items))) }
    ensures faults { IfOk result (λ done. MayAllBecome (λ _. ⊥) done.0.items) }
    ensures count { IfOk result (λ done. length done.0.items ≡ length commands.now) }
{
    run_in_memory(alloc, Standard, commands)
}
