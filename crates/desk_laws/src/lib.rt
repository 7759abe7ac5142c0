//! Laws about everything else, which no program calls. This file is about the desk in a database
//! from its creation on: its main contract, whose only remaining premise is the disk.
//!
//! `run_in_database` creates an empty desk in an empty database and runs a list of commands on it,
//! as `standard::run_commands` does in memory. `adopt_left` continues with what a stop left of such
//! a desk: it is adopted with the rows of its history.
//!
//! A disk is honest as long as it gives back what was written. The library says of each connection
//! whether its disk was.
//!
//! `tables` says that a file can hold the tables of each history, `schemas` which files have a
//! desk's tables, and `trees` that a source tree has one gathering.
#![tactic(auto)]

pub mod schemas;
pub mod standard;
pub mod tables;
pub mod trees;

ghost use Rattle.std.specs.Prelude.{◌≡◌, true, false, [], List, IfOk, IfErr, OnErr, length};
ghost use Rattle.std.specs.List.{list_all};
ghost use Rattle.sqlite.specs.Held.{state};
ghost use Rattle.sqlite.specs.State.{HasCleanDisk, Survives};
ghost use Rattle.sqlite_trees.specs.Tree.{Trees};
ghost use Rattle.desk_model.specs.Answers.{IsHistory};
ghost use Rattle.desk_model.specs.Readings.{Readings};
ghost use Rattle.desk_model.specs.Runs.{AreAnswers, history_after};
ghost use Rattle.desk_model.specs.Tables.{tables};
ghost use Rattle.desk_model.specs.declared.command.Command.{Command};
ghost use Rattle.desk_core.specs.Desks.{AllSpareStore, Secures, is_answered};
ghost use Rattle.desk_sql_layout.specs.Held.{Stands, seen_of};
ghost use Rattle.desk_store.specs.Adopting.{IsEmpty, IsFault, StandsEmpty};
ghost use Rattle.desk_laws.specs.Opened.{IsOpenedOn};
ghost use Rattle.desk_texts.specs.Right.{AreRight};
ghost use Rattle.desk_sql_write.specs.Creating.{has_meta};

use desk_core::desk::{Desk, run};
use desk_model::{Command, Outcome};
use desk_store::{AdoptFault, CreateFault, SqlDesk};
use sqlite::{Alter, Connection};
use std::alloc::{AllocError, Global};

/// Creates an empty desk in an empty database, and runs commands on it. Returns the desk, and what
/// became of each command if there was memory for the list of outcomes; if there wasn't, the desk
/// is the empty one.
///
/// Whatever is repeated or refused, if the disk was honest to the end: each outcome that isn't a
/// fault is the answer at its place, after the commands recorded before it; these are a recorded
/// history, and the rows at the end are its tables. If no outcome is a fault, the desk shows these
/// rows, and a stop leaves them and no others. A command that itself decides its refusal never gets
/// a fault of the store.
///
/// If no desk could be created, the error and what is left are as for `SqlDesk::create`.
pub fn run_in_database<S: Alter>(
    alloc: Global,
    conn: Connection<S>,
    commands: &[Command],
) -> Result<(SqlDesk<S>, Result<Vec<Outcome>, AllocError>), (CreateFault, Connection<S>)>
    requires { conn.in_transaction ≡ false }
    ensures answers { (w : Readings) → AreRight w → IfOk result (λ done. IfOk done.1 (λ outcomes.
        (⟦<SqlDesk<S> as Desk>⟧.seen done.0).is_honest
        → AreAnswers w [] commands.now outcomes.items)) }
    ensures history { (w : Readings) → AreRight w → IfOk result (λ done. IfOk done.1 (λ outcomes.
        (⟦<SqlDesk<S> as Desk>⟧.seen done.0).is_honest
        → IsHistory w (history_after [] commands.now outcomes.items))) }
    ensures rows { (w : Readings) → AreRight w → IfOk result (λ done. IfOk done.1 (λ outcomes.
        (⟦<SqlDesk<S> as Desk>⟧.seen done.0).is_honest → (⟦<SqlDesk<S> as Desk>⟧.seen done.0).holds
        (tables w (history_after [] commands.now outcomes.items)))) }
    ensures secures { (w : Readings) → AreRight w → IfOk result (λ done. IfOk done.1 (λ outcomes.
        (⟦<SqlDesk<S> as Desk>⟧.seen done.0).is_honest → list_all is_answered outcomes.items ≡ true
        → Secures Stands (tables w (history_after [] commands.now outcomes.items))
        (⟦<SqlDesk<S> as Desk>⟧.seen done.0))) }
    ensures alone { (w : Readings) → AreRight w → IfOk result (λ done. IfOk done.1 (λ outcomes.
        AllSpareStore w commands.now outcomes.items)) }
    ensures count { IfOk result (λ done. IfOk done.1 (λ outcomes.
        length outcomes.items ≡ length commands.now)) }
    ensures none { IfOk result
        (λ done. OnErr done.1 (IsEmpty (⟦<SqlDesk<S> as Desk>⟧.seen done.0))) }
    ensures not_empty { IfErr result (λ e. e.0 ≡ CreateFault.NotEmpty
        → has_meta (state S.Store conn).now.schema ≡ true) }
    ensures survives { IfErr result
        (λ e. Survives (state S.Store conn) (state S.Store e.1) StandsEmpty) }
    ensures idle { IfErr result (λ e. e.1.in_transaction ≡ false) }
{
    match SqlDesk::create(alloc, conn) {
        Ok(empty) => {
            let mut desk = empty;
            let outcomes = run(alloc, &mut desk, commands);
            Ok((desk, outcomes))
        }
        Err(refused) => Err(refused),
    }
}

/// Adopts the desk that a stop left, over a connection that was opened on it. If what was left has
/// the tables of a recorded history, the desk has them as its rows, and only a fault keeps it from
/// being adopted. If a stop would leave these tables again and no others, it leaves no others of
/// the desk.
pub fn adopt_left<S: Alter>(
    alloc: Global,
    conn: Connection<S>,
) -> Result<SqlDesk<S>, (AdoptFault, Connection<S>)>
    requires { conn.in_transaction ≡ false }
    ensures holds { (w : Readings) (left : Trees) (h : List Command) → AreRight w → IsHistory w h
        → IsOpenedOn (state S.Store conn) left → Stands left (tables w h)
        → IfOk result (λ desk. (⟦<SqlDesk<S> as Desk>⟧.seen desk).is_honest
        → (⟦<SqlDesk<S> as Desk>⟧.seen desk).holds (tables w h)) }
    ensures adopts { (w : Readings) (left : Trees) (h : List Command) → AreRight w → IsHistory w h
        → IsOpenedOn (state S.Store conn) left → Stands left (tables w h)
        → IfErr result (λ e. HasCleanDisk (state S.Store e.1) → IsFault e.0) }
    ensures secures { (w : Readings) (left : Trees) (h : List Command) → AreRight w → IsHistory w h
        → IsOpenedOn (state S.Store conn) left → Stands left (tables w h)
        → Secures Stands (tables w h) (seen_of (state S.Store conn))
        → IfOk result (λ desk. (⟦<SqlDesk<S> as Desk>⟧.seen desk).is_honest
        → Secures Stands (tables w h) (⟦<SqlDesk<S> as Desk>⟧.seen desk)) }
    ensures idle { IfErr result (λ e. e.1.in_transaction ≡ false) }
{
    crate::tables::what_a_stop_leaves_opens_again(&conn);
    SqlDesk::adopt_connection(alloc, conn)
}
