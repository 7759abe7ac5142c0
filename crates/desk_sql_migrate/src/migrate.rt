//! Migrates a database of an older version in one transaction, or leaves it as it is.

ghost use Rattle.std.specs.Prelude.{◌≡◌, false, List, IfOk, IfErr, IsTrue, OnOk};
ghost use Rattle.sqlite.specs.Held.{state};
ghost use Rattle.sqlite.specs.State.{HasCleanDisk, Survives};
ghost use Rattle.desk_model.specs.Answers.{IsHistory};
ghost use Rattle.desk_model.specs.Readings.{Readings};
ghost use Rattle.desk_model.specs.Tables.{tables};
ghost use Rattle.desk_model.specs.declared.command.Command.{Command};
ghost use Rattle.desk_sql_layout.specs.Desk.{HasDesk};
ghost use Rattle.desk_sql_layout.specs.Held.{Holds};
ghost use Rattle.desk_sql_adopt.specs.Older.{HasOlder, HoldsOlder, IsOlderContent};
ghost use Rattle.desk_sql_adopt.specs.Reading.{HasStayed};
ghost use Rattle.desk_sql_adopt.specs.declared.older.OlderVersion.{OlderVersion as Version};
ghost use Rattle.desk_sql_scan.specs.Asked.{HasAsked};
ghost use Rattle.desk_texts.specs.Right.{AreRight};
ghost use Rattle.desk_beside.specs.Beside.{report_of};
ghost use Rattle.desk_sql_migrate.specs.Migrating.{Ends, InOlderHistory, IsFault, IsKeptBeside, IsKeptIfSound, IsLeft, IsReason, IsReportOn, Leaves, LeavesSome, Migrated, Prepares, older_of, outcome_of, told_of};
ghost use Rattle.desk_snapshot.specs.declared.fault.AuditReport.TheVariants.{Sound};

use crate::fault::MigrateFault;
use crate::upgrade::upgrade;
use desk_beside::{Audited, Beside, beside_if_sound};
use desk_model::Fault;
use desk_snapshot::AuditFault;
use desk_sql_adopt::{OlderContent, OlderVersion, examine_older};
use desk_sql_layout::fault::fault_of;
use desk_sql_scan::snapshot_inside;
use sqlite::{Alter, Connection, Transaction};
use std::alloc::Global;

/// Audits the rows that a transaction shows, and takes what is kept beside them if they are sound.
fn audit_inside<S: Alter>(alloc: Global, tx: &mut Transaction<'_, S>) -> Result<Audited, Fault>
    ensures same_reference { tx.new.conn.ghost_name ≡ tx.old.conn.ghost_name }
    ensures told { HasCleanDisk (state S.Store tx.new.conn.now)
        → HasDesk (state S.Store tx.old.conn.now).now.schema
        → IfOk result (λ found. IsReportOn (state S.Store tx.old.conn.now).now
        (report_of found)) }
    ensures sound { IfOk result (λ found. HasCleanDisk (state S.Store tx.new.conn.now)
        → (w : Readings) → AreRight w → (h : List Command) → IsHistory w h
        → Holds (tables w h) (state S.Store tx.old.conn.now).now
        → report_of found ≡ Sound) }
    ensures kept { HasCleanDisk (state S.Store tx.new.conn.now)
        → IfOk result (IsKeptIfSound (state S.Store tx.old.conn.now).now) }
    ensures asked { HasAsked (state S.Store tx.old.conn.now) (state S.Store tx.new.conn.now)
        result }
{
    desk_history::listed_tables_are_sorted();
    desk_history_laws::right_readings_list_in_order();
    desk_history_laws::audits::histories_are_sound();
    let snapshot = snapshot_inside(alloc, tx)?;
    let found = beside_if_sound(alloc, &snapshot)?;
    Ok(found)
}

/// Writes what a version lacks, and audits the resulting rows.
fn prepare<S: Alter>(
    alloc: Global,
    tx: &mut Transaction<'_, S>,
    version: OlderVersion,
) -> Result<Audited, Fault>
    ensures same_reference { tx.new.conn.ghost_name ≡ tx.old.conn.ghost_name }
    ensures prepared { Prepares version (state S.Store tx.old.conn.now)
        (state S.Store tx.new.conn.now) (told_of result) }
    ensures sound { IfOk result (λ found. HasCleanDisk (state S.Store tx.new.conn.now)
        → IsTrue (state S.Store tx.old.conn.now).in_transaction
        → (w : Readings) → AreRight w → (h : List Command) → IsHistory w h
        → HoldsOlder version (tables w h) (state S.Store tx.old.conn.now).now
        → report_of found ≡ Sound) }
    ensures kept { HasCleanDisk (state S.Store tx.new.conn.now)
        → IfOk result (IsKeptIfSound (state S.Store tx.new.conn.now).now) }
    ensures survives { Survives (state S.Store tx.old.conn.now) (state S.Store tx.new.conn.now)
        (λ _. ⊥) }
{
    upgrade(tx, version)?;
    audit_inside(alloc, tx)
}

/// Migrates the tables in one transaction, which is committed if the resulting rows are sound, and
/// dropped if they aren't. What is kept beside the rows is taken before the commit.
fn write<S: Alter>(
    alloc: Global,
    conn: &mut Connection<S>,
    version: OlderVersion,
) -> Result<Audited, Fault>
    requires { conn.old.in_transaction ≡ false }
    ensures ends { HasCleanDisk (state S.Store conn.new)
        → (IsTrue (state S.Store conn.old).is_open
        → HasOlder version (state S.Store conn.old).now.schema)
        → IfOk result (λ found. Ends version (state S.Store conn.old) (state S.Store conn.new)
        (report_of found)) }
    ensures sound { IfOk result (λ found. InOlderHistory version (λ w h.
        report_of found ≡ Sound) (state S.Store conn.old) (state S.Store conn.new)) }
    ensures kept { HasCleanDisk (state S.Store conn.new)
        → IfOk result (IsKeptIfSound (state S.Store conn.new).now) }
    ensures left { Leaves version (state S.Store conn.old) (state S.Store conn.new)
        (told_of result) }
    ensures stop { OnOk result (IsTrue (state S.Store conn.new).is_open → (trees : _)
        → (state S.Store conn.new).may_leave trees
        → trees ≡ (state S.Store conn.new).committed.trees) }
    ensures mode { conn.new.in_transaction ≡ false }
{
    let _settled = conn.is_autocommit();
    let _live = conn.schema();
    let mut tx = conn.transaction();
    let found = prepare(alloc, &mut tx, version)?;
    match found {
        Audited::Sound(kept) => match tx.commit() {
            Ok(()) => Ok(Audited::Sound(kept)),
            Err(error) => Err(fault_of(&error)),
        },
        Audited::Unsound(fault) => {
            tx.rollback();
            Ok(Audited::Unsound(fault))
        }
    }
}

/// The older version that a database was found to have, or why it isn't migrated.
fn older_of(found: Result<OlderContent, Fault>) -> Result<OlderVersion, MigrateFault>
    ensures { result ≡ older_of found }
{
    match found {
        Ok(OlderContent::Older(version)) => Ok(version),
        Ok(OlderContent::Untold) => Err(MigrateFault::Unsound(AuditFault::BadMeta)),
        Ok(OlderContent::OtherVersion(version)) => Err(MigrateFault::BadVersion(version)),
        Ok(OlderContent::Other) => Err(MigrateFault::NotADesk),
        Err(fault) => Err(MigrateFault::Fault(fault)),
    }
}

/// The older version whose tables a database has, or why it has none.
fn older_tables<S: Alter>(conn: &mut Connection<S>) -> Result<OlderVersion, MigrateFault>
    requires { conn.old.in_transaction ≡ false }
    ensures found { HasCleanDisk (state S.Store conn.new)
        → IfOk result (λ version. IsOlderContent (state S.Store conn.old)
        (OlderContent.Older version)) }
    ensures reason { HasCleanDisk (state S.Store conn.new)
        → IfErr result (IsReason (state S.Store conn.old)) }
    ensures history { IfOk result (λ version. (other : Version) → InOlderHistory other (λ w h.
        version ≡ other) (state S.Store conn.old) (state S.Store conn.new)) }
    ensures faults { IfErr result (λ fault. (other : Version) → InOlderHistory other (λ w h.
        IsFault fault) (state S.Store conn.old) (state S.Store conn.new)) }
    ensures stayed { OnOk result (HasStayed (state S.Store conn.old) (state S.Store conn.new)) }
    ensures left { IfErr result (IsLeft (state S.Store conn.old) (state S.Store conn.new)) }
    ensures mode { conn.new.in_transaction ≡ false }
{
    let found = examine_older(conn);
    older_of(found)
}

/// The outcome for what an audit finds.
fn outcome(
    version: OlderVersion,
    written: Result<Audited, Fault>,
) -> Result<(OlderVersion, Beside), MigrateFault>
    ensures { result ≡ outcome_of version written }
{
    match written {
        Ok(Audited::Sound(kept)) => Ok((version, kept)),
        Ok(Audited::Unsound(fault)) => Err(MigrateFault::Unsound(fault)),
        Err(fault) => Err(MigrateFault::Fault(fault)),
    }
}

/// Migrates a desk's tables of version 1 or 2 in a database to version 3, and returns the old
/// version and what a store keeps beside the migrated rows.
///
/// One transaction declares the missing tables and records the new version and, for version 1,
/// profile 1 for each document. The database may have other tables, indexes and views. It is
/// refused as `NotADesk` if no table `meta` has a column `version`, or if that gives version 1 or 2
/// and a table of this version isn't there as it is declared; as `BadVersion` if it gives another
/// version; as `Unsound` with `BadMeta` if it doesn't give a single version; and as `Unsound` if
/// the migrated tables wouldn't be sound, with the first condition that they don't meet. After a
/// refusal the database is as it was. After a fault it shows what it showed, although a stop may
/// leave the migrated tables. After `Ok` a stop leaves the migrated tables and no others.
pub fn migrate_tables<S: Alter>(
    alloc: Global,
    conn: &mut Connection<S>,
) -> Result<(OlderVersion, Beside), MigrateFault>
    requires { conn.old.in_transaction ≡ false }
    ensures migrated { HasCleanDisk (state S.Store conn.new)
        → IfOk result (λ made. IsOlderContent (state S.Store conn.old)
        (OlderContent.Older made.0)
        × Migrated made.0 (state S.Store conn.old) (state S.Store conn.new)) }
    ensures kept { HasCleanDisk (state S.Store conn.new)
        → IfOk result (λ made. IsKeptBeside (state S.Store conn.new).now made.1) }
    ensures stop { HasCleanDisk (state S.Store conn.new) → OnOk result ((trees : _)
        → (state S.Store conn.new).may_leave trees
        → trees ≡ (state S.Store conn.new).now.trees) }
    ensures reason { HasCleanDisk (state S.Store conn.new)
        → IfErr result (IsReason (state S.Store conn.old)) }
    ensures history { IfOk result (λ made. (other : Version) → InOlderHistory other (λ w h.
        made.0 ≡ other) (state S.Store conn.old) (state S.Store conn.new)) }
    ensures faults { IfErr result (λ fault. (other : Version) → InOlderHistory other (λ w h.
        IsFault fault) (state S.Store conn.old) (state S.Store conn.new)) }
    ensures survives { OnOk result (Survives (state S.Store conn.old) (state S.Store conn.new)
        (LeavesSome (state S.Store conn.old))) }
    ensures left { IfErr result (IsLeft (state S.Store conn.old) (state S.Store conn.new)) }
    ensures mode { conn.new.in_transaction ≡ false }
{
    let version = older_tables(conn)?;
    let written = write(alloc, conn, version);
    outcome(version, written)
}
