//! Whether a database is taken as a desk, and what a store keeps beside its rows.

ghost use Rattle.std.specs.Prelude.{◌≡◌, false, IfOk, IfErr, OnOk, IsTrue};
ghost use Rattle.sqlite.specs.Held.{state};
ghost use Rattle.sqlite.specs.State.{HasCleanDisk};
ghost use Rattle.desk_access.specs.Seen.{OfRows};
ghost use Rattle.desk_beside.specs.Beside.{IsBeside, report_of};
ghost use Rattle.desk_core.specs.Desks.{InHistory};
ghost use Rattle.desk_sql_layout.specs.Held.{seen_of};
ghost use Rattle.desk_sql_layout.specs.Desk.{HasDesk};
ghost use Rattle.desk_texts.specs.Right.{AreRight};
ghost use Rattle.desk_sql_layout.specs.Causes.{HasCauseIf};
ghost use Rattle.desk_sql_adopt.specs.Reading.{HasRead, HasStayed};
ghost use Rattle.desk_sql_adopt.specs.Version.{IsContent};
ghost use Rattle.desk_store.specs.Adopting.{IsBesideIfSound, IsFault, IsFinding, IsFoundIn, IsLeft, IsOfAudit, IsReason, adoption_of, desk_of};
ghost use Rattle.desk_store.specs.Auditing.{IsSoundDesk};
ghost use Rattle.desk_store.specs.Causes.{AdoptFailsFor, AdoptFailsIf, AreRecorded};
ghost use Rattle.desk_snapshot.specs.declared.fault.AuditReport.TheVariants.{Sound};

use crate::fault::AdoptFault;
use desk_beside::{Audited, Beside, beside_if_sound};
use desk_model::Fault;
use desk_sql_adopt::{Content, examine};
use sqlite::{Alter, Connection};
use std::alloc::Global;

/// Whether a database was found to hold a desk's tables.
fn desk_of(found: Result<Content, Fault>) -> Result<(), AdoptFault>
    ensures { result ≡ desk_of found }
{
    match found {
        Ok(Content::Desk) => Ok(()),
        Ok(Content::OtherVersion(version)) => Err(AdoptFault::BadVersion(version)),
        Ok(Content::Other) => Err(AdoptFault::NotADesk),
        Err(fault) => Err(AdoptFault::Fault(fault)),
    }
}

/// What is kept beside a desk's tables that an audit finds sound.
fn adoption_of(found: Result<Audited, Fault>) -> Result<Beside, AdoptFault>
    ensures { result ≡ adoption_of found }
{
    match found {
        Ok(Audited::Sound(kept)) => Ok(kept),
        Ok(Audited::Unsound(fault)) => Err(AdoptFault::Unsound(fault)),
        Err(fault) => Err(AdoptFault::Fault(fault)),
    }
}

/// Whether a database holds the tables of a desk, or why not.
fn ensure_desk<S: Alter>(conn: &mut Connection<S>) -> Result<(), AdoptFault>
    requires { conn.old.in_transaction ≡ false }
    ensures desk { HasCleanDisk (state S.Store conn.new)
        → OnOk result (IsContent (state S.Store conn.old) Content.Desk) }
    ensures held { IfErr result (λ fault. IsTrue (state S.Store conn.old).is_open
        → OfRows (λ t. IsFault fault) (seen_of (state S.Store conn.old))
        (seen_of (state S.Store conn.new))) }
    ensures reason { HasCleanDisk (state S.Store conn.new)
        → IfErr result (IsReason (state S.Store conn.old)) }
    ensures stayed { OnOk result (HasStayed (state S.Store conn.old) (state S.Store conn.new)) }
    ensures left { IfErr result (IsLeft (state S.Store conn.old) (state S.Store conn.new)) }
    ensures cause { IfErr result (AdoptFailsIf (λ t. Unit {0}) (state S.Store conn.old)
        (state S.Store conn.new)) }
    ensures mode { conn.new.in_transaction ≡ false }
{
    let found = examine(conn);
    desk_of(found)
}

/// Audits the tables of a desk, and takes what is kept beside sound rows.
fn audit_desk<S: Alter>(alloc: Global, conn: &mut Connection<S>) -> Result<Audited, Fault>
    requires { conn.old.in_transaction ≡ false }
    ensures told { HasCleanDisk (state S.Store conn.new)
        → HasDesk (state S.Store conn.old).now.schema
        → IfOk result (IsFoundIn (state S.Store conn.old)) }
    ensures kept { IfOk result (λ found. OfRows (IsBesideIfSound found)
        (seen_of (state S.Store conn.old)) (seen_of (state S.Store conn.new))) }
    ensures sound { IfOk result (λ found. InHistory AreRight (λ w h.
        report_of found ≡ Sound) (seen_of (state S.Store conn.old))
        (seen_of (state S.Store conn.new))) }
    ensures read { HasRead (state S.Store conn.old) (state S.Store conn.new) result }
    ensures cause { IfErr result (HasCauseIf AreRecorded (state S.Store conn.old)
        (state S.Store conn.new)) }
    ensures mode { conn.new.in_transaction ≡ false }
{
    desk_history::listed_tables_are_sorted();
    desk_history_laws::right_readings_list_in_order();
    desk_history_laws::audits::histories_are_sound();
    let snapshot = desk_sql_scan::snapshot(alloc, conn)?;
    let found = beside_if_sound(alloc, &snapshot)?;
    Ok(found)
}

/// What is kept beside the tables of a desk, if these are sound, or why they aren't adopted.
fn read_sound<S: Alter>(alloc: Global, conn: &mut Connection<S>) -> Result<Beside, AdoptFault>
    requires { conn.old.in_transaction ≡ false }
    ensures kept { IfOk result (λ kept. OfRows (IsBeside kept)
        (seen_of (state S.Store conn.old)) (seen_of (state S.Store conn.new))) }
    ensures sound { IfErr result (λ fault. InHistory AreRight (λ w h. IsFault fault)
        (seen_of (state S.Store conn.old)) (seen_of (state S.Store conn.new))) }
    ensures only { IfErr result IsOfAudit }
    ensures told { HasCleanDisk (state S.Store conn.new)
        → HasDesk (state S.Store conn.old).now.schema
        → IfErr result (IsFinding (state S.Store conn.old)) }
    ensures passed { HasCleanDisk (state S.Store conn.new)
        → HasDesk (state S.Store conn.old).now.schema
        → OnOk result (IsSoundDesk (state S.Store conn.old)) }
    ensures stayed { OnOk result (HasStayed (state S.Store conn.old) (state S.Store conn.new)) }
    ensures left { IfErr result (IsLeft (state S.Store conn.old) (state S.Store conn.new)) }
    ensures cause { IfErr result (AdoptFailsFor (state S.Store conn.old) (state S.Store conn.new)) }
    ensures mode { conn.new.in_transaction ≡ false }
{
    let found = audit_desk(alloc, conn);
    adoption_of(found)
}

/// Examines and audits a database and, if it is a desk, returns what a store keeps beside its
/// tables.
pub(crate) fn examine_desk<S: Alter>(
    alloc: Global,
    conn: &mut Connection<S>,
) -> Result<Beside, AdoptFault>
    requires { conn.old.in_transaction ≡ false }
    ensures kept { IfOk result (λ kept. OfRows (IsBeside kept)
        (seen_of (state S.Store conn.old)) (seen_of (state S.Store conn.new))) }
    ensures sound { IfErr result (λ fault. IsTrue (state S.Store conn.old).is_open
        → InHistory AreRight (λ w h. IsFault fault) (seen_of (state S.Store conn.old))
        (seen_of (state S.Store conn.new))) }
    ensures desk { HasCleanDisk (state S.Store conn.new)
        → OnOk result (IsContent (state S.Store conn.old) Content.Desk) }
    ensures passed { HasCleanDisk (state S.Store conn.new) → IsTrue (state S.Store conn.old).is_open
        → OnOk result (IsSoundDesk (state S.Store conn.old)) }
    ensures reason { HasCleanDisk (state S.Store conn.new)
        → IfErr result (IsReason (state S.Store conn.old)) }
    ensures stayed { OnOk result (HasStayed (state S.Store conn.old) (state S.Store conn.new)) }
    ensures left { IfErr result (IsLeft (state S.Store conn.old) (state S.Store conn.new)) }
    ensures cause { IfErr result (AdoptFailsFor (state S.Store conn.old) (state S.Store conn.new)) }
    ensures mode { conn.new.in_transaction ≡ false }
{
    match ensure_desk(conn) {
        Ok(()) => read_sound(alloc, conn),
        Err(fault) => Err(fault),
    }
}
