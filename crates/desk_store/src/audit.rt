//! The audit of the tables in a database.

ghost use Rattle.std.specs.Prelude.{◌≡◌, false, Err, IfErr, IfOk};
ghost use Rattle.sqlite.specs.Held.{state};
ghost use Rattle.desk_core.specs.Desks.{InHistory};
ghost use Rattle.desk_sql_layout.specs.Held.{seen_of};
ghost use Rattle.desk_sql_layout.specs.Causes.{HasCause};
ghost use Rattle.desk_model.specs.declared.command.StoreFault.TheVariants.{Database as DatabaseFault};
ghost use Rattle.desk_sql_adopt.specs.Columns.{has_columns};
ghost use Rattle.desk_sql_adopt.specs.Reading.{HasRead};
ghost use Rattle.desk_store.specs.Auditing.{IsAudit};
ghost use Rattle.desk_texts.specs.Right.{AreRight};

use desk_audit::judge;
use desk_model::{Fault, StoreFault};
use desk_snapshot::AuditReport;
use desk_sql_adopt::has_columns;
use sqlite::{Alter, Connection};
use std::alloc::Global;

/// Audits the tables that a connection shows: reports whether they meet the ten conditions of a
/// desk's tables or, if not, the first that they don't meet. The database is only read.
///
/// Any database may be audited, whatever stands in it besides the tables of a desk. The fault is
/// that no memory was left, that the database failed or lacks a table or a column of a desk, or that
/// a cell has a value that its column never has in a desk. The tables of a recorded history are
/// sound.
pub fn audit_connection<S: Alter>(
    alloc: Global,
    conn: &mut Connection<S>,
) -> Result<AuditReport, Fault>
    requires { conn.old.in_transaction ≡ false }
    ensures lacks { has_columns (state S.Store conn.old).now.schema ≡ false
        → (result ≡ Err (Fault.Store DatabaseFault)) × (conn.new ≡ conn.old) }
    ensures told { IfOk result (IsAudit (state S.Store conn.old) (state S.Store conn.new)) }
    ensures sound { IfOk result (λ report. InHistory AreRight (λ w h.
        report ≡ AuditReport.Sound) (seen_of (state S.Store conn.old))
        (seen_of (state S.Store conn.new))) }
    ensures read { HasRead (state S.Store conn.old) (state S.Store conn.new) result }
    ensures cause { IfErr result (HasCause (state S.Store conn.old) (state S.Store conn.new)) }
    ensures mode { conn.new.in_transaction ≡ false }
{
    desk_history::listed_tables_are_sorted();
    desk_history_laws::right_readings_list_in_order();
    desk_history_laws::audits::histories_are_sound();
    if !has_columns(conn.schema()) {
        return Err(Fault::Store(StoreFault::Database));
    }
    let snapshot = desk_sql_scan::snapshot(alloc, conn)?;
    Ok(judge(alloc, &snapshot)?)
}
