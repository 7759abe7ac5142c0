//! A change that is written and counted.

ghost use Rattle.std.specs.Prelude.{◌≡◌, false, true, Err, IfErr, OnOk, OnErr};
ghost use Rattle.sqlite.specs.Held.{state};
ghost use Rattle.desk_access.specs.Seen.{Spared, Wrote};
ghost use Rattle.desk_model.specs.Tables.{Tables};
ghost use Rattle.desk_sql_layout.specs.Held.{Stands, seen_of};
ghost use Rattle.desk_sql_layout.specs.Writable.{is_writable};
ghost use Rattle.desk_sql_commit.specs.Committing.{CommitFails, taking};
ghost use Rattle.desk_sql_write.specs.Taking.{HasSmallRevision};
ghost use Rattle.desk_tally.specs.Kept.{AreKept, Fits, LeadsTo};

use crate::transaction::commit;
use desk_model::{Change, Fault, StoreFault};
use desk_tally::{Step, Tallies};
use sqlite::{Alter, Connection};
use std::alloc::Global;

/// Writes a change as `commit` does and, if it was written, takes its step in the tallies that are
/// kept beside the rows.
pub fn commit_counted<S: Alter>(
    alloc: Global,
    conn: &mut Connection<S>,
    change: &Change,
    is_new: bool,
    tallies: &mut Tallies,
    step: Step,
) -> Result<(), Fault>
    requires mode { conn.old.in_transaction ≡ false }
    requires fits { Fits step tallies.old }
    ensures wrote { Wrote Stands change.now (taking is_new change.now (seen_of (state S.Store conn.old)))
        (seen_of (state S.Store conn.new)) result }
    ensures spared { OnErr result (Spared (seen_of (state S.Store conn.old))
        (seen_of (state S.Store conn.new))) }
    ensures cause { is_writable change.now ≡ true → HasSmallRevision change.now → IfErr result
        (CommitFails is_new change.now (state S.Store conn.old) (state S.Store conn.new)) }
    ensures unwritable { is_writable change.now ≡ false
        → (result ≡ Err (Fault.Store StoreFault.Rows)) × (conn.new ≡ conn.old) }
    ensures mode { conn.new.in_transaction ≡ false }
    ensures counted { OnOk result ((t : Tables) → LeadsTo step tallies.old t
        → AreKept tallies.new t) }
    ensures uncounted { OnErr result (tallies.new ≡ tallies.old) }
{
    match commit(alloc, conn, change, is_new) {
        Ok(()) => {
            tallies.take(step);
            Ok(())
        }
        Err(fault) => Err(fault),
    }
}
