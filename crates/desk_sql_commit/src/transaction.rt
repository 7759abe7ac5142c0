//! Writes a change whole, or not at all.

ghost use Rattle.std.specs.Prelude.{◌≡◌, false, true, Err, IfErr, IsTrue, OnOk, OnErr};
ghost use Rattle.sqlite.specs.Held.{state};
ghost use Rattle.sqlite.specs.State.{HasCleanDisk, Survives};
ghost use Rattle.desk_access.specs.Seen.{Spared, Wrote};
ghost use Rattle.desk_sql_layout.specs.Held.{Stands, seen_of};
ghost use Rattle.desk_sql_layout.specs.Writable.{is_writable};
ghost use Rattle.desk_sql_commit.specs.Committing.{CommitFails, Done, Leaves, taking};
ghost use Rattle.desk_sql_write.specs.Taking.{HasSmallRevision};
ghost use Rattle.desk_sql_write.specs.Written.{Undone};

use desk_model::{Change, Fault, StoreFault};
use desk_sql_layout::fault::fault_of;
use desk_sql_layout::writable::is_writable;
use desk_sql_write::write_change;
use sqlite::{Alter, Connection};
use std::alloc::Global;

/// Writes a change in one transaction.
fn write<S: Alter>(
    alloc: Global,
    conn: &mut Connection<S>,
    change: &Change,
    is_new: bool,
) -> Result<(), Fault>
    requires { conn.old.in_transaction ≡ false }
    ensures ok { HasCleanDisk (state S.Store conn.new)
        → OnOk result (Done is_new change.now (state S.Store conn.old) (state S.Store conn.new)) }
    ensures err { HasCleanDisk (state S.Store conn.new)
        → OnErr result (Undone (state S.Store conn.old) (state S.Store conn.new)) }
    ensures cause { HasSmallRevision change.now → IfErr result
        (CommitFails is_new change.now (state S.Store conn.old) (state S.Store conn.new)) }
    ensures mode { conn.new.in_transaction ≡ false }
    ensures crash { Survives (state S.Store conn.old) (state S.Store conn.new)
        (Leaves is_new change.now (state S.Store conn.old)) }
    ensures stop { IsTrue (state S.Store conn.new).is_open → (trees : _)
        → (state S.Store conn.new).may_leave trees
        → trees ≡ (state S.Store conn.new).committed.trees }
{
    let mut tx = conn.transaction();
    write_change(alloc, &mut tx, change, is_new)?;
    match tx.commit() {
        Ok(()) => Ok(()),
        Err(error) => Err(fault_of(&error)),
    }
}

/// Writes all of a change in one transaction, or nothing.
///
/// If the change is known to replace no row (`is_new`), none is dropped first.
///
/// If the disk was honest: after `Ok` a change that continues the rows is made, and a stop leaves
/// the rows after it and no others; after `Err` the rows are unchanged, and a stop may leave the
/// change. The error is `Memory` if the database found no memory; `Store(Rows)` if the tables can't
/// hold the change, and then nothing was tried; otherwise `Store(Database)`.
pub fn commit<S: Alter>(
    alloc: Global,
    conn: &mut Connection<S>,
    change: &Change,
    is_new: bool,
) -> Result<(), Fault>
    requires { conn.old.in_transaction ≡ false }
    ensures wrote { Wrote Stands change.now (taking is_new change.now (seen_of (state S.Store conn.old)))
        (seen_of (state S.Store conn.new)) result }
    ensures spared { OnErr result (Spared (seen_of (state S.Store conn.old))
        (seen_of (state S.Store conn.new))) }
    ensures cause { is_writable change.now ≡ true → HasSmallRevision change.now → IfErr result
        (CommitFails is_new change.now (state S.Store conn.old) (state S.Store conn.new)) }
    ensures unwritable { is_writable change.now ≡ false
        → (result ≡ Err (Fault.Store StoreFault.Rows)) × (conn.new ≡ conn.old) }
    ensures mode { conn.new.in_transaction ≡ false }
{
    if is_writable(change) {
        write(alloc, conn, change, is_new)
    } else {
        Err(Fault::Store(StoreFault::Rows))
    }
}
