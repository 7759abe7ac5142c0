//! A statement inside a transaction.

ghost use Rattle.std.specs.Prelude.{◌≡◌, IfErr};
ghost use Rattle.sqlite.specs.Held.{state};
ghost use Rattle.sqlite.specs.State.{Survives};
ghost use Rattle.sqlite.specs.Values.{bound};
ghost use Rattle.desk_sql_write.specs.Taking.{RanInto};
ghost use Rattle.desk_sql_write.specs.Written.{Ran};

use desk_model::Fault;
use desk_sql_layout::fault::fault_of;
use sqlite::{Alter, Transaction};
use sqlite_value::value::ValueRef;

/// Runs a statement. The fault is that no memory is left, or that the database refused.
pub fn execute<S: Alter>(
    tx: &mut Transaction<'_, S>,
    sql: &str,
    params: &[ValueRef<'_>],
) -> Result<(), Fault>
    ensures same_reference { tx.new.conn.ghost_name ≡ tx.old.conn.ghost_name }
    ensures ran { Ran sql.now (bound params.now) (state S.Store tx.old.conn.now)
        (state S.Store tx.new.conn.now) result }
    ensures into { IfErr result (RanInto sql.now (bound params.now) (state S.Store tx.old.conn.now)
        (state S.Store tx.new.conn.now)) }
    ensures survives { Survives (state S.Store tx.old.conn.now) (state S.Store tx.new.conn.now)
        (λ _. ⊥) }
{
    match tx.execute(sql, params) {
        Ok(_count) => Ok(()),
        Err(error) => Err(fault_of(&error)),
    }
}
