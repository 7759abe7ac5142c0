//! A query of a database that may not be a desk's.

ghost use Rattle.std.specs.Prelude.{◌≡◌, ◌≢◌, false, IfErr, IfOk};
ghost use Rattle.sqlite.specs.Held.{state};
ghost use Rattle.sqlite.specs.State.{HasCleanDisk, Shown};
ghost use Rattle.sqlite.specs.Values.{bound};
ghost use Rattle.desk_sql_layout.specs.Causes.{HasCause, IsAsked};
ghost use Rattle.desk_sql_adopt.specs.Reading.{Asks, HasRead};
ghost use Rattle.desk_model.specs.declared.command.StoreFault.TheVariants.{Rows};

use desk_model::Fault;
use desk_sql_layout::fault::fault_of;
use sqlite::{Alter, Connection, Row};
use sqlite_value::value::ValueRef;

/// The rows of a query.
pub(crate) fn query<S: Alter>(
    conn: &mut Connection<S>,
    sql: &str,
    params: &[ValueRef<'_>],
) -> Result<Vec<Row>, Fault>
    requires { conn.old.in_transaction ≡ false }
    ensures shown { HasCleanDisk (state S.Store conn.new)
        → IfOk result (λ rows. Shown sql.now (bound params.now) (state S.Store conn.old)
        (state S.Store conn.new) rows.items) }
    ensures read { Asks sql.now → HasRead (state S.Store conn.old) (state S.Store conn.new) result }
    ensures cause { IsAsked sql.now (bound params.now) → IfErr result (HasCause
        (state S.Store conn.old) (state S.Store conn.new)) }
    ensures refused { IfErr result (λ fault. fault ≢ Fault.Store Rows) }
    ensures mode { conn.new.in_transaction ≡ false }
{
    let _settled = conn.is_autocommit();
    match conn.query_all(sql, params) {
        Ok(rows) => Ok(rows),
        Err(error) => Err(fault_of(&error)),
    }
}
