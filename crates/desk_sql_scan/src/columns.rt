//! The number in a column of a row, whoever wrote it.

ghost use Rattle.std.specs.Prelude.{◌≡◌, ℤ, IfErr, IfOk};
ghost use Rattle.sqlite_value.specs.Order.{column};
ghost use Rattle.sqlite_value.specs.declared.value.Value.TheVariants.{Int as Whole};
ghost use Rattle.desk_model.specs.declared.command.StoreFault.TheVariants.{Rows};

use desk_model::Fault;
use desk_sql_layout::columns::ROWS;
use sqlite::Row;
use sqlite_value::value::ValueRef;

/// A number.
pub(crate) fn number_at(row: &Row, at: usize) -> Result<i64, Fault>
    ensures value { IfOk result (λ n. column row.now at ≡ Whole n) }
    ensures cause { IfErr result (λ fault. (n : ℤ)
        → column row.now at ≡ Whole n → fault ≡ Fault.Memory) }
    ensures rows { IfErr result (λ fault. fault ≡ Fault.Store Rows) }
{
    match row.get_ref(at) {
        Ok(ValueRef::Int(number)) => Ok(number),
        _ => Err(ROWS),
    }
}
