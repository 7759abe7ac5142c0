//! The faults of a database.

ghost use Rattle.std.specs.Prelude.{◌≡◌};
ghost use Rattle.desk_sql_layout.specs.Faults.{fault_by};

use desk_model::{Fault, StoreFault};
use sqlite::{Error, ErrorCode};

/// The desk's fault for an error: that no memory was left, or one of the database.
pub fn fault_of(error: &Error) -> Fault
    ensures { result ≡ fault_by error.now }
{
    match error {
        Error::SqliteFailure(ErrorCode::OutOfMemory) => Fault::Memory,
        _ => Fault::Store(StoreFault::Database),
    }
}
