//! What can be asked for rows: a connection, or a transaction that is still open.

ghost use Rattle.std.specs.Prelude.{◌≡◌, false, [], IfErr, IfOk};
ghost use Rattle.std.specs.Borrow.{GName};
ghost use Rattle.sqlite.specs.Held.{state};
ghost use Rattle.sqlite.specs.State.{HasCleanDisk, Shown, State};
ghost use Rattle.desk_sql_adopt.specs.Reading.{Asks};
ghost use Rattle.desk_sql_layout.specs.Causes.{IsAsked};
ghost use Rattle.desk_sql_scan.specs.Asked.{HasAsked};
ghost use Rattle.desk_sql_scan.specs.Causes.{ScanFailsFor};

use desk_model::Fault;
use desk_sql_layout::fault::fault_of;
use sqlite::{Alter, Connection, Row, Transaction};

/// What can be asked for rows.
pub(crate) trait Source {
    /// What is shown.
    ghost shows: { Self → State };

    /// Whether it may be asked.
    ghost is_ready: { Self → Type 0 };

    /// What identifies it when it is lent.
    ghost Name: { Type 0 };

    ghost name: { Self → Name };

    /// The rows of a query with no parameters. The database may not be a desk's.
    fn query(&mut self, sql: &str) -> Result<Vec<Row>, Fault>
        requires { is_ready self.old }
        ensures shown { HasCleanDisk (shows self.new)
            → IfOk result (λ rows. Shown sql.now [] (shows self.old) (shows self.new) rows.items) }
        ensures asked { Asks sql.now → HasAsked (shows self.old) (shows self.new) result }
        ensures cause { Asks sql.now → IsAsked sql.now []
            → IfErr result (ScanFailsFor (shows self.old) (shows self.new)) }
        ensures ready { is_ready self.new }
        ensures same_reference { name self.new ≡ name self.old };
}

impl<S: Alter> Source for Connection<S> {
    ghost shows = { λ conn. state S.Store conn };

    ghost is_ready = { λ conn. conn.in_transaction ≡ false };

    ghost Name = { Unit {0} };

    ghost name = { λ conn. tt };

    fn query(&mut self, sql: &str) -> Result<Vec<Row>, Fault> {
        let _settled = self.is_autocommit();
        match self.query_all(sql, &[]) {
            Ok(rows) => Ok(rows),
            Err(error) => Err(fault_of(&error)),
        }
    }
}

impl<S: Alter> Source for Transaction<'_, S> {
    ghost shows = { λ tx. state S.Store tx.conn.now };

    ghost is_ready = { λ tx. Unit {0} };

    ghost Name = { GName };

    ghost name = { λ tx. tx.conn.ghost_name };

    fn query(&mut self, sql: &str) -> Result<Vec<Row>, Fault> {
        match self.query_all(sql, &[]) {
            Ok(rows) => Ok(rows),
            Err(error) => Err(fault_of(&error)),
        }
    }
}
