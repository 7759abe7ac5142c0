//! The desk in a database.

ghost use Rattle.std.specs.Prelude.{◌≡◌, ◌≢◌, true, false, IfOk, IfErr, IsTrue, Err, None};
ghost use Rattle.sqlite_trees.specs.Tree.{Trees};
ghost use Rattle.sqlite.specs.Held.{state};
ghost use Rattle.sqlite.specs.State.{HasCleanDisk, Survives};
ghost use Rattle.desk_model.specs.Readings.{Readings};
ghost use Rattle.desk_model.specs.Tables.{Tables, tables};
ghost use Rattle.desk_access.specs.Seen.{Looked, OfRows, Same};
ghost use Rattle.desk_core.specs.Desks.{InHistory};
ghost use Rattle.desk_sql_layout.specs.Held.{Holds, Stands, known_of, labelled, seen_of};
ghost use Rattle.desk_sql_layout.specs.Layout.{desk_schema, no_schema};
ghost use Rattle.desk_tally.specs.Kept.{AreKept};
ghost use Rattle.desk_texts.specs.Right.{AreRight};
ghost use Rattle.desk_sql_write.specs.Creating.{has_meta};
ghost use Rattle.desk_sql_write.specs.Taking.{IsCaused};
ghost use Rattle.desk_model.specs.declared.command.Fault.{Fault as CallFault};
ghost use Rattle.desk_sql_write.specs.Written.{Undone};
ghost use Rattle.desk_sql_adopt.specs.Reading.{HasStayed};
ghost use Rattle.desk_sql_adopt.specs.Older.{IsOlderContent};
ghost use Rattle.desk_sql_adopt.specs.Version.{IsContent};
ghost use Rattle.desk_sql_adopt.specs.declared.older.OlderVersion.{OlderVersion as Version};
ghost use Rattle.desk_sql_scan.specs.Scans.{AreTables};
ghost use Rattle.desk_sql_migrate.specs.Migrating.{InOlderHistory, IsFault as IsMigrateFault, IsLeft as IsMigrateLeft, IsReason as IsMigrateReason, LeavesSome, Migrated};
ghost use Rattle.desk_store.specs.Adopting.{AreOlderTables, HasForms, HoldsSome, IsEmpty, IsFault, IsLeft, IsReason, StandsEmpty, creation_of};
ghost use Rattle.desk_store.specs.Auditing.{IsAudit, IsSoundDesk};
ghost use Rattle.desk_store.specs.Causes.{AdoptFailsFor, MissesIf};
ghost use Rattle.desk_store.specs.Counting.{known_by};
ghost use Rattle.desk_model.specs.declared.command.StoreFault.TheVariants.{Database as DatabaseFault};

use crate::adopt::examine_desk;
use crate::fault::{AdoptFault, CreateFault};
use crate::store::SqlStore;
use desk_base::Items;
use desk_beside::{Beside, Counts};
use desk_core::{Answer, Command, Desk, Fault, Query, TableDesk};
use desk_model::Profile;
use desk_snapshot::AuditReport;
use desk_sql_adopt::{Content, OlderContent, OlderVersion};
use desk_sql_migrate::{MigrateFault, migrate_tables};
use desk_sql_write::{Refused, create_tables};
use desk_tally::Tallies;
use desk_texts::Standard;
use sqlite::{Alter, Connection};
use std::alloc::Global;

/// The rows of a new desk.
const NO_ROWS: Counts = Counts {
    revisions: 0,
    documents: 0,
    releases: 0,
    duties: 0,
};

/// A desk whose rows are in a database, and that reads texts by their standards.
#[derive(Drop)]
pub struct SqlDesk<S: Alter> {
    pub(crate) desk: TableDesk<Standard, SqlStore<S>>,
}

/// Why no desk was created.
fn creation_of(refused: Refused) -> CreateFault
    ensures { result ≡ creation_of refused }
{
    match refused {
        Refused::NotEmpty => CreateFault::NotEmpty,
        Refused::Fault(fault) => CreateFault::Fault(fault),
    }
}

impl<S: Alter> SqlDesk<S> {
    fn over(alloc: Global, conn: Connection<S>, kept: Beside) -> SqlDesk<S>
        requires { conn.in_transaction ≡ false }
        ensures same { result.desk.store.conn ≡ conn }
        ensures holds { (t : Tables) → known_of t ≡ known_by kept.counts kept.forms
            → AreKept kept.tallies t → (seen_of (state S.Store conn)).holds t
            → (⟦<SqlDesk<S> as Desk>⟧.seen result).holds t }
    {
        let Beside {
            counts,
            forms,
            tallies,
        } = kept;
        let store = SqlStore::over(alloc, conn, counts, forms, tallies);
        SqlDesk {
            desk: TableDesk::over(alloc, Standard, store),
        }
    }

    /// Creates the tables of an empty desk in an empty database, in one transaction.
    ///
    /// A database with a table `meta` is refused as `NotEmpty`, and one with other tables by a
    /// fault of the store; the connection is returned. After `NotEmpty` it is as it was. After a
    /// fault its tables are as they were, and a stop may leave the empty desk. In an empty database
    /// it fails only because no memory is left, or because the disk failed once more.
    pub fn create(
        alloc: Global,
        conn: Connection<S>,
    ) -> Result<SqlDesk<S>, (CreateFault, Connection<S>)>
        requires { conn.in_transaction ≡ false }
        ensures empty { IfOk result (λ desk. IsEmpty (⟦<SqlDesk<S> as Desk>⟧.seen desk)) }
        ensures honest { IfOk result (λ desk. (⟦<SqlDesk<S> as Desk>⟧.seen desk).is_honest
            → HasCleanDisk (state S.Store conn)) }
        ensures meta { has_meta (state S.Store conn).now.schema ≡ true
            → result ≡ Err (CreateFault.NotEmpty, conn) }
        ensures not_empty { IfErr result (λ e. e.0 ≡ CreateFault.NotEmpty
            → has_meta (state S.Store conn).now.schema ≡ true) }
        ensures others { has_meta (state S.Store conn).now.schema ≡ false
            → (state S.Store conn).now.schema ≢ no_schema → result
            ≡ Err (CreateFault.Fault (Fault.Store DatabaseFault), conn) }
        ensures cause { (state S.Store conn).now.schema ≡ no_schema → IfErr result (λ e.
            HasCleanDisk (state S.Store e.1) → IsTrue (state S.Store conn).is_open
            → (state S.Store conn).step_limit ≡ None
            → (fault : CallFault) × (e.0 ≡ CreateFault.Fault fault)
            × IsCaused (state S.Store conn) (state S.Store e.1) fault) }
        ensures undone { IfErr result (λ e. HasCleanDisk (state S.Store e.1)
            → Undone (state S.Store conn) (state S.Store e.1)) }
        ensures survives { IfErr result
            (λ e. Survives (state S.Store conn) (state S.Store e.1) StandsEmpty) }
        ensures idle { IfErr result (λ e. e.1.in_transaction ≡ false) }
    {
        let mut conn = conn;
        match create_tables(&mut conn) {
            Ok(()) => {
                let forms = Items::new(alloc);
                let tallies = Tallies::new(alloc);
                let kept = Beside {
                    counts: NO_ROWS,
                    forms,
                    tallies,
                };
                Ok(SqlDesk::over(alloc, conn, kept))
            }
            Err(refused) => Err((creation_of(refused), conn)),
        }
    }

    /// Adopts a database that holds a desk's tables, as the desk with those rows. The database is
    /// only read.
    ///
    /// It is refused as `BadVersion` if its table `meta` gives a version other than 3, whatever
    /// else is in it; as `NotADesk` if no table `meta` has a column `version`, or if not all tables of
    /// a desk are declared as `create` declares them, whatever else is in the database (also if any
    /// table has a foreign key, or if an index of one of a desk's could refuse a row); and as
    /// `Unsound` if `audit_connection` finds that its tables aren't sound. After these the connection
    /// is as it was. The fault is that no memory was left, that the database failed, or that a desk's
    /// tables gave rows that no desk has: a cell has a value of another kind than its column has in a
    /// desk, or sound rows have a number below 0.
    ///
    /// The tables of a recorded history are sound, so for them the only error is a fault. Whatever
    /// sound rows the connection shows are the desk's rows, so a refusal or a fault leaves them.
    /// There are tables with these rows, even if no command made them, provided that the rows of
    /// each table are in the order of their rowids, in which the library keeps them.
    pub fn adopt_connection(
        alloc: Global,
        conn: Connection<S>,
    ) -> Result<SqlDesk<S>, (AdoptFault, Connection<S>)>
        requires { conn.in_transaction ≡ false }
        ensures rows { IfOk result (λ desk. (w : Readings) → AreRight w → OfRows (λ t.
            HasForms w t → (⟦<SqlDesk<S> as Desk>⟧.seen desk).holds t)
            (seen_of (state S.Store conn))
            (⟦<SqlDesk<S> as Desk>⟧.seen desk)) }
        ensures holds { IfOk result (λ desk. InHistory AreRight (λ w h.
            (⟦<SqlDesk<S> as Desk>⟧.seen desk).holds (tables w h)) (seen_of (state S.Store conn))
            (⟦<SqlDesk<S> as Desk>⟧.seen desk)) }
        ensures adopts { IfErr result (λ e. IsTrue (state S.Store conn).is_open
            → InHistory AreRight (λ w h.
            IsFault e.0) (seen_of (state S.Store conn)) (seen_of (state S.Store e.1))) }
        ensures desk { IfOk result (λ desk. HasCleanDisk (state S.Store desk.desk.store.conn)
            → IsContent (state S.Store conn) Content.Desk) }
        ensures passed { IfOk result (λ desk. HasCleanDisk (state S.Store desk.desk.store.conn)
            → IsTrue (state S.Store conn).is_open → IsSoundDesk (state S.Store conn)) }
        ensures some { IfOk result (λ desk. HasCleanDisk (state S.Store desk.desk.store.conn)
            → IsTrue (state S.Store conn).is_open
            → AreTables desk_schema (labelled (state S.Store conn).now)
            → HoldsSome (state S.Store conn) (⟦<SqlDesk<S> as Desk>⟧.seen desk)) }
        ensures reason { IfErr result (λ e. HasCleanDisk (state S.Store e.1)
            → IsReason (state S.Store conn) e.0) }
        ensures stayed { IfOk result (λ desk. HasStayed (state S.Store conn)
            (state S.Store desk.desk.store.conn)) }
        ensures left { IfErr result (λ e. IsLeft (state S.Store conn) (state S.Store e.1) e.0) }
        ensures cause { IfErr result (λ e.
            AdoptFailsFor (state S.Store conn) (state S.Store e.1) e.0) }
        ensures idle { IfErr result (λ e. e.1.in_transaction ≡ false) }
    {
        desk_beside::laws::sound_rows_are_tables();
        desk_history_laws::right_readings_list_ids();
        let mut conn = conn;
        // The contracts of these two say that a sound database is shown, and that it is committed.
        let _settled = conn.is_autocommit();
        let _schema = conn.schema();
        match examine_desk(alloc, &mut conn) {
            Ok(kept) => Ok(SqlDesk::over(alloc, conn, kept)),
            Err(fault) => Err((fault, conn)),
        }
    }

    /// Migrates a desk's tables of version 1 or 2 in a database to version 3, as `migrate_tables`
    /// does, and adopts it. The old version is returned beside the desk.
    ///
    /// It is refused as `migrate_tables` says. After a refusal the database is as it was, and after a
    /// fault it shows what it showed, although a stop may leave the migrated tables. After `Ok` a stop
    /// leaves the migrated tables and no others. The desk then has some tables, even if no command
    /// made the rows, provided that those of each older table are in the order of their rowids.
    pub fn migrate(
        alloc: Global,
        conn: Connection<S>,
    ) -> Result<(SqlDesk<S>, OlderVersion), (MigrateFault, Connection<S>)>
        requires { conn.in_transaction ≡ false }
        ensures migrated { IfOk result (λ made. HasCleanDisk (state S.Store made.0.desk.store.conn)
            → IsOlderContent (state S.Store conn) (OlderContent.Older made.1)
            × Migrated made.1 (state S.Store conn) (state S.Store made.0.desk.store.conn)) }
        ensures rows { IfOk result (λ made. HasCleanDisk (state S.Store made.0.desk.store.conn)
            → (w : Readings) → AreRight w → (t : Tables)
            → Holds t (state S.Store made.0.desk.store.conn).now → HasForms w t
            → (⟦<SqlDesk<S> as Desk>⟧.seen made.0).holds t) }
        ensures holds { IfOk result (λ made. (version : Version) → InOlderHistory version (λ w h.
            (made.1 ≡ version) × (⟦<SqlDesk<S> as Desk>⟧.seen made.0).holds (tables w h))
            (state S.Store conn) (state S.Store made.0.desk.store.conn)) }
        ensures some { IfOk result (λ made. HasCleanDisk (state S.Store made.0.desk.store.conn)
            → AreOlderTables made.1 (labelled (state S.Store conn).now)
            → HoldsSome (state S.Store made.0.desk.store.conn)
            (⟦<SqlDesk<S> as Desk>⟧.seen made.0)) }
        ensures stop { IfOk result (λ made. HasCleanDisk (state S.Store made.0.desk.store.conn)
            → (left : Trees) → (⟦<SqlDesk<S> as Desk>⟧.seen made.0).leaves left
            → left ≡ (state S.Store made.0.desk.store.conn).now.trees) }
        ensures stands { IfOk result (λ made. (version : Version) → InOlderHistory version (λ w h.
            (left : Trees) → (⟦<SqlDesk<S> as Desk>⟧.seen made.0).leaves left
            → Stands left (tables w h))
            (state S.Store conn) (state S.Store made.0.desk.store.conn)) }
        ensures leaves { IfOk result
            (λ made. Survives (state S.Store conn) (state S.Store made.0.desk.store.conn)
            (LeavesSome (state S.Store conn))) }
        ensures reason { IfErr result (λ e. HasCleanDisk (state S.Store e.1)
            → IsMigrateReason (state S.Store conn) e.0) }
        ensures history { IfErr result (λ e. (version : Version) → InOlderHistory version (λ w h.
            IsMigrateFault e.0) (state S.Store conn) (state S.Store e.1)) }
        ensures left { IfErr result
            (λ e. IsMigrateLeft (state S.Store conn) (state S.Store e.1) e.0) }
        ensures idle { IfErr result (λ e. e.1.in_transaction ≡ false) }
    {
        desk_beside::laws::sound_rows_are_tables();
        desk_history_laws::right_readings_list_ids();
        let mut conn = conn;
        // (its contract says that a sound database is shown)
        let _schema = conn.schema();
        match migrate_tables(alloc, &mut conn) {
            Ok((version, kept)) => Ok((SqlDesk::over(alloc, conn, kept), version)),
            Err(fault) => Err((fault, conn)),
        }
    }

    /// Audits the desk's tables as `audit_connection` does. The desk is as it was.
    pub fn audit(&mut self) -> Result<AuditReport, Fault>
        ensures told { IfOk result (IsAudit (state S.Store self.old.desk.store.conn)
            (state S.Store self.new.desk.store.conn)) }
        ensures sound { IfOk result (λ report. InHistory AreRight (λ w h.
            report ≡ AuditReport.Sound) (⟦<SqlDesk<S> as Desk>⟧.seen self.old)
            (⟦<SqlDesk<S> as Desk>⟧.seen self.new)) }
        ensures kept { Looked (⟦<SqlDesk<S> as Desk>⟧.seen self.old)
            (⟦<SqlDesk<S> as Desk>⟧.seen self.new) result }
        ensures cause { IfErr result (MissesIf (λ t. Unit {0})
            (⟦<SqlDesk<S> as Desk>⟧.seen self.old) (state S.Store self.old.desk.store.conn)
            (state S.Store self.new.desk.store.conn)) }
    {
        self.desk.store.audit()
    }

    /// Returns the connection, which shows the desk's rows and is in no transaction. A stop leaves
    /// of it what it could leave of the desk.
    pub fn into_connection(self) -> Connection<S>
        ensures shows { Same (⟦<SqlDesk<S> as Desk>⟧.seen self) (seen_of (state S.Store result)) }
        ensures leaves { (left : Trees) → (state S.Store result).may_leave left
            → (⟦<SqlDesk<S> as Desk>⟧.seen self).leaves left }
        ensures idle { result.in_transaction ≡ false }
    {
        let SqlDesk { desk } = self;
        desk.into_store().into_connection()
    }
}

impl<S: Alter> Desk for SqlDesk<S> {
    ghost Left = { Trees };

    ghost stands = { Stands };

    ghost seen = { λ d. ⟦<TableDesk<Standard, SqlStore<S>> as Desk>⟧.seen d.desk };

    ghost are_right = { AreRight };

    ghost tells = { λ fault. Unit {0} };

    fn apply(&mut self, command: &Command) -> Result<Answer, Fault> {
        self.desk.apply(command)
    }

    fn import(&mut self, bytes: Items<u8>, profile: Profile) -> Result<Answer, Fault> {
        self.desk.import(bytes, profile)
    }

    fn ask(&mut self, query: &Query) -> Result<Answer, Fault> {
        self.desk.ask(query)
    }
}
