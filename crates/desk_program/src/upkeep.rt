//! What is done with the file that keeps a desk, besides what the desk does: it is audited, migrated
//! or copied.

ghost use Rattle.std.specs.Prelude.{◌≡◌, false, IfOk};

use crate::database::{
    Refused, Work, close, closing_status, desk_behind, refuse, tell_difference, unreadable,
    unusable, work_in,
};
use crate::{FAILED, REFUSED};
use desk_files::{
    clear, copy_to, first_difference, is_left, remove_empty, tell_in_the_way, tell_left,
    tell_older, unreadable as unread,
};
use desk_snapshot::AuditReport;
use desk_store::{CreateFault, MigrateFault, SqlDesk, audit_connection, has_desk};
use desk_subcommands::{Failure, NoDesk, Trouble, tell_migration, tell_report, write_line};
use sqlite::{Alter, Connection};
use sqlite_disk::Disk;
use sqlite_schema::schema::Schema;
use sqlite_store::FileStore;
use std::fs::File;
use std::io::Write;

// The connection to a file whose tables are to be audited. If there is no table `meta`, an empty
// desk is created.
fn tables_of<S: Alter + Drop>(
    rt: &HostRuntime,
    conn: Connection<S>,
    path: &str,
) -> Result<Connection<S>, Failure>
    requires { conn.in_transaction ≡ false }
    ensures { IfOk result (λ conn. conn.in_transaction ≡ false) }
{
    let alloc = rt.alloc();
    match SqlDesk::create(alloc, conn) {
        Ok(desk) => Ok(desk.into_connection()),
        Err((CreateFault::NotEmpty, conn)) => Ok(conn),
        Err((CreateFault::Fault(fault), _)) => {
            clear(rt, path);
            Err(unusable(alloc, path, Trouble::from(fault)))
        }
    }
}

// Says on standard error that a file whose rows are sound isn't opened as a desk, and why if there
// is memory for that.
fn tell_unopened(rt: &HostRuntime, schema: &Schema, path: &str) {
    if has_desk(schema) {
        return;
    }
    let _told = eprintln!(rt; "{path:?} isn't opened as a desk (NotADesk)");
    if let Ok(difference) = first_difference(rt.alloc(), schema, false) {
        tell_difference(rt, path, &difference);
    }
}

// Audits the tables that a connection shows, and returns the program's status.
fn audit_tables<S: Alter, W: Write>(
    rt: &HostRuntime,
    conn: &mut Connection<S>,
    path: &str,
    writer: &mut W,
) -> Result<u8, Failure>
    requires { conn.old.in_transaction ≡ false }
{
    let audited = audit_connection(rt.alloc(), conn);
    clear(rt, path);
    match audited {
        Ok(report) => {
            match report {
                AuditReport::Sound => tell_unopened(rt, conn.schema(), path),
                AuditReport::Unsound(_) => tell_left(rt, path),
            }
            tell_report(report, writer)
        }
        Err(fault) => Err(unreadable(rt, path, Trouble::from(fault))),
    }
}

// Whether a database has no tables and no views, as a file with nothing in it.
fn is_empty(schema: &Schema) -> bool {
    schema.tables.as_slice().is_empty() && schema.views.as_slice().is_empty()
}

// Writes that a file has no tables, and returns the program's status. None are created.
fn tell_empty<D: Disk + Drop, W: Write>(
    rt: &HostRuntime,
    conn: Connection<FileStore<D>>,
    path: &str,
    writer: &mut W,
) -> Result<u8, Failure> {
    clear(rt, path);
    let told = write_line(writer, "empty");
    let closed = close(rt.alloc(), conn, path);
    told?;
    closing_status(Ok(REFUSED), closed)
}

// Audits the tables behind a connection. The file is closed whatever comes of that.
fn audit_over<D: Disk + Drop, W: Write>(
    rt: &HostRuntime,
    conn: Connection<FileStore<D>>,
    path: &str,
    writer: &mut W,
) -> Result<u8, Failure>
    requires { conn.in_transaction ≡ false }
{
    if is_empty(conn.schema()) {
        return tell_empty(rt, conn, path, writer);
    }
    let mut conn = tables_of(rt, conn, path)?;
    let told = audit_tables(rt, &mut conn, path, writer);
    let closed = close(rt.alloc(), conn, path);
    closing_status(told, closed)
}

// Refuses a migration, and says on standard error what is in its way.
fn refuse_migration<S: Alter, W: Write>(
    rt: &HostRuntime,
    fault: MigrateFault,
    conn: &Connection<S>,
    path: &str,
    writer: &mut W,
) -> Result<u8, Failure> {
    let refused = match fault {
        MigrateFault::NotADesk => {
            tell_older(rt, path, conn.schema());
            Refused::from(NoDesk::NotADesk)
        }
        MigrateFault::BadVersion(_version) => Refused::from(NoDesk::BadVersion),
        MigrateFault::Unsound(fault) => Refused::from(NoDesk::Unsound(fault)),
        MigrateFault::Fault(fault) => {
            tell_in_the_way(rt, path, conn.schema());
            return Err(unusable(rt.alloc(), path, Trouble::from(fault)));
        }
    };
    refuse(rt, refused, path, writer)
}

// Migrates the tables behind a connection. The file is closed whatever comes of that.
fn migrate_over<D: Disk + Drop, W: Write>(
    rt: &HostRuntime,
    conn: Connection<FileStore<D>>,
    path: &str,
    writer: &mut W,
) -> Result<u8, Failure>
    requires { conn.in_transaction ≡ false }
{
    let alloc = rt.alloc();
    let migrated = SqlDesk::migrate(alloc, conn);
    clear(rt, path);
    match migrated {
        Ok((desk, version)) => {
            close(alloc, desk.into_connection(), path)?;
            tell_migration(alloc, version.number(), writer)?;
            Ok(0)
        }
        Err((fault, conn)) => refuse_migration(rt, fault, &conn, path, writer),
    }
}

/// Its tables are audited.
#[derive(Drop)]
struct Auditing;

impl Work for Auditing {
    fn over<D: Disk + Drop, W: Write>(
        self,
        rt: &HostRuntime,
        conn: Connection<FileStore<D>>,
        path: &str,
        writer: &mut W,
    ) -> Result<u8, Failure> {
        audit_over(rt, conn, path, writer)
    }
}

/// Its tables become those of this version.
#[derive(Drop)]
struct Migration;

impl Work for Migration {
    fn over<D: Disk + Drop, W: Write>(
        self,
        rt: &HostRuntime,
        conn: Connection<FileStore<D>>,
        path: &str,
        writer: &mut W,
    ) -> Result<u8, Failure> {
        migrate_over(rt, conn, path, writer)
    }
}

/// The log is moved into the file, if that keeps a desk.
#[derive(Drop)]
struct Settling;

impl Work for Settling {
    fn over<D: Disk + Drop, W: Write>(
        self,
        rt: &HostRuntime,
        conn: Connection<FileStore<D>>,
        path: &str,
        writer: &mut W,
    ) -> Result<u8, Failure> {
        let opened = desk_behind(rt, conn, path);
        clear(rt, path);
        match opened? {
            Ok(desk) => {
                close(rt.alloc(), desk.into_connection(), path)?;
                Ok(0)
            }
            Err(refused) => refuse(rt, refused, path, writer),
        }
    }
}

/// The file is copied to this path, while nobody else has it open.
#[derive(Drop)]
struct Copying<'a>(&'a str);

impl Work for Copying<'_> {
    // Another program may have had the file open since the log was moved into it. The file is closed
    // after the connection, since closing it ends the lock.
    fn over<D: Disk + Drop, W: Write>(
        self,
        rt: &HostRuntime,
        conn: Connection<FileStore<D>>,
        path: &str,
        _writer: &mut W,
    ) -> Result<u8, Failure> {
        clear(rt, path);
        if is_left(rt, path) {
            return Err(unusable(rt.alloc(), path, Trouble::Busy));
        }
        let to = self.0;
        let mut file = match File::open(rt, path) {
            Ok(file) => file,
            Err(error) => return Err(unread(rt.alloc(), path, error)),
        };
        let copied = copy_to(rt, &mut file, to);
        let closed = close(rt.alloc(), conn, path);
        drop(file);
        if let Err(error) = copied {
            eprintln!(rt; "error: cannot write {to:?}: {error}")?;
            return Ok(FAILED);
        }
        closing_status(Ok(0), closed)
    }
}

/// Audits the tables of a file.
pub(crate) fn audit(rt: &HostRuntime, path: &str) -> Result<u8, Failure> {
    work_in(rt, path, Auditing)
}

/// Gives a file of an older version the tables of this one.
pub(crate) fn migrate(rt: &HostRuntime, path: &str) -> Result<u8, Failure> {
    work_in(rt, path, Migration)
}

/// Copies the file that keeps a desk to a new file, and audits the copy.
pub(crate) fn back_up(rt: &HostRuntime, path: &str, to: &str) -> Result<u8, Failure> {
    let settled = work_in(rt, path, Settling)?;
    if settled != 0 {
        return Ok(settled);
    }
    let copied = work_in(rt, path, Copying(to))?;
    if copied != 0 {
        return Ok(copied);
    }
    let audited = audit(rt, to)?;
    remove_empty(rt, to);
    Ok(audited)
}
