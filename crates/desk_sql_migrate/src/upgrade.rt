//! Writes the tables and rows that an older version lacks.

ghost use Rattle.std.specs.Prelude.{◌≡◌};
ghost use Rattle.sqlite.specs.Held.{state};
ghost use Rattle.desk_sql_layout.specs.Layout.{desk_schema};
ghost use Rattle.desk_sql_adopt.specs.Older.{older_tables};
ghost use Rattle.desk_sql_migrate.specs.Steps.{Gains, Upgrades, with_no_readings, with_no_waivers, with_readings, with_version, without_version};

use desk_model::Fault;
use desk_sql_adopt::OlderVersion;
use desk_sql_write::{READING_TABLE, WAIVER_TABLE, execute};
use sqlite::{Alter, Transaction};

/// Declares the table of profiles besides the tables of version 1.
fn declare_readings<S: Alter>(tx: &mut Transaction<'_, S>) -> Result<(), Fault>
    ensures same_reference { tx.new.conn.ghost_name ≡ tx.old.conn.ghost_name }
    ensures gained { Gains (older_tables OlderVersion.One) (older_tables OlderVersion.Two)
        with_no_readings
        (state S.Store tx.old.conn.now) (state S.Store tx.new.conn.now) result }
{
    execute(tx, READING_TABLE, &[])
}

/// Declares the table of last days besides the tables of version 2.
fn declare_waivers<S: Alter>(tx: &mut Transaction<'_, S>) -> Result<(), Fault>
    ensures same_reference { tx.new.conn.ghost_name ≡ tx.old.conn.ghost_name }
    ensures gained { Gains (older_tables OlderVersion.Two) desk_schema.tables with_no_waivers
        (state S.Store tx.old.conn.now) (state S.Store tx.new.conn.now) result }
{
    execute(tx, WAIVER_TABLE, &[])
}

/// Records profile 1 for each document.
fn note_readings<S: Alter>(tx: &mut Transaction<'_, S>) -> Result<(), Fault>
    ensures same_reference { tx.new.conn.ghost_name ≡ tx.old.conn.ghost_name }
    ensures gained { Gains desk_schema.tables desk_schema.tables with_readings
        (state S.Store tx.old.conn.now) (state S.Store tx.new.conn.now) result }
{
    execute(
        tx,
        "INSERT INTO reading SELECT number, 1 FROM document",
        &[],
    )
}

/// Removes the version.
fn drop_version<S: Alter>(tx: &mut Transaction<'_, S>) -> Result<(), Fault>
    ensures same_reference { tx.new.conn.ghost_name ≡ tx.old.conn.ghost_name }
    ensures gained { Gains desk_schema.tables desk_schema.tables without_version
        (state S.Store tx.old.conn.now) (state S.Store tx.new.conn.now) result }
{
    execute(tx, "DELETE FROM meta", &[])
}

/// Records version 3.
fn note_version<S: Alter>(tx: &mut Transaction<'_, S>) -> Result<(), Fault>
    ensures same_reference { tx.new.conn.ghost_name ≡ tx.old.conn.ghost_name }
    ensures gained { Gains desk_schema.tables desk_schema.tables with_version
        (state S.Store tx.old.conn.now) (state S.Store tx.new.conn.now) result }
{
    execute(tx, "INSERT INTO meta VALUES (3)", &[])
}

/// Replaces the version by 3.
fn renew_version<S: Alter>(tx: &mut Transaction<'_, S>) -> Result<(), Fault>
    ensures same_reference { tx.new.conn.ghost_name ≡ tx.old.conn.ghost_name }
    ensures gained { Gains desk_schema.tables desk_schema.tables
        (λ rows. with_version (without_version rows))
        (state S.Store tx.old.conn.now) (state S.Store tx.new.conn.now) result }
{
    drop_version(tx)?;
    note_version(tx)
}

/// Writes what version 2 lacks.
fn upgrade_second<S: Alter>(tx: &mut Transaction<'_, S>) -> Result<(), Fault>
    ensures same_reference { tx.new.conn.ghost_name ≡ tx.old.conn.ghost_name }
    ensures upgraded { Upgrades OlderVersion.Two
        (state S.Store tx.old.conn.now) (state S.Store tx.new.conn.now) result }
{
    declare_waivers(tx)?;
    renew_version(tx)
}

/// Declares the tables that version 1 lacks.
fn declare_both<S: Alter>(tx: &mut Transaction<'_, S>) -> Result<(), Fault>
    ensures same_reference { tx.new.conn.ghost_name ≡ tx.old.conn.ghost_name }
    ensures gained { Gains (older_tables OlderVersion.One) desk_schema.tables
        (λ rows. with_no_waivers (with_no_readings rows))
        (state S.Store tx.old.conn.now) (state S.Store tx.new.conn.now) result }
{
    declare_readings(tx)?;
    declare_waivers(tx)
}

/// Writes the rows that version 1 lacks.
fn note_both<S: Alter>(tx: &mut Transaction<'_, S>) -> Result<(), Fault>
    ensures same_reference { tx.new.conn.ghost_name ≡ tx.old.conn.ghost_name }
    ensures gained { Gains desk_schema.tables desk_schema.tables
        (λ rows. with_version (without_version (with_readings rows)))
        (state S.Store tx.old.conn.now) (state S.Store tx.new.conn.now) result }
{
    note_readings(tx)?;
    renew_version(tx)
}

/// Writes what version 1 lacks.
fn upgrade_first<S: Alter>(tx: &mut Transaction<'_, S>) -> Result<(), Fault>
    ensures same_reference { tx.new.conn.ghost_name ≡ tx.old.conn.ghost_name }
    ensures upgraded { Upgrades OlderVersion.One
        (state S.Store tx.old.conn.now) (state S.Store tx.new.conn.now) result }
{
    declare_both(tx)?;
    note_both(tx)
}

/// Writes what an older version lacks, and the new version.
pub(crate) fn upgrade<S: Alter>(
    tx: &mut Transaction<'_, S>,
    version: OlderVersion,
) -> Result<(), Fault>
    ensures same_reference { tx.new.conn.ghost_name ≡ tx.old.conn.ghost_name }
    ensures upgraded { Upgrades version
        (state S.Store tx.old.conn.now) (state S.Store tx.new.conn.now) result }
{
    match version {
        OlderVersion::One => upgrade_first(tx),
        OlderVersion::Two => upgrade_second(tx),
    }
}
