//! Adds rows to a table, one or eight at a time.

ghost use Rattle.std.specs.Prelude.{◌≡◌, ℕ, List, [], ◌∷◌, map, length};
ghost use Rattle.std.specs.List.{flat_map};
ghost use Rattle.sqlite_value.specs.Order.{Row as Cells};
ghost use Rattle.sqlite.specs.Held.{state};
ghost use Rattle.desk_sql_write.specs.Turning.{Adds, with_rows};

use desk_model::Fault;
use sqlite::{Alter, Transaction};
use std::alloc::Global;

/// How many rows one statement adds, if there are that many; so they share its cost.
const ROWS: usize = 8;

/// What is added to a table by one statement for each.
pub(crate) trait Added {
    /// The tree of the table.
    ghost tree: { ℕ };

    /// The cells of the rows that are added: one row, or none.
    ghost rows: { Self → List Cells };

    fn add<S: Alter>(&self, alloc: Global, tx: &mut Transaction<'_, S>) -> Result<(), Fault>
        ensures same_reference { tx.new.conn.ghost_name ≡ tx.old.conn.ghost_name }
        ensures adds { Adds (with_rows tree (rows self.now)) 1 (state S.Store tx.old.conn.now)
            (state S.Store tx.new.conn.now) result };
}

/// What is added to a table by statements that add eight rows each.
pub(crate) trait AddedInEights: Sized {
    /// The tree of the table.
    ghost tree: { ℕ };

    /// The cells of a row.
    ghost cells: { Self → Cells };

    fn add_one<S: Alter>(&self, tx: &mut Transaction<'_, S>) -> Result<(), Fault>
        ensures same_reference { tx.new.conn.ghost_name ≡ tx.old.conn.ghost_name }
        ensures adds { Adds (with_rows tree (cells self.now ∷ [])) 1 (state S.Store tx.old.conn.now)
            (state S.Store tx.new.conn.now) result };

    fn add_eight<S: Alter>(
        alloc: Global,
        tx: &mut Transaction<'_, S>,
        rows: &[Self],
    ) -> Result<(), Fault>
        requires { length rows.now ≡ 8 }
        ensures same_reference { tx.new.conn.ghost_name ≡ tx.old.conn.ghost_name }
        ensures adds { Adds (with_rows tree (map cells rows.now)) (length rows.now)
            (state S.Store tx.old.conn.now) (state S.Store tx.new.conn.now) result };
}

/// Adds all of these, one by one.
pub(crate) fn add_all<R: Added, S: Alter>(
    alloc: Global,
    tx: &mut Transaction<'_, S>,
    rows: &[R],
) -> Result<(), Fault>
    ensures same_reference { tx.new.conn.ghost_name ≡ tx.old.conn.ghost_name }
    ensures adds { Adds (with_rows R.tree (flat_map R.rows rows.now)) (length rows.now)
        (state S.Store tx.old.conn.now) (state S.Store tx.new.conn.now) result }
{
    for row in rows {
        row.add(alloc, tx)?;
    }
    Ok(())
}

/// Adds all of these, eight at a time as long as there are that many.
pub(crate) fn add_in_eights<R: AddedInEights, S: Alter>(
    alloc: Global,
    tx: &mut Transaction<'_, S>,
    rows: &[R],
) -> Result<(), Fault>
    ensures same_reference { tx.new.conn.ghost_name ≡ tx.old.conn.ghost_name }
    ensures adds { Adds (with_rows R.tree (map R.cells rows.now)) (length rows.now)
        (state S.Store tx.old.conn.now) (state S.Store tx.new.conn.now) result }
{
    let mut left = rows;
    while let Some((first, rest)) = left.split_first() {
        left = match left.split_at_checked(ROWS) {
            Some((eight, behind)) => {
                R::add_eight(alloc, tx, eight)?;
                behind
            }
            None => {
                first.add_one(tx)?;
                rest
            }
        };
    }
    Ok(())
}
