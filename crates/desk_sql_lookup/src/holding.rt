//! The choices that releases hold.

ghost use Rattle.std.specs.Prelude.{◌≡◌, filter};
ghost use Rattle.desk_model.specs.Keys.{is_choice_in};
ghost use Rattle.desk_sql_lookup.specs.LookUps.{LooksUp};

use desk_model::{ChoiceRow, Fault};
use desk_sql_layout::query::{read_rows, text};
use sqlite::{Alter, Connection};
use std::alloc::Global;

/// All choices, by release, document, package and term.
pub fn choices<S: Alter>(alloc: Global, conn: &mut Connection<S>) -> Result<Vec<ChoiceRow>, Fault>
    ensures { LooksUp S.Store conn.old conn.new result (λ found t. found.items ≡ t.choice) }
{
    read_rows(
        alloc,
        conn,
        "SELECT release, document, package, term FROM choice ORDER BY release, document, package, term",
        &[],
    )
}

/// The choices that a release holds, by document, package and term.
pub fn choices_in<S: Alter>(
    alloc: Global,
    conn: &mut Connection<S>,
    release: &str,
) -> Result<Vec<ChoiceRow>, Fault>
    ensures { LooksUp S.Store conn.old conn.new result (λ found t.
        found.items ≡ filter (is_choice_in release.now) t.choice) }
{
    read_rows(
        alloc,
        conn,
        "SELECT release, document, package, term FROM choice WHERE release = ?1 ORDER BY release, document, package, term",
        &[text(release)],
    )
}
