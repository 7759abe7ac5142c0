//! How many changes duties with consecutive numbers have.

ghost use Rattle.std.specs.Prelude.{◌≡◌, ◌<◌, ◌^◌, ◌++◌, ◌∷◌, [], ℕ, List, IfOk, IfSome, filter, map, length};
ghost use Rattle.desk_history.specs.FromTables.{steps_found};
ghost use Rattle.desk_model.specs.Tables.{Tables};
ghost use Rattle.desk_sql_lookup.specs.LookUps.{LooksUp};
ghost use Rattle.desk_sql_lookup.specs.Standings.{standing_by};
ghost use Rattle.desk_sql_lookup.specs.Steps.{AreCounts, HaveSteps, is_change_within};

use desk_model::{Fault, Standing};
use desk_sql_layout::query::read_rows;
use desk_sql_layout::rows::StateRow;
use desk_sql_layout::values::number;
use sqlite::{Alter, Connection};
use std::alloc::{AllocError, Global};

/// The duty of each change, for duties from a first to a last one.
fn changed_duties<S: Alter>(
    alloc: Global,
    conn: &mut Connection<S>,
    first: u32,
    last: u32,
) -> Result<Vec<u32>, Fault>
    ensures { LooksUp S.Store conn.old conn.new result (λ found t. found.items
        ≡ map (λ change. change.duty) (filter (is_change_within first last) t.changes)) }
{
    read_rows(
        alloc,
        conn,
        "SELECT duty FROM change WHERE duty >= ?1 AND duty <= ?2 ORDER BY duty, step",
        &[number(first), number(last)],
    )
}

/// This many zeros.
fn zeros(alloc: Global, many: u32) -> Result<Vec<u64>, AllocError>
    ensures counts { IfOk result (λ zeros. (first : ℕ) → AreCounts first [] zeros.items) }
    ensures many { IfOk result (λ zeros. length zeros.items ≡ many) }
{
    let mut zeros = Vec::new(alloc);
    for _ in 0..many {
        zeros.push(0)?;
    }
    Ok(zeros)
}

/// Counts a number, if it is one of those that are counted.
fn count(counts: &mut Vec<u64>, first: u32, number: u32)
    ensures counts { (numbers : List ℕ) → length numbers < 2 ^ 63
        → AreCounts first numbers counts.old.items
        → AreCounts first (numbers ++ number ∷ []) counts.new.items }
    ensures many { length counts.new.items ≡ length counts.old.items }
{
    if number < first {
        return;
    }
    let at = (number - first) as usize;
    if at < counts.len() {
        counts[at] = counts[at].saturating_add(1);
    }
}

/// How often each of this many numbers, from a first one on, is among some numbers.
fn counts_of(alloc: Global, first: u32, many: u32, numbers: &[u32]) -> Result<Vec<u64>, AllocError>
    ensures counts { IfOk result (λ counts. AreCounts first numbers.now counts.items) }
    ensures many { IfOk result (λ counts. length counts.items ≡ many) }
{
    let mut counts = zeros(alloc, many)?;
    for number in numbers {
        count(&mut counts, first, *number);
    }
    Ok(counts)
}

/// How many changes each duty has, for a first duty and this many more.
fn steps_from<S: Alter>(
    alloc: Global,
    conn: &mut Connection<S>,
    first: u32,
    more: u32,
) -> Result<Vec<u64>, Fault>
    ensures { LooksUp S.Store conn.old conn.new result (λ found t.
        HaveSteps first found.items t) }
{
    let last = first.saturating_add(more);
    let changed = changed_duties(alloc, conn, first, last)?;
    let many = (last - first).saturating_add(1);
    Ok(counts_of(alloc, first, many, &changed)?)
}

/// How many changes a duty has, by the counts from a first duty on.
fn steps_in(steps: &[u64], first: u32, number: u32) -> Option<u64>
    ensures { IfSome result (λ found. (t : Tables) → HaveSteps first steps.now t
        → found ≡ steps_found t number) }
{
    let at = number.checked_sub(first)?;
    steps.get(at as usize).copied()
}

/// The standings of duties, by the counts from a first duty on, if these include all of them.
fn standings_in(
    alloc: Global,
    steps: &[u64],
    first: u32,
    rows: &[StateRow],
) -> Result<Option<Vec<Standing>>, AllocError>
    ensures { IfOk result (λ found. IfSome found (λ found. (t : Tables)
        → HaveSteps first steps.now t → found.items ≡ map (standing_by t) rows.now)) }
{
    let mut found = Vec::new(alloc);
    for row in rows {
        let Some(steps) = steps_in(steps, first, row.number) else {
            return Ok(None);
        };
        found.push(Standing {
            number: row.number,
            state: row.state,
            steps,
        })?;
    }
    Ok(Some(found))
}

/// The standings of duties, if their numbers are consecutive from this one on.
pub(crate) fn standings_from<S: Alter>(
    alloc: Global,
    conn: &mut Connection<S>,
    first: u32,
    rows: &[StateRow],
) -> Result<Option<Vec<Standing>>, Fault>
    ensures { LooksUp S.Store conn.old conn.new result (λ found t.
        IfSome found (λ found. found.items ≡ map (standing_by t) rows.now)) }
{
    let more = u32::try_from(rows.len()).unwrap_or(u32::MAX);
    let steps = steps_from(alloc, conn, first, more.saturating_sub(1))?;
    Ok(standings_in(alloc, &steps, first, rows)?)
}
