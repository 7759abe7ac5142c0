//! What a filter of duties names that the desk doesn't know.

ghost use Rattle.std.specs.Prelude.{◌≡◌, ◌||◌, IfOk};
ghost use Rattle.std.specs.List.{list_any};
ghost use Rattle.std.specs.Str.{bytes_eq};
ghost use Rattle.desk_lists.specs.Known.{has_code, has_release, names_unknown_code, names_unknown_release};
ghost use Rattle.desk_lists.specs.Titles.{is_title_of, titles_in_force};

use crate::lines::DutyFilter;
use crate::titles::{Title, titles_in_force};
use desk_snapshot::Snapshot;
use std::alloc::{AllocError, Global};

fn has_release(snapshot: &Snapshot, name: &str) -> bool
    ensures { result ≡ has_release snapshot.now name.now }
{
    snapshot
        .releases
        .as_slice()
        .iter()
        .any(|row| row.name.as_str() == name)
}

// Whether one of these titles is for a code.
fn is_titled(titles: &[Title], code: &str) -> bool
    ensures { result ≡ list_any (is_title_of code.now) titles.now }
{
    titles.iter().any(|title| title.code.as_str() == code)
}

// Whether a duty that was raised has a code.
fn is_raised(snapshot: &Snapshot, code: &str) -> bool
    ensures { result ≡ list_any (λ row. bytes_eq row.code code.now) snapshot.now.duty }
{
    let mut duties = snapshot.duty.as_slice().iter();
    duties.any(|row| row.code.as_str() == code)
}

// Whether the catalogue in force has a code.
fn is_in_force(alloc: Global, snapshot: &Snapshot, code: &str) -> Result<bool, AllocError>
    ensures { IfOk result (λ found. found
        ≡ list_any (is_title_of code.now) (titles_in_force snapshot.now)) }
{
    let titles = titles_in_force(alloc, snapshot)?;
    Ok(is_titled(titles.as_slice(), code))
}

fn either(one: bool, other: bool) -> bool
    ensures { result ≡ (one || other) }
{
    one || other
}

fn has_code(alloc: Global, snapshot: &Snapshot, code: &str) -> Result<bool, AllocError>
    ensures { IfOk result (λ found. found ≡ has_code snapshot.now code.now) }
{
    let is_raised = is_raised(snapshot, code);
    let is_in_force = is_in_force(alloc, snapshot, code)?;
    Ok(either(is_in_force, is_raised))
}

/// Whether a filter names a release that isn't in these rows.
pub fn names_unknown_release(snapshot: &Snapshot, wanted: &DutyFilter<'_>) -> bool
    ensures { result ≡ names_unknown_release snapshot.now wanted.now }
{
    match wanted.release {
        Some(name) => !has_release(snapshot, name),
        None => false,
    }
}

/// Whether a filter names a code that no duty of the catalogue in force has, and none in these rows.
pub fn names_unknown_code(
    alloc: Global,
    snapshot: &Snapshot,
    wanted: &DutyFilter<'_>,
) -> Result<bool, AllocError>
    ensures { IfOk result (λ unknown. unknown ≡ names_unknown_code snapshot.now wanted.now) }
{
    match wanted.code {
        Some(code) => {
            let is_known = has_code(alloc, snapshot, code)?;
            Ok(!is_known)
        }
        None => Ok(false),
    }
}
