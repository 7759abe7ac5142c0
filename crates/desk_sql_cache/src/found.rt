//! What a store found in its rows, and keeps beside them.

ghost use Rattle.std.specs.Prelude.{◌≡◌, true, is_some, IfOk};
ghost use Rattle.std.specs.Option.{option_map};
ghost use Rattle.desk_access.specs.Follows.{Follows};
ghost use Rattle.desk_history.specs.Laws.{Ascends};
ghost use Rattle.desk_model.specs.Keys.{release_below};
ghost use Rattle.desk_model.specs.Tables.{Tables, applied};
ghost use Rattle.desk_sql_lookup.specs.LookUps.{LooksUp};
ghost use Rattle.desk_sql_write.specs.Replacing.{ReplacesNone};
ghost use Rattle.desk_sql_cache.specs.References.{AreAdopted};
ghost use Rattle.desk_sql_cache.specs.Found.{AreFound, StaysKept, adopts_first, nothing_kept};
ghost use Rattle.desk_sql_cache.specs.Holding.{AreHeld};

use crate::adoptions::{Adoptions, change_adoptions};
use crate::holders::{Holders, change_holders};
use crate::last::Last;
use desk_model::{Change, Fault};
use sqlite::{Alter, Connection};
use std::alloc::Global;

/// The adoptions of the document whose count was asked for last, if any; the releases that hold a
/// choice, if they were asked for; and what was looked up last.
#[derive(Drop)]
pub struct Found {
    /// The adoptions of the document whose count was asked for last.
    pub adoptions: Option<Adoptions>,
    /// The releases that hold a choice, by package.
    pub holders: Option<Holders>,
    /// What was looked up last.
    pub last: Last,
}

impl Found {
    /// Nothing is kept yet.
    pub fn nothing() -> Found
        ensures { result ≡ nothing_kept }
    {
        Found {
            adoptions: None,
            holders: None,
            last: Last::nothing(),
        }
    }

    /// Returns what was found, and keeps nothing of it.
    pub fn take(&mut self) -> Found
        ensures taken { result ≡ self.old }
        ensures left { self.new ≡ nothing_kept }
    {
        Found {
            adoptions: self.adoptions.take(),
            holders: self.holders.take(),
            last: self.last.take(),
        }
    }

    /// Whether a change is known to replace no row: it adopts a reference that isn't adopted.
    pub fn replaces_none(&self, change: &Change) -> bool
        ensures is { result ≡ adopts_first change.now self.now }
        ensures none { result ≡ true → (t : Tables) → AreFound self.now t
            → ReplacesNone change.now t }
    {
        let Change::Adopted(row) = change else {
            return false;
        };
        match &self.adoptions {
            Some(kept) => kept.lacks(row.document, row.reference.as_str()),
            None => false,
        }
    }
}

/// The adoptions after a change.
fn adoptions_after<S: Alter>(
    alloc: Global,
    conn: &mut Connection<S>,
    change: &Change,
    adoptions: Option<Adoptions>,
) -> Result<Option<Adoptions>, Fault>
    ensures looks { LooksUp S.Store conn.old conn.new result (λ after t. AreAdopted adoptions t
        → AreAdopted after (applied change.now t)) }
    ensures document { IfOk result (λ after. option_map (λ kept. kept.document) after
        ≡ option_map (λ kept. kept.document) adoptions) }
{
    let Some(mut kept) = adoptions else {
        return Ok(None);
    };
    change_adoptions(alloc, conn, &mut kept, change)?;
    Ok(Some(kept))
}

/// The holders after a change.
fn holders_after<S: Alter>(
    alloc: Global,
    conn: &mut Connection<S>,
    change: &Change,
    holders: Option<Holders>,
) -> Result<Option<Holders>, Fault>
    ensures looks { LooksUp S.Store conn.old conn.new result (λ after t.
        Ascends release_below (applied change.now t).releases → Follows change.now t
        → AreHeld holders t → AreHeld after (applied change.now t)) }
    ensures kept { IfOk result (λ after. is_some after ≡ is_some holders) }
{
    let Some(mut held) = holders else {
        return Ok(None);
    };
    change_holders(alloc, conn, &mut held, change)?;
    Ok(Some(held))
}

/// What is kept after a change that is to be written.
pub fn found_after<S: Alter>(
    alloc: Global,
    conn: &mut Connection<S>,
    change: &Change,
    found: Found,
) -> Result<Found, Fault>
    ensures looks { LooksUp S.Store conn.old conn.new result (λ after t.
        Ascends release_below (applied change.now t).releases → Follows change.now t
        → AreFound found t → AreFound after (applied change.now t)) }
    ensures kept { IfOk result (StaysKept found) }
{
    let Found {
        adoptions,
        holders,
        last,
    } = found;
    let adopted = adoptions_after(alloc, conn, change, adoptions)?;
    let held = holders_after(alloc, conn, change, holders)?;
    Ok(Found {
        adoptions: adopted,
        holders: held,
        last: last.after_change(),
    })
}
