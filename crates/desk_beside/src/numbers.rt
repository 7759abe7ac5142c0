//! Numbers that an audit allows although no desk's tables have them.

ghost use Rattle.std.specs.Prelude.{◌≡◌};
ghost use Rattle.std.specs.Bool.{Decides};
ghost use Rattle.std.specs.List.{list_all};
ghost use Rattle.desk_beside.specs.Beside.{HasNumbers, is_natural};

use desk_snapshot::{
    Snapshot, StoredAdoption, StoredAttached, StoredConclusion, StoredFrozen, StoredRelease,
};

fn conclusions_have_numbers(rows: &[StoredConclusion]) -> bool
    ensures { result ≡ list_all (λ row. is_natural row.document) rows.now }
{
    rows.iter().all(|row| row.document >= 0)
}

fn adoptions_have_numbers(rows: &[StoredAdoption]) -> bool
    ensures { result ≡ list_all (λ row. is_natural row.document) rows.now }
{
    rows.iter().all(|row| row.document >= 0)
}

fn releases_have_numbers(rows: &[StoredRelease]) -> bool
    ensures { result ≡ list_all (λ row. is_natural row.revision) rows.now }
{
    rows.iter().all(|row| row.revision >= 0)
}

fn attached_have_numbers(rows: &[StoredAttached]) -> bool
    ensures { result ≡ list_all (λ row. is_natural row.document) rows.now }
{
    rows.iter().all(|row| row.document >= 0)
}

fn frozen_have_numbers(rows: &[StoredFrozen]) -> bool
    ensures { result ≡ list_all (λ row. is_natural row.document) rows.now }
{
    rows.iter().all(|row| row.document >= 0)
}

/// Whether no number is below 0 in the columns where the ten conditions allow any number.
pub(crate) fn has_numbers(snapshot: &Snapshot) -> bool
    ensures { Decides result (HasNumbers snapshot.now) }
{
    conclusions_have_numbers(snapshot.conclusion.as_slice())
        && adoptions_have_numbers(snapshot.adoption.as_slice())
        && releases_have_numbers(snapshot.releases.as_slice())
        && attached_have_numbers(snapshot.attached.as_slice())
        && frozen_have_numbers(snapshot.frozen.as_slice())
}
