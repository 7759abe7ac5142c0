//! Checks that rows are numbered from 1.

ghost use Rattle.std.specs.Prelude.{◌≡◌, ℤ, map};
ghost use Rattle.std.specs.Bool.{Decides};
ghost use Rattle.desk_snapshot.specs.Rows.{AreFrom};

use desk_snapshot::{StoredCatalogue, StoredDocument};

/// A row with a number.
pub(crate) trait Numbered {
    ghost number: { Self → ℤ };

    fn number(&self) -> i64
        ensures { result ≡ number self.now };
}

impl Numbered for StoredCatalogue {
    ghost number = { λ row. row.revision };

    fn number(&self) -> i64 {
        self.revision
    }
}

impl Numbered for StoredDocument {
    ghost number = { λ row. row.number };

    fn number(&self) -> i64 {
        self.number
    }
}

/// Whether the rows are numbered from 1.
pub(crate) fn are_numbered<R: Numbered>(rows: &[R]) -> bool
    ensures { Decides result (AreFrom 1 (map R.number rows.now)) }
{
    for (place, row) in rows.iter().enumerate() {
        if usize::try_from(row.number()) != Ok(place + 1) {
            return false;
        }
    }
    true
}
