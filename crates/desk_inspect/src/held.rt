//! What a document that a desk holds is.

ghost use Rattle.std.specs.Prelude.{◌≡◌, pos, ℕ, List, Option, IfOk};
ghost use Rattle.desk_expr.specs.Tree.{Tree};
ghost use Rattle.desk_findings.specs.Fields.{IsReading};
ghost use Rattle.desk_snapshot.specs.Conditions.{profile_at};
ghost use Rattle.desk_inspect.specs.Held.{IsHeld, IsSummaryIn};

use desk_base::Profile;
use desk_import::{Summary, summary_of};
use desk_snapshot::{Snapshot, profile_at};
use desk_tagvalue::{DocFault, read};
use desk_views::document_row;
use std::alloc::{AllocError, Global};

/// What a document that a desk holds is.
#[derive(Drop)]
pub struct HeldDocument {
    /// The profile that it was imported by, by which its licence expressions are read.
    pub profile: Profile,
    /// What is in it, by this profile.
    pub summary: Summary,
}

// The summary of the document that bytes are, or `None` if they are none.
fn summary_in(alloc: Global, bytes: &[u8], profile: Profile) -> Result<Option<Summary>, AllocError>
    ensures { (reads : List ℕ → Option Tree) → IsReading profile reads
        → IfOk result (IsSummaryIn reads bytes.now) }
{
    match read(alloc, bytes) {
        Ok(document) => match summary_of(alloc, &document, profile) {
            Ok(summary) => Ok(Some(summary)),
            Err(error) => Err(error),
        },
        Err(DocFault::Memory) => Err(AllocError),
        Err(_) => Ok(None),
    }
}

/// What the document with this number is, or `None` if there is none.
pub fn held_document(
    alloc: Global,
    snapshot: &Snapshot,
    number: u32,
) -> Result<Option<HeldDocument>, AllocError>
    ensures { (reads : List ℕ → Option Tree)
        → IsReading (profile_at snapshot.now (pos number)) reads
        → IfOk result (IsHeld reads snapshot.now number) }
{
    let Some(row) = document_row(snapshot, number) else {
        return Ok(None);
    };
    let profile = profile_at(snapshot, i64::from(number));
    match summary_in(alloc, row.bytes.as_slice(), profile)? {
        Some(summary) => Ok(Some(HeldDocument { profile, summary })),
        None => Ok(None),
    }
}
