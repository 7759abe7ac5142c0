//! What in a document isn't as its standard has it.

ghost use Rattle.std.specs.Prelude.{◌≡◌, IfOk, IfErr};
ghost use Rattle.desk_model.specs.Readings.{Readings};
ghost use Rattle.desk_model.specs.Faults.{MayFail};
ghost use Rattle.desk_access.specs.Seen.{Looked, OfRows};
ghost use Rattle.desk_history.specs.FromTables.{queried_from};

use desk_access::store::Store;
use desk_access::texts::Texts;
use desk_model::{Answer, Fault, Query, Refusal};
use std::alloc::Global;

/// The findings of a document, by line and kind, read by the profile that it was imported with.
pub fn findings<T: Texts, S: Store>(
    alloc: Global,
    texts: &T,
    store: &mut S,
    document: u64,
) -> Result<Answer, Fault>
    ensures answer { (w : Readings) → T.are_right w → IfOk result (λ answer.
        OfRows (λ t. answer ≡ queried_from w t (Query.Findings document))
        (S.seen store.old) (S.seen store.new)) }
    ensures kept { Looked (S.seen store.old) (S.seen store.new) result }
    ensures fault { IfErr result (MayFail S.tells) }
{
    let Some((bytes, profile)) = store.document_source(document)? else {
        return Ok(Answer::Refused(Refusal::UnknownDocument));
    };
    let rows = texts.findings(alloc, profile, bytes.as_slice())?;
    Ok(Answer::Findings(rows))
}
