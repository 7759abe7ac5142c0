//! Why a term that is chosen for a package keeps its release from being frozen.

ghost use Rattle.std.specs.Prelude.{◌≡◌, IfOk, IfErr};
ghost use Rattle.desk_model.specs.Readings.{Readings};
ghost use Rattle.desk_model.specs.Faults.{MayFail};
ghost use Rattle.desk_model.specs.Answers.{unadopted};
ghost use Rattle.desk_access.specs.Seen.{Looked, OfRows};

use desk_access::store::Store;
use desk_access::texts::Texts;
use desk_base::Text;
use desk_model::{Fault, PackageRow, Refusal};
use std::alloc::{AllocError, Global};

/// Why a term of a document can't be frozen, if it is a reference that isn't adopted.
pub fn not_adopted<T: Texts, S: Store>(
    alloc: Global,
    texts: &T,
    store: &mut S,
    document: u32,
    term: &Text,
) -> Result<Option<Refusal>, Fault>
    ensures found { (w : Readings) → T.are_right w → IfOk result (λ refusal.
        OfRows (λ t. refusal ≡ unadopted w t.adoption document term.now)
        (S.seen store.old) (S.seen store.new)) }
    ensures kept { Looked (S.seen store.old) (S.seen store.new) result }
    ensures fault { IfErr result (MayFail S.tells) }
{
    let Some(reference) = texts.reference(alloc, term.as_str())? else {
        return Ok(None);
    };
    if store.adoption(document, reference.as_str())?.is_some() {
        return Ok(None);
    }
    Ok(Some(Refusal::NotAdopted {
        document,
        reference,
    }))
}

/// The refusal of a term of a package that has no rule.
pub fn no_rule(row: &PackageRow, term: &Text) -> Result<Refusal, AllocError>
    ensures { IfOk result (λ refusal. refusal
        ≡ Refusal.NoRule row.now.document row.now.id term.now) }
{
    Ok(Refusal::NoRule {
        document: row.document,
        package_id: row.id.clone()?,
        term: term.clone()?,
    })
}
