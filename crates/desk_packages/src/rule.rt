//! The rule for a term of a document.

ghost use Rattle.std.specs.Prelude.{◌≡◌, IfOk, IfErr};
ghost use Rattle.desk_model.specs.Readings.{Readings};
ghost use Rattle.desk_model.specs.Faults.{MayFail};
ghost use Rattle.desk_model.specs.Conclusions.{adopted};
ghost use Rattle.desk_model.specs.Raised.{rule_adopted};
ghost use Rattle.desk_history.specs.FromTables.{rules_found};
ghost use Rattle.desk_access.specs.Seen.{Looked, OfRows};

use desk_access::store::Store;
use desk_access::texts::Texts;
use desk_base::Text;
use desk_model::{Fault, Rule};
use std::alloc::Global;

/// The term for which a rule is looked up: a reference of a document that is adopted is replaced by
/// the licence that it is adopted as.
fn ruled_term<T: Texts, S: Store>(
    alloc: Global,
    texts: &T,
    store: &mut S,
    document: u32,
    term: &Text,
) -> Result<Option<Text>, Fault>
    ensures found { (w : Readings) → T.are_right w → IfOk result (λ found.
        OfRows (λ t. found ≡ adopted w t.adoption document term.now)
        (S.seen store.old) (S.seen store.new)) }
    ensures kept { Looked (S.seen store.old) (S.seen store.new) result }
    ensures fault { IfErr result (MayFail S.tells) }
{
    let Some(reference) = texts.reference(alloc, term.as_str())? else {
        return Ok(Some(term.clone()?));
    };
    let Some(licence) = store.adoption(document, reference.as_str())? else {
        return Ok(None);
    };
    Ok(Some(texts.adopted_as(alloc, licence.as_str(), term.as_str())?))
}

/// The rule for the adopted form of a term of a document.
pub fn rule_adopted<T: Texts, S: Store>(
    alloc: Global,
    texts: &T,
    store: &mut S,
    form: &Text,
    document: u32,
    term: &Text,
) -> Result<Option<Rule>, Fault>
    ensures found { (w : Readings) → T.are_right w → IfOk result (λ found.
        OfRows (λ t. found ≡ rule_adopted w t.adoption (rules_found t) form.now document term.now)
        (S.seen store.old) (S.seen store.new)) }
    ensures kept { Looked (S.seen store.old) (S.seen store.new) result }
    ensures fault { IfErr result (MayFail S.tells) }
{
    match ruled_term(alloc, texts, store, document, term)? {
        Some(licence) => store.rule(licence.as_str(), form.as_str()),
        None => Ok(None),
    }
}
