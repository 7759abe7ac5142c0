//! What is missing for the notices of a release.

ghost use Rattle.std.specs.Prelude.{◌≡◌, ◌++◌, ℕ, List, Option, IfErr, IfOk, OnOk, map};
ghost use Rattle.std.specs.List.{flat_map};
ghost use Rattle.desk_model.specs.Bills.{revision_text};
ghost use Rattle.desk_model.specs.Faults.{MayFail};
ghost use Rattle.desk_model.specs.Gaps.{gaps_of, revision_for, text_gaps};
ghost use Rattle.desk_model.specs.Readings.{Readings};
ghost use Rattle.desk_access.specs.Seen.{Looked, OfRows};
ghost use Rattle.desk_history.specs.FromTables.{queried_from, sources_found};
ghost use Rattle.desk_bills.specs.Billing.{AreLeft, licence_found, licence_ids};
ghost use Rattle.desk_bills.specs.Lacking.{one_found};

use crate::lacks::lacks_of;
use crate::needed::{needed_for, texts_needed};
use crate::texts::licence_texts;
use desk_access::store::Store;
use desk_access::texts::Texts;
use desk_base::{Items, Text};
use desk_model::{
    Answer, Fault, Gap, GapKind, LicenceText, Query, Refusal, ReleaseRow, ReleaseState, TextOf,
    says_nothing,
};
use desk_packages::shipped_packages;
use std::alloc::{AllocError, Global};
use std::vec::IntoIter;

/// The revision of the catalogue whose texts count: that of the freeze or, before it, the last one.
fn revision_of<S: Store>(store: &mut S, row: &ReleaseRow) -> Result<u64, Fault>
    ensures found { IfOk result (λ revision. OfRows (λ t.
        revision ≡ revision_for t.catalogue row.now) (S.seen store.old) (S.seen store.new)) }
    ensures kept { Looked (S.seen store.old) (S.seen store.new) result }
    ensures fault { IfErr result (MayFail S.tells) }
{
    if row.revision == 0 {
        return store.revision_count();
    }
    Ok(row.revision)
}

/// The gap of a text that is missing. That of a licence or an exception is the next of those that
/// were found.
fn text_gap<S: Store>(
    store: &mut S,
    licences: &mut IntoIter<Option<LicenceText>>,
    text: TextOf,
) -> Result<Option<Gap>, Fault>
    ensures found { (w : Readings) (catalogue : Option (List ℕ)) (ids : List (List ℕ))
        → AreLeft w catalogue (licence_ids text ++ ids) licences.old
        → IfOk result (λ found. AreLeft w catalogue ids licences.new
        × OfRows (λ t. one_found found ≡ text_gaps w catalogue t.extracted text)
        (S.seen store.old) (S.seen store.new)) }
    ensures kept { Looked (S.seen store.old) (S.seen store.new) result }
    ensures fault { IfErr result (MayFail S.tells) }
{
    let (lacks, document, subject) = match text {
        TextOf::Licence { id } => (licences.next().flatten().is_none(), 0, id),
        TextOf::Reference {
            document,
            reference,
        } => {
            let body = store.extracted_text(document, reference.as_str())?;
            (says_nothing(&body), document, reference)
        }
    };
    if !lacks {
        return Ok(None);
    }
    Ok(Some(Gap {
        kind: GapKind::Text,
        document,
        subject,
    }))
}

/// Adds a gap that was found.
fn add_found(gaps: &mut Vec<Gap>, found: Option<Gap>) -> Result<(), AllocError>
    ensures { OnOk result (gaps.new.items ≡ gaps.old.items ++ one_found found) }
{
    if let Some(gap) = found {
        gaps.push(gap)?;
    }
    Ok(())
}

#[tactic(auto, using(desk_access::proofs::Chains::same_then_kept, desk_access::proofs::Chains::same_then_same))]
/// The gaps of texts, those of licences and exceptions looked up already.
fn text_gaps<S: Store>(
    alloc: Global,
    store: &mut S,
    licences: Items<Option<LicenceText>>,
    uses: Vec<TextOf>,
) -> Result<Vec<Gap>, Fault>
    ensures found { (w : Readings) (catalogue : Option (List ℕ))
        → licences ≡ map (licence_found w catalogue) (flat_map licence_ids uses.items)
        → IfOk result (λ gaps.
        OfRows (λ t. gaps.items ≡ flat_map (text_gaps w catalogue t.extracted) uses.items)
        (S.seen store.old) (S.seen store.new)) }
    ensures kept { Looked (S.seen store.old) (S.seen store.new) result }
    ensures fault { IfErr result (MayFail S.tells) }
{
    let mut gaps = Vec::new(alloc);
    let mut licences = licences.into_vec().into_iter();
    for text in uses {
        let found = text_gap(store, &mut licences, text)?;
        add_found(&mut gaps, found)?;
    }
    Ok(gaps)
}

/// The gaps of texts, by a revision of the catalogue.
fn text_gaps_by<T: Texts, S: Store>(
    alloc: Global,
    texts: &T,
    store: &mut S,
    revision: u64,
    uses: Vec<TextOf>,
) -> Result<Vec<Gap>, Fault>
    ensures found { (w : Readings) → T.are_right w → IfOk result (λ gaps.
        OfRows (λ t. gaps.items ≡ flat_map (text_gaps w (revision_text t.catalogue revision)
        t.extracted) uses.items) (S.seen store.old) (S.seen store.new)) }
    ensures kept { Looked (S.seen store.old) (S.seen store.new) result }
    ensures fault { IfErr result (MayFail S.tells) }
{
    let licences = licence_texts(alloc, texts, store, revision, uses.as_slice())?;
    text_gaps(alloc, store, licences, uses)
}

/// The gaps of a release: texts, copyrights, shipments, and packages that are there twice.
fn gaps_of<T: Texts, S: Store>(
    alloc: Global,
    texts: &T,
    store: &mut S,
    row: &ReleaseRow,
) -> Result<Vec<Gap>, Fault>
    ensures found { (w : Readings) → T.are_right w → IfOk result (λ gaps.
        OfRows (λ t. gaps.items ≡ gaps_of w (sources_found w t row.now))
        (S.seen store.old) (S.seen store.new)) }
    ensures kept { Looked (S.seen store.old) (S.seen store.new) result }
    ensures fault { IfErr result (MayFail S.tells) }
{
    let attached = store.attached(row.name.as_str())?;
    let packages = shipped_packages(alloc, store, attached.as_slice())?;
    let mut lacks = lacks_of(alloc, attached.as_slice(), packages.as_slice())?;
    let needed = needed_for(alloc, texts, store, &row.name, packages)?;
    let uses = texts_needed(alloc, texts, needed.as_slice())?;
    let revision = revision_of(store, row)?;
    let mut gaps = text_gaps_by(alloc, texts, store, revision, uses)?;
    gaps.append(&mut lacks)?;
    Ok(gaps)
}

/// What is missing for the notices of a release that is open or frozen.
pub fn gaps<T: Texts, S: Store>(
    alloc: Global,
    texts: &T,
    store: &mut S,
    name: &Text,
) -> Result<Answer, Fault>
    ensures answer { (w : Readings) → T.are_right w → IfOk result (λ answer.
        OfRows (λ t. answer ≡ queried_from w t (Query.Gaps name.now))
        (S.seen store.old) (S.seen store.new)) }
    ensures kept { Looked (S.seen store.old) (S.seen store.new) result }
    ensures fault { IfErr result (MayFail S.tells) }
{
    let Some(row) = store.release(name.as_str())? else {
        return Ok(Answer::Refused(Refusal::UnknownRelease));
    };
    match row.state {
        ReleaseState::Withdrawn => Ok(Answer::Refused(Refusal::ReleaseState(row.state))),
        _ => {
            let found = gaps_of(alloc, texts, store, &row)?;
            Ok(Answer::Gaps(Items::from_vec(found)))
        }
    }
}
