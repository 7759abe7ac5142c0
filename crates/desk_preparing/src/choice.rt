//! Chooses terms for the packages of a release, and drops choices.

ghost use Rattle.std.specs.Prelude.{◌≡◌, ℕ, List, [], IfOk, IfErr, map};
ghost use Rattle.desk_model.specs.Readings.{Readings};
ghost use Rattle.desk_base.specs.Borrowed.{texts};
ghost use Rattle.desk_base.specs.declared.profile.Profile.{Profile};
ghost use Rattle.desk_model.specs.Faults.{MayFail};
ghost use Rattle.desk_model.specs.Texts.{sorted_set};
ghost use Rattle.desk_model.specs.Tables.{choice_row};
ghost use Rattle.desk_model.specs.Answers.{refused_or};
ghost use Rattle.desk_history.specs.FromTables.{chosen_change, conclusion_found};
ghost use Rattle.desk_access.specs.Seen.{Looked, OfRows};
ghost use Rattle.desk_packages.specs.Claims.{read_claim};
ghost use Rattle.desk_access.specs.Plans.{IsPlan, IsPlanOf, IsSound, Plans, SparesStore};
ghost use Rattle.desk_preparing.specs.Choosing.{AreTermsOf, choose_for, choose_found, judged, IsFound, IsFoundIn, IsOpenPlace};
ghost use Rattle.desk_preparing.specs.Dropping.{drop_answer, unchoose_in};
ghost use Rattle.desk_model.specs.Answers.{refused_alone};
ghost use Rattle.desk_model.specs.declared.command.Answer.TheVariants.{Done};
ghost use Rattle.desk_model.specs.declared.command.Command.TheVariants.{Choose, Unchoose};

use crate::looking::{has_package, number_of, state_of};
use desk_access::store::Store;
use desk_access::texts::Texts;
use desk_base::{Items, Text, TextList};
use desk_model::{Change, ChoiceRow, Fault, PackageRow, Plan, Refusal, ReleaseState, Verdict};
use desk_packages::{Claim, InForce, claim_of, make, read_claim, refuse, unready};
use std::alloc::{AllocError, Global};
use std::collections::BTreeSet;

/// The terms that texts spell, or the place of the first that spells none.
#[derive(Drop)]
enum TermsRead {
    Terms(TextList),
    BadTerm(usize),
}

fn read_terms<T: Texts>(alloc: Global, texts: &T, words: &TextList) -> Result<TermsRead, AllocError>
    ensures { (w : Readings) → T.are_right w → IfOk result (AreTermsOf w words.now) }
{
    let mut terms = TextList::new(alloc);
    for i in 0..words.len() {
        let Some(term) = texts.term(alloc, words.at(i))? else {
            return Ok(TermsRead::BadTerm(i));
        };
        terms.push(term.as_str())?;
    }
    Ok(TermsRead::Terms(terms))
}

/// The texts that a list has.
fn set_of<'a>(alloc: Global, terms: &'a TextList) -> Result<BTreeSet<&'a str>, AllocError>
    ensures { IfOk result (λ set. texts set.keys ≡ sorted_set terms.now) }
{
    let mut set = BTreeSet::new(alloc);
    for i in (0..terms.len()).rev() {
        set.insert(terms.at(i))?;
    }
    Ok(set)
}

/// The set of some terms, sorted. Only a term that isn't in it yet takes memory.
fn sorted_set(alloc: Global, terms: &TextList) -> Result<Vec<Text>, AllocError>
    ensures { IfOk result (λ sorted. sorted.items ≡ sorted_set terms.now) }
{
    let set = set_of(alloc, terms)?;
    let mut sorted = Vec::with_capacity(alloc, set.len())?;
    for term in set {
        sorted.push(Text::of(alloc, term)?)?;
    }
    Ok(sorted)
}

/// The refusal that follows from a verdict.
fn refusal_of(
    alloc: Global,
    terms: &TextList,
    verdict: Verdict,
) -> Result<Option<Refusal>, AllocError>
    ensures { IfOk result (λ refusal. refused_or refusal Done ≡ judged terms.now verdict) }
{
    match verdict {
        Verdict::NotEnough => Ok(Some(Refusal::NotEnough)),
        Verdict::Superfluous(i) => {
            let word = if i < terms.len() { terms.at(i) } else { "" };
            let term = Text::of(alloc, word)?;
            Ok(Some(Refusal::NotMinimal { term }))
        }
        Verdict::Minimal => Ok(None),
    }
}

/// The refusal for a package without a conclusion.
fn no_conclusion(row: &PackageRow) -> Result<Refusal, AllocError>
    ensures { IfOk result (λ refusal. refusal ≡ Refusal.NoConclusion row.now.document row.now.id) }
{
    Ok(Refusal::NoConclusion {
        document: row.document,
        package_id: row.id.clone()?,
    })
}

/// Why the terms are refused for a package with an expression in force, if they are.
fn judge_by<T: Texts>(
    alloc: Global,
    texts: &T,
    expression: &T::Expression,
    terms: &TextList,
) -> Result<Option<Refusal>, AllocError>
    ensures { (w : Readings) → T.are_right w → (profile : Profile) (text : List ℕ)
        → T.is_of profile text expression.now
        → IfOk result (λ refusal. refused_or refusal Done
        ≡ judged terms.now (w.verdict profile text terms.now)) }
{
    let verdict = texts.verdict(alloc, expression, terms)?;
    refusal_of(alloc, terms, verdict)
}

/// Why the terms are refused for a package with this claim, if they are. Its text is read once.
fn judge<T: Texts>(
    alloc: Global,
    texts: &T,
    claim: &Claim,
    row: &PackageRow,
    terms: &TextList,
) -> Result<Option<Refusal>, AllocError>
    ensures { (w : Readings) → T.are_right w → IfOk result (λ refusal.
        refused_or refusal Done ≡ choose_for w terms.now (read_claim w claim.now) row.now) }
{
    match read_claim(alloc, texts, claim)? {
        InForce::Expression(expression) => judge_by(alloc, texts, &expression, terms),
        InForce::NoExpression => Ok(Some(Refusal::NotEnough)),
        InForce::Nothing => Ok(Some(no_conclusion(row)?)),
    }
}

fn choice_rows(
    alloc: Global,
    release: &Text,
    document: u32,
    package_id: &Text,
    terms: Vec<Text>,
) -> Result<Items<ChoiceRow>, AllocError>
    ensures { IfOk result (λ rows. rows
        ≡ map (choice_row release.now document package_id.now) terms.items) }
{
    let mut rows = Items::new(alloc);
    for term in terms {
        rows.push(ChoiceRow {
            release: release.clone()?,
            document,
            package_id: package_id.clone()?,
            term,
        })?;
    }
    Ok(rows)
}

/// The rows of a choice.
fn chosen(
    alloc: Global,
    release: &Text,
    document: u32,
    package_id: &Text,
    terms: &TextList,
) -> Result<Change, AllocError>
    ensures { IfOk result (λ change. change
        ≡ chosen_change release.now document package_id.now (sorted_set terms.now)) }
{
    let set = sorted_set(alloc, terms)?;
    let rows = choice_rows(alloc, release, document, package_id, set)?;
    Ok(Change::Chosen {
        release: release.clone()?,
        document,
        package_id: package_id.clone()?,
        rows,
    })
}

/// A shipped package of an attached document in an open release.
#[derive(Drop)]
struct Place {
    document: u32,
    row: PackageRow,
}

/// Where terms may be chosen, or why they may not.
#[derive(Drop)]
enum Found {
    Here(Place),
    Nowhere(Refusal),
}

/// Whether terms may be chosen at a place, by the state of the release and whether the document is
/// attached.
fn open_place(state: ReleaseState, is_attached: bool, place: Place) -> Found
    ensures { IsOpenPlace state is_attached place result }
{
    if let Some(refusal) = unready(state) {
        return Found::Nowhere(refusal);
    }
    if !is_attached {
        return Found::Nowhere(Refusal::NotShipped);
    }
    if !place.row.shipped {
        return Found::Nowhere(Refusal::NotShipped);
    }
    Found::Here(place)
}

/// Looks up where terms may be chosen for a package of a document that was found, in a release in
/// this state.
fn find_in<S: Store>(
    store: &mut S,
    state: ReleaseState,
    release: &Text,
    document: u32,
    package_id: &Text,
) -> Result<Found, Fault>
    ensures found { IfOk result (λ found.
        OfRows (λ t. IsFoundIn t state release.now document package_id.now found)
        (S.seen store.old) (S.seen store.new)) }
    ensures kept { Looked (S.seen store.old) (S.seen store.new) result }
    ensures fault { IfErr result (MayFail S.tells) }
{
    let Some(row) = store.package_row(u64::from(document), package_id.as_str())? else {
        return Ok(Found::Nowhere(Refusal::UnknownPackage));
    };
    let is_attached = store.is_attached(release.as_str(), u64::from(document))?;
    Ok(open_place(state, is_attached, Place { document, row }))
}

/// Looks up where terms may be chosen.
fn find_place<S: Store>(
    store: &mut S,
    release: &Text,
    document: u64,
    package_id: &Text,
) -> Result<Found, Fault>
    ensures found { IfOk result (λ found.
        OfRows (λ t. IsFound t release.now document package_id.now found)
        (S.seen store.old) (S.seen store.new)) }
    ensures kept { Looked (S.seen store.old) (S.seen store.new) result }
    ensures fault { IfErr result (MayFail S.tells) }
{
    let Some(state) = state_of(store, release)? else {
        return Ok(Found::Nowhere(Refusal::UnknownRelease));
    };
    let Some(number) = number_of(store, document)? else {
        return Ok(Found::Nowhere(Refusal::UnknownDocument));
    };
    find_in(store, state, release, number, package_id)
}

/// Chooses terms that were read, at a place with this claim.
fn choose_at<T: Texts>(
    alloc: Global,
    texts: &T,
    release: &Text,
    place: &Place,
    claim: &Claim,
    package_id: &Text,
    terms: &TextList,
) -> Result<Plan, AllocError>
    ensures plan { (w : Readings) → T.are_right w
        → IfOk result (IsPlan (choose_for w terms.now (read_claim w claim.now) place.now.row)
        (chosen_change release.now place.now.document package_id.now (sorted_set terms.now))) }
    ensures sound { IfOk result IsSound }
{
    if let Some(refusal) = judge(alloc, texts, claim, &place.row, terms)? {
        return Ok(refuse(refusal));
    }
    Ok(make(chosen(alloc, release, place.document, package_id, terms)?))
}

/// Chooses terms that were read, at a place that was found.
fn choose_here<T: Texts, S: Store>(
    alloc: Global,
    texts: &T,
    store: &mut S,
    release: &Text,
    place: &Place,
    package_id: &Text,
    terms: &TextList,
) -> Result<Plan, Fault>
    ensures plan { (w : Readings) → T.are_right w → IfOk result (λ plan.
        OfRows (λ t. IsPlan
        (choose_for w terms.now (conclusion_found w t place.now.row) place.now.row)
        (chosen_change release.now place.now.document package_id.now (sorted_set terms.now)) plan)
        (S.seen store.old) (S.seen store.new)) }
    ensures kept { Plans (S.seen store.old) (S.seen store.new) result }
    ensures fault { IfErr result (MayFail S.tells) }
{
    let claim = claim_of(store, &place.row)?;
    Ok(choose_at(alloc, texts, release, place, &claim, package_id, terms)?)
}

/// Chooses terms that were read.
fn choose_terms<T: Texts, S: Store>(
    alloc: Global,
    texts: &T,
    store: &mut S,
    release: &Text,
    document: u64,
    package_id: &Text,
    terms: &TextList,
) -> Result<Plan, Fault>
    ensures plan { (w : Readings) → T.are_right w → IfOk result (λ plan.
        OfRows (λ t. IsPlan (choose_found w t release.now document package_id.now terms.now)
        (chosen_change release.now document package_id.now (sorted_set terms.now)) plan)
        (S.seen store.old) (S.seen store.new)) }
    ensures kept { Plans (S.seen store.old) (S.seen store.new) result }
    ensures fault { IfErr result (MayFail S.tells) }
{
    match find_place(store, release, document, package_id)? {
        Found::Nowhere(refusal) => Ok(refuse(refusal)),
        Found::Here(place) => choose_here(alloc, texts, store, release, &place, package_id, terms),
    }
}

/// Chooses terms for a package in a release.
pub fn choose<T: Texts, S: Store>(
    alloc: Global,
    texts: &T,
    store: &mut S,
    release: &Text,
    document: u64,
    package_id: &Text,
    words: &TextList,
) -> Result<Plan, Fault>
    ensures plan { (w : Readings) → T.are_right w → IfOk result (λ plan.
        OfRows (IsPlanOf w (Choose release.now document package_id.now words.now) plan)
        (S.seen store.old) (S.seen store.new)) }
    ensures kept { Plans (S.seen store.old) (S.seen store.new) result }
    ensures alone { (w : Readings) → T.are_right w
        → SparesStore (refused_alone w (Choose release.now document package_id.now words.now))
        result }
    ensures fault { IfErr result (MayFail S.tells) }
{
    match read_terms(alloc, texts, words)? {
        TermsRead::BadTerm(i) => Ok(refuse(Refusal::BadTerm(i))),
        TermsRead::Terms(terms) => choose_terms(
            alloc, texts, store, release, document, package_id, &terms,
        ),
    }
}

/// The change that drops the choice for a package.
fn drop_choice(
    alloc: Global,
    release: &Text,
    document: u32,
    package_id: &Text,
) -> Result<Change, AllocError>
    ensures { IfOk result (λ change. change
        ≡ chosen_change release.now document package_id.now []) }
{
    Ok(Change::Chosen {
        release: release.clone()?,
        document,
        package_id: package_id.clone()?,
        rows: Items::new(alloc),
    })
}

/// Drops the choice for a package, if there is one.
fn unchoose_terms(
    alloc: Global,
    release: &Text,
    document: u32,
    package_id: &Text,
    terms: &[Text],
) -> Result<Plan, AllocError>
    ensures plan { IfOk result (IsPlan (drop_answer document package_id.now terms.now)
        (chosen_change release.now document package_id.now [])) }
    ensures sound { IfOk result IsSound }
{
    if terms.is_empty() {
        return Ok(refuse(Refusal::NoChoice {
            document,
            package_id: package_id.clone()?,
        }));
    }
    Ok(make(drop_choice(alloc, release, document, package_id)?))
}

/// Drops the choice for a package of a document that was found, in a release in this state.
fn unchoose_in<S: Store>(
    alloc: Global,
    store: &mut S,
    state: ReleaseState,
    release: &Text,
    document: u32,
    package_id: &Text,
) -> Result<Plan, Fault>
    ensures plan { IfOk result (λ plan.
        OfRows (λ t. IsPlan (unchoose_in t state release.now document package_id.now)
        (chosen_change release.now document package_id.now []) plan)
        (S.seen store.old) (S.seen store.new)) }
    ensures kept { Plans (S.seen store.old) (S.seen store.new) result }
    ensures fault { IfErr result (MayFail S.tells) }
{
    if !has_package(store, document, package_id)? {
        return Ok(refuse(Refusal::UnknownPackage));
    }
    if let Some(refusal) = unready(state) {
        return Ok(refuse(refusal));
    }
    let terms = store.chosen(release.as_str(), document, package_id.as_str())?;
    Ok(unchoose_terms(alloc, release, document, package_id, terms.as_slice())?)
}

/// Drops the choice for a package in a release.
pub fn unchoose<S: Store>(
    alloc: Global,
    store: &mut S,
    release: &Text,
    document: u64,
    package_id: &Text,
) -> Result<Plan, Fault>
    ensures plan { (w : Readings) → IfOk result (λ plan.
        OfRows (IsPlanOf w (Unchoose release.now document package_id.now) plan)
        (S.seen store.old) (S.seen store.new)) }
    ensures kept { Plans (S.seen store.old) (S.seen store.new) result }
    ensures alone { (w : Readings)
        → SparesStore (refused_alone w (Unchoose release.now document package_id.now)) result }
    ensures fault { IfErr result (MayFail S.tells) }
{
    let Some(state) = state_of(store, release)? else {
        return Ok(refuse(Refusal::UnknownRelease));
    };
    let Some(number) = number_of(store, document)? else {
        return Ok(refuse(Refusal::UnknownDocument));
    };
    unchoose_in(alloc, store, state, release, number, package_id)
}
