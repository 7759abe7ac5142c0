//! Answers questions.

ghost use Rattle.std.specs.Prelude.{◌≡◌, ℕ, IfOk, IfErr, map, filter};
ghost use Rattle.desk_model.specs.Readings.{Readings};
ghost use Rattle.desk_model.specs.Faults.{MayFail};
ghost use Rattle.desk_model.specs.Keys.{is_change_of};
ghost use Rattle.desk_model.specs.Queries.{duty_line};
ghost use Rattle.desk_access.specs.Seen.{Looked, OfRows};
ghost use Rattle.desk_history.specs.FromTables.{queried_from, line_found};

use crate::findings::findings;
use crate::listing::{alternatives, cheapest};
use crate::lists::{documents, open_duties, releases};
use crate::packages::release;
use crate::ready::ready;
use crate::wanting::wanting;
use desk_access::store::Store;
use desk_access::texts::Texts;
use desk_base::{Items, Text};
use desk_bills::bill::bill;
use desk_bills::gaps::gaps;
use desk_model::{Answer, DutyLine, DutyRow, Fault, Query, Refusal};
use std::alloc::Global;

#[tactic(auto, using(desk_access::proofs::Chains::same_then_kept, desk_access::proofs::Chains::same_then_same))]
/// The lines of duties, each with the day of its last change.
pub(crate) fn duty_lines<S: Store>(
    alloc: Global,
    store: &mut S,
    rows: Vec<DutyRow>,
) -> Result<Items<DutyLine>, Fault>
    ensures lines { IfOk result (λ lines.
        OfRows (λ t. lines ≡ map (line_found t) rows.items) (S.seen store.old) (S.seen store.new)) }
    ensures kept { Looked (S.seen store.old) (S.seen store.new) result }
    ensures fault { IfErr result (MayFail S.tells) }
{
    let mut lines = Items::new(alloc);
    for row in rows {
        let day = store.last_day(row.number)?;
        let line = DutyLine {
            number: row.number,
            document: row.document,
            package_id: row.package_id,
            term: row.term,
            rule: row.rule,
            code: row.code,
            state: row.state,
            day,
        };
        lines.push(line)?;
    }
    Ok(lines)
}

/// The duties of a release, by number.
pub fn duties<S: Store>(alloc: Global, store: &mut S, release: &Text) -> Result<Answer, Fault>
    ensures answer { (w : Readings) → IfOk result (λ answer.
        OfRows (λ t. answer ≡ queried_from w t (Query.Duties release.now))
        (S.seen store.old) (S.seen store.new)) }
    ensures kept { Looked (S.seen store.old) (S.seen store.new) result }
    ensures fault { IfErr result (MayFail S.tells) }
{
    if store.release(release.as_str())?.is_none() {
        return Ok(Answer::Refused(Refusal::UnknownRelease));
    }
    let rows = store.duties_of(release.as_str())?;
    Ok(Answer::Duties(duty_lines(alloc, store, rows)?))
}

/// The duties of a release, counted by state.
pub fn totals<S: Store>(store: &mut S, release: &Text) -> Result<Answer, Fault>
    ensures answer { (w : Readings) → IfOk result (λ answer.
        OfRows (λ t. answer ≡ queried_from w t (Query.Totals release.now))
        (S.seen store.old) (S.seen store.new)) }
    ensures kept { Looked (S.seen store.old) (S.seen store.new) result }
    ensures fault { IfErr result (MayFail S.tells) }
{
    match store.tally(release.as_str())? {
        Some(totals) => Ok(Answer::Totals(totals)),
        None => Ok(Answer::Refused(Refusal::UnknownRelease)),
    }
}

/// The changes of a duty, by step.
pub fn changes<S: Store>(store: &mut S, duty: u64) -> Result<Answer, Fault>
    ensures answer { (w : Readings) → IfOk result (λ answer.
        OfRows (λ t. answer ≡ queried_from w t (Query.Changes duty))
        (S.seen store.old) (S.seen store.new)) }
    ensures kept { Looked (S.seen store.old) (S.seen store.new) result }
    ensures fault { IfErr result (MayFail S.tells) }
{
    if store.duty(duty)?.is_none() {
        return Ok(Answer::Refused(Refusal::UnknownDuty));
    }
    let rows = store.changes_of(duty)?;
    Ok(Answer::Changes(Items::from_vec(rows)))
}

/// Answers a question.
pub fn answer_to<T: Texts, S: Store>(
    alloc: Global,
    texts: &T,
    store: &mut S,
    query: &Query,
) -> Result<Answer, Fault>
    ensures answer { (w : Readings) → T.are_right w → IfOk result (λ answer.
        OfRows (λ t. answer ≡ queried_from w t query.now) (S.seen store.old) (S.seen store.new)) }
    ensures kept { Looked (S.seen store.old) (S.seen store.new) result }
    ensures fault { IfErr result (MayFail S.tells) }
{
    match query {
        Query::Duties { release } => duties(alloc, store, release),
        Query::Totals { release } => totals(store, release),
        Query::Changes { duty } => changes(store, *duty),
        Query::Findings { document } => findings(alloc, texts, store, *document),
        Query::Release { release: name } => release(alloc, texts, store, name),
        Query::Alternatives {
            document,
            package_id,
        } => alternatives(alloc, texts, store, *document, package_id),
        Query::Cheapest {
            document,
            package_id,
            form,
        } => cheapest(alloc, texts, store, *document, package_id, form),
        Query::Bill { release: name } => bill(alloc, texts, store, name),
        Query::Releases => releases(alloc, store),
        Query::Documents => documents(alloc, store),
        Query::OpenDuties => open_duties(alloc, store),
        Query::Wanting { release } => wanting(alloc, texts, store, release),
        Query::Ready { release, day } => ready(alloc, store, release, day),
        Query::Gaps { release } => gaps(alloc, texts, store, release),
    }
}
