//! All releases, documents and open duties of a desk.

ghost use Rattle.std.specs.Prelude.{◌≡◌, false, [], IfOk, IfErr, filter, map};
ghost use Rattle.std.specs.List.{flat_map};
ghost use Rattle.desk_model.specs.Readings.{Readings};
ghost use Rattle.desk_model.specs.Faults.{MayFail};
ghost use Rattle.desk_model.specs.Queries.{is_open_of, open_duty};
ghost use Rattle.desk_model.specs.States.{is_open};
ghost use Rattle.desk_access.specs.Seen.{Looked, OfRows};
ghost use Rattle.desk_history.specs.FromTables.{open_found, queried_from};
ghost use Rattle.desk_questions.specs.Lists.{changes_found, counted_line, head_line};

use desk_access::store::Store;
use desk_base::Items;
use desk_model::{
    Answer, DocumentHead, DocumentLine, DutyRow, DutyState, Fault, OpenDuty, Query, ReleaseLine,
    ReleaseRow, Totals,
};
use std::alloc::Global;

/// The line of a release. Only a release of the desk is counted.
fn release_line<S: Store>(store: &mut S, row: ReleaseRow) -> Result<ReleaseLine, Fault>
    ensures line { IfOk result (λ line.
        OfRows (λ t. line ≡ counted_line t row) (S.seen store.old) (S.seen store.new)) }
    ensures kept { Looked (S.seen store.old) (S.seen store.new) result }
    ensures fault { IfErr result (MayFail S.tells) }
{
    let totals = match store.tally(row.name.as_str())? {
        Some(totals) => totals,
        None => Totals {
            raised: 0,
            still_open: 0,
            met: 0,
            waived: 0,
            withdrawn: 0,
        },
    };
    Ok(ReleaseLine {
        release: row,
        totals,
    })
}

#[tactic(auto, using(desk_access::proofs::Chains::same_then_kept, desk_access::proofs::Chains::same_then_same))]
fn release_lines<S: Store>(
    alloc: Global,
    store: &mut S,
    rows: Vec<ReleaseRow>,
) -> Result<Items<ReleaseLine>, Fault>
    ensures lines { IfOk result (λ lines. OfRows (λ t.
        lines ≡ map (counted_line t) rows.items) (S.seen store.old) (S.seen store.new)) }
    ensures kept { Looked (S.seen store.old) (S.seen store.new) result }
    ensures fault { IfErr result (MayFail S.tells) }
{
    let mut lines = Items::new(alloc);
    for row in rows {
        let line = release_line(store, row)?;
        lines.push(line)?;
    }
    Ok(lines)
}

/// All releases by name, each with its duties counted by state.
pub fn releases<S: Store>(alloc: Global, store: &mut S) -> Result<Answer, Fault>
    ensures answer { (w : Readings) → IfOk result (λ answer.
        OfRows (λ t. answer ≡ queried_from w t Query.Releases)
        (S.seen store.old) (S.seen store.new)) }
    ensures kept { Looked (S.seen store.old) (S.seen store.new) result }
    ensures fault { IfErr result (MayFail S.tells) }
{
    let rows = store.releases()?;
    Ok(Answer::Releases(release_lines(alloc, store, rows)?))
}

/// The line of a document.
fn document_line<S: Store>(store: &mut S, head: DocumentHead) -> Result<DocumentLine, Fault>
    ensures line { IfOk result (λ line.
        OfRows (λ t. line ≡ head_line t head) (S.seen store.old) (S.seen store.new)) }
    ensures kept { Looked (S.seen store.old) (S.seen store.new) result }
    ensures fault { IfErr result (MayFail S.tells) }
{
    let shipped = store.shipped(head.number)?.len() as u64;
    Ok(DocumentLine { head, shipped })
}

#[tactic(auto, using(desk_access::proofs::Chains::same_then_kept, desk_access::proofs::Chains::same_then_same))]
fn document_lines<S: Store>(
    alloc: Global,
    store: &mut S,
    heads: Vec<DocumentHead>,
) -> Result<Items<DocumentLine>, Fault>
    ensures lines { IfOk result (λ lines. OfRows (λ t.
        lines ≡ map (head_line t) heads.items) (S.seen store.old) (S.seen store.new)) }
    ensures kept { Looked (S.seen store.old) (S.seen store.new) result }
    ensures fault { IfErr result (MayFail S.tells) }
{
    let mut lines = Items::new(alloc);
    for head in heads {
        let line = document_line(store, head)?;
        lines.push(line)?;
    }
    Ok(lines)
}

/// All documents by number, with how many packages each ships.
pub fn documents<S: Store>(alloc: Global, store: &mut S) -> Result<Answer, Fault>
    ensures answer { (w : Readings) → IfOk result (λ answer.
        OfRows (λ t. answer ≡ queried_from w t Query.Documents)
        (S.seen store.old) (S.seen store.new)) }
    ensures kept { Looked (S.seen store.old) (S.seen store.new) result }
    ensures fault { IfErr result (MayFail S.tells) }
{
    let heads = store.documents()?;
    Ok(Answer::Documents(document_lines(alloc, store, heads)?))
}

/// Whether a release may have open duties.
fn may_be_open<S: Store>(store: &mut S, release: &str) -> Result<bool, Fault>
    ensures found { IfOk result (λ may. OfRows (λ t.
        may ≡ false → filter (is_open_of release.now) t.duty ≡ [])
        (S.seen store.old) (S.seen store.new)) }
    ensures kept { Looked (S.seen store.old) (S.seen store.new) result }
    ensures fault { IfErr result (MayFail S.tells) }
{
    match store.tally(release)? {
        Some(totals) => Ok(totals.still_open != 0),
        None => Ok(true),
    }
}

fn is_open(duty: &DutyRow) -> bool
    ensures { result ≡ is_open duty.now.state }
{
    matches!(duty.state, DutyState::IsOpen)
}

/// The open ones of these duties.
fn open_among(mut rows: Vec<DutyRow>) -> Vec<DutyRow>
    ensures { result.items ≡ filter (λ row. is_open row.state) rows.items }
{
    rows.retain(|row| is_open(row));
    rows
}

/// The open duties of a release, by number.
fn open_rows<S: Store>(alloc: Global, store: &mut S, release: &str) -> Result<Vec<DutyRow>, Fault>
    ensures found { IfOk result (λ rows. OfRows (λ t.
        rows.items ≡ filter (is_open_of release.now) t.duty)
        (S.seen store.old) (S.seen store.new)) }
    ensures kept { Looked (S.seen store.old) (S.seen store.new) result }
    ensures fault { IfErr result (MayFail S.tells) }
{
    // Most releases have none, and the tally says so at once.
    if !may_be_open(store, release)? {
        return Ok(Vec::new(alloc));
    }
    let rows = store.duties_of(release)?;
    Ok(open_among(rows))
}

#[tactic(auto, using(desk_access::proofs::Chains::same_then_kept, desk_access::proofs::Chains::same_then_same))]
/// Each of these duties with the day of its last change.
fn with_days<S: Store>(
    alloc: Global,
    store: &mut S,
    rows: Vec<DutyRow>,
) -> Result<Vec<OpenDuty>, Fault>
    ensures found { IfOk result (λ duties. OfRows (λ t.
        duties.items ≡ map (open_duty (changes_found t)) rows.items)
        (S.seen store.old) (S.seen store.new)) }
    ensures kept { Looked (S.seen store.old) (S.seen store.new) result }
    ensures fault { IfErr result (MayFail S.tells) }
{
    let mut duties = Vec::new(alloc);
    for row in rows {
        let day = store.last_day(row.number)?;
        duties.push(OpenDuty { duty: row, day })?;
    }
    Ok(duties)
}

/// The open duties of a release, each with the day of its last change.
fn open_of<S: Store>(
    alloc: Global,
    store: &mut S,
    release: &ReleaseRow,
) -> Result<Vec<OpenDuty>, Fault>
    ensures found { IfOk result (λ duties. OfRows (λ t.
        duties.items ≡ open_found t release.now)
        (S.seen store.old) (S.seen store.new)) }
    ensures kept { Looked (S.seen store.old) (S.seen store.new) result }
    ensures fault { IfErr result (MayFail S.tells) }
{
    let rows = open_rows(alloc, store, release.name.as_str())?;
    with_days(alloc, store, rows)
}

#[tactic(auto, using(desk_access::proofs::Chains::same_then_kept, desk_access::proofs::Chains::same_then_same))]
/// The open duties of these releases, one release after another.
fn open_of_all<S: Store>(
    alloc: Global,
    store: &mut S,
    releases: &[ReleaseRow],
) -> Result<Vec<OpenDuty>, Fault>
    ensures found { IfOk result (λ duties. OfRows (λ t.
        duties.items ≡ flat_map (open_found t) releases.now)
        (S.seen store.old) (S.seen store.new)) }
    ensures kept { Looked (S.seen store.old) (S.seen store.new) result }
    ensures fault { IfErr result (MayFail S.tells) }
{
    let mut duties = Vec::new(alloc);
    for release in releases {
        let mut more = open_of(alloc, store, release)?;
        duties.append(&mut more)?;
    }
    Ok(duties)
}

/// The open duties of all releases, release by release, each by number.
pub fn open_duties<S: Store>(alloc: Global, store: &mut S) -> Result<Answer, Fault>
    ensures answer { (w : Readings) → IfOk result (λ answer.
        OfRows (λ t. answer ≡ queried_from w t Query.OpenDuties)
        (S.seen store.old) (S.seen store.new)) }
    ensures kept { Looked (S.seen store.old) (S.seen store.new) result }
    ensures fault { IfErr result (MayFail S.tells) }
{
    let releases = store.releases()?;
    let duties = open_of_all(alloc, store, releases.as_slice())?;
    Ok(Answer::OpenDuties(Items::from_vec(duties)))
}
