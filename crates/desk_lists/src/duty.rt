//! The list of duties.

ghost use Rattle.std.specs.Prelude.{◌≡◌, List, filter, find, map, reverse, IfOk, IsPermutation};
ghost use Rattle.std.specs.List.Sorted.{IsSorted};
ghost use Rattle.std.specs.Option.{option_copied};
ghost use Rattle.desk_snapshot.specs.Rows.{is_change_of};
ghost use Rattle.desk_lists.specs.Duties.{changing_day, duty_line, is_asked, is_past, is_past_if_asked, is_wanted, last_change, line_texts, lines_wanted, package_name, raising_day, raising_order, waiver_end};
ghost use Rattle.desk_lists.specs.Titles.{titles_in_force};
ghost use Rattle.desk_lists.specs.declared.titles.Title.{Title as Titled};
ghost use Rattle.desk_snapshot.specs.declared.snapshot.Snapshot.{Snapshot as Held};
ghost use Rattle.desk_model.specs.Moves.{is_over};

use crate::lines::{DutyFilter, DutyLine};
use crate::titles::{Title, title_among, titles_in_force};
use desk_base::Text;
use desk_model::DutyState;
use desk_snapshot::{ByDuty, ById, ByStep, Snapshot, StoredChange, StoredDuty, last_day_at};
use std::alloc::{AllocError, Global};
use std::cmp::Ordering;

// Whether a text is the one asked for, if any is.
fn is_asked(asked: Option<&str>, text: &str) -> bool
    ensures { result ≡ is_asked (option_copied asked.entry) text.now }
{
    match asked {
        Some(wanted) => text == wanted,
        None => true,
    }
}

// The name of a package of a document.
fn package_name<'a>(snapshot: &'a Snapshot, document: i64, id: &str) -> &'a str
    ensures { result.now ≡ package_name snapshot.now document id.now }
{
    match snapshot.packages.find(&ById { document, id }) {
        Some(package) => package.name.as_str(),
        None => "",
    }
}

// The day on which a duty was raised.
fn raising_day(snapshot: &Snapshot, duty: i64) -> &str
    ensures { result.now ≡ raising_day snapshot.now duty }
{
    match snapshot.changes.find(&ByStep { duty, step: 1 }) {
        Some(change) => change.day.as_str(),
        None => "",
    }
}

// The last of these changes that is of a duty.
fn last_within(rows: &[StoredChange], duty: i64) -> Option<&StoredChange>
    ensures { option_copied result ≡ find (is_change_of duty) (reverse rows.now) }
{
    rows.iter().rev().find(|row| row.duty == duty)
}

// The last change of a duty.
fn last_change(snapshot: &Snapshot, duty: i64) -> Option<&StoredChange>
    ensures { option_copied result ≡ last_change snapshot.now duty }
{
    last_within(snapshot.changes.among(&ByDuty { duty }), duty)
}

// The day of a duty's last change.
fn changing_day(snapshot: &Snapshot, duty: i64) -> &str
    ensures { result.now ≡ changing_day snapshot.now duty }
{
    match last_change(snapshot, duty) {
        Some(change) => change.day.as_str(),
        None => "",
    }
}

// The last day of a duty's last change, if that is a waiver that ends.
fn waiver_end(snapshot: &Snapshot, duty: i64) -> Option<&str>
    ensures { option_copied result ≡ waiver_end snapshot.now duty }
{
    match last_change(snapshot, duty) {
        Some(change) => last_day_at(snapshot, change),
        None => None,
    }
}

// Whether there is a last day, and it is before another day.
fn is_end_before(day: &str, end: Option<&str>) -> bool
    ensures { result ≡ is_over day.now (option_copied end.entry) }
{
    match end {
        Some(last) => last.cmp(day).is_lt(),
        None => false,
    }
}

// Whether a duty is waived, and the waiver has a last day before a day.
fn is_past(snapshot: &Snapshot, day: &str, row: &StoredDuty) -> bool
    ensures { result ≡ is_past snapshot.now day.now row.now }
{
    row.state.as_str() == DutyState::Waived.name()
        && is_end_before(day, waiver_end(snapshot, row.number))
}

// Whether a duty is past by the day that is asked for, if one is.
fn is_past_if_asked(snapshot: &Snapshot, asked: Option<&str>, row: &StoredDuty) -> bool
    ensures { result ≡ is_past_if_asked snapshot.now (option_copied asked.entry) row.now }
{
    let Some(day) = asked else {
        return true;
    };
    is_past(snapshot, day, row)
}

// Whether a duty is asked for.
fn is_wanted(snapshot: &Snapshot, wanted: &DutyFilter<'_>, row: &StoredDuty) -> bool
    ensures { result ≡ is_wanted snapshot.now wanted.now row.now }
{
    is_asked(wanted.release, row.release.as_str())
        && is_asked(wanted.code, row.code.as_str())
        && (!wanted.still_open || row.state.as_str() == DutyState::IsOpen.name())
        && is_past_if_asked(snapshot, wanted.past, row)
}

// A copy of a text, if there is one.
fn copy_of(alloc: Global, text: Option<&str>) -> Result<Option<Text>, AllocError>
    ensures { IfOk result (λ copy. copy ≡ option_copied text.entry) }
{
    match text {
        Some(text) => Ok(Some(Text::of(alloc, text)?)),
        None => Ok(None),
    }
}

// The texts of a duty's line.
fn line_texts<'a>(snapshot: &'a Snapshot, titles: &'a [Title], row: &'a StoredDuty) -> [&'a str; 9]
    ensures { map (λ text. text.now) result ≡ line_texts snapshot.now titles.now row.now }
{
    [
        row.release.as_str(),
        row.package_id.as_str(),
        package_name(snapshot, row.document, row.package_id.as_str()),
        row.rule.as_str(),
        row.code.as_str(),
        title_among(row.code.as_str(), titles),
        row.state.as_str(),
        raising_day(snapshot, row.number),
        changing_day(snapshot, row.number),
    ]
}

// Copies of texts.
fn copies(alloc: Global, texts: [&str; 9]) -> Result<[Text; 9], AllocError>
    ensures { IfOk result (λ copies. copies ≡ map (λ text. text.now) texts.entry) }
{
    texts.try_map(|text| Text::of(alloc, text))
}

// The line of a duty with these texts.
fn line_with(row: &StoredDuty, texts: [Text; 9], last_day: Option<Text>) -> DutyLine
    ensures { (snapshot : Held) (titles : List Titled)
        → texts ≡ line_texts snapshot titles row.now
        → last_day ≡ waiver_end snapshot row.now.number
        → result ≡ duty_line snapshot titles row.now }
{
    let (number, document) = (row.number, row.document);
    let [
        release,
        package_id,
        package_name,
        rule,
        code,
        title,
        state,
        raised,
        changed,
    ] = texts;
    DutyLine {
        number,
        release,
        document,
        package_id,
        package_name,
        rule,
        code,
        title,
        state,
        raised,
        changed,
        last_day,
    }
}

// The line of a duty.
fn duty_line(
    alloc: Global,
    snapshot: &Snapshot,
    titles: &[Title],
    row: &StoredDuty,
) -> Result<DutyLine, AllocError>
    ensures { IfOk result (λ line. line ≡ duty_line snapshot.now titles.now row.now) }
{
    let last_day = copy_of(alloc, waiver_end(snapshot, row.number))?;
    let texts = copies(alloc, line_texts(snapshot, titles, row))?;
    Ok(line_with(row, texts, last_day))
}

// The line of each duty that is asked for, in the order of the table.
fn lines_in_turn(
    alloc: Global,
    snapshot: &Snapshot,
    titles: &[Title],
    wanted: &DutyFilter<'_>,
) -> Result<Vec<DutyLine>, AllocError>
    ensures { IfOk result (λ lines. lines.items
        ≡ map (duty_line snapshot.now titles.now)
        (filter (is_wanted snapshot.now wanted.now) snapshot.now.duty)) }
{
    let mut lines = Vec::new(alloc);
    for row in snapshot.duty.as_slice() {
        if is_wanted(snapshot, wanted, row) {
            lines.push(duty_line(alloc, snapshot, titles, row)?)?;
        }
    }
    Ok(lines)
}

// Which of two duties was raised first or, if they were raised on the same day, has the lower
// number.
fn compare_raising(line: &DutyLine, other: &DutyLine) -> Ordering
    ensures { result ≡ raising_order line.now other.now }
{
    let day = line.raised.as_str().cmp(other.raised.as_str());
    day.then(line.number.cmp(&other.number))
}

/// The duties that are asked for, by the day on which they were raised and then by number.
pub fn duties(
    alloc: Global,
    snapshot: &Snapshot,
    wanted: &DutyFilter<'_>,
) -> Result<Vec<DutyLine>, AllocError>
    ensures members { IfOk result
        (λ lines. IsPermutation (lines_wanted snapshot.now wanted.now) lines.items) }
    ensures order { IfOk result (λ lines. IsSorted raising_order lines.items) }
{
    let titles = titles_in_force(alloc, snapshot)?;
    let mut lines = lines_in_turn(alloc, snapshot, titles.as_slice(), wanted)?;
    lines.sort_by(|line, other| compare_raising(line, other))?;
    Ok(lines)
}
