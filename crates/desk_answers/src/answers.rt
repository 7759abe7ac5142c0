//! The text of an answer.

ghost use Rattle.std.specs.Prelude.{IfOk};
ghost use Rattle.desk_answers.specs.Answers.{IsShown};

use crate::refusals::{refusal_text, wanting_text};
use crate::rows::{
    CHANGE_NAMES, CLOSED_NAMES, COUNTED_NAMES, FINDING_NAMES, GAP_NAMES, HELD_NAMES, OPEN_NAMES,
    REVISION_NAMES,
};
use crate::sets::sets_text;
use crate::tables::{
    cheapest_text, columns_of, document_text, frozen_text, release_text, row_text, totals_text,
    words_text,
};
use desk_explain::TABLES;
use desk_lists::Cell;
use desk_model::Answer;
use desk_report::{duties_columns, notices_shown};
use std::alloc::{AllocError, Global};

/// The text of an answer as a terminal shows it, in whole lines.
pub fn answer_text(alloc: Global, answer: &Answer) -> Result<Vec<u8>, AllocError>
    ensures { IfOk result (λ text. IsShown answer.now text.items) }
{
    match answer {
        Answer::Revision(number) => {
            row_text(alloc, &REVISION_NAMES, &[Cell::Count(u64::from(*number))])
        }
        Answer::Imported(number) => document_text(alloc, *number, "yes"),
        Answer::Again(number) => document_text(alloc, *number, "no"),
        Answer::Done => words_text(alloc, b"done\n"),
        Answer::Frozen { first, count } => frozen_text(alloc, *first, *count),
        Answer::Closed(count) => row_text(alloc, &CLOSED_NAMES, &[Cell::Count(*count)]),
        Answer::Duties(lines) => duties_columns(alloc, lines.as_slice()),
        Answer::Totals(totals) => totals_text(alloc, totals),
        Answer::Changes(rows) => columns_of(alloc, &CHANGE_NAMES, rows.as_slice()),
        Answer::Findings(rows) => columns_of(alloc, &FINDING_NAMES, rows.as_slice()),
        Answer::Release { release, packages } => {
            release_text(alloc, release, packages.as_slice())
        }
        Answer::Alternatives(sets) => sets_text(alloc, sets.as_slice()),
        Answer::Cheapest(found) => cheapest_text(alloc, found),
        Answer::Bill(bill) => notices_shown(alloc, bill),
        Answer::Releases(lines) => columns_of(alloc, &COUNTED_NAMES, lines.as_slice()),
        Answer::Documents(lines) => columns_of(alloc, &HELD_NAMES, lines.as_slice()),
        Answer::OpenDuties(lines) => columns_of(alloc, &OPEN_NAMES, lines.as_slice()),
        Answer::Wanting(refusals) => wanting_text(alloc, refusals.as_slice()),
        Answer::Gaps(gaps) => columns_of(alloc, &GAP_NAMES, gaps.as_slice()),
        Answer::Refused(refusal) => refusal_text(alloc, &TABLES, refusal),
    }
}
