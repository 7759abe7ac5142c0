//! How many gaps a release has.

ghost use Rattle.std.specs.Prelude.{◌≡◌, IfErr, IfOk};
ghost use Rattle.desk_access.specs.Seen.{Looked};
ghost use Rattle.desk_core.specs.Desks.{InHistory};
ghost use Rattle.desk_inspect.specs.Counting.{gap_count};
ghost use Rattle.desk_model.specs.Faults.{MayFail};
ghost use Rattle.desk_model.specs.Queries.{queried};

use desk_core::Desk;
use desk_model::{Answer, Fault, Query};

// How many gaps an answer lists.
fn count_in(answer: &Answer) -> usize
    ensures { result ≡ gap_count answer.now }
{
    match answer {
        Answer::Gaps(gaps) => gaps.as_slice().len(),
        _ => 0,
    }
}

/// How many gaps the answer to a question lists: none if the question is another one, or refused. The
/// desk is as it was.
pub fn gap_count<D: Desk>(desk: &mut D, query: &Query) -> Result<usize, Fault>
    ensures counted { IfOk result (λ count. InHistory D.are_right
        (λ w h. count ≡ gap_count (queried w h query.now)) (D.seen desk.old) (D.seen desk.new)) }
    ensures kept { Looked (D.seen desk.old) (D.seen desk.new) result }
    ensures fault { IfErr result (MayFail D.tells) }
{
    let answer = desk.ask(query)?;
    Ok(count_in(&answer))
}
