//! What keeps a release from being frozen.

ghost use Rattle.std.specs.Prelude.{◌≡◌, IfOk, IfErr};
ghost use Rattle.desk_model.specs.Readings.{Readings};
ghost use Rattle.desk_model.specs.Faults.{MayFail};
ghost use Rattle.desk_access.specs.Seen.{Looked, OfRows};
ghost use Rattle.desk_history.specs.FromTables.{queried_from};

use desk_access::store::Store;
use desk_access::texts::Texts;
use desk_base::{Items, Text};
use desk_model::{Answer, Fault, Query, Refusal};
use desk_packages::unready;
use desk_wanting::open_wanting;
use std::alloc::Global;

/// Everything that keeps an open release from being frozen.
pub fn wanting<T: Texts, S: Store>(
    alloc: Global,
    texts: &T,
    store: &mut S,
    release: &Text,
) -> Result<Answer, Fault>
    ensures answer { (w : Readings) → T.are_right w → IfOk result (λ answer.
        OfRows (λ t. answer ≡ queried_from w t (Query.Wanting release.now))
        (S.seen store.old) (S.seen store.new)) }
    ensures kept { Looked (S.seen store.old) (S.seen store.new) result }
    ensures fault { IfErr result (MayFail S.tells) }
{
    let Some(row) = store.release(release.as_str())? else {
        return Ok(Answer::Refused(Refusal::UnknownRelease));
    };
    if let Some(refusal) = unready(row.state) {
        return Ok(Answer::Refused(refusal));
    }
    let refusals = open_wanting(alloc, texts, store, release, &row.form)?;
    Ok(Answer::Wanting(Items::from_vec(refusals)))
}
