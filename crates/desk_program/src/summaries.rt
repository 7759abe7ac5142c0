//! What an import took in, and how many gaps a release has, reported on standard error.

use crate::tasks::Imported;
use desk_base::Text;
use desk_inspect::{gap_count, held_document};
use desk_model::Query;
use desk_store::SqlDesk;
use sqlite::Alter;

// Reports what a document is that the desk held before, by the profile that it keeps.
fn tell_held<S: Alter>(rt: &HostRuntime, desk: &mut SqlDesk<S>, number: u32) {
    // If it can't be found or reported, the reply still says that the document was there.
    let Ok(snapshot) = desk.snapshot() else {
        return;
    };
    if let Ok(Some(held)) = held_document(rt.alloc(), &snapshot, number) {
        let (profile, summary) = (held.profile.number(), held.summary);
        let _told = eprintln!(rt; "held, and read by profile {profile}: {summary}");
    }
}

/// Reports what an import took in, read by the profile; or what the desk holds, if the document was
/// imported before under this number.
pub fn tell<S: Alter>(
    rt: &HostRuntime,
    desk: &mut SqlDesk<S>,
    imported: Imported,
    again: Option<u32>,
) {
    if let Some(number) = again {
        tell_held(rt, desk, number);
    } else if let Some(Ok(summary)) = &imported.summary {
        let profile = imported.profile.number();
        // If writing to standard error fails, the reply still says that the document was taken in.
        let _told = eprintln!(rt; "read by profile {profile}: {summary}");
    }
}

/// Reports how many gaps a release has, if it has any.
pub fn tell_gap_count<S: Alter>(rt: &HostRuntime, desk: &mut SqlDesk<S>, release: &Text) {
    // If they can't be counted or reported, what keeps the release from being frozen is still
    // written.
    let Ok(release) = release.clone() else {
        return;
    };
    let query = Query::Gaps { release };
    let counted = gap_count(desk, &query);
    drop(query);
    if let Ok(count) = counted {
        if count > 0 {
            let _told = eprintln!(rt; "gaps: {count} (desk gaps lists them)");
        }
    }
}
