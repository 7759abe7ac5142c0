//! What commands look up of a release, a document and a package.

ghost use Rattle.std.specs.Prelude.{◌≡◌, IfOk, IfErr, IfSome, is_some};
ghost use Rattle.desk_model.specs.Faults.{MayFail};
ghost use Rattle.desk_history.specs.FromTables.{package_found, state_found, stands_document};
ghost use Rattle.desk_access.specs.Seen.{Looked, OfRows};

use desk_access::store::Store;
use desk_base::Text;
use desk_model::{Fault, ReleaseState};

/// The state of a release, if there is one.
pub(crate) fn state_of<S: Store>(
    store: &mut S,
    release: &Text,
) -> Result<Option<ReleaseState>, Fault>
    ensures found { IfOk result (λ state.
        OfRows (λ t. state ≡ state_found t release.now) (S.seen store.old) (S.seen store.new)) }
    ensures kept { Looked (S.seen store.old) (S.seen store.new) result }
    ensures fault { IfErr result (MayFail S.tells) }
{
    match store.release(release.as_str())? {
        Some(row) => Ok(Some(row.state)),
        None => Ok(None),
    }
}

/// The number of a document, if there is one.
pub(crate) fn number_of<S: Store>(store: &mut S, document: u64) -> Result<Option<u32>, Fault>
    ensures found { IfOk result (λ number.
        OfRows (λ t. is_some number ≡ stands_document t document) (S.seen store.old)
        (S.seen store.new)) }
    ensures same { IfOk result (λ number. IfSome number (λ n. n ≡ document)) }
    ensures kept { Looked (S.seen store.old) (S.seen store.new) result }
    ensures fault { IfErr result (MayFail S.tells) }
{
    match store.document(document)? {
        Some((number, _)) => Ok(Some(number)),
        None => Ok(None),
    }
}

/// Whether a document has a package.
pub(crate) fn has_package<S: Store>(
    store: &mut S,
    document: u32,
    package_id: &Text,
) -> Result<bool, Fault>
    ensures found { IfOk result (λ has.
        OfRows (λ t. has ≡ is_some (package_found t document package_id.now)) (S.seen store.old)
        (S.seen store.new)) }
    ensures kept { Looked (S.seen store.old) (S.seen store.new) result }
    ensures fault { IfErr result (MayFail S.tells) }
{
    let row = store.package_row(u64::from(document), package_id.as_str())?;
    Ok(row.is_some())
}
