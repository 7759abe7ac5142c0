//! The terms that a release was frozen with, found by row.

ghost use Rattle.std.specs.Prelude.{◌≡◌, IfOk, IfErr, List, filter};
ghost use Rattle.std.specs.Str.{bytes_eq};
ghost use Rattle.desk_model.specs.Bills.{frozen_terms};
ghost use Rattle.desk_model.specs.Faults.{MayFail};
ghost use Rattle.desk_model.specs.Keys.{is_frozen_of};
ghost use Rattle.desk_access.specs.Seen.{Looked, OfRows};
ghost use Rattle.desk_model.specs.declared.row.FrozenRow.{FrozenRow as Frozen};
ghost use Rattle.desk_bills.specs.Billing.{is_of};
ghost use Rattle.desk_bills.specs.Sides.{package_meets, package_side, package_splits};

use desk_access::store::Store;
use desk_base::Text;
use desk_model::{Fault, FrozenRow, PackageRow};
use desk_sorted::{Appended, Sought};
use std::alloc::Global;
use std::cmp::Ordering;

/// The key by which the terms that a release was frozen with for a package are looked up.
#[derive(Clone, Copy)]
pub(crate) struct ByPackage<'a> {
    release: &'a str,
    document: u32,
    id: &'a str,
}

impl<'a> ByPackage<'a> {
    pub(crate) fn of(release: &'a Text, row: &'a PackageRow) -> ByPackage<'a>
        ensures { (frozen : List Frozen) → filter (is_of result) frozen
            ≡ frozen_terms frozen release.now row.now }
    {
        ByPackage {
            release: release.as_str(),
            document: row.document,
            id: row.id.as_str(),
        }
    }
}

impl ByPackage<'_> {
    /// Whether a row is one of these terms.
    #[tactic(auto, using(crate::specs::Sides::package_meets))]
    pub(crate) fn has(&self, row: &FrozenRow) -> bool
        ensures { result ≡ is_of self.now row.now }
    {
        self.side_of(row).is_eq()
    }
}

impl Sought<FrozenRow> for ByPackage<'_> {
    ghost side = { λ key. package_side key.release.now key.document key.id.now };

    ghost is_at = { λ key. is_frozen_of key.release.now key.document key.id.now };

    ghost splits = { λ key. package_splits key.release.now key.document key.id.now };

    ghost meets = { λ key row. package_meets key.release.now key.document key.id.now row };

    fn side_of(&self, row: &FrozenRow) -> Ordering {
        row.release
            .as_str()
            .cmp(self.release)
            .then(row.document.cmp(&self.document))
            .then(row.package_id.as_str().cmp(self.id))
    }
}

/// The terms that a release was frozen with, looked up once for all its packages.
pub(crate) fn frozen_rows<S: Store>(
    alloc: Global,
    store: &mut S,
    release: &Text,
) -> Result<Appended<FrozenRow>, Fault>
    ensures found { IfOk result (λ frozen. OfRows (λ t.
        frozen.rows.items ≡ filter (λ row. bytes_eq row.release release.now) t.frozen)
        (S.seen store.old) (S.seen store.new)) }
    ensures kept { Looked (S.seen store.old) (S.seen store.new) result }
    ensures fault { IfErr result (MayFail S.tells) }
{
    let rows = store.frozen(release.as_str())?;
    Appended::from_rows(alloc, rows)
}

/// Rows that include the terms of a package. They are looked for at a place first, and the place
/// moves past them: both tables are in the order of packages.
pub(crate) fn terms_near<'a>(
    frozen: &'a Appended<FrozenRow>,
    place: &mut usize,
    key: &ByPackage<'_>,
) -> &'a [FrozenRow]
    ensures { filter (is_of key.now) result.now ≡ filter (is_of key.now) frozen.now.rows.items }
{
    let run = frozen.run_near(key, *place);
    *place = run.end;
    &frozen.rows[run.start..run.end]
}
