//! The keys by which the rows of a snapshot are looked up.

ghost use Rattle.std.specs.Prelude.{refl};
ghost use Rattle.desk_sorted.specs.Sides.{texts_meet};
ghost use Rattle.desk_snapshot.specs.Rows.{is_attachment, is_change_at, is_change_of, is_choice_in, is_choice_of, is_conclusion, is_frozen_in, is_package, is_reading_of, is_release, is_waiver_at};
ghost use Rattle.desk_snapshot.specs.Sides.{attachment_meets, attachment_side, attachment_splits, change_side, change_splits, choice_meets, choice_side, choice_splits, conclusion_meets, conclusion_side, conclusion_splits, frozen_side, frozen_splits, holder_side, holder_splits, package_meets, package_side, package_splits, reading_side, reading_splits, release_side, release_splits, step_meets, step_side, step_splits, waiver_meets, waiver_side, waiver_splits};

use crate::rows::{
    StoredAttached, StoredChange, StoredChoice, StoredConclusion, StoredFrozen, StoredPackage,
    StoredReading, StoredRelease, StoredWaiver,
};
use desk_sorted::Sought;
use std::cmp::Ordering;

/// The profile of a document.
#[derive(Clone, Copy)]
pub struct ByDocument {
    /// The number of the document.
    pub document: i64,
}

impl Sought<StoredReading> for ByDocument {
    ghost side = { λ key. reading_side key.document };

    ghost is_at = { λ key. is_reading_of key.document };

    ghost splits = { λ key. reading_splits key.document };

    ghost meets = { λ key row. refl };

    fn side_of(&self, row: &StoredReading) -> Ordering {
        row.document.cmp(&self.document)
    }
}

/// A package of a document by its id.
#[derive(Clone, Copy)]
pub struct ById<'a> {
    /// The number of the document.
    pub document: i64,
    /// The SPDXID of the package.
    pub id: &'a str,
}

impl Sought<StoredPackage> for ById<'_> {
    ghost side = { λ key. package_side key.document key.id.now };

    ghost is_at = { λ key. is_package key.document key.id.now };

    ghost splits = { λ key. package_splits key.document key.id.now };

    ghost meets = { λ key row. package_meets key.document key.id.now row };

    fn side_of(&self, row: &StoredPackage) -> Ordering {
        row.document
            .cmp(&self.document)
            .then(row.id.as_str().cmp(self.id))
    }
}

/// The office's conclusion for a package.
#[derive(Clone, Copy)]
pub struct ByPackage<'a> {
    /// The number of the document.
    pub document: i64,
    /// The SPDXID of the package.
    pub package_id: &'a str,
}

impl Sought<StoredConclusion> for ByPackage<'_> {
    ghost side = { λ key. conclusion_side key.document key.package_id.now };

    ghost is_at = { λ key. is_conclusion key.document key.package_id.now };

    ghost splits = { λ key. conclusion_splits key.document key.package_id.now };

    ghost meets = { λ key row. conclusion_meets key.document key.package_id.now row };

    fn side_of(&self, row: &StoredConclusion) -> Ordering {
        row.document
            .cmp(&self.document)
            .then(row.package_id.as_str().cmp(self.package_id))
    }
}

/// A release by its name.
#[derive(Clone, Copy)]
pub struct ByName<'a> {
    /// The name of the release.
    pub name: &'a str,
}

impl Sought<StoredRelease> for ByName<'_> {
    ghost side = { λ key. release_side key.name.now };

    ghost is_at = { λ key. is_release key.name.now };

    ghost splits = { λ key. release_splits key.name.now };

    ghost meets = { λ key row. texts_meet row.name key.name.now };

    fn side_of(&self, row: &StoredRelease) -> Ordering {
        row.name.as_str().cmp(self.name)
    }
}

/// A document that is attached to a release.
#[derive(Clone, Copy)]
pub struct ByAttachment<'a> {
    /// The name of the release.
    pub release: &'a str,
    /// The number of the document.
    pub document: i64,
}

impl Sought<StoredAttached> for ByAttachment<'_> {
    ghost side = { λ key. attachment_side key.release.now key.document };

    ghost is_at = { λ key. is_attachment key.release.now key.document };

    ghost splits = { λ key. attachment_splits key.release.now key.document };

    ghost meets = { λ key row. attachment_meets key.release.now key.document row };

    fn side_of(&self, row: &StoredAttached) -> Ordering {
        row.release
            .as_str()
            .cmp(self.release)
            .then(row.document.cmp(&self.document))
    }
}

/// What is chosen for a package in a release.
#[derive(Clone, Copy)]
pub struct ByChoice<'a> {
    /// The name of the release.
    pub release: &'a str,
    /// The number of the document.
    pub document: i64,
    /// The SPDXID of the package.
    pub package_id: &'a str,
}

impl Sought<StoredChoice> for ByChoice<'_> {
    ghost side = { λ key. choice_side key.release.now key.document key.package_id.now };

    ghost is_at = { λ key. is_choice_of key.release.now key.document key.package_id.now };

    ghost splits = { λ key. choice_splits key.release.now key.document key.package_id.now };

    ghost meets = { λ key row. choice_meets key.release.now key.document key.package_id.now row };

    fn side_of(&self, row: &StoredChoice) -> Ordering {
        let package = row
            .document
            .cmp(&self.document)
            .then(row.package_id.as_str().cmp(self.package_id));
        row.release.as_str().cmp(self.release).then(package)
    }
}

/// What is chosen in a release.
#[derive(Clone, Copy)]
pub struct ByHolder<'a> {
    /// The name of the release.
    pub release: &'a str,
}

impl Sought<StoredChoice> for ByHolder<'_> {
    ghost side = { λ key. holder_side key.release.now };

    ghost is_at = { λ key. is_choice_in key.release.now };

    ghost splits = { λ key. holder_splits key.release.now };

    ghost meets = { λ key row. texts_meet row.release key.release.now };

    fn side_of(&self, row: &StoredChoice) -> Ordering {
        row.release.as_str().cmp(self.release)
    }
}

/// The terms that a release was frozen with.
#[derive(Clone, Copy)]
pub struct ByFrozen<'a> {
    /// The name of the release.
    pub release: &'a str,
}

impl Sought<StoredFrozen> for ByFrozen<'_> {
    ghost side = { λ key. frozen_side key.release.now };

    ghost is_at = { λ key. is_frozen_in key.release.now };

    ghost splits = { λ key. frozen_splits key.release.now };

    ghost meets = { λ key row. texts_meet row.release key.release.now };

    fn side_of(&self, row: &StoredFrozen) -> Ordering {
        row.release.as_str().cmp(self.release)
    }
}

/// The changes of a duty.
#[derive(Clone, Copy)]
pub struct ByDuty {
    /// The number of the duty.
    pub duty: i64,
}

impl Sought<StoredChange> for ByDuty {
    ghost side = { λ key. change_side key.duty };

    ghost is_at = { λ key. is_change_of key.duty };

    ghost splits = { λ key. change_splits key.duty };

    ghost meets = { λ key row. refl };

    fn side_of(&self, row: &StoredChange) -> Ordering {
        row.duty.cmp(&self.duty)
    }
}

/// A step of a duty.
#[derive(Clone, Copy)]
pub struct ByStep {
    /// The number of the duty.
    pub duty: i64,
    /// The step, from 1.
    pub step: i64,
}

impl Sought<StoredChange> for ByStep {
    ghost side = { λ key. step_side key.duty key.step };

    ghost is_at = { λ key. is_change_at key.duty key.step };

    ghost splits = { λ key. step_splits key.duty key.step };

    ghost meets = { λ key row. step_meets key.duty key.step row };

    fn side_of(&self, row: &StoredChange) -> Ordering {
        row.duty.cmp(&self.duty).then(row.step.cmp(&self.step))
    }
}

impl Sought<StoredWaiver> for ByStep {
    ghost side = { λ key. waiver_side key.duty key.step };

    ghost is_at = { λ key. is_waiver_at key.duty key.step };

    ghost splits = { λ key. waiver_splits key.duty key.step };

    ghost meets = { λ key row. waiver_meets key.duty key.step row };

    fn side_of(&self, row: &StoredWaiver) -> Ordering {
        row.duty.cmp(&self.duty).then(row.step.cmp(&self.step))
    }
}
