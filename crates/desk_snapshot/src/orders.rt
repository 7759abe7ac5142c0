//! The orders of rows by the keys of their tables.

ghost use Rattle.desk_snapshot.specs.Orders.{attached_order, attached_total, change_order, change_total, choice_order, choice_total, conclusion_order, conclusion_total, frozen_order, frozen_total, package_order, package_total, reading_order, reading_total, release_order, release_total, waiver_order, waiver_total};

use crate::rows::{
    StoredAttached, StoredChange, StoredChoice, StoredConclusion, StoredFrozen, StoredPackage,
    StoredReading, StoredRelease, StoredWaiver,
};
use desk_sorted::Keyed;
use std::cmp::Ordering;

impl Keyed for StoredReading {
    ghost order = { reading_order };

    ghost total = { reading_total };

    fn compare(&self, other: &Self) -> Ordering {
        self.document.cmp(&other.document)
    }
}

impl Keyed for StoredPackage {
    ghost order = { package_order };

    ghost total = { package_total };

    fn compare(&self, other: &Self) -> Ordering {
        self.document
            .cmp(&other.document)
            .then(self.id.as_str().cmp(other.id.as_str()))
    }
}

impl Keyed for StoredConclusion {
    ghost order = { conclusion_order };

    ghost total = { conclusion_total };

    fn compare(&self, other: &Self) -> Ordering {
        self.document
            .cmp(&other.document)
            .then(self.package_id.as_str().cmp(other.package_id.as_str()))
    }
}

impl Keyed for StoredRelease {
    ghost order = { release_order };

    ghost total = { release_total };

    fn compare(&self, other: &Self) -> Ordering {
        self.name.as_str().cmp(other.name.as_str())
    }
}

impl Keyed for StoredAttached {
    ghost order = { attached_order };

    ghost total = { attached_total };

    fn compare(&self, other: &Self) -> Ordering {
        self.release
            .as_str()
            .cmp(other.release.as_str())
            .then(self.document.cmp(&other.document))
    }
}

impl Keyed for StoredChoice {
    ghost order = { choice_order };

    ghost total = { choice_total };

    fn compare(&self, other: &Self) -> Ordering {
        self.release
            .as_str()
            .cmp(other.release.as_str())
            .then(self.document.cmp(&other.document))
            .then(self.package_id.as_str().cmp(other.package_id.as_str()))
            .then(self.term.as_str().cmp(other.term.as_str()))
    }
}

impl Keyed for StoredFrozen {
    ghost order = { frozen_order };

    ghost total = { frozen_total };

    fn compare(&self, other: &Self) -> Ordering {
        self.release
            .as_str()
            .cmp(other.release.as_str())
            .then(self.document.cmp(&other.document))
            .then(self.package_id.as_str().cmp(other.package_id.as_str()))
            .then(self.term.as_str().cmp(other.term.as_str()))
    }
}

impl Keyed for StoredChange {
    ghost order = { change_order };

    ghost total = { change_total };

    fn compare(&self, other: &Self) -> Ordering {
        self.duty.cmp(&other.duty).then(self.step.cmp(&other.step))
    }
}

impl Keyed for StoredWaiver {
    ghost order = { waiver_order };

    ghost total = { waiver_total };

    fn compare(&self, other: &Self) -> Ordering {
        self.duty.cmp(&other.duty).then(self.step.cmp(&other.step))
    }
}
