//! The orders of the tables' rows.

ghost use Rattle.desk_model.specs.Keys.{adoption_order, attached_order, choice_order, conclusion_order, frozen_order, package_order, extracted_order};
ghost use Rattle.desk_sorted.specs.Orders.{document_order, release_order, document_total, extracted_total, package_total, release_total, attached_total, choice_total, frozen_total, conclusion_total, adoption_total};

use crate::sorted::Keyed;
use desk_model::{
    AdoptionRow, AttachedRow, ChoiceRow, ConclusionRow, DocumentRow, ExtractedRow, FrozenRow,
    PackageRow, ReleaseRow,
};
use std::cmp::Ordering;

impl Keyed for DocumentRow {
    ghost order = { document_order };

    ghost total = { document_total };

    fn compare(&self, other: &Self) -> Ordering {
        self.number.cmp(&other.number)
    }
}

impl Keyed for PackageRow {
    ghost order = { package_order };

    ghost total = { package_total };

    fn compare(&self, other: &Self) -> Ordering {
        self.document
            .cmp(&other.document)
            .then(self.id.as_str().cmp(other.id.as_str()))
    }
}

impl Keyed for ExtractedRow {
    ghost order = { extracted_order };

    ghost total = { extracted_total };

    fn compare(&self, other: &Self) -> Ordering {
        self.document
            .cmp(&other.document)
            .then(self.reference.as_str().cmp(other.reference.as_str()))
    }
}

impl Keyed for ReleaseRow {
    ghost order = { release_order };

    ghost total = { release_total };

    fn compare(&self, other: &Self) -> Ordering {
        self.name.as_str().cmp(other.name.as_str())
    }
}

impl Keyed for ConclusionRow {
    ghost order = { conclusion_order };

    ghost total = { conclusion_total };

    fn compare(&self, other: &Self) -> Ordering {
        self.document
            .cmp(&other.document)
            .then(self.package_id.as_str().cmp(other.package_id.as_str()))
    }
}

impl Keyed for AdoptionRow {
    ghost order = { adoption_order };

    ghost total = { adoption_total };

    fn compare(&self, other: &Self) -> Ordering {
        self.document
            .cmp(&other.document)
            .then(self.reference.as_str().cmp(other.reference.as_str()))
    }
}

impl Keyed for AttachedRow {
    ghost order = { attached_order };

    ghost total = { attached_total };

    fn compare(&self, other: &Self) -> Ordering {
        self.release
            .as_str()
            .cmp(other.release.as_str())
            .then(self.document.cmp(&other.document))
    }
}

impl Keyed for ChoiceRow {
    ghost order = { choice_order };

    ghost total = { choice_total };

    fn compare(&self, other: &Self) -> Ordering {
        self.release
            .as_str()
            .cmp(other.release.as_str())
            .then(self.document.cmp(&other.document))
            .then(self.package_id.as_str().cmp(other.package_id.as_str()))
            .then(self.term.as_str().cmp(other.term.as_str()))
    }
}

impl Keyed for FrozenRow {
    ghost order = { frozen_order };

    ghost total = { frozen_total };

    fn compare(&self, other: &Self) -> Ordering {
        self.release
            .as_str()
            .cmp(other.release.as_str())
            .then(self.document.cmp(&other.document))
            .then(self.package_id.as_str().cmp(other.package_id.as_str()))
            .then(self.term.as_str().cmp(other.term.as_str()))
    }
}
