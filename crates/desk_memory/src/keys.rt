//! The keys that rows are looked up by.

ghost use Rattle.desk_model.specs.Keys.{is_document, is_extracted, is_package, is_release, is_attached_to, is_attachment};
ghost use Rattle.desk_memory.specs.Sides.{document_side, is_package_of, packages_side, package_side, release_side, attached_side, attachment_side, extracted_side, frozen_side, is_frozen_in};
ghost use Rattle.desk_memory.specs.Splitting.{document_splits, packages_splits, package_splits, package_meets, release_splits, attached_splits, attachment_splits, attachment_meets, extracted_meets, extracted_splits, frozen_splits};
ghost use Rattle.desk_sorted.specs.Sides.{texts_meet, numbers_meet};
ghost use Rattle.desk_memory.specs.Namespaces.{is_named, namespace_order, namespace_side};
ghost use Rattle.desk_memory.specs.NamespaceLaws.{namespace_total, namespace_splits};
ghost use Rattle.desk_memory.specs.RulePlaces.{is_placed, rule_order, rule_side};
ghost use Rattle.desk_memory.specs.RuleLaws.{rule_total, rule_splits, rule_meets};

use desk_base::Text;
use desk_model::{AttachedRow, DocumentRow, ExtractedRow, FrozenRow, PackageRow, ReleaseRow};
use desk_sorted::{Keyed, Sought};
use std::cmp::Ordering;

/// The place of the document with a namespace.
#[derive(Drop)]
pub(crate) struct NamespacePlace {
    pub(crate) namespace: Text,
    pub(crate) place: usize,
}

impl Keyed for NamespacePlace {
    ghost order = { namespace_order };

    ghost total = { namespace_total };

    fn compare(&self, other: &Self) -> Ordering {
        self.namespace.as_str().cmp(other.namespace.as_str())
    }
}

/// The place of the rule for a term and a form.
#[derive(Drop)]
pub(crate) struct RulePlace {
    pub(crate) revision: u32,
    pub(crate) term: Text,
    pub(crate) form: Text,
    pub(crate) place: usize,
}

impl Keyed for RulePlace {
    ghost order = { rule_order };

    ghost total = { rule_total };

    fn compare(&self, other: &Self) -> Ordering {
        self.revision
            .cmp(&other.revision)
            .then(self.term.as_str().cmp(other.term.as_str()))
            .then(self.form.as_str().cmp(other.form.as_str()))
    }
}

/// A rule by its revision, term and form.
#[derive(Clone, Copy)]
pub(crate) struct ByRule<'a> {
    pub(crate) revision: u64,
    pub(crate) term: &'a str,
    pub(crate) form: &'a str,
}

impl Sought<RulePlace> for ByRule<'_> {
    ghost side = { λ key. rule_side key.revision key.term.now key.form.now };

    ghost is_at = { λ key. is_placed key.revision key.term.now key.form.now };

    ghost splits = { λ key. rule_splits key.revision key.term.now key.form.now };

    ghost meets = { λ key row. rule_meets key.revision key.term.now key.form.now row };

    fn side_of(&self, row: &RulePlace) -> Ordering {
        u64::from(row.revision)
            .cmp(&self.revision)
            .then(row.term.as_str().cmp(self.term))
            .then(row.form.as_str().cmp(self.form))
    }
}

/// A document by its number.
#[derive(Clone, Copy)]
pub(crate) struct ByNumber {
    pub(crate) number: u64,
}

impl Sought<DocumentRow> for ByNumber {
    ghost side = { λ key. document_side key.number };

    ghost is_at = { λ key. is_document key.number };

    ghost splits = { λ key. document_splits key.number };

    ghost meets = { λ key row. numbers_meet row.number key.number };

    fn side_of(&self, row: &DocumentRow) -> Ordering {
        u64::from(row.number).cmp(&self.number)
    }
}

/// A document by its namespace.
#[derive(Clone, Copy)]
pub(crate) struct ByNamespace<'a> {
    pub(crate) namespace: &'a str,
}

impl Sought<NamespacePlace> for ByNamespace<'_> {
    ghost side = { λ key. namespace_side key.namespace.now };

    ghost is_at = { λ key. is_named key.namespace.now };

    ghost splits = { λ key. namespace_splits key.namespace.now };

    ghost meets = { λ key row. texts_meet row.namespace key.namespace.now };

    fn side_of(&self, row: &NamespacePlace) -> Ordering {
        row.namespace.as_str().cmp(self.namespace)
    }
}

/// The packages of a document.
#[derive(Clone, Copy)]
pub(crate) struct ByDocument {
    pub(crate) document: u32,
}

impl Sought<PackageRow> for ByDocument {
    ghost side = { λ key. packages_side key.document };

    ghost is_at = { λ key. is_package_of key.document };

    ghost splits = { λ key. packages_splits key.document };

    ghost meets = { λ key row. numbers_meet row.document key.document };

    fn side_of(&self, row: &PackageRow) -> Ordering {
        row.document.cmp(&self.document)
    }
}

/// A package of a document by its id.
#[derive(Clone, Copy)]
pub(crate) struct ById<'a> {
    pub(crate) document: u64,
    pub(crate) id: &'a str,
}

impl Sought<PackageRow> for ById<'_> {
    ghost side = { λ key. package_side key.document key.id.now };

    ghost is_at = { λ key. is_package key.document key.id.now };

    ghost splits = { λ key. package_splits key.document key.id.now };

    ghost meets = { λ key row. package_meets key.document key.id.now row };

    fn side_of(&self, row: &PackageRow) -> Ordering {
        u64::from(row.document)
            .cmp(&self.document)
            .then(row.id.as_str().cmp(self.id))
    }
}

/// A release by its name.
#[derive(Clone, Copy)]
pub(crate) struct ByName<'a> {
    pub(crate) name: &'a str,
}

impl Sought<ReleaseRow> for ByName<'_> {
    ghost side = { λ key. release_side key.name.now };

    ghost is_at = { λ key. is_release key.name.now };

    ghost splits = { λ key. release_splits key.name.now };

    ghost meets = { λ key row. texts_meet row.name key.name.now };

    fn side_of(&self, row: &ReleaseRow) -> Ordering {
        row.name.as_str().cmp(self.name)
    }
}

/// What is attached to a release.
#[derive(Clone, Copy)]
pub(crate) struct ByRelease<'a> {
    pub(crate) release: &'a str,
}

impl Sought<AttachedRow> for ByRelease<'_> {
    ghost side = { λ key. attached_side key.release.now };

    ghost is_at = { λ key. is_attached_to key.release.now };

    ghost splits = { λ key. attached_splits key.release.now };

    ghost meets = { λ key row. texts_meet row.release key.release.now };

    fn side_of(&self, row: &AttachedRow) -> Ordering {
        row.release.as_str().cmp(self.release)
    }
}

/// A document as it is attached to a release.
#[derive(Clone, Copy)]
pub(crate) struct ByAttachment<'a> {
    pub(crate) release: &'a str,
    pub(crate) document: u64,
}

impl Sought<AttachedRow> for ByAttachment<'_> {
    ghost side = { λ key. attachment_side key.release.now key.document };

    ghost is_at = { λ key. is_attachment key.release.now key.document };

    ghost splits = { λ key. attachment_splits key.release.now key.document };

    ghost meets = { λ key row. attachment_meets key.release.now key.document row };

    fn side_of(&self, row: &AttachedRow) -> Ordering {
        row.release
            .as_str()
            .cmp(self.release)
            .then(u64::from(row.document).cmp(&self.document))
    }
}

/// The frozen terms of a release.
#[derive(Clone, Copy)]
pub(crate) struct ByFrozen<'a> {
    pub(crate) release: &'a str,
}

impl Sought<FrozenRow> for ByFrozen<'_> {
    ghost side = { λ key. frozen_side key.release.now };

    ghost is_at = { λ key. is_frozen_in key.release.now };

    ghost splits = { λ key. frozen_splits key.release.now };

    ghost meets = { λ key row. texts_meet row.release key.release.now };

    fn side_of(&self, row: &FrozenRow) -> Ordering {
        row.release.as_str().cmp(self.release)
    }
}

/// A reference that a document defines.
#[derive(Clone, Copy)]
pub(crate) struct ByExtracted<'a> {
    pub(crate) document: u32,
    pub(crate) reference: &'a str,
}

impl Sought<ExtractedRow> for ByExtracted<'_> {
    ghost side = { λ key. extracted_side key.document key.reference.now };

    ghost is_at = { λ key. is_extracted key.document key.reference.now };

    ghost splits = { λ key. extracted_splits key.document key.reference.now };

    ghost meets = { λ key row. extracted_meets key.document key.reference.now row };

    fn side_of(&self, row: &ExtractedRow) -> Ordering {
        row.document
            .cmp(&self.document)
            .then(row.reference.as_str().cmp(self.reference))
    }
}
