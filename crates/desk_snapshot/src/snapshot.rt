//! All rows of a desk's tables.

use crate::listed::Listed;
use crate::rows::{
    StoredAdoption, StoredAttached, StoredCatalogue, StoredChange, StoredChoice, StoredConclusion,
    StoredDocument, StoredDuty, StoredExtracted, StoredFrozen, StoredMeta, StoredPackage,
    StoredReading, StoredRelease, StoredRule, StoredWaiver,
};
use desk_base::Items;

/// The rows of each table, in the order of its key.
#[derive(Drop)]
pub struct Snapshot {
    /// The version of the tables.
    pub meta: Items<StoredMeta>,
    /// The revisions of the catalogue, by number.
    pub catalogue: Items<StoredCatalogue>,
    /// The rules, by revision, term and form.
    pub rule: Items<StoredRule>,
    /// The documents, by number.
    pub document: Items<StoredDocument>,
    /// The profiles, by document.
    pub reading: Listed<StoredReading>,
    /// The packages, by document and id.
    pub packages: Listed<StoredPackage>,
    /// The extracted licences, by document and reference.
    pub extracted: Items<StoredExtracted>,
    /// The office's conclusions, by document and package.
    pub conclusion: Listed<StoredConclusion>,
    /// The adoptions, by document and reference.
    pub adoption: Items<StoredAdoption>,
    /// The releases, by name.
    pub releases: Listed<StoredRelease>,
    /// The attached documents, by release and number.
    pub attached: Listed<StoredAttached>,
    /// The chosen terms, by release, document, package and term.
    pub choice: Listed<StoredChoice>,
    /// The frozen terms, by release, document, package and term.
    pub frozen: Listed<StoredFrozen>,
    /// The duties, by number.
    pub duty: Items<StoredDuty>,
    /// The changes, by duty and step.
    pub changes: Listed<StoredChange>,
    /// The last days of waivers, by duty and step.
    pub waiver: Listed<StoredWaiver>,
}
