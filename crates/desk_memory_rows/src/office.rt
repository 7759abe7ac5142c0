//! What the office concluded for packages and adopted for references.

ghost use Rattle.std.specs.Prelude.{◌≡◌, [], IfErr, OnErr, OnOk};
ghost use Rattle.desk_model.specs.Lists.{replaced};
ghost use Rattle.desk_model.specs.Keys.{below_by, adoption_order, conclusion_order, is_adoption, is_adoption_in, is_conclusion};
ghost use Rattle.desk_memory_rows.specs.Sides.{adoption_side, adoptions_side, conclusion_side};
ghost use Rattle.desk_memory_rows.specs.Splitting.{adoption_meets, adoption_splits, adoptions_splits, conclusion_meets, conclusion_splits};
ghost use Rattle.desk_sorted.specs.Blocks.{rows_in};
ghost use Rattle.desk_sorted.specs.Sides.{numbers_meet};

use desk_model::{AdoptionRow, ConclusionRow, Fault};
use desk_sorted::{Blocks, Sought};
use std::alloc::Global;
use std::cmp::Ordering;

/// The conclusion for a package of a document.
#[derive(Clone, Copy)]
pub struct ByConcluded<'a> {
    /// The number of the document.
    pub document: u32,
    /// The SPDXID of the package.
    pub id: &'a str,
}

impl Sought<ConclusionRow> for ByConcluded<'_> {
    ghost side = { λ key. conclusion_side key.document key.id.now };

    ghost is_at = { λ key. is_conclusion key.document key.id.now };

    ghost splits = { λ key. conclusion_splits key.document key.id.now };

    ghost meets = { λ key row. conclusion_meets key.document key.id.now row };

    fn side_of(&self, row: &ConclusionRow) -> Ordering {
        row.document
            .cmp(&self.document)
            .then(row.package_id.as_str().cmp(self.id))
    }
}

/// The adoption of a reference of a document.
#[derive(Clone, Copy)]
pub struct ByReference<'a> {
    /// The number of the document.
    pub document: u32,
    /// The reference, byte for byte.
    pub reference: &'a str,
}

impl Sought<AdoptionRow> for ByReference<'_> {
    ghost side = { λ key. adoption_side key.document key.reference.now };

    ghost is_at = { λ key. is_adoption key.document key.reference.now };

    ghost splits = { λ key. adoption_splits key.document key.reference.now };

    ghost meets = { λ key row. adoption_meets key.document key.reference.now row };

    fn side_of(&self, row: &AdoptionRow) -> Ordering {
        row.document
            .cmp(&self.document)
            .then(row.reference.as_str().cmp(self.reference))
    }
}

/// The adoptions of a document.
#[derive(Clone, Copy)]
pub struct ByAdopting {
    /// The number of the document.
    pub document: u32,
}

impl Sought<AdoptionRow> for ByAdopting {
    ghost side = { λ key. adoptions_side key.document };

    ghost is_at = { λ key. is_adoption_in key.document };

    ghost splits = { λ key. adoptions_splits key.document };

    ghost meets = { λ key row. numbers_meet row.document key.document };

    fn side_of(&self, row: &AdoptionRow) -> Ordering {
        row.document.cmp(&self.document)
    }
}

/// The office's conclusions and adoptions, each by its key.
#[derive(Drop)]
pub struct Office {
    /// The conclusions, by document and package.
    pub conclusions: Blocks<ConclusionRow>,
    /// The adoptions, by document and reference.
    pub adoptions: Blocks<AdoptionRow>,
}

impl Office {
    /// Nothing concluded or adopted.
    pub fn new(alloc: Global) -> Office
        ensures conclusions { rows_in result.conclusions.blocks.items ≡ [] }
        ensures adoptions { rows_in result.adoptions.blocks.items ≡ [] }
    {
        Office {
            conclusions: Blocks::new(alloc),
            adoptions: Blocks::new(alloc),
        }
    }

    /// Puts a conclusion in place of an earlier one for its package.
    pub fn conclude(&mut self, row: ConclusionRow) -> Result<(), Fault>
        ensures ok { OnOk result (rows_in self.new.conclusions.blocks.items
            ≡ replaced (below_by conclusion_order) (is_conclusion row.document row.package_id) row
            (rows_in self.old.conclusions.blocks.items)) }
        ensures err { OnErr result (rows_in self.new.conclusions.blocks.items
            ≡ rows_in self.old.conclusions.blocks.items) }
        ensures adoptions { rows_in self.new.adoptions.blocks.items
            ≡ rows_in self.old.adoptions.blocks.items }
        ensures fault { IfErr result (λ fault. fault ≡ Fault.Memory) }
    {
        let id = row.package_id.clone()?;
        let key = ByConcluded {
            document: row.document,
            id: id.as_str(),
        };
        self.conclusions.exchange(&key, row)?;
        Ok(())
    }

    /// Puts an adoption in place of an earlier one for its reference.
    pub fn adopt(&mut self, row: AdoptionRow) -> Result<(), Fault>
        ensures ok { OnOk result (rows_in self.new.adoptions.blocks.items
            ≡ replaced (below_by adoption_order) (is_adoption row.document row.reference) row
            (rows_in self.old.adoptions.blocks.items)) }
        ensures err { OnErr result (rows_in self.new.adoptions.blocks.items
            ≡ rows_in self.old.adoptions.blocks.items) }
        ensures conclusions { rows_in self.new.conclusions.blocks.items
            ≡ rows_in self.old.conclusions.blocks.items }
        ensures fault { IfErr result (λ fault. fault ≡ Fault.Memory) }
    {
        let reference = row.reference.clone()?;
        let key = ByReference {
            document: row.document,
            reference: reference.as_str(),
        };
        self.adoptions.exchange(&key, row)?;
        Ok(())
    }
}
