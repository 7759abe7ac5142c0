//! The documents, found by their numbers and by their namespaces.

ghost use Rattle.std.specs.Prelude.{◌≡◌, ℕ, ◌++◌, [], ◌∷◌, List, find, IfErr, OnOk, OnErr, length};
ghost use Rattle.std.specs.List.{position_from};
ghost use Rattle.std.specs.Option.{option_copied, option_map};
ghost use Rattle.desk_model.specs.Keys.{has_namespace};
ghost use Rattle.desk_memory.specs.Namespaces.{is_named};

use crate::keys::{ByNamespace, NamespacePlace};
use desk_model::{DocumentRow, Fault};
use desk_sorted::{Appended, Sorted, item_at};
use std::alloc::Global;

/// The documents in the order of import, and the place of each by its namespace.
#[derive(Drop)]
pub(crate) struct Documents {
    pub(crate) rows: Appended<DocumentRow>,
    by_namespace: Sorted<NamespacePlace>,
    ghost placed: { (namespace : List ℕ)
        → option_map (λ entry. entry.place) (find (is_named namespace) by_namespace.rows.items)
        ≡ position_from (has_namespace namespace) 0 rows.rows.items },
}

impl Documents {
    pub(crate) fn new(alloc: Global) -> Documents
        ensures { result.rows.rows.items ≡ [] }
    {
        Documents {
            rows: Appended::new(alloc),
            by_namespace: Sorted::new(alloc),
        }
    }

    /// The first document with a namespace.
    pub(crate) fn find_namespace(&self, namespace: &str) -> Option<&DocumentRow>
        ensures { option_copied result
            ≡ find (has_namespace namespace.now) self.now.rows.rows.items }
    {
        match self.by_namespace.find(&ByNamespace { namespace }) {
            Some(entry) => item_at(self.rows.rows.as_slice(), entry.place),
            None => None,
        }
    }

    /// Adds a document, or does nothing.
    pub(crate) fn push(&mut self, row: DocumentRow) -> Result<(), Fault>
        ensures ok { OnOk result (self.new.rows.rows.items ≡ self.old.rows.rows.items ++ row ∷ []) }
        ensures err { OnErr result (self.new.rows.rows.items ≡ self.old.rows.rows.items) }
        ensures fault { IfErr result (λ fault. fault ≡ Fault.Memory) }
    {
        let namespace = row.namespace.clone()?;
        self.rows.reserve(1)?;
        self.by_namespace.reserve(1)?;
        let place = self.rows.len();
        self.by_namespace.put(NamespacePlace { namespace, place });
        self.rows.push(row);
        Ok(())
    }
}
