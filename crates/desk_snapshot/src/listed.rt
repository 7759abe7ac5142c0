//! Rows of a table in the order in which they came.

ghost use Rattle.std.specs.Prelude.{◌≡◌, ◌++◌, ◌∷◌, [], filter, find, IfOk, OnOk, OnErr, IfErr};
ghost use Rattle.std.specs.Option.{option_copied};

use desk_model::Fault;
use desk_sorted::{Appended, Keyed, Sought};
use std::alloc::Global;
use std::marker::Model;

/// The rows of a table, seen as their list. If they are in the order of their keys, which a
/// database's query can ensure, they are found by binary search, otherwise one by one.
#[derive(Drop)]
pub struct Listed<R: Keyed> {
    appended: Appended<R>,
}

impl<R: Keyed> Model for Listed<R> {
    ghost use Rattle.std.specs.Prelude.{List};

    ghost Value = { List R };

    ghost view = { λ s. s.appended.rows.items };
}

impl<R: Keyed + Drop> Listed<R> {
    /// An empty list, with room for this many rows.
    pub fn with_capacity(alloc: Global, count: usize) -> Result<Listed<R>, Fault>
        ensures none { IfOk result (λ rows. rows ≡ []) }
        ensures fault { IfErr result (λ fault. fault ≡ Fault.Memory) }
    {
        let mut appended = Appended::new(alloc);
        appended.reserve(count)?;
        Ok(Listed { appended })
    }

    /// Adds a row at the end.
    pub fn push(&mut self, row: R) -> Result<(), Fault>
        ensures ok { OnOk result (self.new ≡ self.old ++ row ∷ []) }
        ensures err { OnErr result (self.new ≡ self.old) }
        ensures fault { IfErr result (λ fault. fault ≡ Fault.Memory) }
    {
        self.appended.reserve(1)?;
        self.appended.push(row);
        Ok(())
    }

    /// All rows.
    pub fn as_slice(&self) -> &[R]
        ensures { result.now ≡ self.now }
    {
        self.appended.rows.as_slice()
    }

    /// Rows that include all that are sought, and no others if the rows are in order.
    pub fn among<K: Sought<R>>(&self, key: &K) -> &[R]
        ensures { filter (K.is_at key.now) result.now ≡ filter (K.is_at key.now) self.now }
    {
        self.appended.among(key)
    }

    /// The first of the rows that are sought.
    pub fn find<K: Sought<R>>(&self, key: &K) -> Option<&R>
        ensures { option_copied result ≡ find (K.is_at key.now) self.now }
    {
        self.appended.find(key)
    }
}
