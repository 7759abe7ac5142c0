//! Rows in the order in which they came.

ghost use Rattle.std.specs.Prelude.{◌≡◌, ℕ, true, ◌+◌, ◌<◌, ◌≤◌, ◌++◌, [], ◌∷◌, filter, find, OnOk, IfErr, IfOk, length, vec_len, slice_range};
ghost use Rattle.std.specs.Vec.{vec_capacity};
ghost use Rattle.std.specs.Option.{option_copied};
ghost use Rattle.std.specs.Ordering.{is_eq};
ghost use Rattle.desk_model.specs.Keys.{below_by};
ghost use Rattle.desk_model.specs.Lists.{ascends};

use crate::sorted::{Keyed, Run, Sought, reserve, run_near, run_of};
use desk_model::Fault;
use std::alloc::Global;

/// Whether rows that ascend still do so after this row is added.
fn goes_on<R: Keyed>(rows: &[R], row: &R) -> bool
    ensures { result ≡ true → ascends (below_by R.order) rows.now ≡ true
        → ascends (below_by R.order) (rows.now ++ row.now ∷ []) ≡ true }
{
    match rows.last() {
        Some(last) => last.compare(row).is_le(),
        None => true,
    }
}

fn first_of<'a, R: Keyed, K: Sought<R>>(rows: &'a [R], key: &K) -> Option<&'a R>
    ensures { option_copied result ≡ find (λ row. is_eq (K.side key.now row)) rows.now }
{
    rows.iter().find(|row| key.side_of(row).is_eq())
}

/// Rows in the order in which they came, with a note whether this is so far the order of their
/// keys.
#[derive(Drop)]
pub struct Appended<R: Keyed> {
    /// The rows, in the order in which they came.
    pub rows: Vec<R>,
    in_order: bool,
    pub ghost ascending: { in_order ≡ true → ascends (below_by R.order) rows.items ≡ true },
}

impl<R: Keyed + Drop> Appended<R> {
    /// No rows.
    pub fn new(alloc: Global) -> Appended<R>
        ensures { result.rows.items ≡ [] }
    {
        Appended {
            rows: Vec::new(alloc),
            in_order: true,
        }
    }

    /// Rows in the order in which they came.
    pub fn from_rows(alloc: Global, rows: Vec<R>) -> Result<Appended<R>, Fault>
        ensures rows { IfOk result (λ appended. appended.rows.items ≡ rows.items) }
        ensures fault { IfErr result (λ fault. fault ≡ Fault.Memory) }
    {
        let mut appended = Appended::new(alloc);
        appended.reserve(rows.len())?;
        appended.append(rows);
        Ok(appended)
    }

    /// How many rows there are.
    pub fn len(&self) -> usize
        ensures { result ≡ length self.now.rows.items }
    {
        self.rows.len()
    }

    /// Rows that include all that are sought: only these, found by binary search, if the rows are
    /// in order.
    pub fn among<K: Sought<R>>(&self, key: &K) -> &[R]
        ensures { filter (K.is_at key.now) result.now
            ≡ filter (K.is_at key.now) self.now.rows.items }
    {
        if !self.in_order {
            return self.rows.as_slice();
        }
        let run = run_of(self.rows.as_slice(), key);
        &self.rows[run.start..run.end]
    }

    /// A run that includes all rows that are sought: only these, if the rows are in order, and
    /// found without a search if the run begins at a place.
    pub fn run_near<K: Sought<R>>(&self, key: &K, place: usize) -> Run
        ensures ordered { result.start ≤ result.end }
        ensures within { result.end ≤ length self.now.rows.items }
        ensures found { filter (K.is_at key.now)
            (slice_range self.now.rows.items result.start result.end)
            ≡ filter (K.is_at key.now) self.now.rows.items }
    {
        if self.in_order {
            run_near(self.rows.as_slice(), key, place)
        } else {
            Run {
                start: 0,
                end: self.rows.len(),
            }
        }
    }

    /// The first of the rows that are sought.
    pub fn find<K: Sought<R>>(&self, key: &K) -> Option<&R>
        ensures { option_copied result ≡ find (K.is_at key.now) self.now.rows.items }
    {
        first_of(self.among(key), key)
    }

    /// Makes room for this many more rows. If memory runs out, the rows are unchanged.
    pub fn reserve(&mut self, count: usize) -> Result<(), Fault>
        ensures items { self.new.rows.items ≡ self.old.rows.items }
        ensures len { vec_len self.new.rows ≡ vec_len self.old.rows }
        ensures room { OnOk result (vec_len self.new.rows + count ≤ vec_capacity self.new.rows) }
        ensures fault { IfErr result (λ fault. fault ≡ Fault.Memory) }
    {
        reserve(&mut self.rows, count)
    }

    /// Appends a row. There is room.
    pub fn push(&mut self, row: R)
        requires { vec_len self.old.rows < vec_capacity self.old.rows }
        ensures items { self.new.rows.items ≡ self.old.rows.items ++ row ∷ [] }
        ensures len { vec_len self.new.rows ≡ vec_len self.old.rows + 1 }
        ensures capacity { vec_capacity self.new.rows ≡ vec_capacity self.old.rows }
    {
        self.in_order = self.in_order && goes_on(self.rows.as_slice(), &row);
        self.rows.push_reserved(row);
    }

    /// Appends rows. There is room.
    pub fn append(&mut self, more: Vec<R>)
        requires { vec_len self.old.rows + vec_len more ≤ vec_capacity self.old.rows }
        ensures { self.new.rows.items ≡ self.old.rows.items ++ more.items }
    {
        for row in more {
            self.push(row);
        }
    }
}
