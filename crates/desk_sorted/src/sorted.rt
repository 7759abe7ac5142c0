//! Rows in the order of their keys, found by binary search.

ghost use Rattle.std.specs.Prelude.{◌≡◌, ℕ, Bool, true, ◌+◌, ◌<◌, ◌≤◌, ◌++◌, [], ◌∷◌, filter, find, OnOk, OnErr, IfSome, IfErr, length, vec_len, slice_get, List, take, drop};
ghost use Rattle.std.specs.Vec.{vec_capacity};
ghost use Rattle.std.specs.Cmp.{IsTotalOrder};
ghost use Rattle.std.specs.Option.{option_copied};
ghost use Rattle.std.specs.Ordering.{is_eq, is_lt};
ghost use Rattle.std.specs.declared.cmp.Ordering.{Ordering};
ghost use Rattle.desk_model.specs.Lists.{put, put_all, ascends};
ghost use Rattle.desk_model.specs.Keys.{below_by};
ghost use Rattle.desk_sorted.specs.Sorted.{put_in_turn, Begins, Climbs, IsEnd, IsSideOf, IsRun, IsPlace, Rises};

use desk_model::Fault;
use std::alloc::Global;
use std::cmp::Ordering;

/// A row with its place among others.
pub trait Keyed {
    ghost order: { Self → Self → Ordering };

    /// The order of two rows by their keys.
    fn compare(&self, other: &Self) -> Ordering
        ensures { result ≡ order self.now other.now };

    ghost total: { IsTotalOrder order };
}

/// What rows are looked up by: their key, or the beginning of it.
pub trait Sought<R: Keyed> {
    ghost side: { Self → R → Ordering };

    ghost is_at: { Self → R → Bool };

    /// On which side of what is sought a row is.
    fn side_of(&self, row: &R) -> Ordering
        ensures { result ≡ side self.now row.now };

    ghost splits: { (key : Self) → IsSideOf R.order (side key) };

    ghost meets: { (key : Self) (row : R) → is_at key row ≡ is_eq (side key row) };
}

/// A run of rows: from one place up to another.
#[derive(Clone, Copy)]
pub struct Run {
    /// The place of its first row.
    pub start: usize,
    /// The place after its last row.
    pub end: usize,
}

/// The run of the rows that are sought.
pub fn run_of<R: Keyed, K: Sought<R>>(rows: &[R], key: &K) -> Run
    requires { ascends (below_by R.order) rows.now ≡ true }
    ensures { IsRun (K.side key.now) rows.now result.start result.end }
{
    Run {
        start: rows.partition_point(|row| key.side_of(row).is_lt()),
        end: rows.partition_point(|row| key.side_of(row).is_le()),
    }
}

/// Whether what is sought begins at a place, by the rows on both sides of it.
fn begins_at<R: Keyed, K: Sought<R>>(rows: &[R], key: &K, place: usize) -> bool
    ensures { result ≡ true → Begins (K.side key.now) rows.now place }
{
    if rows.len() < place || (0 < place && !key.side_of(&rows[place - 1]).is_lt()) {
        return false;
    }
    place == rows.len() || !key.side_of(&rows[place]).is_lt()
}

/// The end of the rows from a place on that aren't after what is sought.
fn end_from<R: Keyed, K: Sought<R>>(rows: &[R], key: &K, place: usize) -> usize
    requires { place ≤ length rows.now }
    ensures { IsEnd (K.side key.now) rows.now place result }
{
    let mut end = place;
    while end < rows.len() && key.side_of(&rows[end]).is_le() {
        end += 1;
    }
    end
}

/// The run of the rows that are sought, found without a search if it begins at a place.
pub fn run_near<R: Keyed, K: Sought<R>>(rows: &[R], key: &K, place: usize) -> Run
    requires { ascends (below_by R.order) rows.now ≡ true }
    ensures { IsRun (K.side key.now) rows.now result.start result.end }
{
    if begins_at(rows, key, place) {
        let end = end_from(rows, key, place);
        Run { start: place, end }
    } else {
        run_of(rows, key)
    }
}

/// The place at which a row goes in.
fn place_of<R: Keyed>(rows: &[R], row: &R) -> usize
    requires { ascends (below_by R.order) rows.now ≡ true }
    ensures { IsPlace (below_by R.order) row.now rows.now result }
{
    rows.partition_point(|other| other.compare(row).is_le())
}

/// Whether each row is less than the next.
fn climbs<R: Keyed>(rows: &[R]) -> bool
    ensures { result ≡ true → Climbs (below_by R.order) rows.now }
{
    rows.is_sorted_by(|row, next| row.compare(next).is_lt())
}

/// The place at which rows go in side by side, if they climb and all go to one place.
fn place_of_all<R: Keyed>(rows: &[R], more: &[R]) -> Option<usize>
    requires { ascends (below_by R.order) rows.now ≡ true }
    ensures within { IfSome result (λ place. place ≤ length rows.now) }
    ensures place { IfSome result (λ place. put_all (below_by R.order) more.now rows.now
        ≡ take place rows.now ++ (more.now ++ drop place rows.now)) }
{
    let (Some(first), Some(last)) = (more.first(), more.last()) else {
        return None;
    };
    let place = place_of(rows, first);
    if climbs(more) && place_of(rows, last) == place {
        Some(place)
    } else {
        None
    }
}

/// Inserts rows at a place. There is room.
fn insert_all<R>(rows: &mut Vec<R>, place: usize, mut more: Vec<R>)
    requires within { place ≤ length rows.old.items }
    requires room { vec_len rows.old + vec_len more ≤ vec_capacity rows.old }
    ensures { rows.new.items
        ≡ take place rows.old.items ++ (more.items ++ drop place rows.old.items) }
{
    let count = more.len();
    let Ok(()) = rows.append(&mut more) else {
        unreachable!()
    };
    rows[place..].rotate_right(count);
    more.destroy_empty();
}

/// Puts a row in its place. There is room.
pub(crate) fn put_row<R: Keyed + Drop>(rows: &mut Vec<R>, row: R)
    requires ascending { ascends (below_by R.order) rows.old.items ≡ true }
    requires room { vec_len rows.old < vec_capacity rows.old }
    ensures items { rows.new.items ≡ put (below_by R.order) row rows.old.items }
    ensures len { vec_len rows.new ≡ vec_len rows.old + 1 }
    ensures capacity { vec_capacity rows.old ≤ vec_capacity rows.new }
{
    let place = place_of(rows.as_slice(), &row);
    let Ok(()) = rows.insert(place, row) else {
        unreachable!()
    };
}

fn put_each<R: Keyed + Drop>(rows: &mut Vec<R>, mut more: Vec<R>)
    requires ascending { ascends (below_by R.order) rows.old.items ≡ true }
    requires room { vec_len rows.old + vec_len more ≤ vec_capacity rows.old }
    ensures { rows.new.items ≡ put_all (below_by R.order) more.items rows.old.items }
{
    while let Some(row) = more.pop() {
        put_row(rows, row);
    }
}

/// Puts rows in their places. There is room.
pub(crate) fn put_rows<R: Keyed + Drop>(rows: &mut Vec<R>, more: Vec<R>)
    requires ascending { ascends (below_by R.order) rows.old.items ≡ true }
    requires room { vec_len rows.old + vec_len more ≤ vec_capacity rows.old }
    ensures { rows.new.items ≡ put_all (below_by R.order) more.items rows.old.items }
{
    match place_of_all(rows.as_slice(), more.as_slice()) {
        Some(place) => insert_all(rows, place, more),
        None => put_each(rows, more),
    }
}

/// Makes room for this many more rows. If memory runs out, the rows are unchanged.
pub fn reserve<R>(rows: &mut Vec<R>, count: usize) -> Result<(), Fault>
    ensures items { rows.new.items ≡ rows.old.items }
    ensures len { vec_len rows.new ≡ vec_len rows.old }
    ensures room { OnOk result (vec_len rows.new + count ≤ vec_capacity rows.new) }
    ensures fault { IfErr result (λ fault. fault ≡ Fault.Memory) }
{
    rows.reserve(count)?;
    Ok(())
}

/// The item at a place, if there is one.
pub fn item_at<T>(items: &[T], place: usize) -> Option<&T>
    ensures { option_copied result ≡ slice_get items.now place }
{
    items.get(place)
}

/// Rows in the order of their keys.
#[derive(Drop)]
pub struct Sorted<R: Keyed> {
    /// The rows, by their keys.
    pub rows: Vec<R>,
    pub ghost ascending: { ascends (below_by R.order) rows.items ≡ true },
}

impl<R: Keyed + Drop> Sorted<R> {
    /// No rows.
    pub fn new(alloc: Global) -> Sorted<R>
        ensures { result.rows.items ≡ [] }
    {
        Sorted {
            rows: Vec::new(alloc),
        }
    }

    /// How many rows there are.
    pub fn len(&self) -> usize
        ensures { result ≡ length self.now.rows.items }
    {
        self.rows.len()
    }

    /// The rows that are sought.
    pub fn run<K: Sought<R>>(&self, key: &K) -> &[R]
        ensures { result.now ≡ filter (K.is_at key.now) self.now.rows.items }
    {
        let run = run_of(self.rows.as_slice(), key);
        &self.rows[run.start..run.end]
    }

    /// The first of the rows that are sought.
    pub fn find<K: Sought<R>>(&self, key: &K) -> Option<&R>
        ensures { option_copied result ≡ find (K.is_at key.now) self.now.rows.items }
    {
        self.run(key).first()
    }

    /// Makes room for this many more rows. If memory runs out, the rows are unchanged.
    pub fn reserve(&mut self, count: usize) -> Result<(), Fault>
        ensures items { self.new.rows.items ≡ self.old.rows.items }
        ensures len { vec_len self.new.rows ≡ vec_len self.old.rows }
        ensures room { OnOk result (vec_len self.new.rows + count ≤ vec_capacity self.new.rows) }
        ensures fault { IfErr result (λ fault. fault ≡ Fault.Memory) }
    {
        reserve(&mut self.rows, count)
    }

    /// Puts a row in its place. There is room.
    pub fn put(&mut self, row: R)
        requires { vec_len self.old.rows < vec_capacity self.old.rows }
        ensures items { self.new.rows.items ≡ put (below_by R.order) row self.old.rows.items }
        ensures len { vec_len self.new.rows ≡ vec_len self.old.rows + 1 }
        ensures capacity { vec_capacity self.old.rows ≤ vec_capacity self.new.rows }
    {
        put_row(&mut self.rows, row);
    }

    /// Puts rows in their places, one after another: rows with equal keys stay in their order.
    /// There is room.
    pub fn put_in_turn(&mut self, more: Vec<R>)
        requires { vec_len self.old.rows + vec_len more ≤ vec_capacity self.old.rows }
        ensures { self.new.rows.items
            ≡ put_in_turn (below_by R.order) more.items self.old.rows.items }
    {
        for row in more {
            self.put(row);
        }
    }
}
