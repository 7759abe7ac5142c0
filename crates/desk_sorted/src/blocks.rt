//! Rows in the order of their keys, cut into blocks: when a row is added or removed, only those of
//! its block are moved.

ghost use Rattle.std.specs.Prelude.{◌≡◌, refl, ℕ, suc, Bool, true, false, not, ◌+◌, ◌^◌, ◌<◌, ◌≤◌, ◌++◌, [], ◌∷◌, filter, find, map, OnOk, OnErr, IfOk, IfErr, length, vec_len, ◌==◌, List, Vec, get_or, take, drop};
ghost use Rattle.std.specs.Vec.{vec_capacity};
ghost use Rattle.std.specs.declared.alloc.Global.{Global};
ghost use Rattle.std.specs.List.{list_any, list_all};
ghost use Rattle.std.specs.Option.{option_copied};
ghost use Rattle.std.specs.Ordering.{is_lt, is_le};
ghost use Rattle.std.specs.declared.cmp.Ordering.TheVariants.{Less};
ghost use Rattle.desk_model.specs.Lists.{put, put_all, replaced, ascends};
ghost use Rattle.desk_model.specs.Keys.{below_by};
ghost use Rattle.desk_sorted.specs.Blocks.{are_all_filled, are_filled, ends_in, is_between, rows_in, HasRoom, IsBlockRun, IsSplit};
ghost use Rattle.desk_sorted.specs.Sides.{none_splits};

use crate::sorted::{Keyed, Run, Sought, put_row, put_rows, run_of};
use std::alloc::{AllocError, Global};
use std::cmp::Ordering;

/// A block with this many rows is cut in two before another one is put in.
const FULL: usize = 256;

/// Whether all rows of a block come before what is sought.
fn ends_before<R: Keyed, K: Sought<R>>(block: &[R], key: &K) -> bool
    ensures { result ≡ ends_in (λ row. is_lt (K.side key.now row)) block.now }
{
    match block.last() {
        Some(row) => key.side_of(row).is_lt(),
        None => true,
    }
}

/// Whether no row of a block comes after what is sought.
fn ends_by<R: Keyed, K: Sought<R>>(block: &[R], key: &K) -> bool
    ensures { result ≡ ends_in (λ row. is_le (K.side key.now row)) block.now }
{
    match block.last() {
        Some(row) => key.side_of(row).is_le(),
        None => true,
    }
}

/// Whether a row goes after all rows of a block.
fn ends_under<R: Keyed>(block: &[R], row: &R) -> bool
    ensures { result ≡ ends_in (λ other. is_le (R.order other row.now)) block.now }
{
    match block.last() {
        Some(other) => other.compare(row).is_le(),
        None => true,
    }
}

/// The first block that doesn't end before what is sought.
fn first_block<R: Keyed, K: Sought<R>>(blocks: &[Vec<R>], key: &K) -> usize
    requires ascending { ascends (below_by R.order) (rows_in blocks.now) ≡ true }
    requires filled { are_filled blocks.now ≡ true }
    ensures { IsSplit (λ row. is_lt (K.side key.now row)) blocks.now result }
{
    blocks.partition_point(|block| ends_before(block.as_slice(), key))
}

/// The first block that ends after what is sought.
fn last_block<R: Keyed, K: Sought<R>>(blocks: &[Vec<R>], key: &K) -> usize
    requires ascending { ascends (below_by R.order) (rows_in blocks.now) ≡ true }
    requires filled { are_filled blocks.now ≡ true }
    ensures { IsSplit (λ row. is_le (K.side key.now row)) blocks.now result }
{
    blocks.partition_point(|block| ends_by(block.as_slice(), key))
}

/// The blocks that have the rows that are sought.
fn blocks_of<R: Keyed, K: Sought<R>>(blocks: &[Vec<R>], key: &K) -> Run
    requires ascending { ascends (below_by R.order) (rows_in blocks.now) ≡ true }
    requires filled { are_filled blocks.now ≡ true }
    ensures { IsBlockRun (K.side key.now) blocks.now result.start result.end }
{
    let start = first_block(blocks, key);
    let rest = &blocks[start..];
    let count = last_block(rest, key);
    Run {
        start,
        end: if count < rest.len() {
            start + count + 1
        } else {
            blocks.len()
        },
    }
}

/// The block into which a row goes.
fn block_for<R: Keyed>(blocks: &[Vec<R>], row: &R) -> usize
    requires some { 0 < length blocks.now }
    requires ascending { ascends (below_by R.order) (rows_in blocks.now) ≡ true }
    requires filled { are_filled blocks.now ≡ true }
    ensures within { result < length blocks.now }
    ensures place { is_between (below_by R.order) (rows_in (take result blocks.now))
        (rows_in (drop (suc result) blocks.now)) row.now ≡ true }
{
    let place = blocks.partition_point(|block| ends_under(block.as_slice(), row));
    if place < blocks.len() {
        place
    } else {
        blocks.len() - 1
    }
}

/// The rows of a block that are sought.
pub fn run_in<'a, R: Keyed, K: Sought<R>>(block: &'a [R], key: &K) -> &'a [R]
    requires { ascends (below_by R.order) block.now ≡ true }
    ensures { result.now ≡ filter (K.is_at key.now) block.now }
{
    let run = run_of(block, key);
    &block[run.start..run.end]
}

/// Moves this many rows, from a place on, to the end.
fn turn_out<R>(rows: &mut Vec<R>, start: usize, count: usize)
    requires within { start + count ≤ length rows.old.items }
    ensures items { rows.new.items ≡ take start rows.old.items ++
        (drop count (drop start rows.old.items) ++ take count (drop start rows.old.items)) }
    ensures len { vec_len rows.new ≡ vec_len rows.old }
    ensures capacity { vec_capacity rows.new ≡ vec_capacity rows.old }
{
    rows[start..].rotate_left(count);
}

/// Cuts the rows that are sought out of a block.
fn cut_run<R: Keyed + Drop, K: Sought<R>>(block: &mut Vec<R>, key: &K)
    requires { ascends (below_by R.order) block.old.items ≡ true }
    ensures items { block.new.items ≡ filter (λ row. not (K.is_at key.now row)) block.old.items }
    ensures len { vec_len block.new ≤ vec_len block.old }
    ensures capacity { vec_capacity block.new ≡ vec_capacity block.old }
{
    let run = run_of(block.as_slice(), key);
    let count = run.end - run.start;
    let left = block.len() - count;
    turn_out(block, run.start, count);
    block.truncate(left);
}

/// Cuts the rows that are sought out of each block.
fn cut_each<R: Keyed + Drop, K: Sought<R>>(blocks: &mut [Vec<R>], key: &K)
    requires { ascends (below_by R.order) (rows_in blocks.old) ≡ true }
    ensures rows { rows_in blocks.new
        ≡ filter (λ row. not (K.is_at key.now row)) (rows_in blocks.old) }
    ensures length { length blocks.new ≡ length blocks.old }
{
    for block in blocks.iter_mut() {
        cut_run(block, key);
    }
}

/// Whether some block has no rows.
fn has_empty<R>(blocks: &[Vec<R>]) -> bool
    ensures { result ≡ list_any (λ block. length block.items == 0) blocks.now }
{
    blocks.iter().any(|block| block.is_empty())
}

/// Cuts the rows that are sought out of the blocks that have them. Returns whether one of these has
/// no rows left.
fn cut_within<R: Keyed + Drop, K: Sought<R>>(blocks: &mut [Vec<R>], key: &K) -> bool
    requires ascending { ascends (below_by R.order) (rows_in blocks.old) ≡ true }
    requires filled { are_filled blocks.old ≡ true }
    ensures rows { rows_in blocks.new
        ≡ filter (λ row. not (K.is_at key.now row)) (rows_in blocks.old) }
    ensures length { length blocks.new ≡ length blocks.old }
    ensures filled { result ≡ false → are_filled blocks.new ≡ true }
    ensures whole { result ≡ false → are_all_filled blocks.old ≡ true
        → are_all_filled blocks.new ≡ true }
{
    let run = blocks_of(blocks, key);
    let within = &mut blocks[run.start..run.end];
    cut_each(within, key);
    has_empty(within)
}

/// Drops the blocks that have no rows.
fn drop_empty<R: Drop>(blocks: &mut Vec<Vec<R>>)
    ensures rows { rows_in blocks.new.items ≡ rows_in blocks.old.items }
    ensures filled { are_filled blocks.new.items ≡ true }
{
    blocks.retain(|block| !block.is_empty());
}

/// Drops the blocks that have no rows, if there may be some.
fn tidy<R: Drop>(blocks: &mut Vec<Vec<R>>, has_empty: bool)
    requires { has_empty ≡ false → are_filled blocks.old.items ≡ true }
    ensures rows { rows_in blocks.new.items ≡ rows_in blocks.old.items }
    ensures filled { are_filled blocks.new.items ≡ true }
{
    if has_empty {
        drop_empty(blocks);
    }
}

/// Cuts the block at a place in two.
fn halve<R: Drop>(blocks: &mut Vec<Vec<R>>, at: usize) -> Result<(), AllocError>
    requires within { at < length blocks.old.items }
    requires filled { are_filled blocks.old.items ≡ true }
    ensures rows { rows_in blocks.new.items ≡ rows_in blocks.old.items }
    ensures filled { are_filled blocks.new.items ≡ true }
    ensures length { length blocks.old.items ≤ length blocks.new.items }
{
    blocks.reserve(1)?;
    let block = &mut blocks[at];
    if block.len() < 2 {
        return Ok(());
    }
    let half = block.len() / 2;
    let upper = block.split_off(half)?;
    let Ok(()) = blocks.insert(at + 1, upper) else {
        unreachable!()
    };
    Ok(())
}

/// Puts rows in place of those that are sought, into the block at a place, which has room for them.
/// Returns whether a block that was changed has no rows left.
fn replace_within<R: Keyed + Drop, K: Sought<R>>(
    blocks: &mut [Vec<R>],
    at: usize,
    key: &K,
    more: Vec<R>,
) -> bool
    requires ascending { ascends (below_by R.order) (rows_in blocks.old) ≡ true }
    requires filled { are_filled blocks.old ≡ true }
    requires room { HasRoom (below_by R.order) (λ row. not (K.is_at key.now row)) more.items
        blocks.old at }
    ensures rows { rows_in blocks.new ≡ put_all (below_by R.order) more.items
        (filter (λ row. not (K.is_at key.now row)) (rows_in blocks.old)) }
    ensures length { length blocks.new ≡ length blocks.old }
    ensures filled { result ≡ false → are_filled blocks.new ≡ true }
{
    let (front, rest) = blocks.split_at_mut(at);
    let Some((block, back)) = rest.split_first_mut() else {
        unreachable!()
    };
    let front_has_empty = cut_within(front, key);
    cut_run(block, key);
    put_rows(block, more);
    let back_has_empty = cut_within(back, key);
    front_has_empty | block.is_empty() | back_has_empty
}

/// Makes room in the block at a place.
fn reserve_at<R: Drop>(blocks: &mut Vec<Vec<R>>, at: usize, count: usize) -> Result<(), AllocError>
    requires { at < vec_len blocks.old }
    ensures items { map (λ block. block.items) blocks.new.items
        ≡ map (λ block. block.items) blocks.old.items }
    ensures rows { rows_in blocks.new.items ≡ rows_in blocks.old.items }
    ensures filled { are_filled blocks.new.items ≡ are_filled blocks.old.items }
    ensures len { vec_len blocks.new ≡ vec_len blocks.old }
    ensures room { OnOk result ((d : Vec R Global)
        → vec_len (get_or blocks.new.items at d) + count
        ≤ vec_capacity (get_or blocks.new.items at d)) }
{
    blocks[at].reserve(count)?;
    Ok(())
}

/// Puts a row into the block at a place. There is room.
fn put_at<R: Keyed + Drop>(blocks: &mut Vec<Vec<R>>, at: usize, row: R)
    requires within { at < vec_len blocks.old }
    requires ascending { ascends (below_by R.order) (rows_in blocks.old.items) ≡ true }
    requires filled { are_filled blocks.old.items ≡ true }
    requires room { (d : Vec R Global) → vec_len (get_or blocks.old.items at d) + 1
        ≤ vec_capacity (get_or blocks.old.items at d) }
    requires place { is_between (below_by R.order) (rows_in (take at blocks.old.items))
        (rows_in (drop (suc at) blocks.old.items)) row ≡ true }
    ensures rows { rows_in blocks.new.items
        ≡ put (below_by R.order) row (rows_in blocks.old.items) }
    ensures filled { are_filled blocks.new.items ≡ true }
{
    put_row(&mut blocks[at], row);
}

/// Joins the last block to the one before it.
fn join_last<R: Drop>(blocks: &mut Vec<Vec<R>>) -> Result<(), AllocError>
    requires some { 1 < vec_len blocks.old }
    requires filled { are_filled blocks.old.items ≡ true }
    ensures rows { rows_in blocks.new.items ≡ rows_in blocks.old.items }
    ensures filled { are_filled blocks.new.items ≡ true }
    ensures len { OnOk result (vec_len blocks.new + 1 ≡ vec_len blocks.old) }
    ensures same { OnErr result (vec_len blocks.new ≡ vec_len blocks.old) }
{
    let Some(mut rows) = blocks.pop() else {
        return Ok(());
    };
    let at = blocks.len() - 1;
    match blocks[at].append(&mut rows) {
        Ok(()) => {
            rows.destroy_empty();
            Ok(())
        }
        Err(error) => {
            blocks.push_reserved(rows);
            Err(error)
        }
    }
}

/// Joins all blocks into one.
fn join<R: Drop>(blocks: &mut Vec<Vec<R>>) -> Result<(), AllocError>
    requires some { 0 < vec_len blocks.old }
    requires filled { are_filled blocks.old.items ≡ true }
    ensures rows { rows_in blocks.new.items ≡ rows_in blocks.old.items }
    ensures filled { are_filled blocks.new.items ≡ true }
    ensures some { 0 < vec_len blocks.new }
    ensures one { OnOk result (vec_len blocks.new ≡ 1) }
{
    while blocks.len() > 1 {
        join_last(blocks)?;
    }
    Ok(())
}

/// Adds the rows to those that are found.
fn add_each<'a, R>(found: &mut Vec<&'a R>, rows: &'a [R]) -> Result<(), AllocError>
    ensures { OnOk result (map (λ row. row.now) found.new.items ≡ map (λ row.
        row.now) found.old.items ++ rows.now) }
{
    for row in rows {
        found.push(row)?;
    }
    Ok(())
}

/// Whether all rows are sought.
fn are_at<R: Keyed, K: Sought<R>>(rows: &[R], key: &K) -> bool
    ensures { result ≡ list_all (K.is_at key.now) rows.now }
{
    rows.iter().all(|row| key.side_of(row).is_eq())
}

/// No row is sought.
struct NoRow;

impl<R: Keyed> Sought<R> for NoRow {
    ghost side = { λ key row. Less };

    ghost is_at = { λ key row. false };

    ghost splits = { λ key. none_splits R.order };

    ghost meets = { λ key row. refl };

    fn side_of(&self, row: &R) -> Ordering {
        Ordering::Less
    }
}

/// Rows in the order of their keys, in blocks.
#[derive(Drop)]
pub struct Blocks<R: Keyed> {
    alloc: Global,
    /// Each of them but the first has a row.
    pub blocks: Vec<Vec<R>>,
    /// The number of rows in all blocks.
    count: usize,
    pub ghost ascending: { ascends (below_by R.order) (rows_in blocks.items) ≡ true },
    pub ghost filled: { are_filled blocks.items ≡ true },
    pub ghost counted: { count ≡ length (rows_in blocks.items) },
    pub ghost fits: { length (rows_in blocks.items) < 2 ^ 64 },
}

impl<R: Keyed + Drop> Blocks<R> {
    /// No rows.
    pub fn new(alloc: Global) -> Blocks<R>
        ensures { rows_in result.blocks.items ≡ [] }
    {
        Blocks {
            alloc,
            blocks: Vec::new(alloc),
            count: 0,
        }
    }

    /// The blocks that have the rows that are sought: `run_in` finds them in each, so no list of
    /// them is allocated.
    pub fn among<K: Sought<R>>(&self, key: &K) -> &[Vec<R>]
        ensures found { filter (K.is_at key.now) (rows_in result.now)
            ≡ filter (K.is_at key.now) (rows_in self.now.blocks.items) }
        ensures ascending { ascends (below_by R.order) (rows_in result.now) ≡ true }
    {
        let run = blocks_of(self.blocks.as_slice(), key);
        &self.blocks[run.start..run.end]
    }

    /// The first of the rows that are sought.
    pub fn find<K: Sought<R>>(&self, key: &K) -> Option<&R>
        ensures { option_copied result ≡ find (K.is_at key.now) (rows_in self.now.blocks.items) }
    {
        for block in self.among(key) {
            if let Some(row) = run_in(block.as_slice(), key).first() {
                return Some(row);
            }
        }
        None
    }

    /// Whether a row that is sought is there.
    pub fn contains<K: Sought<R>>(&self, key: &K) -> bool
        ensures { result ≡ list_any (K.is_at key.now) (rows_in self.now.blocks.items) }
    {
        self.find(key).is_some()
    }

    /// The rows that are sought.
    pub fn run<K: Sought<R>>(&self, key: &K) -> Result<Vec<&R>, AllocError>
        ensures { IfOk result (λ run. map (λ row. row.now) run.items
            ≡ filter (K.is_at key.now) (rows_in self.now.blocks.items)) }
    {
        let mut found = Vec::new(self.alloc);
        for block in self.among(key) {
            add_each(&mut found, run_in(block.as_slice(), key))?;
        }
        Ok(found)
    }

    /// How many rows are sought. It allocates nothing.
    pub fn count_of<K: Sought<R>>(&self, key: &K) -> usize
        ensures { result ≡ length (filter (K.is_at key.now) (rows_in self.now.blocks.items)) }
    {
        let mut count: usize = 0;
        for block in self.among(key) {
            count += run_in(block.as_slice(), key).len();
        }
        count
    }

    /// Cuts out the rows that are sought.
    pub fn cut<K: Sought<R>>(&mut self, key: &K)
        ensures { rows_in self.new.blocks.items ≡ filter (λ row.
            not (K.is_at key.now row)) (rows_in self.old.blocks.items) }
    {
        let count = self.count_of(key);
        let has_empty = cut_within(&mut *self.blocks, key);
        tidy(&mut self.blocks, has_empty);
        self.count -= count;
    }

    /// Begins the first block.
    fn start(&mut self) -> Result<(), AllocError>
        ensures rows { rows_in self.new.blocks.items ≡ rows_in self.old.blocks.items }
        ensures some { OnOk result (0 < vec_len self.new.blocks) }
    {
        if self.blocks.is_empty() {
            self.blocks.push(Vec::new(self.alloc))?;
        }
        Ok(())
    }

    /// The block into which a row goes, cut in two first if it is full.
    fn open(&mut self, row: &R) -> Result<usize, AllocError>
        requires { 0 < vec_len self.old.blocks }
        ensures rows { rows_in self.new.blocks.items ≡ rows_in self.old.blocks.items }
        ensures within { IfOk result (λ at. at < length self.new.blocks.items) }
        ensures place { IfOk result (λ at. is_between (below_by R.order)
            (rows_in (take at self.new.blocks.items))
            (rows_in (drop (suc at) self.new.blocks.items)) row.now ≡ true) }
    {
        let at = block_for(self.blocks.as_slice(), row);
        if self.blocks[at].len() < FULL {
            return Ok(at);
        }
        halve(&mut self.blocks, at)?;
        Ok(block_for(self.blocks.as_slice(), row))
    }

    /// The one block into which rows go in place of those that are sought.
    fn place_for<K: Sought<R>>(&mut self, key: &K, more: &[R]) -> Result<usize, AllocError>
        requires { 0 < vec_len self.old.blocks }
        ensures rows { rows_in self.new.blocks.items ≡ rows_in self.old.blocks.items }
        ensures within { IfOk result (λ at. at < length self.new.blocks.items) }
        ensures place { IfOk result (λ at. list_all
            (is_between (below_by R.order) (filter (λ row. not (K.is_at key.now row))
            (rows_in (take at self.new.blocks.items)))
            (filter (λ row. not (K.is_at key.now row))
            (rows_in (drop (suc at) self.new.blocks.items)))) more.now ≡ true) }
    {
        match more.first() {
            Some(first) if are_at(more, key) => self.open(first),
            Some(_) => {
                join(&mut self.blocks)?;
                Ok(0)
            }
            None => Ok(0),
        }
    }

    /// Makes room for rows in place of those that are sought: all in one block, whose place is
    /// returned.
    pub fn make_room<K: Sought<R>>(&mut self, key: &K, more: &[R]) -> Result<usize, AllocError>
        ensures rows { rows_in self.new.blocks.items ≡ rows_in self.old.blocks.items }
        ensures room { IfOk result (λ at. HasRoom (below_by R.order) (λ row.
            not (K.is_at key.now row)) more.now self.new.blocks.items at) }
    {
        if more.len() > usize::MAX - self.count {
            return Err(AllocError);
        }
        self.start()?;
        let at = self.place_for(key, more)?;
        reserve_at(&mut self.blocks, at, more.len())?;
        Ok(at)
    }

    /// Puts rows in place of those that are sought. There is room for them.
    pub fn replace<K: Sought<R>>(&mut self, key: &K, at: usize, more: Vec<R>)
        requires { HasRoom (below_by R.order) (λ row.
            not (K.is_at key.now row)) more.items self.old.blocks.items at }
        ensures { rows_in self.new.blocks.items
            ≡ put_all (below_by R.order) more.items (filter (λ row.
            not (K.is_at key.now row)) (rows_in self.old.blocks.items)) }
    {
        let count = self.count - self.count_of(key) + more.len();
        let has_empty = replace_within(&mut *self.blocks, at, key, more);
        tidy(&mut self.blocks, has_empty);
        self.count = count;
    }

    /// Makes room for rows besides those that are there: all in one block, whose place is returned.
    /// If none of those there is sought, and all new ones are, it is the block into which they go;
    /// otherwise all blocks are joined.
    pub fn make_room_beside<K: Sought<R>>(
        &mut self,
        key: &K,
        more: &[R],
    ) -> Result<usize, AllocError>
        ensures rows { rows_in self.new.blocks.items ≡ rows_in self.old.blocks.items }
        ensures room { IfOk result (λ at. HasRoom (below_by R.order) (λ row. true) more.now
            self.new.blocks.items at) }
    {
        if self.contains(key) {
            return self.make_room(&NoRow, more);
        }
        self.make_room(key, more)
    }

    /// Puts rows in their places. There is room for them.
    pub fn put_all(&mut self, at: usize, more: Vec<R>)
        requires { HasRoom (below_by R.order) (λ row. true) more.items self.old.blocks.items at }
        ensures { rows_in self.new.blocks.items
            ≡ put_all (below_by R.order) more.items (rows_in self.old.blocks.items) }
    {
        self.replace(&NoRow, at, more);
    }

    /// Puts a row in place of those that are sought.
    pub fn exchange<K: Sought<R>>(&mut self, key: &K, row: R) -> Result<(), AllocError>
        ensures ok { OnOk result (rows_in self.new.blocks.items
            ≡ replaced (below_by R.order) (K.is_at key.now) row (rows_in self.old.blocks.items)) }
        ensures err { OnErr result (rows_in self.new.blocks.items ≡ rows_in self.old.blocks.items) }
    {
        let mut rows = Vec::new(self.alloc);
        rows.push(row)?;
        let at = self.make_room(key, rows.as_slice())?;
        self.replace(key, at, rows);
        Ok(())
    }

    /// Puts a row in its place.
    pub fn put(&mut self, row: R) -> Result<(), AllocError>
        ensures ok { OnOk result (rows_in self.new.blocks.items
            ≡ put (below_by R.order) row (rows_in self.old.blocks.items)) }
        ensures err { OnErr result (rows_in self.new.blocks.items ≡ rows_in self.old.blocks.items) }
    {
        let Some(count) = self.count.checked_add(1) else {
            return Err(AllocError);
        };
        self.start()?;
        let at = self.open(&row)?;
        reserve_at(&mut self.blocks, at, 1)?;
        put_at(&mut self.blocks, at, row);
        self.count = count;
        Ok(())
    }
}
