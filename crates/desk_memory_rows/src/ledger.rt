//! The duties and their changes, found by the duties' numbers.

ghost use Rattle.std.specs.Prelude.{◌≡◌, ℕ, Bool, true, ◌+◌, ◌-◌, ◌<◌, ◌≤◌, ◌++◌, ◌∷◌, [], find, filter, map, IfOk, IfErr, IfSome, OnOk, OnErr, length, Option, vec_len, unwrap_or, slice_get, List};
ghost use Rattle.std.specs.Option.{option_copied};
ghost use Rattle.desk_model.specs.Lists.{put, put_all, updated};
ghost use Rattle.desk_model.specs.Keys.{is_duty, is_duty_of, is_change_of, change_below};
ghost use Rattle.desk_model.specs.Tables.{Tables, moved_by, with_duty_state};
ghost use Rattle.desk_model.specs.Queries.{last_day};
ghost use Rattle.desk_access.specs.Follows.{Follows, are_first, are_numbered};
ghost use Rattle.desk_memory_rows.specs.Ledgers.{end_in, ends_in, grouped, all_of, more_at, pushed, place_of, standing_by, standing_in, are_in_turn, can_append, can_take, is_in_turn, AreSingles, ArePlaces, AreWithin};

use desk_base::{Day, Items};
use desk_model::{Change, ChangeRow, DutyRow, DutyState, Fault, Standing};
use desk_sorted::item_at;
use desk_tally::state_after;
use std::alloc::{AllocError, Global};
use std::mem::replace;

/// The duties, numbered from 1, and the changes of each, in steps from 1: one group for each duty.
#[derive(Drop)]
pub struct Ledger {
    alloc: Global,
    duties: Vec<DutyRow>,
    groups: Vec<Items<ChangeRow>>,
    ghost duties_numbered: { are_numbered 1 duties.items ≡ true },
    ghost changes_grouped: { grouped 1 groups.items ≡ true },
    ghost paired: { length groups.items ≡ length duties.items },
}

/// The duty at a number.
fn duty_at(rows: &[DutyRow], number: u64) -> Option<&DutyRow>
    requires { are_numbered 1 rows.now ≡ true }
    ensures { option_copied result ≡ find (is_duty number) rows.now }
{
    if number == 0 {
        return None;
    }
    item_at(rows, (number - 1) as usize)
}

/// The changes of a duty.
fn group_at(groups: &[Items<ChangeRow>], number: u64) -> Option<&Items<ChangeRow>>
    requires { grouped 1 groups.now ≡ true }
    ensures { unwrap_or (option_copied result) []
        ≡ filter (is_change_of number) (all_of groups.now) }
{
    if number == 0 {
        return None;
    }
    item_at(groups, (number - 1) as usize)
}

fn last_of(rows: &[ChangeRow]) -> Option<Day>
    ensures { result ≡ last_day rows.now }
{
    let mut day = None;
    for row in rows {
        day = Some(row.day);
    }
    day
}

/// The last day of the last change, if that is a waiver that ends.
fn end_of(rows: &[ChangeRow]) -> Option<Day>
    ensures { result ≡ end_in rows.now }
{
    match rows.last() {
        Some(row) => row.last_day,
        None => None,
    }
}

/// Whether the numbers of duties go up by one from this number.
fn is_numbered(first: u64, rows: &[DutyRow]) -> bool
    ensures { result ≡ are_numbered first rows.now }
{
    let mut number = first;
    for row in rows {
        if u64::from(row.number) != number {
            return false;
        }
        number += 1;
    }
    true
}

fn set_state(rows: &mut Vec<DutyRow>, place: usize, state: DutyState)
    requires place { place < vec_len rows.old }
    requires numbered { are_numbered 1 rows.old.items ≡ true }
    ensures len { vec_len rows.new ≡ vec_len rows.old }
    ensures state { rows.new.items
        ≡ updated (is_duty (1 + place)) (with_duty_state state) rows.old.items }
{
    let row = &mut rows[place];
    row.state = state;
}

fn push_change(
    groups: &mut Vec<Items<ChangeRow>>,
    place: usize,
    change: ChangeRow,
) -> Result<(), AllocError>
    requires { place < vec_len groups.old }
    ensures ok { OnOk result (groups.new.items ≡ more_at groups.old.items place change) }
    ensures err { OnErr result (groups.new.items ≡ groups.old.items) }
    ensures len { vec_len groups.new ≡ vec_len groups.old }
{
    let group = &mut groups[place];
    group.push(change)
}

/// Removes the last change of a group again.
fn pop_change(alloc: Global, groups: &mut Vec<Items<ChangeRow>>, place: usize)
    requires { place < vec_len groups.old }
    ensures undone { (before : List (List ChangeRow)) (change : ChangeRow)
        → groups.old.items ≡ more_at before place change → groups.new.items ≡ before }
    ensures len { vec_len groups.new ≡ vec_len groups.old }
{
    let group = &mut groups[place];
    let mut rows = replace(group, Items::new(alloc)).into_vec();
    rows.pop();
    *group = Items::from_vec(rows);
}

/// How many changes a duty has.
fn steps_in(groups: &[Items<ChangeRow>], number: u64) -> u64
    requires { grouped 1 groups.now ≡ true }
    ensures { result ≡ length (filter (is_change_of number) (all_of groups.now)) }
{
    match group_at(groups, number) {
        Some(group) => group.as_slice().len() as u64,
        None => 0,
    }
}

/// The last day of a duty's last change, if that is a waiver that ends.
fn end_at(groups: &[Items<ChangeRow>], number: u64) -> Option<Day>
    requires { grouped 1 groups.now ≡ true }
    ensures { result ≡ end_in (filter (is_change_of number) (all_of groups.now)) }
{
    match group_at(groups, number) {
        Some(group) => end_of(group.as_slice()),
        None => None,
    }
}

/// The state of a duty, and how many changes it has.
fn standing(groups: &[Items<ChangeRow>], row: &DutyRow) -> Standing
    requires { grouped 1 groups.now ≡ true }
    ensures { result ≡ standing_in (all_of groups.now) row.now }
{
    Standing {
        number: row.number,
        state: row.state,
        steps: steps_in(groups, u64::from(row.number)),
    }
}

fn standings_of(
    alloc: Global,
    rows: &[DutyRow],
    groups: &[Items<ChangeRow>],
    release: &str,
) -> Result<Vec<Standing>, AllocError>
    requires { grouped 1 groups.now ≡ true }
    ensures { IfOk result (λ found. found.items
        ≡ map (standing_in (all_of groups.now)) (filter (is_duty_of release.now) rows.now)) }
{
    let mut found = Vec::new(alloc);
    for row in rows {
        if row.release.as_str() == release {
            found.push(standing(groups, row))?;
        }
    }
    Ok(found)
}

/// Whether a duty is waived until a day before this one.
fn ends(groups: &[Items<ChangeRow>], day: Day, row: &DutyRow) -> bool
    requires { grouped 1 groups.now ≡ true }
    ensures { result ≡ ends_in (all_of groups.now) day row.now }
{
    if row.state != DutyState::Waived {
        return false;
    }
    match end_at(groups, u64::from(row.number)) {
        Some(last) => last.as_bytes().cmp(day.as_bytes()).is_lt(),
        None => false,
    }
}

fn ended(
    alloc: Global,
    rows: &[DutyRow],
    groups: &[Items<ChangeRow>],
    day: Day,
) -> Result<Vec<Standing>, AllocError>
    requires { grouped 1 groups.now ≡ true }
    ensures { IfOk result (λ found. found.items
        ≡ map (standing_in (all_of groups.now))
        (filter (ends_in (all_of groups.now) day) rows.now)) }
{
    let mut found = Vec::new(alloc);
    for row in rows {
        if ends(groups, day, row) {
            found.push(standing(groups, row))?;
        }
    }
    Ok(found)
}

/// Whether a change is the next one of its duty, whose number is above another.
fn is_in_turn(groups: &[Items<ChangeRow>], last: u32, change: &ChangeRow) -> bool
    requires { grouped 1 groups.now ≡ true }
    ensures { result ≡ is_in_turn last (length groups.now) (all_of groups.now) change.now }
{
    if change.duty <= last || change.duty as usize > groups.len() {
        return false;
    }
    change.step != 0 && u64::from(change.step - 1) == steps_in(groups, u64::from(change.duty))
}

/// Whether each of these changes is the next one of its duty, by rising numbers.
fn are_in_turn(groups: &[Items<ChangeRow>], changes: &[ChangeRow]) -> bool
    requires { grouped 1 groups.now ≡ true }
    ensures { result ≡ are_in_turn 0 (length groups.now) (all_of groups.now) changes.now }
{
    let mut last = 0;
    for change in changes {
        if !is_in_turn(groups, last, change) {
            return false;
        }
        last = change.duty;
    }
    true
}

/// Whether each change is the first one of its duty, with numbers of duties that go up by one from
/// this number.
fn are_first(first: u64, changes: &[ChangeRow]) -> bool
    ensures { result ≡ are_first first changes.now }
{
    let mut number = first;
    for change in changes {
        if u64::from(change.duty) != number || change.step != 1 {
            return false;
        }
        number += 1;
    }
    true
}

/// Puts the next change of a duty after the others, or does nothing.
fn push_next(groups: &mut Vec<Items<ChangeRow>>, change: ChangeRow) -> Result<(), Fault>
    requires grouped { grouped 1 groups.old.items ≡ true }
    requires low { 1 ≤ change.duty }
    requires high { change.duty ≤ vec_len groups.old }
    requires next { change.step
        ≡ length (filter (is_change_of change.duty) (all_of groups.old.items)) + 1 }
    ensures ok { OnOk result
        (groups.new.items ≡ more_at groups.old.items (change.duty - 1) change) }
    ensures put { OnOk result
        (all_of groups.new.items ≡ put change_below change (all_of groups.old.items)) }
    ensures grouped { grouped 1 groups.new.items ≡ true }
    ensures err { OnErr result (groups.new.items ≡ groups.old.items) }
    ensures len { vec_len groups.new ≡ vec_len groups.old }
    ensures fault { IfErr result (λ fault. fault ≡ Fault.Memory) }
{
    let place = (change.duty - 1) as usize;
    push_change(groups, place, change)?;
    Ok(())
}

/// The state in which a change leaves a duty.
#[derive(Drop)]
struct Place {
    duty: u32,
    state: DutyState,
}

/// The state in which each of these changes leaves its duty.
fn places_of(alloc: Global, changes: &[ChangeRow]) -> Result<Vec<Place>, AllocError>
    ensures { IfOk result (λ places. map place_of changes.now ≡ places.items) }
{
    let mut places = Vec::new(alloc);
    for change in changes {
        places.push(Place {
            duty: change.duty,
            state: state_after(change.word),
        })?;
    }
    Ok(places)
}

/// Removes the last changes of these duties again, one after another.
fn pop_all(alloc: Global, groups: &mut Vec<Items<ChangeRow>>, places: &[Place])
    requires { AreWithin (vec_len groups.old) places.now }
    ensures undone { (before : List (List ChangeRow)) (changes : List ChangeRow)
        → map place_of changes ≡ places.now → groups.old.items ≡ pushed changes before
        → groups.new.items ≡ before }
    ensures len { vec_len groups.new ≡ vec_len groups.old }
{
    for place in places {
        pop_change(alloc, groups, (place.duty - 1) as usize);
    }
}

/// Puts each change, which is the next one of its duty, after the others, the last one first, or
/// does nothing.
fn push_all(
    alloc: Global,
    groups: &mut Vec<Items<ChangeRow>>,
    mut changes: Vec<ChangeRow>,
    places: &[Place],
) -> Result<(), Fault>
    requires grouped { grouped 1 groups.old.items ≡ true }
    requires places { ArePlaces (vec_len groups.old) changes.items places.now }
    requires turn { are_in_turn 0 (vec_len groups.old) (all_of groups.old.items) changes.items
        ≡ true }
    ensures put { OnOk result
        (all_of groups.new.items ≡ put_all change_below changes.items (all_of groups.old.items)) }
    ensures grouped { grouped 1 groups.new.items ≡ true }
    ensures err { OnErr result (groups.new.items ≡ groups.old.items) }
    ensures len { vec_len groups.new ≡ vec_len groups.old }
    ensures fault { IfErr result (λ fault. fault ≡ Fault.Memory) }
{
    while let Some(change) = changes.pop() {
        if let Err(fault) = push_next(groups, change) {
            pop_all(alloc, groups, &places[changes.len() + 1..]);
            return Err(fault);
        }
    }
    Ok(())
}

/// Sets the state of each duty, the last one first.
fn set_states(rows: &mut Vec<DutyRow>, places: &[Place])
    requires numbered { are_numbered 1 rows.old.items ≡ true }
    requires within { AreWithin (vec_len rows.old) places.now }
    ensures { rows.new.items ≡ standing_by places.now rows.old.items }
{
    let mut left = places.len();
    while left > 0 {
        left -= 1;
        set_state(rows, (places[left].duty - 1) as usize, places[left].state);
    }
}

/// The first changes of duties, each in a group of its own.
fn singles(alloc: Global, changes: Vec<ChangeRow>) -> Result<Vec<Items<ChangeRow>>, AllocError>
    ensures { (first : ℕ) → IfOk result
        (λ groups. are_first first changes.items ≡ true
        → AreSingles first changes.items groups.items) }
{
    let mut groups = Vec::new(alloc);
    for change in changes {
        let mut group = Items::new(alloc);
        group.push(change)?;
        groups.push(group)?;
    }
    Ok(groups)
}

impl Ledger {
    /// No duties and no changes.
    pub fn new(alloc: Global) -> Ledger
        ensures duties { result.duties.items ≡ [] }
        ensures groups { result.groups.items ≡ [] }
    {
        Ledger {
            alloc,
            duties: Vec::new(alloc),
            groups: Vec::new(alloc),
        }
    }

    /// How many duties there are.
    pub fn len(&self) -> usize
        ensures { result ≡ length self.now.duties.items }
    {
        self.duties.len()
    }

    /// All duties, by number.
    pub fn duties(&self) -> &[DutyRow]
        ensures { result.now ≡ self.now.duties.items }
    {
        self.duties.as_slice()
    }

    /// The duty with a number.
    pub fn find(&self, number: u64) -> Option<&DutyRow>
        ensures { option_copied result ≡ find (is_duty number) self.now.duties.items }
    {
        duty_at(self.duties.as_slice(), number)
    }

    /// How many changes a duty has.
    pub fn steps(&self, number: u64) -> u64
        ensures { result ≡ length (filter (is_change_of number) (all_of self.now.groups.items)) }
    {
        steps_in(self.groups.as_slice(), number)
    }

    /// The states of a release's duties.
    pub fn standings_of(&self, release: &str) -> Result<Vec<Standing>, AllocError>
        ensures { IfOk result (λ found. found.items
            ≡ map (standing_in (all_of self.now.groups.items))
            (filter (is_duty_of release.now) self.now.duties.items)) }
    {
        let groups = self.groups.as_slice();
        standings_of(self.alloc, self.duties.as_slice(), groups, release)
    }

    /// The states of the duties that are waived until a day before this one.
    pub fn ended(&self, day: Day) -> Result<Vec<Standing>, AllocError>
        ensures { IfOk result (λ found. found.items
            ≡ map (standing_in (all_of self.now.groups.items))
            (filter (ends_in (all_of self.now.groups.items) day) self.now.duties.items)) }
    {
        let groups = self.groups.as_slice();
        ended(self.alloc, self.duties.as_slice(), groups, day)
    }

    /// The changes of a duty, by step.
    pub fn changes(&self, number: u64) -> &[ChangeRow]
        ensures { result.now ≡ filter (is_change_of number) (all_of self.now.groups.items) }
    {
        match group_at(self.groups.as_slice(), number) {
            Some(group) => group.as_slice(),
            None => &[],
        }
    }

    /// The day of a duty's last change.
    pub fn last_day(&self, number: u64) -> Option<Day>
        ensures { result ≡ last_day (filter (is_change_of number) (all_of self.now.groups.items)) }
    {
        match group_at(self.groups.as_slice(), number) {
            Some(group) => last_of(group.as_slice()),
            None => None,
        }
    }
}

impl Ledger {
    /// Whether the numbers of new duties continue those that exist, and each has its first change.
    fn can_append(&self, duties: &[DutyRow], changes: &[ChangeRow]) -> bool
        ensures { result ≡ can_append (length self.now.duties.items) duties.now changes.now }
    {
        let first = self.duties.len() as u64 + 1;
        if !is_numbered(first, duties) || !are_first(first, changes) {
            return false;
        }
        changes.len() == duties.len()
    }

    /// Whether each of these changes is the next one of its duty, by rising numbers.
    fn can_move(&self, changes: &[ChangeRow]) -> bool
        ensures { result
            ≡ are_in_turn 0 (length self.now.groups.items) (all_of self.now.groups.items)
            changes.now }
    {
        are_in_turn(self.groups.as_slice(), changes)
    }

    /// Whether the duties and changes of a change of the rows follow those that exist.
    pub fn can_take(&self, change: &Change) -> bool
        ensures is { result ≡ can_take change.now self.now.duties.items self.now.groups.items }
        ensures follows { (t : Tables) → t.duty ≡ self.now.duties.items
            → t.changes ≡ all_of self.now.groups.items → Follows change.now t → result ≡ true }
    {
        match change {
            Change::Froze {
                duties,
                changes,
                ..
            } => self.can_append(duties.as_slice(), changes.as_slice()),
            Change::Moved { changes } => self.can_move(changes.as_slice()),
            Change::Withdrew { changes, .. } => self.can_move(changes.as_slice()),
            _ => true,
        }
    }

    /// Moves duties, each by the change that is its next one, or does nothing.
    pub fn move_all(&mut self, changes: Vec<ChangeRow>) -> Result<(), Fault>
        requires { are_in_turn 0 (length self.old.groups.items) (all_of self.old.groups.items)
            changes.items
            ≡ true }
        ensures duties { OnOk result
            (self.new.duties.items ≡ moved_by changes.items self.old.duties.items) }
        ensures changes { OnOk result (all_of self.new.groups.items
            ≡ put_all change_below changes.items (all_of self.old.groups.items)) }
        ensures duties_err { OnErr result (self.new.duties.items ≡ self.old.duties.items) }
        ensures changes_err { OnErr result (self.new.groups.items ≡ self.old.groups.items) }
        ensures fault { IfErr result (λ fault. fault ≡ Fault.Memory) }
    {
        let places = places_of(self.alloc, changes.as_slice())?;
        push_all(self.alloc, &mut self.groups, changes, places.as_slice())?;
        set_states(&mut self.duties, places.as_slice());
        Ok(())
    }

    /// Adds duties whose numbers continue the others, with a first change each, or does nothing.
    pub fn append(&mut self, mut duties: Vec<DutyRow>, changes: Vec<ChangeRow>) -> Result<(), Fault>
        requires { can_append (length self.old.duties.items) duties.items changes.items ≡ true }
        ensures duties { OnOk result
            (self.new.duties.items ≡ self.old.duties.items ++ duties.items) }
        ensures changes { OnOk result
            (all_of self.new.groups.items ≡ all_of self.old.groups.items ++ changes.items) }
        ensures duties_err { OnErr result (self.new.duties.items ≡ self.old.duties.items) }
        ensures changes_err { OnErr result (self.new.groups.items ≡ self.old.groups.items) }
        ensures fault { IfErr result (λ fault. fault ≡ Fault.Memory) }
    {
        let mut groups = singles(self.alloc, changes)?;
        self.duties.reserve(duties.len())?;
        self.groups.append(&mut groups)?;
        let Ok(()) = self.duties.append(&mut duties) else {
            unreachable!()
        };
        Ok(())
    }
}
