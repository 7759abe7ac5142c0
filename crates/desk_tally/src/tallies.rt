//! The tallies of all releases.

ghost use Rattle.std.specs.Prelude.{◌≡◌, ℕ, true, ◌+◌, ◌≤◌, length};
ghost use Rattle.desk_tally.specs.Stands.{AreTallied, are_placed};

use crate::changes::{are_raised, shifts_of};
use crate::counting::{are_numbered, are_placed, are_places, places_of, stands_of, tallies_of};
use crate::lists::{push_open, raise_at, shift_all, tally_at};
use crate::stand::{Shift, Stand, Step};
use crate::tally::Tally;
use desk_base::limits;
use desk_model::{Change, ChangeRow, DutyRow, ReleaseRow, Totals};
use std::alloc::{AllocError, Global};

/// The tallies of all releases by their places, and the place and state of each duty by its number,
/// both counted from 1. There are at most 100,000 duties.
#[derive(Drop)]
pub struct Tallies {
    alloc: Global,
    stands: Vec<Stand>,
    tallies: Vec<Tally>,
    ghost placed: { are_placed (length tallies.items) stands.items ≡ true },
    ghost tallied: { AreTallied stands.items tallies.items },
    ghost limited: { length stands.items ≤ 100000 },
}

impl Tallies {
    ghost use Rattle.std.specs.Prelude.{List, [], filter, false, IfOk, IfSome, IfNone};
    ghost use Rattle.desk_model.specs.Keys.{is_duty_of};
    ghost use Rattle.desk_model.specs.Queries.{totals_of};
    ghost use Rattle.desk_model.specs.Tables.{Tables};
    ghost use Rattle.desk_tally.specs.Kept.{place_found, AreKept, AreCounted, are_countable, can_count};

    /// The tallies of no releases.
    pub fn new(alloc: Global) -> Tallies
        ensures { (t : Tables) → t.releases ≡ [] → t.duty ≡ [] → AreKept result t }
    {
        Tallies {
            alloc,
            stands: Vec::new(alloc),
            tallies: Vec::new(alloc),
        }
    }

    /// The tallies of releases at these places and of these duties, if they can be counted.
    fn standing(
        alloc: Global,
        places: &[u32],
        stands: Vec<Stand>,
    ) -> Result<Option<Tallies>, AllocError>
        ensures kept { IfOk result (λ found. IfSome found (λ tallies.
            (t : Tables) → AreCounted places.now stands.items t → AreKept tallies t)) }
        ensures none { IfOk result
            (λ found. IfNone found (can_count places.now stands.items ≡ false)) }
    {
        let releases = places.len();
        if stands.len() > limits::DUTIES as usize || !are_placed(releases, stands.as_slice()) {
            return Ok(None);
        }
        if !are_places(alloc, places)? {
            return Ok(None);
        }
        let tallies = tallies_of(alloc, releases, stands.as_slice())?;
        Ok(Some(Tallies {
            alloc,
            stands,
            tallies,
        }))
    }

    /// The tallies of the rows of releases and duties, counted once. `None` if the releases' places
    /// are not those from 1 to their number, the duties are not numbered 1, 2 and so on, one is of
    /// a release that doesn't exist, or there are more than 100,000.
    pub fn counted(
        alloc: Global,
        releases: &[ReleaseRow],
        duties: &[DutyRow],
    ) -> Result<Option<Tallies>, AllocError>
        ensures kept { IfOk result (λ found. IfSome found (λ tallies.
            (t : Tables) → releases.now ≡ t.releases → duties.now ≡ t.duty → AreKept tallies t)) }
        ensures none { IfOk result
            (λ found. IfNone found (are_countable releases.now duties.now ≡ false)) }
    {
        if !are_numbered(duties) {
            return Ok(None);
        }
        let places = places_of(alloc, releases)?;
        let stands = stands_of(alloc, releases, duties)?;
        Tallies::standing(alloc, places.as_slice(), stands)
    }

    /// How many duties of the release at a place are in each state, if there is such a release.
    pub fn totals(&self, place: u32) -> Option<Totals>
        ensures kept { (t : Tables) (name : List ℕ) → AreKept self.now t
            → place_found t.releases name ≡ Some place
            → result ≡ Some (totals_of (filter (is_duty_of name) t.duty)) }
        ensures within { IfSome result
            (λ found. (1 ≤ place) × (place ≤ length self.now.tallies.items)) }
    {
        if place == 0 {
            return None;
        }
        match tally_at(self.tallies.as_slice(), (place - 1) as usize) {
            Some(tally) => Some(tally.totals()),
            None => None,
        }
    }
}

impl Tallies {
    ghost use Rattle.std.specs.Prelude.{◌<◌, ◌++◌, vec_len, List, IfNone, IfOk, IfSome, Option, map, replicate};
    ghost use Rattle.std.specs.Vec.{vec_capacity};
    ghost use Rattle.desk_model.specs.Keys.{release_below};
    ghost use Rattle.desk_model.specs.Tables.{Tables, applied};
    ghost use Rattle.desk_history.specs.Laws.{Ascends};
    ghost use Rattle.desk_tally.specs.Stands.{are_duties, count_after, open_at, shift_of, shifted, stands_after};
    ghost use Rattle.desk_tally.specs.Kept.{AreKept, CanRaise, Fits, HasStep, IsAstray, IsPlaceFor, IsStep, IsRaise, IsMove, LeadsTo};

    /// The step of opening the next release.
    fn plan_open(&mut self, row: &ReleaseRow) -> Result<Option<Step>, AllocError>
        ensures stands { self.new.stands.items ≡ self.old.stands.items }
        ensures tallies { self.new.tallies.items ≡ self.old.tallies.items }
        ensures fits { IfOk result (λ found. IfSome found (λ step. Fits step self.new)) }
        ensures step { IfOk result (λ found. IfSome found (λ step.
            IsStep (Change.Opened row.now) None
            (length self.old.tallies.items) self.old.stands.items step)) }
        ensures none { IfOk result (λ found. IfNone found
            (row.now.place ≡ length self.old.tallies.items + 1 → ⊥)) }
    {
        if row.place as usize != self.tallies.len() + 1 {
            return Ok(None);
        }
        self.tallies.reserve(1)?;
        Ok(Some(Step::Open))
    }

    /// The step of raising new duties for the release at a place.
    fn plan_raise(
        &mut self,
        release: &str,
        duties: &[DutyRow],
        place: Option<u32>,
    ) -> Result<Option<Step>, AllocError>
        ensures stands { self.new.stands.items ≡ self.old.stands.items }
        ensures tallies { self.new.tallies.items ≡ self.old.tallies.items }
        ensures fits { IfOk result (λ found. IfSome found (λ step. Fits step self.new)) }
        ensures step { IfOk result (λ found. IfSome found (λ step.
            IsRaise release.now duties.now place self.old.stands.items step)) }
        ensures none { IfOk result (λ found. IfNone found
            (CanRaise release.now duties.now place
            (length self.old.tallies.items) self.old.stands.items → ⊥)) }
    {
        let Some(place) = place else {
            return Ok(None);
        };
        if place == 0 || place as usize > self.tallies.len() {
            return Ok(None);
        }
        let count = self.stands.len();
        if duties.len() > limits::DUTIES as usize - count
            || !are_raised(count as u64 + 1, release, duties)
        {
            return Ok(None);
        }
        self.stands.reserve(duties.len())?;
        Ok(Some(Step::Raise {
            place,
            count: duties.len(),
        }))
    }

    /// The step of moving duties.
    fn plan_move(&self, changes: &[ChangeRow]) -> Result<Option<Step>, AllocError>
        ensures fits { IfOk result (λ found. IfSome found (λ step. Fits step self.now)) }
        ensures step { IfOk result (λ found. IfSome found (λ step.
            IsMove changes.now self.now.stands.items step)) }
        ensures none { IfOk result (λ found. IfNone found
            (are_duties (length self.now.stands.items) (map shift_of changes.now) ≡ true → ⊥)) }
    {
        match shifts_of(self.alloc, self.stands.len(), changes)? {
            Some(shifts) => Ok(Some(Step::Move(shifts))),
            None => Ok(None),
        }
    }

    /// The step of a change, if it has one.
    fn step_of(&mut self, change: &Change, place: Option<u32>) -> Result<Option<Step>, AllocError>
        ensures stands { self.new.stands.items ≡ self.old.stands.items }
        ensures tallies { self.new.tallies.items ≡ self.old.tallies.items }
        ensures fits { IfOk result (λ found. IfSome found (λ step. Fits step self.new)) }
        ensures step { IfOk result (λ found. IfSome found (λ step.
            IsStep change.now place (length self.old.tallies.items) self.old.stands.items step)) }
        ensures none { IfOk result (λ found. IfNone found
            (HasStep change.now place (length self.old.tallies.items) self.old.stands.items → ⊥)) }
    {
        match change {
            Change::Opened(row) => self.plan_open(row),
            Change::Froze {
                release,
                duties,
                ..
            } => self.plan_raise(release.as_str(), duties.as_slice(), place),
            Change::Moved { changes } => self.plan_move(changes.as_slice()),
            Change::Withdrew { changes, .. } => self.plan_move(changes.as_slice()),
            _ => Ok(Some(Step::Stay)),
        }
    }

    /// The step that a change of the rows amounts to. Room is made for it, but nothing is done yet.
    /// For a freeze, `place` is that of its release.
    ///
    /// Each change that continues the rows has a step. There is no step for what no command does:
    /// opening a release at a place that isn't the next, raising duties without the next numbers or
    /// more than 100,000 in all, and changes of duties that don't exist.
    pub fn plan(&mut self, change: &Change, place: Option<u32>) -> Result<Option<Step>, AllocError>
        ensures kept { (t : Tables) → AreKept self.old t → AreKept self.new t }
        ensures fits { IfOk result (λ found. IfSome found (λ step. Fits step self.new)) }
        ensures leads { IfOk result (λ found. IfSome found (λ step.
            (t : Tables) → Ascends release_below (applied change.now t).releases
            → IsPlaceFor change.now place t → AreKept self.old t
            → LeadsTo step self.new (applied change.now t))) }
        ensures none { IfOk result (λ found. IfNone found (IsAstray change.now place self.old)) }
    {
        self.step_of(change, place)
    }

    /// Opens a release.
    fn open(&mut self)
        requires { Fits Step.Open self.old }
        ensures stands { self.new.stands.items ≡ self.old.stands.items }
        ensures count { length self.new.tallies.items ≡ length self.old.tallies.items + 1 }
    {
        self.tallies.push_reserved(Tally::new());
    }

    /// Raises duties for the release at a place.
    fn raise(&mut self, place: u32, count: usize)
        requires { Fits (Step.Raise place count) self.old }
        ensures stands { self.new.stands.items
            ≡ self.old.stands.items ++ replicate count (open_at place) }
        ensures count { length self.new.tallies.items ≡ length self.old.tallies.items }
    {
        raise_at(&mut self.tallies, (place - 1) as usize, count);
        push_open(&mut self.stands, place, count);
    }

    /// Moves duties.
    fn move_all(&mut self, shifts: &[Shift])
        requires { Fits (Step.Move shifts.now) self.old }
        ensures stands { self.new.stands.items ≡ shifted shifts.now self.old.stands.items }
        ensures count { length self.new.tallies.items ≡ length self.old.tallies.items }
    {
        shift_all(&mut self.stands, &mut self.tallies, shifts);
    }

    /// Takes a step that was planned.
    pub fn take(&mut self, step: Step)
        requires { Fits step self.old }
        ensures { (t : Tables) → LeadsTo step self.old t → AreKept self.new t }
    {
        match step {
            Step::Stay => {}
            Step::Open => self.open(),
            Step::Raise { place, count } => self.raise(place, count),
            Step::Move(shifts) => self.move_all(shifts.as_slice()),
        }
    }
}
