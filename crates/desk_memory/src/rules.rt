//! The rules of all revisions, found by their revision, term and form.

ghost use Rattle.std.specs.Prelude.{◌≡◌, ℕ, ◌+◌, ◌<◌, ◌^◌, ◌++◌, [], List, find, filter, map, IfOk, IfErr, OnOk, OnErr, length};
ghost use Rattle.std.specs.List.{position_from};
ghost use Rattle.std.specs.Option.{option_copied, option_map};
ghost use Rattle.desk_model.specs.Keys.{is_rule, is_rule_of, is_rule_at};
ghost use Rattle.desk_history.specs.FromTables.{rule_of};
ghost use Rattle.desk_memory.specs.RulePlaces.{is_placed, rule_places};

use crate::keys::{ByRule, RulePlace};
use desk_model::{Fault, RuleRow};
use desk_sorted::{Sorted, item_at};
use std::alloc::{AllocError, Global};

/// The rules in the order in which they came, and the place of each.
#[derive(Drop)]
pub(crate) struct Rules {
    alloc: Global,
    pub(crate) rows: Vec<RuleRow>,
    places: Sorted<RulePlace>,
    ghost placed: { (revision : ℕ) (term form : List ℕ)
        → option_map (λ entry. entry.place) (find (is_placed revision term form) places.rows.items)
        ≡ position_from (is_rule_at revision term form) 0 rows.items },
}

/// The places of rules, the first of which is at a place.
fn places_of(alloc: Global, rows: &[RuleRow], first: usize) -> Result<Vec<RulePlace>, AllocError>
    requires { first + length rows.now < 2 ^ 64 }
    ensures { IfOk result (λ places. places.items ≡ rule_places first rows.now) }
{
    let mut places = Vec::new(alloc);
    for (at, row) in rows.iter().enumerate() {
        places.push(RulePlace {
            revision: row.revision,
            term: row.term.clone()?,
            form: row.form.clone()?,
            place: first + at,
        })?;
    }
    Ok(places)
}

impl Rules {
    pub(crate) fn new(alloc: Global) -> Rules
        ensures { result.rows.items ≡ [] }
    {
        Rules {
            alloc,
            rows: Vec::new(alloc),
            places: Sorted::new(alloc),
        }
    }

    /// The first rule of a revision for a term and a form.
    pub(crate) fn find(&self, revision: u64, term: &str, form: &str) -> Option<&RuleRow>
        ensures { option_map rule_of (option_copied result)
            ≡ find (is_rule term.now form.now)
            (map rule_of (filter (is_rule_of revision) self.now.rows.items)) }
    {
        match self.places.find(&ByRule {
            revision,
            term,
            form,
        }) {
            Some(entry) => item_at(self.rows.as_slice(), entry.place),
            None => None,
        }
    }

    /// Adds rules, or does nothing.
    pub(crate) fn append(&mut self, mut rules: Vec<RuleRow>) -> Result<(), Fault>
        ensures ok { OnOk result (self.new.rows.items ≡ self.old.rows.items ++ rules.items) }
        ensures err { OnErr result (self.new.rows.items ≡ self.old.rows.items) }
        ensures fault { IfErr result (λ fault. fault ≡ Fault.Memory) }
    {
        let places = places_of(self.alloc, rules.as_slice(), self.rows.len())?;
        self.places.reserve(places.len())?;
        self.rows.append(&mut rules)?;
        self.places.put_in_turn(places);
        Ok(())
    }
}
