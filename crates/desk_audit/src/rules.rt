//! The rules of frozen terms.

ghost use Rattle.std.specs.Prelude.{◌≡◌, IfOk, find, map};
ghost use Rattle.std.specs.Option.{option_copied};
ghost use Rattle.desk_snapshot.specs.Conditions.{is_ruled, rule_for};
ghost use Rattle.desk_snapshot.specs.Rows.{is_rule_spelled};
ghost use Rattle.desk_audit.specs.Spelled.{FindsAs, is_spelled, spelled_meets, spelled_order, spelled_side, spelled_splits, spelled_total};

use crate::numbers::was_frozen;
use desk_snapshot::{ByName, Snapshot, StoredFrozen, StoredRule};
use desk_sorted::{Keyed, Sorted, Sought};
use std::alloc::{AllocError, Global};
use std::cmp::Ordering;

/// A rule among others in the order of revisions, forms and spellings.
#[derive(Clone, Copy)]
pub(crate) struct RuleAt<'a> {
    pub(crate) rule: &'a StoredRule,
}

impl Keyed for RuleAt<'_> {
    ghost order = { spelled_order };

    ghost total = { spelled_total };

    fn compare(&self, other: &Self) -> Ordering {
        let spelled = self.rule.form.as_str().cmp(other.rule.form.as_str()).then(
            self.rule.spelled.as_str().cmp(other.rule.spelled.as_str()),
        );
        self.rule.revision.cmp(&other.rule.revision).then(spelled)
    }
}

/// The rules of a revision and a form with this spelling.
#[derive(Clone, Copy)]
struct BySpelling<'a> {
    revision: i64,
    form: &'a str,
    spelled: &'a str,
}

impl Sought<RuleAt<'_>> for BySpelling<'_> {
    ghost side = { λ key. spelled_side key.revision key.form.now key.spelled.now };

    ghost is_at = { λ key. is_spelled key.revision key.form.now key.spelled.now };

    ghost splits = { λ key. spelled_splits key.revision key.form.now key.spelled.now };

    ghost meets = { λ key row. spelled_meets key.revision key.form.now key.spelled.now row };

    fn side_of(&self, row: &RuleAt<'_>) -> Ordering {
        let spelled = row
            .rule
            .form
            .as_str()
            .cmp(self.form)
            .then(row.rule.spelled.as_str().cmp(self.spelled));
        row.rule.revision.cmp(&self.revision).then(spelled)
    }
}

fn rules_at(alloc: Global, rules: &[StoredRule]) -> Result<Vec<RuleAt<'_>>, AllocError>
    ensures { IfOk result (λ v. map (λ at. at.rule.now) v.items ≡ rules.now) }
{
    let mut places = Vec::new(alloc);
    for rule in rules {
        places.push(RuleAt { rule })?;
    }
    Ok(places)
}

/// The rules in the order of revisions, forms and spellings. Among rules that are equal in these,
/// the first stays the first.
fn sorted_rules(alloc: Global, rules: &[StoredRule]) -> Result<Sorted<RuleAt<'_>>, AllocError>
    ensures { IfOk result (λ sorted. FindsAs sorted.rows.items rules.now) }
{
    let mut rows = rules_at(alloc, rules)?;
    rows.sort_by(|rule, other| rule.compare(other))?;
    Ok(Sorted { rows })
}

/// A snapshot, with its rules in the order of revisions, forms and spellings.
#[derive(Drop)]
pub(crate) struct Ruling<'a> {
    pub(crate) snapshot: &'a Snapshot,
    rules: Sorted<RuleAt<'a>>,
    ghost found: { FindsAs rules.rows.items snapshot.now.rule },
}

impl<'a> Ruling<'a> {
    /// The rules of a snapshot, sorted to be looked up.
    pub(crate) fn of(alloc: Global, snapshot: &'a Snapshot) -> Result<Ruling<'a>, AllocError>
        ensures { IfOk result (λ ruling. ruling.snapshot.now ≡ snapshot.now) }
    {
        let rules = sorted_rules(alloc, snapshot.rule.as_slice())?;
        Ok(Ruling { snapshot, rules })
    }

    fn rule(&self, revision: i64, form: &str, spelled: &str) -> Option<&'a StoredRule>
        ensures { option_copied result
            ≡ find (is_rule_spelled revision form.now spelled.now) self.now.snapshot.now.rule }
    {
        let key = BySpelling {
            revision,
            form,
            spelled,
        };
        match self.rules.find(&key) {
            Some(at) => Some(at.rule),
            None => None,
        }
    }

    /// The rule for a frozen term: the one of its release's revision and form that is spelled like
    /// the term's rule.
    pub(crate) fn rule_for(&self, row: &StoredFrozen) -> Option<&'a StoredRule>
        ensures { option_copied result ≡ rule_for self.now.snapshot.now row.now }
    {
        let name = row.release.as_str();
        match self.snapshot.releases.find(&ByName { name }) {
            Some(release) => self.rule(release.revision, release.form.as_str(), row.rule.as_str()),
            None => None,
        }
    }

    /// Whether a frozen term is of a release that was frozen, and its rule exists.
    pub(crate) fn is_ruled(&self, row: &StoredFrozen) -> bool
        ensures { result ≡ is_ruled self.now.snapshot.now row.now }
    {
        was_frozen(self.snapshot, row.release.as_str()) && self.rule_for(row).is_some()
    }
}
