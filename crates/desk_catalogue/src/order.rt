//! Rules and codes in their order.

ghost use Rattle.std.specs.Prelude.{◌≡◌, not, IfOk, OnOk, Some, None, if◌then◌else◌};
ghost use Rattle.std.specs.Ordering.{nat_cmp, on, then_cmp, as_partial_cmp};
ghost use Rattle.std.specs.Cmp.{partial_order_from_own_ties};
ghost use Rattle.std.specs.Cmp.Rules.{comparing};
ghost use Rattle.std.specs.Cmp.Lexicographic.{slice_cmp};
ghost use Rattle.std.proofs.Common.{rules};
ghost use Rattle.desk_model.specs.Texts.{sorted_set};
ghost use Rattle.desk_catalogue.specs.Kept.{stand_once, put_rule, has_rule};
ghost use Rattle.desk_catalogue.specs.Shown.{rules_in};
ghost use Rattle.desk_base.specs.TextSets.{is_among};
ghost use Rattle.desk_base.specs.Borrowed.{texts_in};

use crate::ordered::OrderedRules;
use desk_base::{Items, Text};
use desk_model::Rule;
use std::alloc::{AllocError, Global};
use std::cmp::Ordering;
use std::collections::{BTreeMap, BTreeSet};

/// Whether a text is among some that are kept.
pub(crate) fn is_kept(kept: &[Text], text: &str) -> bool
    ensures { result ≡ is_among kept.now text.now }
{
    kept.iter().any(|other| other.as_str() == text)
}

/// The texts sorted by their bytes, each once. The only error is lack of memory.
pub fn sorted_set(alloc: Global, listed: Vec<&str>) -> Result<Items<Text>, AllocError>
    ensures { IfOk result (λ sorted. sorted ≡ sorted_set (texts_in listed.entry)) }
{
    let mut listed = listed;
    let mut set = BTreeSet::new(alloc);
    while let Some(last) = listed.pop() {
        set.insert(last)?;
    }
    let mut sorted = Items::new(alloc);
    for text in set {
        sorted.push(Text::of(alloc, text)?)?;
    }
    Ok(sorted)
}

/// What a rule is for.
#[derive(Drop, PartialEq, Eq)]
pub(crate) struct Subject {
    term: Text,
    form: Text,
}

impl Ord for Subject {
    ghost cmp = { then_cmp (on (λ s. s.term) (slice_cmp nat_cmp))
        (on (λ s. s.form) (slice_cmp nat_cmp)) };

    ghost total = { Prim.search (comparing, rules) };

    ghost matches_partial_cmp = { Prim.search (comparing, rules) };

    ghost matches_eq = { Prim.search (comparing, rules) };

    fn cmp(&self, other: &Subject) -> Ordering {
        self.term
            .as_str()
            .cmp(other.term.as_str())
            .then(self.form.as_str().cmp(other.form.as_str()))
    }
}

impl PartialOrd for Subject {
    ghost partial_cmp = { as_partial_cmp
        (then_cmp (on (λ s. s.term) (slice_cmp nat_cmp)) (on (λ s. s.form) (slice_cmp nat_cmp))) };

    ghost laws = { partial_order_from_own_ties (Prim.search (comparing, rules))
        (Prim.search (comparing, rules)) };

    fn partial_cmp(&self, other: &Subject) -> Option<Ordering> {
        Some(self.cmp(other))
    }
}

/// What a rule says.
#[derive(Drop)]
pub(crate) struct Said {
    spelled: Text,
    codes: Items<Text>,
}

/// Adds a rule, and returns whether there was none for its term and form.
pub(crate) fn add_rule(rules: &mut BTreeMap<Subject, Said>, rule: Rule) -> Result<bool, AllocError>
    ensures added { IfOk result (λ added. added ≡ not (has_rule (rules_in rules.old) rule)) }
    ensures rules { OnOk result (rules_in rules.new ≡ put_rule rule (rules_in rules.old)) }
{
    let Rule {
        term,
        form,
        spelled,
        codes,
    } = rule;
    let before = rules.insert(Subject { term, form }, Said { spelled, codes })?;
    Ok(before.is_none())
}

// The rules of a map, in its order.
fn rules_in_order(
    alloc: Global,
    rules: BTreeMap<Subject, Said>,
    count: usize,
) -> Result<Items<Rule>, AllocError>
    ensures { IfOk result (λ listed. listed ≡ rules_in rules) }
{
    let mut listed = Vec::with_capacity(alloc, count)?;
    for (subject, said) in rules {
        let Subject { term, form } = subject;
        let Said { spelled, codes } = said;
        listed.push(Rule {
            term,
            form,
            spelled,
            codes,
        })?;
    }
    Ok(Items::from_vec(listed))
}

/// The rules of a map, in its order.
pub(crate) fn rules_in(
    alloc: Global,
    rules: BTreeMap<Subject, Said>,
) -> Result<OrderedRules, AllocError>
    ensures { IfOk result (λ ordered. ordered ≡ rules_in rules) }
{
    let count = rules.len();
    let rules = rules_in_order(alloc, rules, count)?;
    Ok(OrderedRules::of(rules))
}

/// The codes of a rule sorted by their bytes, or none if one occurs twice.
pub(crate) fn codes_once(
    alloc: Global,
    listed: Vec<&str>,
) -> Result<Option<Items<Text>>, AllocError>
    ensures { IfOk result (λ read. read ≡
        (if stand_once (texts_in listed.entry) then Some
        (sorted_set (texts_in listed.entry)) else None)) }
{
    let number = listed.len();
    let sorted = sorted_set(alloc, listed)?;
    if sorted.as_slice().len() == number {
        Ok(Some(sorted))
    } else {
        Ok(None)
    }
}
