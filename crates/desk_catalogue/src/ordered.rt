//! Rules in their order, found by binary search.

ghost use Rattle.std.specs.Prelude.{◌≡◌, List, ℕ, ◌++◌, [], codes, if◌then◌else◌, option_map, find, IfOk, IfErr};
ghost use Rattle.std.specs.List.Sorted.{IsStrictlySortedBy};
ghost use Rattle.std.specs.Ordering.{nat_cmp};
ghost use Rattle.std.specs.Cmp.Lexicographic.{slice_cmp};
ghost use Rattle.desk_expr.specs.Printing.{printed_term, printed_exception};
ghost use Rattle.desk_model.specs.Keys.{is_rule, rule_order};
ghost use Rattle.desk_catalogue.specs.Lookup.{sought};

use desk_base::{Items, Key};
use desk_expr::Term;
use desk_model::Rule;
use std::cmp::Ordering;
use std::marker::Model;

// What follows a front with which the bytes begin; or, if they don't, how they compare with it,
// whatever follows it.
fn behind<'a>(bytes: &'a [u8], front: &[u8]) -> Result<&'a [u8], Ordering>
    ensures ok { IfOk result (λ rest. bytes.now ≡ front.now ++ rest.now) }
    ensures err { IfErr result (λ side. (more : List ℕ)
        → side ≡ slice_cmp nat_cmp bytes.now (front.now ++ more)) }
{
    match bytes.strip_prefix(front) {
        Some(rest) => Ok(rest),
        None => Err(bytes.cmp(front)),
    }
}

// How bytes compare with a printed exception.
fn side_of_exception(bytes: &[u8], exception: &Option<Key>) -> Ordering
    ensures { result ≡ slice_cmp nat_cmp bytes.now (printed_exception exception.now) }
{
    match exception {
        None => bytes.cmp(b"".as_slice()),
        Some(key) => match behind(bytes, b" WITH ") {
            Ok(rest) => rest.cmp(key.as_str().as_bytes()),
            Err(side) => side,
        },
    }
}

// How bytes compare with what is printed after the term's key.
fn side_behind_key(bytes: &[u8], term: &Term) -> Ordering
    ensures { result ≡ slice_cmp nat_cmp bytes.now
        ((if term.now.plus then codes "+" else []) ++ printed_exception term.now.exception) }
{
    if term.plus {
        match behind(bytes, b"+") {
            Ok(rest) => side_of_exception(rest, &term.exception),
            Err(side) => side,
        }
    } else {
        side_of_exception(bytes, &term.exception)
    }
}

// How a text compares with the printed term, of which no copy is made.
fn side_of_term(text: &str, term: &Term) -> Ordering
    ensures { result ≡ slice_cmp nat_cmp text.now (printed_term term.now) }
{
    match behind(text.as_bytes(), term.key.as_str().as_bytes()) {
        Ok(rest) => side_behind_key(rest, term),
        Err(side) => side,
    }
}

// On which side of a term in a form a rule is.
fn side_of(rule: &Rule, term: &Term, form: &str) -> Ordering
    ensures { result ≡ rule_order rule.now (sought (printed_term term.now) form.now) }
{
    side_of_term(rule.term.as_str(), term).then(rule.form.as_str().cmp(form))
}

/// Rules sorted by term and form, each pair once; seen as a list.
#[derive(Drop)]
pub struct OrderedRules {
    rules: Items<Rule>,
}

impl Model for OrderedRules {
    ghost use Rattle.std.specs.Prelude.{List};
    ghost use Rattle.std.specs.List.Sorted.{IsStrictlySortedBy};
    ghost use Rattle.desk_model.specs.declared.reading.Rule.{Rule};
    ghost use Rattle.desk_model.specs.Keys.{rule_order};

    ghost Value = { List Rule };

    ghost view = { λ s. s.rules };

    ghost invariant = { λ s. IsStrictlySortedBy rule_order s.rules };
}

impl OrderedRules {
    /// Rules that are in order.
    pub(crate) fn of(rules: Items<Rule>) -> OrderedRules
        requires { IsStrictlySortedBy rule_order rules }
        ensures { result ≡ rules }
    {
        OrderedRules { rules }
    }

    /// The rules themselves.
    pub fn as_slice(&self) -> &[Rule]
        ensures { result.now ≡ self.now }
    {
        self.rules.as_slice()
    }

    /// The rules as a list.
    pub fn into_items(self) -> Items<Rule>
        ensures { result ≡ self }
    {
        let OrderedRules { rules } = self;
        rules
    }

    /// The rule for a term in a form.
    pub(crate) fn find(&self, term: &Term, form: &str) -> Option<&Rule>
        ensures { option_map (λ rule. rule.now) result
            ≡ find (is_rule (printed_term term.now) form.now) self.now }
    {
        let rules = self.rules.as_slice();
        match rules.binary_search_by(|rule| side_of(rule, term, form)) {
            Ok(at) => Some(&rules[at]),
            Err(_) => None,
        }
    }
}
