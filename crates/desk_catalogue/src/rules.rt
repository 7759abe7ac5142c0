//! The rules of a catalogue.

ghost use Rattle.std.specs.Prelude.{◌≡◌, ℕ, List, [], Option, IfOk, codes};
ghost use Rattle.std.specs.List.{list_all};
ghost use Rattle.toml.specs.Data.{as_str, get_member};
ghost use Rattle.toml.specs.View.{view, table_view, items_view};
ghost use Rattle.desk_catalogue.specs.Terms.{ReadsTerms, licence_of};
ghost use Rattle.desk_base.specs.TextSets.{is_among};
ghost use Rattle.desk_catalogue.specs.Values.{texts_of};
ghost use Rattle.desk_catalogue.specs.Reading.{each, rule_texts, rule_written, rule_of, rule_at, with_rule, rules_of};
ghost use Rattle.desk_catalogue.specs.Shown.{Gives, rule_texts_in, codes_in, rules_in};
ghost use Rattle.desk_base.specs.Borrowed.{texts};

use crate::entries::tables_of;
use crate::order::{Said, Subject, add_rule, codes_once, is_kept};
use crate::values::{begins_like_reference, member, texts_of};
use desk_base::{Items, Text};
use desk_expr::{ParseFault, parse_term, print_term};
use desk_model::{CatalogueFault, CataloguePart, Rule};
use std::alloc::{AllocError, Global};
use std::collections::{BTreeMap, BTreeSet};
use toml::{Table, Value};

/// The texts of a rule.
#[derive(Drop)]
pub(crate) struct Written<'a> {
    pub(crate) term: &'a str,
    pub(crate) form: &'a str,
    pub(crate) duties: Vec<&'a str>,
}

/// What rules may name: the forms, and the codes of duties.
#[derive(Drop)]
pub(crate) struct Known<'a> {
    pub(crate) forms: Items<Text>,
    pub(crate) duties: BTreeSet<&'a str>,
}

impl<'a> Known<'a> {
    /// The forms, which borrow nothing from the table.
    pub(crate) fn into_forms(self) -> Items<Text>
        ensures { result ≡ self.entry.forms }
    {
        let Known { forms, duties: _ } = self;
        forms
    }
}

// The texts of a rule, if each of its keys has a value of its kind.
fn rule_written(
    alloc: Global,
    value: &Value,
    index: usize,
) -> Result<Result<Written<'_>, CatalogueFault>, AllocError>
    ensures { IfOk result (Gives (rule_written index (view value.now)) rule_texts_in) }
{
    let Some(table) = value.as_table() else {
        return Ok(Err(CatalogueFault::BadKind(CataloguePart::Rule, index)));
    };
    let Some(term) = member(table, "term") else {
        return Ok(Err(CatalogueFault::Missing(CataloguePart::Rule, index)));
    };
    let Some(form) = member(table, "form") else {
        return Ok(Err(CatalogueFault::Missing(CataloguePart::Rule, index)));
    };
    let Some(duties) = member(table, "duties") else {
        return Ok(Err(CatalogueFault::Missing(CataloguePart::Rule, index)));
    };
    rule_texts(alloc, term, form, duties, index)
}

// The texts of a rule's keys.
fn rule_texts<'a>(
    alloc: Global,
    term: &'a Value,
    form: &'a Value,
    duties: &'a Value,
    index: usize,
) -> Result<Result<Written<'a>, CatalogueFault>, AllocError>
    ensures { IfOk result (Gives (rule_texts index (as_str (view term.now)) (as_str (view form.now))
        (texts_of (view duties.now))) rule_texts_in) }
{
    let Some(term) = term.as_str() else {
        return Ok(Err(CatalogueFault::BadKind(CataloguePart::Rule, index)));
    };
    let Some(form) = form.as_str() else {
        return Ok(Err(CatalogueFault::BadKind(CataloguePart::Rule, index)));
    };
    match texts_of(alloc, duties)? {
        Some(duties) => Ok(Ok(Written { term, form, duties })),
        None => Ok(Err(CatalogueFault::BadKind(CataloguePart::Rule, index))),
    }
}

// The printed term of a text that spells one, if it isn't a reference.
fn licence_of(alloc: Global, text: &str) -> Result<Option<Text>, AllocError>
    ensures { (terms : List ℕ → Option (List ℕ)) → ReadsTerms terms
        → IfOk result (λ term. term ≡ licence_of terms text.now) }
{
    match parse_term(alloc, text) {
        Ok(term) => {
            let printed = print_term(alloc, &term)?;
            if begins_like_reference(printed.as_str()) {
                return Ok(None);
            }
            let printed = Text::of(alloc, printed.as_str())?;
            Ok(Some(printed))
        }
        Err(fault) => match fault {
            ParseFault::Memory(error) => Err(error),
            _ => Ok(None),
        },
    }
}

// Whether each code is one of a duty.
fn are_duties(listed: &[&str], duties: &BTreeSet<&str>) -> bool
    ensures { result ≡ list_all (is_among (codes_in duties.now)) (texts listed.now) }
{
    for code in listed {
        if !duties.contains(*code) {
            return false;
        }
    }
    true
}

// The rule for a term, if its form and its codes are known.
fn rule_of(
    alloc: Global,
    known: &Known<'_>,
    index: usize,
    written: Written<'_>,
    term: Text,
) -> Result<Result<Rule, CatalogueFault>, AllocError>
    ensures { IfOk result (λ rule. rule ≡ rule_of known.now.forms (codes_in known.now.duties) index
        (rule_texts_in written.entry) term) }
{
    if !is_kept(known.forms.as_slice(), written.form) {
        return Ok(Err(CatalogueFault::UnknownForm(CataloguePart::Rule, index)));
    }
    if !are_duties(written.duties.as_slice(), &known.duties) {
        return Ok(Err(CatalogueFault::UnknownDuty(CataloguePart::Rule, index)));
    }
    let form = Text::of(alloc, written.form)?;
    let spelled = Text::of(alloc, written.term)?;
    let Some(codes) = codes_once(alloc, written.duties)? else {
        return Ok(Err(CatalogueFault::Twice(CataloguePart::Rule, index)));
    };
    Ok(Ok(Rule {
        term,
        form,
        spelled,
        codes,
    }))
}

// The rule of a table.
fn rule_at(
    alloc: Global,
    known: &Known<'_>,
    index: usize,
    value: &Value,
) -> Result<Result<Rule, CatalogueFault>, AllocError>
    ensures { (terms : List ℕ → Option (List ℕ)) → ReadsTerms terms
        → IfOk result (λ rule. rule
        ≡ rule_at terms known.now.forms (codes_in known.now.duties) index
        (view value.now)) }
{
    let written = match rule_written(alloc, value, index)? {
        Ok(written) => written,
        Err(fault) => return Ok(Err(fault)),
    };
    match licence_of(alloc, written.term)? {
        Some(term) => rule_of(alloc, known, index, written, term),
        None => Ok(Err(CatalogueFault::BadTerm(CataloguePart::Rule, index))),
    }
}

// The rules of a list, if no term and form occur twice.
fn each_rule(
    alloc: Global,
    known: &Known<'_>,
    values: &[Value],
) -> Result<Result<BTreeMap<Subject, Said>, CatalogueFault>, AllocError>
    ensures { (terms : List ℕ → Option (List ℕ)) → ReadsTerms terms
        → IfOk result (Gives (each (with_rule terms known.now.forms (codes_in known.now.duties)) []
        0
        (items_view values.now)) rules_in) }
{
    let mut rules = BTreeMap::new(alloc);
    for (i, value) in values.iter().enumerate() {
        match rule_at(alloc, known, i, value)? {
            Ok(rule) => {
                if !add_rule(&mut rules, rule)? {
                    return Ok(Err(CatalogueFault::Twice(CataloguePart::Rule, i)));
                }
            }
            Err(fault) => return Ok(Err(fault)),
        }
    }
    Ok(Ok(rules))
}

/// The rules.
pub(crate) fn rules_of(
    alloc: Global,
    known: &Known<'_>,
    table: &Table,
) -> Result<Result<BTreeMap<Subject, Said>, CatalogueFault>, AllocError>
    ensures { (terms : List ℕ → Option (List ℕ)) → ReadsTerms terms
        → IfOk result (Gives (rules_of terms known.now.forms (codes_in known.now.duties)
        (get_member (codes "rule") (table_view table.now))) rules_in) }
{
    match tables_of(table, "rule", CataloguePart::Rule) {
        Ok(values) => each_rule(alloc, known, values),
        Err(fault) => Ok(Err(fault)),
    }
}
