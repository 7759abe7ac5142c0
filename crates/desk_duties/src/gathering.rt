//! Gathers what the packages of a release owe, for its freeze.

ghost use Rattle.std.specs.Prelude.{◌≡◌, ◌++◌, ◌∷◌, [], IfOk, IfErr, OnOk, Option, is_some, map};
ghost use Rattle.desk_model.specs.Readings.{Readings};
ghost use Rattle.desk_model.specs.Faults.{MayFail};
ghost use Rattle.desk_model.specs.Raised.{owed_code, frozen_term};
ghost use Rattle.desk_model.specs.declared.reading.Conclusion.{Conclusion};
ghost use Rattle.desk_model.specs.Answers.{first_unadopted};
ghost use Rattle.desk_history.specs.FromTables.{conclusion_found, rules_found};
ghost use Rattle.desk_access.specs.Seen.{Looked, OfRows};
ghost use Rattle.desk_duties.specs.Freezing.{GathersTerm, GathersTerms, GathersPackage, GathersAll, unready_package};

use desk_access::store::Store;
use desk_access::texts::Texts;
use desk_base::Text;
use desk_model::{Fault, FrozenRow, Owed, PackageRow, Refusal, Rule};
use desk_packages::{conclusion_of, no_rule, not_adopted, rule_adopted};
use std::alloc::{AllocError, Global};

/// What a freeze has gathered: the frozen terms, and the duties that they owe.
#[derive(Drop)]
pub(crate) struct Gathered {
    pub frozen: Vec<FrozenRow>,
    pub owed: Vec<Owed>,
}

/// Which release is frozen, and the form in which it ships.
#[derive(Drop)]
pub(crate) struct Freezing<'a> {
    pub release: &'a Text,
    pub form: &'a Text,
}

fn owed_row(
    release: &Text,
    row: &PackageRow,
    term: &Text,
    rule: &Rule,
    code: &Text,
) -> Result<Owed, AllocError>
    ensures { IfOk result (λ owed. owed
        ≡ owed_code release.now row.now term.now rule.now code.now) }
{
    Ok(Owed {
        release: release.clone()?,
        document: row.document,
        package_id: row.id.clone()?,
        term: term.clone()?,
        code: code.clone()?,
        rule: rule.spelled.clone()?,
    })
}

fn add_codes(
    owed: &mut Vec<Owed>,
    release: &Text,
    row: &PackageRow,
    term: &Text,
    rule: &Rule,
) -> Result<(), AllocError>
    ensures { OnOk result (owed.new.items
        ≡ owed.old.items ++ map (owed_code release.now row.now term.now rule.now) rule.now.codes) }
{
    let codes = rule.codes.as_slice();
    for code in codes {
        owed.push(owed_row(release, row, term, rule, code)?)?;
    }
    Ok(())
}

fn frozen_row(
    release: &Text,
    row: &PackageRow,
    term: &Text,
    rule: &Rule,
) -> Result<FrozenRow, AllocError>
    ensures { IfOk result (λ frozen. frozen ≡ frozen_term release.now row.now term.now rule.now) }
{
    Ok(FrozenRow {
        release: release.clone()?,
        document: row.document,
        package_id: row.id.clone()?,
        term: term.clone()?,
        rule: rule.spelled.clone()?,
    })
}

/// Adds a frozen term and what it owes.
fn add_term(
    gathered: &mut Gathered,
    release: &Text,
    row: &PackageRow,
    term: &Text,
    rule: &Rule,
) -> Result<(), AllocError>
    ensures frozen { OnOk result (gathered.new.frozen.items
        ≡ gathered.old.frozen.items ++ frozen_term release.now row.now term.now rule.now ∷ []) }
    ensures owed { OnOk result (gathered.new.owed.items ≡ gathered.old.owed.items
        ++ map (owed_code release.now row.now term.now rule.now) rule.now.codes) }
{
    gathered.frozen.push(frozen_row(release, row, term, rule)?)?;
    add_codes(&mut gathered.owed, release, row, term, rule)?;
    Ok(())
}

/// The refusal for the first term of a package that isn't adopted, if there is one.
fn first_unadopted<T: Texts, S: Store>(
    alloc: Global,
    texts: &T,
    store: &mut S,
    document: u32,
    terms: &[Text],
) -> Result<Option<Refusal>, Fault>
    ensures found { (w : Readings) → T.are_right w → IfOk result (λ refusal.
        OfRows (λ t. refusal ≡ first_unadopted w t.adoption document terms.now)
        (S.seen store.old) (S.seen store.new)) }
    ensures kept { Looked (S.seen store.old) (S.seen store.new) result }
    ensures fault { IfErr result (MayFail S.tells) }
{
    for term in terms {
        if let Some(refusal) = not_adopted(alloc, texts, store, document, term)? {
            return Ok(Some(refusal));
        }
    }
    Ok(None)
}

/// Gathers what a term of a package owes, or returns that it has no rule.
fn freeze_term<T: Texts, S: Store>(
    alloc: Global,
    texts: &T,
    store: &mut S,
    freezing: &Freezing<'_>,
    row: &PackageRow,
    term: &Text,
    gathered: &mut Gathered,
) -> Result<Option<Refusal>, Fault>
    ensures gathered { (w : Readings) → T.are_right w → IfOk result (λ fault.
        OfRows (λ t. GathersTerm w t.adoption (rules_found t) freezing.now.form.now
        freezing.now.release.now row.now term.now gathered.old gathered.new fault)
        (S.seen store.old) (S.seen store.new)) }
    ensures kept { Looked (S.seen store.old) (S.seen store.new) result }
    ensures fault { IfErr result (MayFail S.tells) }
{
    let Some(rule) = rule_adopted(alloc, texts, store, freezing.form, row.document, term)? else {
        return Ok(Some(no_rule(row, term)?));
    };
    add_term(gathered, freezing.release, row, term, &rule)?;
    Ok(None)
}

/// Gathers what the terms of a package owe, or returns which is the first without a rule.
fn freeze_terms<T: Texts, S: Store>(
    alloc: Global,
    texts: &T,
    store: &mut S,
    freezing: &Freezing<'_>,
    row: &PackageRow,
    terms: &[Text],
    gathered: &mut Gathered,
) -> Result<Option<Refusal>, Fault>
    ensures gathered { (w : Readings) → T.are_right w → IfOk result (λ fault.
        OfRows (λ t. GathersTerms w t.adoption (rules_found t) freezing.now.form.now
        freezing.now.release.now
        row.now terms.now gathered.old gathered.new fault)
        (S.seen store.old) (S.seen store.new)) }
    ensures kept { Looked (S.seen store.old) (S.seen store.new) result }
    ensures fault { IfErr result (MayFail S.tells) }
{
    for term in terms {
        if let Some(refusal) = freeze_term(alloc, texts, store, freezing, row, term, gathered)? {
            return Ok(Some(refusal));
        }
    }
    Ok(None)
}

fn no_conclusion(row: &PackageRow) -> Result<Refusal, AllocError>
    ensures { IfOk result (λ refusal. refusal ≡ Refusal.NoConclusion row.now.document row.now.id) }
{
    Ok(Refusal::NoConclusion {
        document: row.document,
        package_id: row.id.clone()?,
    })
}

fn no_choice(row: &PackageRow) -> Result<Refusal, AllocError>
    ensures { IfOk result (λ refusal. refusal ≡ Refusal.NoChoice row.now.document row.now.id) }
{
    Ok(Refusal::NoChoice {
        document: row.document,
        package_id: row.id.clone()?,
    })
}

/// Whether a conclusion is in force for a package.
fn is_concluded<T: Texts, S: Store>(
    alloc: Global,
    texts: &T,
    store: &mut S,
    row: &PackageRow,
) -> Result<bool, Fault>
    ensures found { (w : Readings) → T.are_right w → IfOk result (λ is.
        OfRows (λ t. is ≡ is_some (conclusion_found w t row.now)) (S.seen store.old)
        (S.seen store.new)) }
    ensures kept { Looked (S.seen store.old) (S.seen store.new) result }
    ensures fault { IfErr result (MayFail S.tells) }
{
    let conclusion = conclusion_of(alloc, texts, store, row)?;
    Ok(conclusion.is_some())
}

/// Why a package with this conclusion, or none, and these terms can't be frozen, apart from rules.
fn unready_package<T: Texts, S: Store>(
    alloc: Global,
    texts: &T,
    store: &mut S,
    is_concluded: bool,
    row: &PackageRow,
    terms: &[Text],
) -> Result<Option<Refusal>, Fault>
    ensures found { (w : Readings) → T.are_right w → IfOk result (λ refusal.
        OfRows (λ t. (conclusion : Option Conclusion) → is_concluded ≡ is_some conclusion
        → refusal ≡ unready_package w t.adoption conclusion terms.now row.now)
        (S.seen store.old) (S.seen store.new)) }
    ensures kept { Looked (S.seen store.old) (S.seen store.new) result }
    ensures fault { IfErr result (MayFail S.tells) }
{
    if !is_concluded {
        return Ok(Some(no_conclusion(row)?));
    }
    if terms.is_empty() {
        return Ok(Some(no_choice(row)?));
    }
    first_unadopted(alloc, texts, store, row.document, terms)
}

/// Gathers what a package owes, or returns why it can't be frozen.
fn freeze_package<T: Texts, S: Store>(
    alloc: Global,
    texts: &T,
    store: &mut S,
    freezing: &Freezing<'_>,
    row: &PackageRow,
    gathered: &mut Gathered,
) -> Result<Option<Refusal>, Fault>
    ensures gathered { (w : Readings) → T.are_right w → IfOk result (λ fault.
        OfRows (λ t. GathersPackage w t freezing.now.form.now freezing.now.release.now row.now
        gathered.old gathered.new fault)
        (S.seen store.old) (S.seen store.new)) }
    ensures kept { Looked (S.seen store.old) (S.seen store.new) result }
    ensures fault { IfErr result (MayFail S.tells) }
{
    let is_concluded = is_concluded(alloc, texts, store, row)?;
    let terms = store.chosen(freezing.release.as_str(), row.document, row.id.as_str())?;
    if let Some(refusal) = unready_package(
        alloc,
        texts,
        store,
        is_concluded,
        row,
        terms.as_slice(),
    )? {
        return Ok(Some(refusal));
    }
    freeze_terms(
        alloc,
        texts,
        store,
        freezing,
        row,
        terms.as_slice(),
        gathered,
    )
}

/// Gathers what packages owe, or returns the refusal for the first that can't be frozen.
pub(crate) fn freeze_packages<T: Texts, S: Store>(
    alloc: Global,
    texts: &T,
    store: &mut S,
    freezing: &Freezing<'_>,
    packages: &[PackageRow],
    gathered: &mut Gathered,
) -> Result<Option<Refusal>, Fault>
    ensures gathered { (w : Readings) → T.are_right w → IfOk result (λ fault.
        OfRows (λ t. GathersAll w t freezing.now.form.now freezing.now.release.now packages.now
        gathered.old gathered.new fault)
        (S.seen store.old) (S.seen store.new)) }
    ensures kept { Looked (S.seen store.old) (S.seen store.new) result }
    ensures fault { IfErr result (MayFail S.tells) }
{
    for row in packages {
        if let Some(refusal) = freeze_package(alloc, texts, store, freezing, row, gathered)? {
            return Ok(Some(refusal));
        }
    }
    Ok(None)
}
