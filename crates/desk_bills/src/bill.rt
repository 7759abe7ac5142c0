//! The bill of a frozen release: its packages with the rules that they were frozen with.

ghost use Rattle.std.specs.Prelude.{◌≡◌, IfOk, IfErr, filter, map};
ghost use Rattle.std.specs.List.{flat_map};
ghost use Rattle.desk_model.specs.Readings.{Readings};
ghost use Rattle.desk_model.specs.Bills.{bill_line, bill_of, first_uses, package_texts};
ghost use Rattle.desk_model.specs.Faults.{MayFail};
ghost use Rattle.desk_access.specs.Seen.{Looked, OfRows};
ghost use Rattle.desk_history.specs.FromTables.{queried_from, shipped_found};
ghost use Rattle.desk_bills.specs.Billing.{is_of, line_with};

use crate::frozen::{ByPackage, frozen_rows, terms_near};
use crate::texts::{Named, add_terms, bill_texts_of, first_uses};
use desk_access::store::Store;
use desk_access::texts::Texts;
use desk_base::{Items, Text};
use desk_model::{
    Answer, Bill, BillLine, Fault, FrozenRow, PackageRow, Query, Refusal, ReleaseRow, ReleaseState,
    TextOf,
};
use desk_packages::shipped_packages;
use desk_sorted::Appended;
use std::alloc::{AllocError, Global};

/// The packages that a release ships, by document and id.
fn packages_of<S: Store>(
    alloc: Global,
    store: &mut S,
    release: &Text,
) -> Result<Vec<PackageRow>, Fault>
    ensures found { IfOk result (λ packages.
        OfRows (λ t. packages.items ≡ shipped_found t release.now) (S.seen store.old)
        (S.seen store.new)) }
    ensures kept { Looked (S.seen store.old) (S.seen store.new) result }
    ensures fault { IfErr result (MayFail S.tells) }
{
    let attached = store.attached(release.as_str())?;
    shipped_packages(alloc, store, attached.as_slice())
}

/// The rules of the rows that are terms of a package.
fn rules_of(
    alloc: Global,
    rows: &[FrozenRow],
    key: &ByPackage<'_>,
) -> Result<Items<Text>, AllocError>
    ensures { IfOk result (λ rules.
        rules ≡ map (λ row. row.rule) (filter (is_of key.now) rows.now)) }
{
    let mut rules = Items::new(alloc);
    for row in rows {
        if key.has(row) {
            rules.push(row.rule.clone()?)?;
        }
    }
    Ok(rules)
}

/// The line of a package with the rules for its terms.
fn line_with(row: PackageRow, rules: Items<Text>) -> BillLine
    ensures { result ≡ line_with rules row }
{
    BillLine {
        name: row.name,
        version: row.version,
        rules,
        copyright: row.copyright,
    }
}

/// What a bill says about packages.
#[derive(Drop)]
struct Parts {
    /// The line of each.
    lines: Items<BillLine>,
    /// Texts that their terms name: the first uses in this list are those in the full one.
    named: Vec<TextOf>,
}

/// The parts of packages that were frozen with these terms.
fn parts_of<T: Texts>(
    alloc: Global,
    texts: &T,
    frozen: &Appended<FrozenRow>,
    release: &Text,
    packages: Vec<PackageRow>,
) -> Result<Parts, AllocError>
    ensures lines { IfOk result (λ parts.
        parts.lines ≡ map (bill_line frozen.now.rows.items release.now) packages.items) }
    ensures named { (w : Readings) → T.are_right w → IfOk result (λ parts.
        first_uses parts.named.items ≡ first_uses
        (flat_map (package_texts w frozen.now.rows.items release.now) packages.items)) }
{
    let mut lines = Items::new(alloc);
    let mut named = Named::new(alloc);
    let mut place = 0;
    for row in packages {
        let key = ByPackage::of(release, &row);
        let terms = terms_near(frozen, &mut place, &key);
        add_terms(alloc, texts, terms, &key, &mut named)?;
        let rules = rules_of(alloc, terms, &key)?;
        lines.push(line_with(row, rules))?;
    }
    Ok(Parts {
        lines,
        named: named.texts,
    })
}

/// The bill of a release, by the catalogue of its freeze.
fn bill_of<T: Texts, S: Store>(
    alloc: Global,
    texts: &T,
    store: &mut S,
    row: ReleaseRow,
) -> Result<Bill, Fault>
    ensures found { (w : Readings) → T.are_right w → IfOk result (λ bill.
        OfRows (λ t. bill ≡ bill_of w t.catalogue t.extracted t.frozen (shipped_found t row.name)
        row)
        (S.seen store.old) (S.seen store.new)) }
    ensures kept { Looked (S.seen store.old) (S.seen store.new) result }
    ensures fault { IfErr result (MayFail S.tells) }
{
    let packages = packages_of(alloc, store, &row.name)?;
    let frozen = frozen_rows(alloc, store, &row.name)?;
    let parts = parts_of(alloc, texts, &frozen, &row.name, packages)?;
    let uses = first_uses(alloc, parts.named)?;
    let bodies = bill_texts_of(alloc, texts, store, row.revision, uses)?;
    Ok(Bill {
        release: row.name,
        form: row.form,
        lines: parts.lines,
        texts: bodies,
    })
}

/// What the notices of a frozen release are written from.
pub fn bill<T: Texts, S: Store>(
    alloc: Global,
    texts: &T,
    store: &mut S,
    name: &Text,
) -> Result<Answer, Fault>
    ensures answer { (w : Readings) → T.are_right w → IfOk result (λ answer.
        OfRows (λ t. answer ≡ queried_from w t (Query.Bill name.now))
        (S.seen store.old) (S.seen store.new)) }
    ensures kept { Looked (S.seen store.old) (S.seen store.new) result }
    ensures fault { IfErr result (MayFail S.tells) }
{
    let Some(row) = store.release(name.as_str())? else {
        return Ok(Answer::Refused(Refusal::UnknownRelease));
    };
    match row.state {
        ReleaseState::Frozen => Ok(Answer::Bill(bill_of(alloc, texts, store, row)?)),
        state => Ok(Answer::Refused(Refusal::ReleaseState(state))),
    }
}
