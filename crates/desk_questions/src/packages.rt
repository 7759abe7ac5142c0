//! A release with the packages that it ships.

ghost use Rattle.std.specs.Prelude.{◌≡◌, IfOk, IfErr, map};
ghost use Rattle.std.specs.Option.{option_map};
ghost use Rattle.desk_model.specs.Readings.{Readings};
ghost use Rattle.desk_model.specs.Faults.{MayFail};
ghost use Rattle.desk_model.specs.Queries.{package_line};
ghost use Rattle.desk_access.specs.Seen.{Looked, OfRows};
ghost use Rattle.desk_history.specs.FromTables.{choice_found, conclusion_found, queried_from};

use desk_access::store::Store;
use desk_access::texts::Texts;
use desk_base::{Items, Text};
use desk_model::{Answer, Conclusion, Fault, PackageLine, PackageRow, Query, Refusal};
use desk_packages::{conclusion_of, shipped_packages};
use std::alloc::Global;

fn text_of(conclusion: Option<Conclusion>) -> Option<Text>
    ensures { result ≡ option_map (λ c. c.text) conclusion }
{
    match conclusion {
        Some(conclusion) => Some(conclusion.text),
        None => None,
    }
}

/// The line of a package, with its conclusion in force and what is chosen for it in a release.
fn package_line<T: Texts, S: Store>(
    alloc: Global,
    texts: &T,
    store: &mut S,
    release: &Text,
    row: PackageRow,
) -> Result<PackageLine, Fault>
    ensures line { (w : Readings) → T.are_right w → IfOk result (λ line.
        OfRows (λ t. line ≡ package_line (conclusion_found w t) (choice_found t release.now) row)
        (S.seen store.old) (S.seen store.new)) }
    ensures kept { Looked (S.seen store.old) (S.seen store.new) result }
    ensures fault { IfErr result (MayFail S.tells) }
{
    let conclusion = conclusion_of(alloc, texts, store, &row)?;
    let terms = store.chosen(release.as_str(), row.document, row.id.as_str())?;
    Ok(PackageLine {
        document: row.document,
        package_id: row.id,
        name: row.name,
        conclusion: text_of(conclusion),
        terms: Items::from_vec(terms),
    })
}

#[tactic(auto, using(desk_access::proofs::Chains::same_then_kept, desk_access::proofs::Chains::same_then_same))]
/// The lines of packages that a release ships.
fn package_lines<T: Texts, S: Store>(
    alloc: Global,
    texts: &T,
    store: &mut S,
    release: &Text,
    rows: Vec<PackageRow>,
) -> Result<Items<PackageLine>, Fault>
    ensures lines { (w : Readings) → T.are_right w → IfOk result (λ lines.
        OfRows (λ t.
        lines ≡ map (package_line (conclusion_found w t) (choice_found t release.now)) rows.items)
        (S.seen store.old) (S.seen store.new)) }
    ensures kept { Looked (S.seen store.old) (S.seen store.new) result }
    ensures fault { IfErr result (MayFail S.tells) }
{
    let mut lines = Items::new(alloc);
    for row in rows {
        let line = package_line(alloc, texts, store, release, row)?;
        lines.push(line)?;
    }
    Ok(lines)
}

/// A release, and its packages by document and id, each with its conclusion in force and what is
/// chosen for it.
pub fn release<T: Texts, S: Store>(
    alloc: Global,
    texts: &T,
    store: &mut S,
    name: &Text,
) -> Result<Answer, Fault>
    ensures answer { (w : Readings) → T.are_right w → IfOk result (λ answer.
        OfRows (λ t. answer ≡ queried_from w t (Query.Release name.now))
        (S.seen store.old) (S.seen store.new)) }
    ensures kept { Looked (S.seen store.old) (S.seen store.new) result }
    ensures fault { IfErr result (MayFail S.tells) }
{
    let Some(row) = store.release(name.as_str())? else {
        return Ok(Answer::Refused(Refusal::UnknownRelease));
    };
    let attached = store.attached(name.as_str())?;
    let rows = shipped_packages(alloc, store, attached.as_slice())?;
    let packages = package_lines(alloc, texts, store, name, rows)?;
    Ok(Answer::Release {
        release: row,
        packages,
    })
}
