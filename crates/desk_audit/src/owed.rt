//! What duties are owed for.

ghost use Rattle.std.specs.Prelude.{◌≡◌, ◌==◌, ◌<◌, ◌++◌, ℕ, List, map, filter, flat_map, length, nat_lt, IfOk, OnOk, MatchOption, IsPermutation};
ghost use Rattle.std.specs.List.{slice_split};
ghost use Rattle.std.specs.List.Sorted.{IsSorted};
ghost use Rattle.desk_snapshot.specs.Conditions.{codes_in, owed_by, owed_for, owed_of};
ghost use Rattle.desk_audit.specs.Owing.{are_alike, owed_in, owed_order, reason_in};
ghost use Rattle.desk_base.specs.Borrowed.{texts};

use crate::rules::Ruling;
use desk_snapshot::{StoredDuty, StoredFrozen};
use std::alloc::{AllocError, Global};
use std::cmp::Ordering;

/// What a duty is owed for, by the row that says so: one of the codes of a frozen term, or the duty
/// itself.
#[derive(Clone, Copy)]
pub(crate) enum OwedFor<'a> {
    Code(&'a StoredFrozen, &'a str),
    Duty(&'a StoredDuty),
}

/// The same, spelled out.
#[derive(Clone, Copy)]
struct Reason<'a> {
    release: &'a str,
    document: i64,
    package_id: &'a str,
    term: &'a str,
    code: &'a str,
    rule: &'a str,
}

impl<'a> Reason<'a> {
    fn by_code(row: &'a StoredFrozen, code: &'a str) -> Reason<'a>
        ensures { reason_in result ≡ owed_for row.now code.now }
    {
        Reason {
            release: row.release.as_str(),
            document: row.document,
            package_id: row.package_id.as_str(),
            term: row.term.as_str(),
            code,
            rule: row.rule.as_str(),
        }
    }

    fn of_duty(row: &'a StoredDuty) -> Reason<'a>
        ensures { reason_in result ≡ owed_of row.now }
    {
        Reason {
            release: row.release.as_str(),
            document: row.document,
            package_id: row.package_id.as_str(),
            term: row.term.as_str(),
            code: row.code.as_str(),
            rule: row.rule.as_str(),
        }
    }

    fn compare(&self, other: &Reason<'_>) -> Ordering
        ensures { result ≡ owed_order (reason_in self.now) (reason_in other.now) }
    {
        let reason = self
            .term
            .cmp(other.term)
            .then(self.code.cmp(other.code).then(self.rule.cmp(other.rule)));
        let package = self
            .document
            .cmp(&other.document)
            .then(self.package_id.cmp(other.package_id).then(reason));
        self.release.cmp(other.release).then(package)
    }
}

impl<'a> OwedFor<'a> {
    fn reason(&self) -> Reason<'a>
        ensures { reason_in result ≡ owed_in self.now }
    {
        match self {
            OwedFor::Code(row, code) => Reason::by_code(row, code),
            OwedFor::Duty(row) => Reason::of_duty(row),
        }
    }

    fn compare(&self, other: &OwedFor<'_>) -> Ordering
        ensures { result ≡ owed_order (owed_in self.now) (owed_in other.now) }
    {
        self.reason().compare(&other.reason())
    }
}

/// The parts of a text between blanks.
fn parts_of(alloc: Global, text: &str) -> Result<Vec<&str>, AllocError>
    ensures { IfOk result (λ parts. texts parts.items ≡ slice_split (λ b. b == 32) text.now) }
{
    text.split(' ').collect(alloc)
}

/// Appends what a frozen term owes by some codes, leaving out empty ones.
fn push_codes<'a>(
    owed: &mut Vec<OwedFor<'a>>,
    row: &'a StoredFrozen,
    codes: &[&'a str],
) -> Result<(), AllocError>
    ensures { OnOk result (map owed_in owed.new.items ≡ map owed_in owed.old.items
        ++ map (owed_for row.now) (filter (λ code. nat_lt 0 (length code)) (texts codes.now))) }
{
    for code in codes {
        if !code.is_empty() {
            owed.push(OwedFor::Code(row, code))?;
        }
    }
    Ok(())
}

/// Appends what a frozen term owes.
fn push_owed<'a>(
    alloc: Global,
    owed: &mut Vec<OwedFor<'a>>,
    ruling: &Ruling<'a>,
    row: &'a StoredFrozen,
) -> Result<(), AllocError>
    ensures { OnOk result (map owed_in owed.new.items
        ≡ map owed_in owed.old.items ++ owed_by ruling.now.snapshot.now row.now) }
{
    let Some(rule) = ruling.rule_for(row) else {
        return Ok(());
    };
    let codes = parts_of(alloc, rule.codes.as_str())?;
    push_codes(owed, row, &codes)
}

/// What the frozen terms owe, or `None` if that is more than `most`.
pub(crate) fn owed_by_all<'a>(
    alloc: Global,
    ruling: &Ruling<'a>,
    rows: &'a [StoredFrozen],
    most: usize,
) -> Result<Option<Vec<OwedFor<'a>>>, AllocError>
    ensures { IfOk result (λ told. MatchOption told
        (most < length (flat_map (owed_by ruling.now.snapshot.now) rows.now))
        (λ owed. map owed_in owed.items ≡ flat_map (owed_by ruling.now.snapshot.now) rows.now)) }
{
    let mut owed = Vec::new(alloc);
    for row in rows {
        push_owed(alloc, &mut owed, ruling, row)?;
        if owed.len() > most {
            return Ok(None);
        }
    }
    Ok(Some(owed))
}

/// What the duties are owed for.
pub(crate) fn owed_of_all(
    alloc: Global,
    duties: &[StoredDuty],
) -> Result<Vec<OwedFor<'_>>, AllocError>
    ensures { IfOk result (λ owed. map owed_in owed.items ≡ map owed_of duties.now) }
{
    let mut owed = Vec::new(alloc);
    for duty in duties {
        owed.push(OwedFor::Duty(duty))?;
    }
    Ok(owed)
}

/// The same in the order of what is owed.
pub(crate) fn sort_owed(mut owed: Vec<OwedFor<'_>>) -> Vec<OwedFor<'_>>
    ensures permutation { IsPermutation owed.entry.items result.items }
    ensures sorted { IsSorted (λ x y. owed_order (owed_in x) (owed_in y)) result.items }
{
    owed.sort_unstable_by(|one, other| one.compare(other));
    owed
}

/// Whether two lists have equal items at each place.
pub(crate) fn are_alike(owed: &[OwedFor<'_>], duties: &[OwedFor<'_>]) -> bool
    ensures { result ≡ are_alike owed.now duties.now }
{
    if owed.len() != duties.len() {
        return false;
    }
    for (place, one) in owed.iter().enumerate() {
        if one.compare(&duties[place]).is_ne() {
            return false;
        }
    }
    true
}
