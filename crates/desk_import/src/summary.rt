//! The standings of a document's packages, and its findings.

ghost use Rattle.std.specs.Prelude.{◌≡◌, ℕ, [], List, IfOk, Option, count_by, map};
ghost use Rattle.std.specs.String.{string_bytes};
ghost use Rattle.desk_expr.specs.Tree.{Tree};
ghost use Rattle.desk_findings.specs.Fields.{IsReading};
ghost use Rattle.desk_tagvalue.specs.Documents.{document_text};
ghost use Rattle.desk_tagvalue.specs.Views.{package_text};
ghost use Rattle.desk_import.specs.Summaries.{IsSummary, kind_count, same_standing, standing_count, standing_of, standings_of};

use crate::elsewhere::elsewhere_count;
use crate::licences::{is_declared, is_licence};
use desk_base::Profile;
use desk_bom::{first_mark, ships};
use desk_findings::{Finding, FindingKind, MissingField, findings_in};
use desk_tagvalue::{Document, Package};
use std::alloc::{AllocError, Global};
use std::fmt;

/// The standing of a package of a document.
#[derive(Clone, Copy)]
pub enum Standing {
    /// It doesn't ship.
    Aside,
    /// It ships, and the document concludes its licence.
    Concluded,
    /// It ships, and the document has only a declared licence for it.
    Declared,
    /// It ships, and the document has neither for it.
    Neither,
}

/// What a desk finds in a document: the standing of each of its packages, what ships with them from
/// other documents, and what in it isn't as the standard has it.
#[derive(Drop)]
pub struct Summary {
    /// The standing of each package, in the order of the document.
    pub standings: Vec<Standing>,
    /// How many elements of other documents ship with the packages that ship.
    pub elsewhere: usize,
    /// What isn't as the standard has it, by line.
    pub findings: Vec<Finding>,
    /// Lines with the first findings and their places in the document in JSON that this one was
    /// converted from, each behind a line end; empty if it wasn't converted.
    pub listed: String,
}

/// The kinds of findings. All missing fields are of one kind.
const KINDS: [FindingKind; 11] = [
    FindingKind::UnknownTag,
    FindingKind::Misplaced,
    FindingKind::BadExpression,
    FindingKind::BadDigest,
    FindingKind::BadCode,
    FindingKind::CodeDiffers,
    FindingKind::CodeUnwanted,
    FindingKind::Dangling,
    FindingKind::MissingField(MissingField::DataLicense),
    FindingKind::BadFlag,
    FindingKind::UndefinedRef,
];

impl Standing {
    pub(crate) fn is(self, other: Standing) -> bool
        ensures { result ≡ same_standing self other }
    {
        match (self, other) {
            (Standing::Aside, Standing::Aside) => true,
            (Standing::Concluded, Standing::Concluded) => true,
            (Standing::Declared, Standing::Declared) => true,
            (Standing::Neither, Standing::Neither) => true,
            _ => false,
        }
    }
}

/// How many of some packages have this standing.
pub(crate) fn count_of(standings: &[Standing], standing: Standing) -> usize
    ensures { result ≡ count_by (same_standing standing) standings.now }
{
    standings.iter().filter(|one| standing.is(**one)).count()
}

impl Summary {
    /// How many packages have this standing.
    pub fn standing_count(&self, standing: Standing) -> usize
        ensures { result ≡ standing_count standing self.now }
    {
        count_of(self.standings.as_slice(), standing)
    }

    /// How many findings are of the kind with this number.
    pub fn kind_count(&self, number: u8) -> usize
        ensures { result ≡ kind_count number self.now }
    {
        self.findings
            .iter()
            .filter(|finding| finding.kind.number() == number)
            .count()
    }
}

// The standing of a package.
pub(crate) fn standing_of(
    alloc: Global,
    text: &Package<'_>,
    ships: bool,
    profile: Profile,
) -> Result<Standing, AllocError>
    ensures { (reads : List ℕ → Option Tree) → IsReading profile reads
        → IfOk result (λ standing. standing ≡ standing_of reads (package_text text.now) ships) }
{
    if !ships {
        return Ok(Standing::Aside);
    }
    if is_licence(alloc, text.concluded, profile)? {
        return Ok(Standing::Concluded);
    }
    if is_declared(alloc, text.declared, profile)? {
        return Ok(Standing::Declared);
    }
    Ok(Standing::Neither)
}

fn standings_of(
    alloc: Global,
    packages: &[Package<'_>],
    marks: &[bool],
    profile: Profile,
) -> Result<Vec<Standing>, AllocError>
    ensures { (reads : List ℕ → Option Tree) → IsReading profile reads
        → IfOk result (λ found. found.items
        ≡ standings_of reads (map package_text packages.now) marks.now) }
{
    let mut found = Vec::with_capacity(alloc, packages.len())?;
    let mut rest = marks;
    for text in packages {
        let (ships, behind) = first_mark(rest);
        found.push(standing_of(alloc, text, ships, profile)?)?;
        rest = behind;
    }
    Ok(found)
}

/// What a desk finds in a document. Its licence expressions are read by the profile of operators.
pub fn summary_of(
    alloc: Global,
    document: &Document<'_>,
    profile: Profile,
) -> Result<Summary, AllocError>
    ensures found { (reads : List ℕ → Option Tree) → IsReading profile reads
        → IfOk result (IsSummary reads (document_text document.now)) }
    ensures unlisted { IfOk result (λ s. string_bytes s.listed ≡ []) }
{
    let marks = ships(alloc, document)?;
    let standings = standings_of(
        alloc,
        document.packages.as_slice(),
        marks.as_slice(),
        profile,
    )?;
    let elsewhere = elsewhere_count(alloc, document, marks.as_slice())?;
    let findings = findings_in(alloc, document, profile)?;
    Ok(Summary {
        standings,
        elsewhere,
        findings,
        listed: String::new(alloc),
    })
}

impl Summary {
    fn write_packages<W: fmt::Write>(&self, f: &mut fmt::Formatter<W>) -> fmt::Result {
        let packages = self.standings.len();
        let declared = self.standing_count(Standing::Declared);
        let open = declared.saturating_add(self.standing_count(Standing::Neither));
        let shipped = open.saturating_add(self.standing_count(Standing::Concluded));
        write!(
            f,
            "packages: {packages}, shipped: {shipped}, without a conclusion: {open}"
        )?;
        write!(f, ", of these with a declared licence: {declared}")
    }

    fn write_elsewhere<W: fmt::Write>(&self, f: &mut fmt::Formatter<W>) -> fmt::Result {
        let count = self.elsewhere;
        if count > 0 {
            write!(
                f,
                "\nelements of other documents that ship: {count} (import those documents too)"
            )?;
        }
        Ok(())
    }

    fn write_kinds<W: fmt::Write>(&self, f: &mut fmt::Formatter<W>) -> fmt::Result {
        for kind in KINDS {
            let (count, name) = (self.kind_count(kind.number()), kind.name());
            if count > 0 {
                write!(f, ", {name}: {count}")?;
            }
        }
        Ok(())
    }
}

impl fmt::Display for Summary {
    fn fmt<W: fmt::Write>(&self, f: &mut fmt::Formatter<W>) -> fmt::Result {
        self.write_packages(f)?;
        self.write_elsewhere(f)?;
        let findings = self.findings.len();
        write!(f, "\nfindings: {findings}")?;
        self.write_kinds(f)?;
        f.write_str(self.listed.as_str())
    }
}
