//! The conclusions that are proposed for the packages of a document.

ghost use Rattle.std.specs.Prelude.{◌≡◌, ℕ, List, IfOk, OnOk, Option, Bool, map};
ghost use Rattle.std.specs.String.{string_bytes};
ghost use Rattle.serde_json.specs.View.{view};
ghost use Rattle.desk_expr.specs.Printing.{printed};
ghost use Rattle.desk_expr.specs.Spelling.{Spells};
ghost use Rattle.desk_expr.specs.Tree.{Tree};
ghost use Rattle.desk_findings.specs.Fields.{IsReading};
ghost use Rattle.desk_tagvalue.specs.Documents.{document_text};
ghost use Rattle.desk_tagvalue.specs.Views.{package_text};
ghost use Rattle.desk_import.specs.Proposals.{AreLines, AreProposals, IsLine, count_of, declared_tree, request, request_line};
ghost use Rattle.desk_import.specs.Summaries.{standing_of, standings_of};
ghost use Rattle.desk_import.specs.declared.summary.Standing.TheVariants.{Declared, Neither};

use crate::summary::{self, Standing, standing_of};
use desk_base::Profile;
use desk_bom::{first_mark, ships};
use desk_expr::{Expr, print};
use desk_findings::expression_in;
use desk_tagvalue::{Document, Package};
use serde_json::{Value, json};
use std::alloc::{AllocError, Global};
use std::fmt;

/// The conclusions that are proposed for a document: the standing of each of its packages, and a
/// line for each that ships with only a declared licence, with the request `conclude`.
#[derive(Drop)]
pub struct Proposals {
    /// The standing of each package, in the order of the document.
    pub standings: Vec<Standing>,
    /// The lines that are proposed, as a script reads them.
    pub lines: String,
}

impl Proposals {
    /// How many conclusions are proposed.
    pub fn proposed_count(&self) -> usize
        ensures { result ≡ count_of Declared self.now }
    {
        summary::count_of(self.standings.as_slice(), Standing::Declared)
    }

    /// How many packages that ship without a conclusion are left out, since they have no declared
    /// licence that is an expression.
    pub fn left_out(&self) -> usize
        ensures { result ≡ count_of Neither self.now }
    {
        summary::count_of(self.standings.as_slice(), Standing::Neither)
    }
}

// The request to conclude the licence of a package.
fn request(alloc: Global, document: u32, id: &str, expression: &str) -> Result<Value, AllocError>
    ensures { IfOk result (λ v. view v ≡ request document id.now expression.now) }
{
    json!(in alloc; {"do": "conclude", "document": document, "expression": expression, "package": id})
}

// The line that proposes an expression for a package.
fn line_of(alloc: Global, document: u32, id: &str, expression: &Expr) -> Result<String, AllocError>
    ensures text { IfOk result
        (λ line. string_bytes line ≡ request_line document id.now (printed expression.now)) }
    ensures spells { OnOk result (Spells (printed expression.now) expression.now) }
{
    let text = print(alloc, expression)?;
    let value = request(alloc, document, id, text.as_str())?;
    let line = value.to_string(alloc);
    drop(value);
    let mut line = line?;
    line.push_str("\n")?;
    Ok(line)
}

// The declared licence of a package as an expression, if it is one.
fn declared_in(
    alloc: Global,
    text: &Package<'_>,
    profile: Profile,
) -> Result<Option<Expr>, AllocError>
    ensures { (reads : List ℕ → Option Tree) → IsReading profile reads
        → IfOk result (λ tree. tree ≡ declared_tree reads (package_text text.now)) }
{
    match text.declared {
        Some(value) => expression_in(alloc, value, profile),
        None => Ok(None),
    }
}

// The line of a package by its standing, or no bytes if nothing is proposed for it.
fn proposal_of(
    alloc: Global,
    document: u32,
    text: &Package<'_>,
    standing: Standing,
    profile: Profile,
) -> Result<String, AllocError>
    ensures { (reads : List ℕ → Option Tree) (ships : Bool) → IsReading profile reads
        → standing ≡ standing_of reads (package_text text.now) ships
        → IfOk result (λ line. IsLine reads document (package_text text.now) standing
        (string_bytes line)) }
{
    if !standing.is(Standing::Declared) {
        return Ok(String::new(alloc));
    }
    match declared_in(alloc, text, profile)? {
        Some(expression) => {
            let line = line_of(alloc, document, text.id, &expression);
            drop(expression);
            line
        }
        None => Ok(String::new(alloc)),
    }
}

fn proposals_for(
    alloc: Global,
    document: u32,
    packages: &[Package<'_>],
    marks: &[bool],
    profile: Profile,
) -> Result<Proposals, AllocError>
    ensures { (reads : List ℕ → Option Tree) → IsReading profile reads → IfOk result (λ found.
        (found.standings.items ≡ standings_of reads (map package_text packages.now) marks.now)
        × AreLines reads document (map package_text packages.now) found.standings.items
        (string_bytes found.lines)) }
{
    let mut standings = Vec::with_capacity(alloc, packages.len())?;
    let mut lines = String::new(alloc);
    let mut rest = marks;
    for text in packages {
        let (ships, behind) = first_mark(rest);
        let standing = standing_of(alloc, text, ships, profile)?;
        let line = proposal_of(alloc, document, text, standing, profile)?;
        lines.push_str(line.as_str())?;
        standings.push(standing)?;
        rest = behind;
    }
    Ok(Proposals { standings, lines })
}

/// The conclusions that are proposed for the packages of a document, which the desk knows by this
/// number. Its licence expressions are read by the profile of operators.
pub fn proposals_of(
    alloc: Global,
    number: u32,
    document: &Document<'_>,
    profile: Profile,
) -> Result<Proposals, AllocError>
    ensures { (reads : List ℕ → Option Tree) → IsReading profile reads
        → IfOk result (AreProposals reads number (document_text document.now)) }
{
    let marks = ships(alloc, document)?;
    proposals_for(
        alloc,
        number,
        document.packages.as_slice(),
        marks.as_slice(),
        profile,
    )
}

impl fmt::Display for Proposals {
    fn fmt<W: fmt::Write>(&self, f: &mut fmt::Formatter<W>) -> fmt::Result {
        let (proposed, left_out) = (self.proposed_count(), self.left_out());
        write!(f, "conclusions proposed: {proposed}")?;
        write!(
            f,
            ", left out because no declared licence is an expression: {left_out}"
        )
    }
}
