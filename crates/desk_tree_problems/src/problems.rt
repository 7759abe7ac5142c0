//! The problems of a tree.

ghost use Rattle.std.specs.Prelude.{◌≡◌, ◌⊎◌, [], Err, IfOk};
ghost use Rattle.desk_tree_gather.specs.declared.fault.GatherFault.{GatherFault};
ghost use Rattle.desk_tree_gather.specs.Gathering.{gathered};
ghost use Rattle.desk_tree_infos.specs.Readers.{Reader, IsRightReader};
ghost use Rattle.desk_tree_lint.specs.declared.lists.Lint.{Lint};
ghost use Rattle.desk_tree_lint.specs.Lists.{IsLint};
ghost use Rattle.desk_tree_problems.specs.Problems.{has_dep5, are_some, unused_unless, AreProblems, lists_in, told_beside, BeginsWith};
ghost use Rattle.desk_tree_gather.specs.Shown.{tree_in};

use crate::bare::{Bare, bare_files};
use desk_base::{Items, Text, TextList};
use desk_tree_gather::{Blank, Flaw, SourceFile, Subject, Surveyed, bytes_at, survey};
use desk_tree_lint::{Lint, Names, lists_of, names_of};
use std::alloc::{AllocError, Global};
use std::collections::BTreeMap;

/// The problems of a tree.
#[derive(Drop)]
pub struct Problems {
    /// Whether the tree has the older file of annotations, `.reuse/dep5`, which isn't read.
    pub dep5: bool,
    /// That there are too many files; or what is wrong with the paths, in the order of the files,
    /// with the REUSE.toml files, by path, and with what the covered files state, by path.
    pub flaws: Items<Flaw>,
    /// Annotations with a licence that no document can hold, by path, from each REUSE.toml whose
    /// annotations can all be read.
    pub blanks: Items<Blank>,
    /// Licences, exceptions and references that are used and have no text, by their keys, in byte
    /// order.
    pub missing: TextList,
    /// How each of these is first written, and the first file that names it.
    pub names: Names,
    /// Paths of licence texts that nothing uses, in byte order; none if some use may not have been
    /// read, because of a flaw or older annotations.
    pub unused: Items<Text>,
    /// Covered files without a copyright notice or without a licence, by path.
    pub bare: Items<Bare>,
    /// How many files are covered.
    pub covered: usize,
}

// Whether the older file of annotations is in a tree.
fn has_dep5<'a>(tree: &BTreeMap<&'a str, &'a [u8]>) -> bool
    ensures { result ≡ has_dep5 (tree_in tree.now) }
{
    bytes_at(tree, ".reuse/dep5").is_some()
}

fn are_some(flaws: &[Flaw]) -> bool
    ensures { result ≡ are_some flaws.now }
{
    !flaws.is_empty()
}

// Texts that nothing uses, or none if some use may not have been read.
fn unused_unless(alloc: Global, unsure: bool, paths: Items<Text>) -> Items<Text>
    ensures { result ≡ unused_unless unsure paths }
{
    if unsure { Items::new(alloc) } else { paths }
}

// What is wrong in a tree, and the lists for what can be read despite that.
fn survey_problems(alloc: Global, files: Vec<SourceFile>) -> Result<Problems, AllocError>
    ensures { (r : Reader) → IsRightReader r → IfOk result (AreProblems r files.items) }
{
    let Surveyed {
        tree,
        flaws,
        blanks,
        infos,
    } = survey(alloc, files.as_slice())?;
    let firsts = infos.firsts(alloc, Subject::Licences)?;
    let Lint {
        missing,
        unused,
        ..
    } = lists_of(alloc, &tree, &infos, firsts.as_slice())?;
    let dep5 = has_dep5(&tree);
    // What follows takes the most memory, and needs no file.
    drop(tree);
    drop(files);
    let names = names_of(alloc, firsts.as_slice(), &missing)?;
    let unsure = dep5 || are_some(flaws.as_slice());
    Ok(Problems {
        dep5,
        flaws,
        blanks,
        missing,
        names,
        unused: unused_unless(alloc, unsure, unused),
        bare: bare_files(alloc, &infos)?,
        covered: infos.len(),
    })
}

/// All problems of a tree (REUSE Specification 3.3). The lists are for what can be read despite the
/// flaws: annotations that can't be read contribute nothing, and a tag that isn't an expression is
/// a licence that uses nothing. The only error is lack of memory.
///
/// For each right reader they are those of `AreProblems`. If `desk_tree_lint::lint` has lists,
/// there are no flaws, and they are those lists, without unused texts if there are older
/// annotations (`lint`); if nothing is gathered from the tree, the fault is the first flaw
/// (`first`).
pub fn problems_of(alloc: Global, files: Vec<SourceFile>) -> Result<Problems, AllocError>
    ensures problems { (r : Reader) → IsRightReader r → IfOk result (AreProblems r files.items) }
    ensures lint { (r : Reader) → IsRightReader r
        → IfOk result (λ p. (l : Lint) → IsLint r files.items l
        → (p.flaws ≡ []) × (lists_in p ≡ told_beside p.dep5 l)) }
    ensures first { (r : Reader) → IsRightReader r
        → IfOk result (λ p. (fault : GatherFault) → gathered r files.items ≡ Err fault
        → BeginsWith p.flaws fault) }
{
    survey_problems(alloc, files)
}
