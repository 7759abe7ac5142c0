//! What a tree lacks.

ghost use Rattle.std.specs.Prelude.{◌≡◌, ◌⊎◌, ℕ, List, IfOk, IfErr, Ok, Err, alloc_error, map};
ghost use Rattle.desk_tree_infos.specs.declared.infos.FileInfo.{FileInfo};
ghost use Rattle.desk_tree_infos.specs.Firsts.{first_in, firsts_of};
ghost use Rattle.desk_tree_infos.specs.declared.information.Subject.TheVariants.{Licences};
ghost use Rattle.desk_tree_infos.specs.Readers.{Reader, IsRightReader};
ghost use Rattle.desk_tree_gather.specs.Gathering.{gathered};
ghost use Rattle.desk_tree_gather.specs.Shown.{tree_in};
ghost use Rattle.desk_tree_lint.specs.Texts.{text_files};
ghost use Rattle.desk_tree_lint.specs.Used.{AreUsed};
ghost use Rattle.desk_tree_lint.specs.Lists.{lists_of, IsLint};

use crate::lists::{Lint, bare, missing, unused_paths};
use crate::ordering::sorted_keys;
use crate::texts::text_files;
use crate::used::used_keys;
use desk_tree_gather::{First, GatherFault, Infos, SourceFile, Subject, Surveyed, survey_or_fault};
use std::alloc::{AllocError, Global};
use std::collections::BTreeMap;

/// The lists of a tree, from the information of its covered files and the licences that they have
/// first. A licence that isn't an expression uses nothing. The only error is lack of memory.
pub fn lists_of<'a>(
    alloc: Global,
    tree: &BTreeMap<&'a str, &'a [u8]>,
    infos: &Infos,
    firsts: &[First<'_>],
) -> Result<Lint, AllocError>
    ensures { map first_in firsts.now ≡ firsts_of Licences infos.now
        → IfOk result (λ l. (keys : List (List ℕ)) × AreUsed infos.now keys
        × (l ≡ lists_of infos.now keys (text_files (tree_in tree.now)))) }
{
    let used = used_keys(alloc, firsts)?;
    let keys = sorted_keys(alloc, &used)?;
    let texts = text_files(alloc, tree)?;
    Ok(Lint {
        missing: missing(alloc, keys.as_slice(), texts.as_slice())?,
        unused: unused_paths(alloc, keys.as_slice(), texts.as_slice())?,
        bare: bare(alloc, infos)?,
    })
}

// The lists of a tree, with lack of memory apart from its faults.
fn lint_or_fault(
    alloc: Global,
    files: &[SourceFile],
) -> Result<Result<Lint, GatherFault>, AllocError>
    ensures ok { (r : Reader) → IsRightReader r → IfOk result (λ x. IfOk x (IsLint r files.now)) }
    ensures err { (r : Reader) → IsRightReader r
        → IfOk result (λ x. IfErr x (λ f. gathered r files.now ≡ Err f)) }
{
    let Surveyed { tree, infos, .. } = match survey_or_fault(alloc, files)? {
        Ok(surveyed) => surveyed,
        Err(fault) => return Ok(Err(fault)),
    };
    let firsts = infos.firsts(alloc, Subject::Licences)?;
    let lists = lists_of(alloc, &tree, &infos, firsts.as_slice())?;
    Ok(Ok(lists))
}

/// What a tree lacks (REUSE Specification 3.3), or the fault because of which nothing is gathered
/// from it.
///
/// For each right reader the lists are those of `IsLint`, and the fault that of `survey_or_fault`;
/// `Memory` means lack of memory and nothing else.
pub fn lint(alloc: Global, files: &[SourceFile]) -> Result<Lint, GatherFault>
    ensures ok { (r : Reader) → IsRightReader r → IfOk result (IsLint r files.now) }
    ensures err { (r : Reader) → IsRightReader r
        → IfErr result (λ f. (f ≡ GatherFault.Memory alloc_error)
        ⊎ (gathered r files.now ≡ Err f)) }
{
    match lint_or_fault(alloc, files) {
        Ok(Ok(lists)) => Ok(lists),
        Ok(Err(fault)) => Err(fault),
        Err(error) => Err(GatherFault::Memory(error)),
    }
}
