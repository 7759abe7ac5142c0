//! What is gathered from a tree.

ghost use Rattle.std.specs.Prelude.{◌≡◌, ◌⊎◌, [], IfOk, IfErr, Ok, Err, alloc_error, map};
ghost use Rattle.desk_model.specs.Texts.{sorted_set};
ghost use Rattle.desk_tree_annotations.specs.Tags.{tag_text};
ghost use Rattle.desk_tree_infos.specs.Information.{given};
ghost use Rattle.desk_tree_infos.specs.Readers.{Reader, IsRightReader};
ghost use Rattle.desk_tree_infos.specs.Sharing.{annotations_at, all_texts, info_at};
ghost use Rattle.desk_tree_gather.specs.Blanks.{blanks_in};
ghost use Rattle.desk_tree_gather.specs.Gathering.{bad_line, stated_in, values, info_with, gathered};
ghost use Rattle.desk_tree_gather.specs.Shown.{Gives, stated_of, tree_in};
ghost use Rattle.desk_tree_gather.specs.Survey.{gather_fault, first_fault, kept};
ghost use Rattle.desk_tree_gather.specs.Trees.{tree_of};

use crate::fault::GatherFault;
use crate::files::SourceFile;
use crate::flaw::Flaw;
use crate::surveying::{Surveyed, survey};
use desk_base::{Text, TextList};
use desk_tree_annotations::{Annotation, Info, Tagged, header, is_expression_beside};
use desk_tree_infos::{Covered, FileInfo, Sources, Subject, set_in, sources_of};
use std::alloc::{AllocError, Global};

// The line of the first licence that isn't an expression.
fn bad_line(alloc: Global, tags: &[Tagged<'_>]) -> Result<Option<u64>, AllocError>
    ensures { (r : Reader) → IsRightReader r
        → IfOk result (λ line. line ≡ bad_line r (map tag_text tags.now)) }
{
    let mut known = None;
    for tag in tags {
        let told = is_expression_beside(alloc, tag.value, known)?;
        if !told {
            return Ok(Some(tag.line));
        }
        known = Some(tag.value);
    }
    Ok(None)
}

/// What a file states itself.
pub(crate) fn stated_in<'a>(
    alloc: Global,
    path: &str,
    bytes: &'a [u8],
) -> Result<Result<Info<'a>, GatherFault>, AllocError>
    ensures { (r : Reader) → IsRightReader r → IfOk result
        (Gives (stated_in r (record { path = path.now; bytes = bytes.now })) stated_of) }
{
    let info = header(alloc, bytes)?;
    match bad_line(alloc, info.licences.as_slice())? {
        Some(line) => Ok(Err(GatherFault::BadExpression(Text::of(alloc, path)?, line))),
        None => Ok(Ok(info)),
    }
}

fn values(alloc: Global, tags: &[Tagged<'_>]) -> Result<TextList, AllocError>
    ensures { IfOk result (λ list. list ≡ values (map tag_text tags.now)) }
{
    let mut values = TextList::new(alloc);
    for tag in tags {
        values.push(tag.value)?;
    }
    Ok(values)
}

// The texts of a file, from its tags and the annotations that count. Each of the file's own is kept
// once.
fn given_of(
    alloc: Global,
    of: Subject,
    own: &[Tagged<'_>],
    all: &[Annotation],
    counting: &[usize],
) -> Result<Sources, AllocError>
    ensures { IfOk result (λ g. sorted_set (all_texts all.now of g) ≡ sorted_set
        (given of (values (map tag_text own.now)) (annotations_at all.now counting.now))) }
{
    let listed = values(alloc, own)?;
    let own = set_in(alloc, listed)?;
    sources_of(alloc, of, own, all, counting)
}

/// The information of a file, from its own and the annotations that count.
pub(crate) fn info_with(
    alloc: Global,
    path: &str,
    all: &[Annotation],
    counting: &[usize],
    own: &Info<'_>,
) -> Result<Covered, AllocError>
    ensures { IfOk result (λ file. info_at all.now file
        ≡ info_with path.now (annotations_at all.now counting.now) (stated_of own.now)) }
{
    let notices = own.notices.as_slice();
    let licences = own.licences.as_slice();
    Ok(Covered {
        path: Text::of(alloc, path)?,
        notices: given_of(alloc, Subject::Notices, notices, all, counting)?,
        licences: given_of(alloc, Subject::Licences, licences, all, counting)?,
    })
}

/// The fault of what is gathered for a flaw.
fn gather_fault(alloc: Global, flaw: &Flaw) -> Result<GatherFault, AllocError>
    ensures { IfOk result (λ fault. fault ≡ gather_fault flaw.now) }
{
    match flaw {
        Flaw::TooManyFiles => Ok(GatherFault::TooManyFiles),
        Flaw::BadPath(_) => Ok(GatherFault::BadPath),
        Flaw::TwicePath(_) => Ok(GatherFault::TwicePath),
        Flaw::BadToml(path) => Ok(GatherFault::BadToml(path.clone()?)),
        Flaw::BadAnnotation(path, index, kind) => {
            let path = Text::of(alloc, path.as_str())?;
            Ok(GatherFault::BadAnnotation(path, *index, *kind))
        }
        Flaw::BadExpression(path, line, _) => {
            let path = Text::of(alloc, path.as_str())?;
            Ok(GatherFault::BadExpression(path, *line))
        }
    }
}

// The fault of what is gathered, if anything is wrong.
fn first_fault(alloc: Global, flaws: &[Flaw]) -> Result<Option<GatherFault>, AllocError>
    ensures { IfOk result (λ fault. fault ≡ first_fault flaws.now) }
{
    match flaws.split_first() {
        Some((flaw, _)) => Ok(Some(gather_fault(alloc, flaw)?)),
        None => Ok(None),
    }
}

/// The survey of a tree in which nothing is wrong, with the information of its covered files by
/// path; or the first fault: too many files; a fault of the paths in turn, of the REUSE.toml files
/// by path, or of what the covered files state, by path. The only error is lack of memory.
pub fn survey_or_fault<'a>(
    alloc: Global,
    files: &'a [SourceFile],
) -> Result<Result<Surveyed<'a>, GatherFault>, AllocError>
    ensures infos { (r : Reader) → IsRightReader r
        → IfOk result (Gives (gathered r files.now) (λ s. s.infos)) }
    ensures tree { (r : Reader) → IsRightReader r
        → IfOk result (λ x. IfOk x (λ s. tree_of files.now ≡ Ok (tree_in s.tree))) }
    ensures flaws { IfOk result (λ x. IfOk x (λ s. s.flaws ≡ [])) }
    ensures blanks { (r : Reader) → IsRightReader r
        → IfOk result (λ x. IfOk x (λ s. s.blanks ≡ blanks_in r.reading (kept files.now))) }
{
    let surveyed = survey(alloc, files)?;
    match first_fault(alloc, surveyed.flaws.as_slice())? {
        Some(fault) => Ok(Err(fault)),
        None => Ok(Ok(surveyed)),
    }
}

// The information of the covered files, each with all its texts.
fn list_infos(
    alloc: Global,
    files: &[SourceFile],
) -> Result<Result<Vec<FileInfo>, GatherFault>, AllocError>
    ensures { (r : Reader) → IsRightReader r
        → IfOk result (Gives (gathered r files.now) (λ v. v.items)) }
{
    match survey_or_fault(alloc, files)? {
        Ok(surveyed) => {
            let listed = surveyed.infos.to_vec(alloc)?;
            Ok(Ok(listed))
        }
        Err(fault) => Ok(Err(fault)),
    }
}

/// The information of each covered file by path, or the first fault, as `survey_or_fault` has them.
///
/// For each right reader the answer is that of the definition `gathered`; `Memory` means lack of
/// memory and nothing else.
pub fn gather(alloc: Global, files: &[SourceFile]) -> Result<Vec<FileInfo>, GatherFault>
    ensures ok { (r : Reader) → IsRightReader r
        → IfOk result (λ v. gathered r files.now ≡ Ok v.items) }
    ensures err { (r : Reader) → IsRightReader r
        → IfErr result (λ f. (f ≡ GatherFault.Memory alloc_error)
        ⊎ (gathered r files.now ≡ Err f)) }
{
    match list_infos(alloc, files) {
        Ok(Ok(infos)) => Ok(infos),
        Ok(Err(fault)) => Err(fault),
        Err(error) => Err(GatherFault::Memory(error)),
    }
}
