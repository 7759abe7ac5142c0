//! The draft of a tree.

ghost use Rattle.std.specs.Prelude.{◌≡◌, ◌⊎◌, ℕ, List, IfOk, IfErr, Ok, Err, alloc_error, map};
ghost use Rattle.desk_bom.specs.Codes.{IsCode};
ghost use Rattle.desk_tree_infos.specs.Readers.{Reader, IsRightReader};
ghost use Rattle.desk_tree_document.specs.Drafts.{draft_with, draft_of};
ghost use Rattle.desk_tree_gather.specs.Shown.{Gives};
ghost use Rattle.desk_tree_document.specs.Shown.{named};
ghost use Rattle.desk_tree_document.specs.Texts.{copyright_of, expression_read};
ghost use Rattle.desk_tree_document.specs.Drafts.{package_licences, package_notices};

use crate::files::{digests_of, files_of, package_licences, package_notices};
use crate::texts::{copyright_of, expression_read};
use desk_base::{Items, Text};
use desk_bom::verification_code;
use desk_tagvalue::{Draft, DraftFile};
use desk_tree_gather::{GatherFault, Infos, SourceFile, gather_files};
use std::alloc::{AllocError, Global};

// A document's name, its namespace and its time.
#[derive(Clone, Copy)]
pub(crate) struct Title<'a> {
    pub(crate) name: &'a str,
    pub(crate) namespace: &'a str,
    pub(crate) created: &'a str,
}

// The verification code of files.
fn code_of(alloc: Global, files: &[DraftFile]) -> Result<Text, AllocError>
    ensures { IfOk result (IsCode (map (λ f. f.digest) files.now)) }
{
    let digests = digests_of(alloc, files)?;
    let code = verification_code(alloc, digests.as_slice())?;
    match str::from_utf8(code.as_slice()) {
        Ok(text) => Text::of(alloc, text),
        Err(_) => unreachable!(),
    }
}

// The same, as a draft keeps them.
#[derive(Drop)]
struct Names {
    name: Text,
    namespace: Text,
    created: Text,
}

fn names_of(alloc: Global, title: Title<'_>) -> Result<Names, AllocError>
    ensures name { IfOk result (λ n. n.name ≡ title.entry.name.now) }
    ensures namespace { IfOk result (λ n. n.namespace ≡ title.entry.namespace.now) }
    ensures created { IfOk result (λ n. n.created ≡ title.entry.created.now) }
{
    Ok(Names {
        name: Text::of(alloc, title.name)?,
        namespace: Text::of(alloc, title.namespace)?,
        created: Text::of(alloc, title.created)?,
    })
}

// The licence that is concluded for the package, from all files.
fn concluded_licence(alloc: Global, infos: &Infos) -> Result<Result<Text, GatherFault>, AllocError>
    ensures { (r : Reader) → IsRightReader r → IfOk result
        (Gives (expression_read r.reading (package_licences infos.now)) (λ t. t)) }
{
    let licences = package_licences(alloc, infos)?;
    expression_read(alloc, licences.as_slice())
}

// The copyright notices of all files.
fn copyright(alloc: Global, infos: &Infos) -> Result<Text, AllocError>
    ensures { IfOk result (λ t. t ≡ copyright_of (package_notices infos.now)) }
{
    let notices = package_notices(alloc, infos)?;
    copyright_of(alloc, notices.as_slice())
}

// The draft from the information of files, and from what it says about each.
fn draft_with(
    alloc: Global,
    title: Title<'_>,
    infos: &Infos,
    files: Vec<DraftFile>,
) -> Result<Result<Draft, GatherFault>, AllocError>
    ensures ok { (r : Reader) → IsRightReader r
        → IfOk result (λ x. IfOk x (λ d.
        draft_with r (named title.entry) infos.now files.items d.code ≡ Ok d)) }
    ensures code { IfOk result (λ x. IfOk x (λ d. IsCode (map (λ f. f.digest) d.files) d.code)) }
    ensures err { (r : Reader) → IsRightReader r
        → IfOk result (λ x. IfErr x (λ f.
        (code : List ℕ) → draft_with r (named title.entry) infos.now files.items code ≡ Err f)) }
{
    let concluded = match concluded_licence(alloc, infos)? {
        Ok(concluded) => concluded,
        Err(fault) => return Ok(Err(fault)),
    };
    let copyright = copyright(alloc, infos)?;
    let code = code_of(alloc, files.as_slice())?;
    let Names {
        name,
        namespace,
        created,
    } = names_of(alloc, title)?;
    Ok(Ok(Draft {
        name,
        namespace,
        created,
        code,
        concluded,
        copyright,
        files: Items::from_vec(files),
    }))
}

// The draft of a tree.
fn draft_or_fault(
    alloc: Global,
    files: Vec<SourceFile>,
    title: Title<'_>,
) -> Result<Result<Draft, GatherFault>, AllocError>
    ensures ok { (r : Reader) → IsRightReader r
        → IfOk result (λ x. IfOk x
        (λ d. draft_of r files.items (named title.entry) d.code ≡ Ok d)) }
    ensures code { IfOk result (λ x. IfOk x (λ d. IsCode (map (λ f. f.digest) d.files) d.code)) }
    ensures err { (r : Reader) → IsRightReader r
        → IfOk result (λ x. IfErr x (λ f.
        (code : List ℕ) → draft_of r files.items (named title.entry) code ≡ Err f)) }
{
    let told = match gather_files(alloc, files)? {
        Ok(told) => told,
        Err(fault) => return Ok(Err(fault)),
    };
    let files = match files_of(alloc, &told)? {
        Ok(files) => files,
        Err(fault) => return Ok(Err(fault)),
    };
    let infos = told.into_infos(alloc)?;
    draft_with(alloc, title, &infos, files)
}

/// The draft of a tree: of the document, its package and each covered file by path. The first fault
/// is that of what is gathered; then comes `ExpressionTooLong`, if joined licences aren't one
/// expression. The bytes of each file are dropped once its digest is known, so that the draft is
/// made without them.
///
/// For each right reader the answer is that of `draft_of`, with the verification code of the files'
/// digests; `Memory` means lack of memory and nothing else.
pub fn draft(
    alloc: Global,
    files: Vec<SourceFile>,
    name: &str,
    namespace: &str,
    created: &str,
) -> Result<Draft, GatherFault>
    ensures ok { (r : Reader) → IsRightReader r
        → IfOk result (λ d. draft_of r files.items
        (record { name = name.now; namespace = namespace.now; created = created.now }) d.code
        ≡ Ok d) }
    ensures code { IfOk result (λ d. IsCode (map (λ f. f.digest) d.files) d.code) }
    ensures err { (r : Reader) → IsRightReader r
        → IfErr result (λ f. (f ≡ GatherFault.Memory alloc_error)
        ⊎ ((code : List ℕ) → draft_of r files.items
        (record { name = name.now; namespace = namespace.now; created = created.now }) code
        ≡ Err f)) }
{
    let title = Title {
        name,
        namespace,
        created,
    };
    match draft_or_fault(alloc, files, title) {
        Ok(Ok(draft)) => Ok(draft),
        Ok(Err(fault)) => Err(fault),
        Err(error) => Err(GatherFault::Memory(error)),
    }
}
