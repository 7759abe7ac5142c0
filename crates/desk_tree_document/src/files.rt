//! The files of a draft.

ghost use Rattle.std.specs.Prelude.{◌≡◌, IfOk, map};
ghost use Rattle.std.specs.List.{list_any};
ghost use Rattle.desk_tree_infos.specs.Readers.{Reader, IsRightReader};
ghost use Rattle.desk_tree_infos.specs.Sharing.{outline_in};
ghost use Rattle.desk_tree_document.specs.Drafts.{package_licences, package_notices};
ghost use Rattle.desk_tree_document.specs.Told.{file_told, files_told};
ghost use Rattle.desk_tree_gather.specs.Shown.{Gives};

use crate::texts::{copyright_of, expression_read};
use desk_base::Items;
use desk_tagvalue::DraftFile;
use desk_tree_annotations::SharedText;
use desk_tree_gather::{GatherFault, Infos, Outline, Subject, ToldFile, ToldFiles};
use std::alloc::{AllocError, Global};

// What the draft says about a file.
fn file_of(alloc: Global, told: &ToldFile) -> Result<Result<DraftFile, GatherFault>, AllocError>
    ensures { (r : Reader) → IsRightReader r → IfOk result (λ f. f ≡ file_told r told.now) }
{
    let info = &told.info;
    let concluded = match expression_read(alloc, info.licences.as_slice())? {
        Ok(concluded) => concluded,
        Err(fault) => return Ok(Err(fault)),
    };
    Ok(Ok(DraftFile {
        path: info.path.clone()?,
        digest: told.digest,
        concluded,
        copyright: copyright_of(alloc, info.notices.as_slice())?,
    }))
}

/// What the draft says about the files, in their order.
pub(crate) fn files_of(
    alloc: Global,
    told: &ToldFiles,
) -> Result<Result<Vec<DraftFile>, GatherFault>, AllocError>
    ensures { (r : Reader) → IsRightReader r
        → IfOk result (Gives (files_told r told.now) (λ v. v.items)) }
{
    let mut files = Vec::new(alloc);
    for place in 0..told.len() {
        let one = told.file(alloc, place)?;
        match file_of(alloc, &one)? {
            Ok(file) => files.push(file)?,
            Err(fault) => return Ok(Err(fault)),
        }
    }
    Ok(Ok(files))
}

/// The digests of files.
pub(crate) fn digests_of(alloc: Global, files: &[DraftFile]) -> Result<Vec<[u8; 20]>, AllocError>
    ensures { IfOk result (λ v. v.items ≡ map (λ f. f.digest) files.now) }
{
    let mut digests = Vec::new(alloc);
    for file in files {
        digests.push(file.digest)?;
    }
    Ok(digests)
}

// Whether some file has no licence.
fn is_bare(outlines: &[Outline<'_>]) -> bool
    ensures { result ≡ list_any (λ o. o.no_licence) (map outline_in outlines.now) }
{
    for file in outlines {
        if file.no_licence {
            return true;
        }
    }
    false
}

/// The distinct licences of all files, or none if some file has none.
pub(crate) fn package_licences(
    alloc: Global,
    infos: &Infos,
) -> Result<Items<SharedText>, AllocError>
    ensures { IfOk result (λ t. t ≡ package_licences infos.now) }
{
    let outlines = infos.outlines(alloc)?;
    if is_bare(outlines.as_slice()) {
        return Ok(Items::new(alloc));
    }
    infos.distinct(alloc, Subject::Licences)
}

/// The distinct notices of all files.
pub(crate) fn package_notices(alloc: Global, infos: &Infos) -> Result<Items<SharedText>, AllocError>
    ensures { IfOk result (λ t. t ≡ package_notices infos.now) }
{
    infos.distinct(alloc, Subject::Notices)
}
