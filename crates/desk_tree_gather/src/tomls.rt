//! The REUSE.toml files of a tree.

ghost use Rattle.std.specs.Prelude.{◌≡◌, ◌≢◌, IfOk, OnOk, ℕ, alloc_error};
ghost use Rattle.desk_tree_annotations.specs.declared.fault.AnnotationsFault.{AnnotationsFault};
ghost use Rattle.desk_tree_infos.specs.Readers.{Reader, IsRightReader};
ghost use Rattle.desk_tree_gather.specs.Tomls.{told_of, toml_of, tomls_of};
ghost use Rattle.desk_tree_infos.specs.Tomls.{toml_in, tomls_in};
ghost use Rattle.desk_tree_gather.specs.Shown.{Gives, file_of, files_of};

use crate::fault::GatherFault;
use crate::files::{File, is_toml};
use crate::paths::folder_of;
use desk_base::Text;
use desk_tree_annotations::{Annotations, AnnotationsFault};
use desk_tree_infos::Toml;
use std::alloc::{AllocError, Global};

// A fault of a REUSE.toml, with its path.
fn told_of(alloc: Global, path: &str, fault: AnnotationsFault) -> Result<GatherFault, AllocError>
    ensures told { IfOk result (λ f. f ≡ told_of path.now fault) }
    ensures other { OnOk result (fault ≢ AnnotationsFault.Memory alloc_error) }
{
    match fault {
        AnnotationsFault::BadToml => Ok(GatherFault::BadToml(Text::of(alloc, path)?)),
        AnnotationsFault::BadAnnotation(index, kind) => {
            Ok(GatherFault::BadAnnotation(Text::of(alloc, path)?, index, kind))
        }
        AnnotationsFault::Memory(error) => Err(error),
    }
}

// What a REUSE.toml says.
fn toml_of<'a>(alloc: Global, file: File<'a>) -> Result<Result<Toml<'a>, GatherFault>, AllocError>
    ensures { (r : Reader) → IsRightReader r
        → IfOk result (Gives (toml_of r (file_of file.entry)) toml_in) }
{
    let Ok(text) = str::from_utf8(file.bytes) else {
        return Ok(Err(GatherFault::BadToml(Text::of(alloc, file.path)?)));
    };
    match Annotations::read(alloc, text) {
        Ok(annotations) => Ok(Ok(Toml {
            folder: folder_of(file.path.as_bytes()),
            annotations,
        })),
        Err(fault) => {
            let fault = told_of(alloc, file.path, fault)?;
            Ok(Err(fault))
        }
    }
}

/// What the REUSE.toml files of a tree say.
pub(crate) fn tomls_of<'a>(
    alloc: Global,
    files: &[File<'a>],
) -> Result<Result<Vec<Toml<'a>>, GatherFault>, AllocError>
    ensures { (r : Reader) → IsRightReader r → IfOk result
        (Gives (tomls_of r (files_of files.now)) (λ v. tomls_in v.items)) }
{
    let mut tomls = Vec::new(alloc);
    for file in files {
        if !is_toml(*file) {
            continue;
        }
        match toml_of(alloc, *file)? {
            Ok(toml) => tomls.push(toml)?,
            Err(fault) => return Ok(Err(fault)),
        }
    }
    Ok(Ok(tomls))
}
