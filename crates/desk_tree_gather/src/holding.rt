//! The file in which a file's own information is stated: the `.license` file beside it, or itself.

ghost use Rattle.std.specs.Prelude.{◌≡◌, ◌++◌, IfOk, codes, option_map};
ghost use Rattle.std.specs.String.{string_bytes};
ghost use Rattle.desk_tree_gather.specs.Gathering.{holder_by};
ghost use Rattle.desk_tree_gather.specs.Shown.{file_of, held_in};

use crate::files::File;
use std::alloc::{AllocError, Global};

/// The file that states something about another file, or about itself.
#[derive(Drop)]
pub(crate) struct Held<'a> {
    pub(crate) path: String,
    pub(crate) bytes: &'a [u8],
}

/// The path of the file beside a file.
pub(crate) fn beside(alloc: Global, path: &str) -> Result<String, AllocError>
    ensures { IfOk result (λ text. string_bytes text ≡ path.now ++ codes ".license") }
{
    let mut beside = String::from_str(alloc, path)?;
    beside.push_str(".license")?;
    Ok(beside)
}

fn held_at<'a>(alloc: Global, path: &str, bytes: &'a [u8]) -> Result<Held<'a>, AllocError>
    ensures { IfOk result (λ h. held_in h ≡ record { path = path.now; bytes = bytes.now }) }
{
    let path = String::from_str(alloc, path)?;
    Ok(Held { path, bytes })
}

/// The file beside a file, if it has bytes, otherwise the file itself.
pub(crate) fn holder_by<'a>(
    alloc: Global,
    beside: &str,
    file: File<'a>,
    bytes: Option<&'a [u8]>,
) -> Result<Held<'a>, AllocError>
    ensures { IfOk result (λ h. held_in h
        ≡ holder_by beside.now (file_of file.entry) (option_map (λ b. b.now) bytes.entry)) }
{
    match bytes {
        Some(bytes) => held_at(alloc, beside, bytes),
        None => held_at(alloc, file.path, file.bytes),
    }
}
