//! The paths of a tree.

ghost use Rattle.std.specs.Prelude.{◌≡◌, ◌==◌, ◌++◌, nat_lt, not, codes, IfOk};
ghost use Rattle.std.specs.List.{list_all, slice_split};
ghost use Rattle.desk_tree_gather.specs.Paths.{is_part, is_path, name_of, folder_of, is_named, is_licence_name, is_left_out};
ghost use Rattle.desk_base.specs.Borrowed.{texts, texts_in};

use std::alloc::{AllocError, Global};

// Whether a part of a path names something in its folder.
fn is_part(part: &str) -> bool
    ensures { result ≡ is_part part.now }
{
    part != "" && part != "." && part != ".."
}

// The parts of a path.
fn parts_of(alloc: Global, path: &str) -> Result<Vec<&str>, AllocError>
    ensures { IfOk result (λ v. texts_in v ≡ slice_split (λ b. b == 47) path.now) }
{
    path.split('/').collect(alloc)
}

fn are_parts(parts: &[&str]) -> bool
    ensures { result ≡ list_all is_part (texts parts.now) }
{
    for part in parts {
        if !is_part(part) {
            return false;
        }
    }
    true
}

// Whether no byte is below 32.
fn are_shown(bytes: &[u8]) -> bool
    ensures { result ≡ list_all (λ b. not (nat_lt b 32)) bytes.now }
{
    bytes.iter().all(|byte| *byte >= 32)
}

/// Whether a path may be in a tree.
pub(crate) fn is_path(alloc: Global, path: &str) -> Result<bool, AllocError>
    ensures { IfOk result (λ is. is ≡ is_path path.now) }
{
    let parts = parts_of(alloc, path)?;
    let bytes = path.as_bytes();
    Ok(are_parts(parts.as_slice()) && are_shown(bytes) && !bytes.ends_with(b" "))
}

/// What follows the last slash, or all if there is none.
pub(crate) fn name_of(path: &[u8]) -> &[u8]
    ensures { result.now ≡ name_of path.now }
{
    let mut name = path;
    let mut rest = path;
    while let Some((byte, after)) = rest.split_first() {
        if *byte == b'/' {
            name = after;
        }
        rest = after;
    }
    name
}

/// The folder of a REUSE.toml.
pub(crate) fn folder_of(path: &[u8]) -> &[u8]
    ensures { result.now ≡ folder_of path.now }
{
    path.split_at(path.len().saturating_sub(10)).0
}

fn is_named(name: &[u8], word: &[u8], dotted: &[u8]) -> bool
    requires { dotted.now ≡ word.now ++ codes "." }
    ensures { result ≡ is_named name.now word.now }
{
    name == word || name.starts_with(dotted)
}

// Whether a name is that of a licence text.
fn is_licence_name(name: &[u8]) -> bool
    ensures { result ≡ is_licence_name name.now }
{
    is_named(name, b"LICENSE", b"LICENSE.")
        || is_named(name, b"LICENCE", b"LICENCE.")
        || is_named(name, b"COPYING", b"COPYING.")
}

/// Whether a file is left out because of its name or its place at the root.
pub(crate) fn is_left_out(path: &[u8], name: &[u8]) -> bool
    ensures { result ≡ is_left_out path.now name.now }
{
    path.starts_with(b"LICENSES/")
        || path.starts_with(b".git/")
        || path.starts_with(b".reuse/")
        || name == b"REUSE.toml".as_slice()
        || name.ends_with(b".license")
        || is_licence_name(name)
}
