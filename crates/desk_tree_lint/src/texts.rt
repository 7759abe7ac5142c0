//! The licence texts in a tree.

ghost use Rattle.std.specs.Prelude.{◌≡◌, IfOk, option_map, ◌==◌};
ghost use Rattle.std.specs.List.{list_any};
ghost use Rattle.desk_tree_gather.specs.Shown.{tree_in};
ghost use Rattle.desk_tree_lint.specs.Texts.{text_name, stem, key_of, text_file, text_files};
ghost use Rattle.desk_tree_lint.specs.Shown.{text_in, texts_in};

use desk_base::Key;
use desk_tokens::is_reference;
use std::alloc::{AllocError, Global};
use std::collections::BTreeMap;

/// The text of a licence.
#[derive(Drop)]
pub(crate) struct LicenceText<'a> {
    /// Its path.
    pub(crate) path: &'a str,
    /// The key of the identifier after which it is named.
    pub(crate) key: Key,
}

// Whether a name leads into another folder.
fn has_slash(name: &[u8]) -> bool
    ensures { result ≡ list_any (λ b. b == 47) name.now }
{
    name.iter().any(|byte| *byte == b'/')
}

// The name of the licence text at a path, if there is one.
fn text_name(path: &str) -> Option<&str>
    ensures { option_map (λ name. name.now) result ≡ text_name path.now }
{
    let name = path.strip_prefix("LICENSES/")?;
    if has_slash(name.as_bytes()) || name.as_bytes().ends_with(b".license") {
        None
    } else {
        Some(name)
    }
}

// A name without the part from its last full stop on.
fn stem(name: &str) -> &str
    ensures { result.now ≡ stem name.now }
{
    match name.rfind('.') {
        Some(end) => name.split_at(end).0,
        None => name,
    }
}

/// The key by which an identifier is compared.
pub(crate) fn key_of(alloc: Global, id: &str) -> Result<Key, AllocError>
    ensures { IfOk result (λ k. k ≡ key_of id.now) }
{
    if is_reference(id.as_bytes()) {
        Key::exact(alloc, id)
    } else {
        Key::folded(alloc, id)
    }
}

// The licence text at a path, if there is one.
fn text_file<'a>(alloc: Global, path: &'a str) -> Result<Option<LicenceText<'a>>, AllocError>
    ensures { IfOk result (λ t. option_map text_in t ≡ option_map (λ name.
        record { path = path.now; key = key_of (stem name) }) (text_name path.now)) }
{
    match text_name(path) {
        Some(name) => {
            let key = key_of(alloc, stem(name))?;
            Ok(Some(LicenceText { path, key }))
        }
        None => Ok(None),
    }
}

/// The licence texts, by path.
pub(crate) fn text_files<'a>(
    alloc: Global,
    tree: &BTreeMap<&'a str, &'a [u8]>,
) -> Result<Vec<LicenceText<'a>>, AllocError>
    ensures { IfOk result (λ v. texts_in v.items ≡ text_files (tree_in tree.now)) }
{
    let mut texts = Vec::new(alloc);
    for (path, _) in tree {
        if let Some(text) = text_file(alloc, path)? {
            texts.push(text)?;
        }
    }
    Ok(texts)
}
