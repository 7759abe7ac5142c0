//! The lists of what a tree lacks.

ghost use Rattle.std.specs.Prelude.{◌≡◌, ◌++◌, ◌||◌, IfOk, OnOk, map};
ghost use Rattle.std.specs.Cmp.Lexicographic.{slice_cmp};
ghost use Rattle.std.specs.List.Sorted.{IsStrictlySortedBy};
ghost use Rattle.std.specs.Ordering.{nat_cmp};
ghost use Rattle.desk_base.specs.TextSets.{is_among, IsSetOf};
ghost use Rattle.desk_tree_infos.specs.Sharing.{outline_in};
ghost use Rattle.desk_tree_lint.specs.Texts.{TextFile};
ghost use Rattle.desk_tree_lint.specs.Lists.{missing, unused, bare, bare_in};
ghost use Rattle.desk_tree_lint.specs.Shown.{bytes_in, only, texts_in};
ghost use Rattle.desk_base.specs.Borrowed.{texts};

use crate::texts::LicenceText;
use desk_base::{Items, Text, TextList, text_set};
use desk_tree_gather::{Infos, Outline};
use std::alloc::{AllocError, Global};
use std::collections::BTreeSet;

/// What a tree lacks.
#[derive(Drop)]
pub struct Lint {
    /// Licences, exceptions and references that are used and have no text, by their keys, in byte
    /// order.
    pub missing: TextList,
    /// Paths of licence texts that nothing uses, in byte order.
    pub unused: Items<Text>,
    /// Paths of covered files without a copyright notice or without a licence, in byte order.
    pub bare: Items<Text>,
}

// The keys of texts.
fn keys_of<'a>(alloc: Global, listed: &'a [LicenceText<'_>]) -> Result<Vec<&'a str>, AllocError>
    ensures { IfOk result (λ v. bytes_in v ≡ map (λ (t : TextFile). t.key) (texts_in listed.now)) }
{
    let mut keys = Vec::new(alloc);
    for text in listed {
        keys.push(text.key.as_str())?;
    }
    Ok(keys)
}

// The set of the keys of texts.
fn known_by<'a>(
    alloc: Global,
    listed: &'a [LicenceText<'_>],
) -> Result<BTreeSet<&'a str>, AllocError>
    ensures { IfOk result (IsSetOf (map (λ (t : TextFile). t.key) (texts_in listed.now))) }
{
    let keys = keys_of(alloc, listed)?;
    text_set(alloc, keys.as_slice())
}

// Whether a key is among others, which are in order.
fn has_key(keys: &[&str], key: &str) -> bool
    ensures { IsStrictlySortedBy (slice_cmp nat_cmp) (texts keys.now)
        → result ≡ is_among (texts keys.now) key.now }
{
    keys.binary_search(&key).is_ok()
}

// Adds a text if it belongs to a list.
fn add_if(
    alloc: Global,
    list: &mut Items<Text>,
    belongs: bool,
    text: &str,
) -> Result<(), AllocError>
    ensures { OnOk result (list.new ≡ list.old ++ only belongs text.now) }
{
    if belongs {
        list.push(Text::of(alloc, text)?)?;
    }
    Ok(())
}

// Adds a text to a list in one buffer, if it belongs there.
fn add_key_if(list: &mut TextList, belongs: bool, key: &str) -> Result<(), AllocError>
    ensures { OnOk result (list.new ≡ list.old ++ only belongs key.now) }
{
    if belongs {
        list.push(key)?;
    }
    Ok(())
}

/// The keys that are used and have no text.
pub(crate) fn missing(
    alloc: Global,
    used: &[&str],
    listed: &[LicenceText<'_>],
) -> Result<TextList, AllocError>
    ensures { IfOk result (λ lacking. lacking ≡ missing (texts used.now) (texts_in listed.now)) }
{
    let known = known_by(alloc, listed)?;
    let mut lacking = TextList::new(alloc);
    for key in used {
        let lacks = !known.contains(*key);
        add_key_if(&mut lacking, lacks, key)?;
    }
    Ok(lacking)
}

/// The paths of the texts whose keys aren't used. The keys that are used are in order.
pub(crate) fn unused_paths(
    alloc: Global,
    used: &[&str],
    listed: &[LicenceText<'_>],
) -> Result<Items<Text>, AllocError>
    ensures { IsStrictlySortedBy (slice_cmp nat_cmp) (texts used.now)
        → IfOk result (λ paths. paths ≡ unused (texts used.now) (texts_in listed.now)) }
{
    let mut paths = Items::new(alloc);
    for text in listed {
        let needless = !has_key(used, text.key.as_str());
        add_if(alloc, &mut paths, needless, text.path)?;
    }
    Ok(paths)
}

// Whether a file has no notice or no licence.
fn is_bare(file: Outline<'_>) -> bool
    ensures { result ≡ (file.entry.no_notice || file.entry.no_licence) }
{
    file.no_notice || file.no_licence
}

// The paths of files without a notice or without a licence.
fn bare_in(alloc: Global, outlines: &[Outline<'_>]) -> Result<Items<Text>, AllocError>
    ensures { IfOk result (λ paths. paths ≡ bare_in (map outline_in outlines.now)) }
{
    let mut paths = Items::new(alloc);
    for file in outlines {
        add_if(alloc, &mut paths, is_bare(*file), file.path)?;
    }
    Ok(paths)
}

/// The paths of the files without a notice or without a licence.
pub(crate) fn bare(alloc: Global, infos: &Infos) -> Result<Items<Text>, AllocError>
    ensures { IfOk result (λ paths. paths ≡ bare infos.now) }
{
    let outlines = infos.outlines(alloc)?;
    bare_in(alloc, outlines.as_slice())
}
