//! Files that have no copyright notice or no licence.

ghost use Rattle.std.specs.Prelude.{◌≡◌, ◌||◌, IfOk, map};
ghost use Rattle.desk_tree_infos.specs.Sharing.{outline_in};
ghost use Rattle.desk_tree_problems.specs.Bare.{lacking, bare_outline, bare_in, bare_files};

use desk_base::{Items, Text};
use desk_tree_gather::{Infos, Outline};
use std::alloc::{AllocError, Global};

/// What a file lacks.
#[derive(Clone, Copy, PartialEq, Eq)]
pub enum Lacking {
    /// A copyright notice.
    Notice,
    /// A licence.
    Licence,
    /// Both.
    Both,
}

/// A covered file that lacks something.
#[derive(Drop)]
pub struct Bare {
    /// Its path.
    pub path: Text,
    /// What it lacks.
    pub lacking: Lacking,
}

fn what_lacks(no_notice: bool, no_licence: bool) -> Lacking
    ensures { result ≡ lacking no_notice no_licence }
{
    if !no_notice {
        return Lacking::Licence;
    }
    if no_licence {
        Lacking::Both
    } else {
        Lacking::Notice
    }
}

// A file, and what it lacks.
fn bare_file(alloc: Global, file: Outline<'_>) -> Result<Bare, AllocError>
    ensures { IfOk result (λ bare. bare ≡ bare_outline (outline_in file.entry)) }
{
    Ok(Bare {
        path: Text::of(alloc, file.path)?,
        lacking: what_lacks(file.no_notice, file.no_licence),
    })
}

// Whether a file has no notice or no licence.
fn is_bare(file: Outline<'_>) -> bool
    ensures { result ≡ (file.entry.no_notice || file.entry.no_licence) }
{
    file.no_notice || file.no_licence
}

// The files without a notice or without a licence, from their outlines.
fn bare_in(alloc: Global, outlines: &[Outline<'_>]) -> Result<Items<Bare>, AllocError>
    ensures { IfOk result (λ bare. bare ≡ bare_in (map outline_in outlines.now)) }
{
    let mut bare = Items::new(alloc);
    for file in outlines {
        if is_bare(*file) {
            bare.push(bare_file(alloc, *file)?)?;
        }
    }
    Ok(bare)
}

/// The files without a notice or without a licence, in their order.
pub(crate) fn bare_files(alloc: Global, infos: &Infos) -> Result<Items<Bare>, AllocError>
    ensures { IfOk result (λ bare. bare ≡ bare_files infos.now) }
{
    let outlines = infos.outlines(alloc)?;
    bare_in(alloc, outlines.as_slice())
}
