//! The information of files, which share what annotations give.

ghost use Rattle.std.specs.Prelude.{◌≡◌, ◌++◌, ◌∷◌, [], IfOk, OnOk, length, map};
ghost use Rattle.std.specs.List.{flat_map};
ghost use Rattle.desk_model.specs.Texts.{sorted_set};
ghost use Rattle.desk_tree_infos.specs.Firsts.{first_in, first_texts, firsts_of, texts_in};
ghost use Rattle.desk_tree_infos.specs.Sharing.{texts_at, all_texts, sources_in, info_at, infos_at, is_none, outline_of, outline_in};

use crate::firsts::{First, firsts_of};
use crate::information::{Sources, Subject, texts_at};
use crate::sets::shared_set;
use desk_base::{Items, Text};
use desk_tree_annotations::{Annotation, SharedText, SharedTexts};
use std::alloc::{AllocError, Global};
use std::marker::Model;

/// The information of a file: its notices and licences.
#[derive(Drop)]
pub struct FileInfo {
    /// Its path.
    pub path: Text,
    /// Copyright notices, each once, in byte order.
    pub notices: Items<SharedText>,
    /// Licence expressions, each once, in byte order.
    pub licences: Items<SharedText>,
}

/// A covered file: its path, and where its texts come from.
#[derive(Drop)]
pub struct Covered {
    /// Its path.
    pub path: Text,
    /// Where its copyright notices come from.
    pub notices: Sources,
    /// Where its licences come from.
    pub licences: Sources,
}

impl Covered {
    /// Where its texts come from.
    pub(crate) fn sources(&self, of: Subject) -> &Sources
        ensures { result.now ≡ sources_in of self.now }
    {
        match of {
            Subject::Notices => &self.notices,
            Subject::Licences => &self.licences,
        }
    }
}

/// The information of the covered files of a tree, by path, seen as that of each file. What an
/// annotation gives is kept once, however many files it counts for.
#[derive(Drop)]
pub struct Infos {
    annotations: Vec<Annotation>,
    files: Vec<Covered>,
}

impl Model for Infos {
    ghost use Rattle.std.specs.Prelude.{List};
    ghost use Rattle.desk_tree_infos.specs.declared.infos.FileInfo.{FileInfo};

    ghost Value = { List FileInfo };

    ghost use Rattle.desk_tree_infos.specs.Sharing.{infos_at};

    ghost view = { λ i. infos_at i.annotations.items i.files.items };
}

/// A file's path, and what it lacks.
#[derive(Clone, Copy)]
pub struct Outline<'a> {
    /// Its path.
    pub path: &'a str,
    /// Whether it has no copyright notice.
    pub no_notice: bool,
    /// Whether it has no licence.
    pub no_licence: bool,
}

// Adds texts to others.
fn add(list: &mut Vec<SharedText>, more: &[SharedText]) -> Result<(), AllocError>
    ensures { OnOk result (list.new.items ≡ list.old.items ++ more.now) }
{
    for text in more {
        list.push(text.clone()?)?;
    }
    Ok(())
}

// Adds the texts of a list to others.
fn add_listed(list: &mut Vec<SharedText>, more: &SharedTexts) -> Result<(), AllocError>
    ensures { OnOk result (list.new.items ≡ list.old.items ++ more.now) }
{
    for place in 0..more.len() {
        list.push(more.share(place)?)?;
    }
    Ok(())
}

// Adds the texts of the annotation with a number to others.
fn add_at(
    of: Subject,
    all: &[Annotation],
    number: usize,
    list: &mut Vec<SharedText>,
) -> Result<(), AllocError>
    ensures { OnOk result (list.new.items
        ≡ list.old.items ++ texts_at all.now of (number ∷ [])) }
{
    match texts_at(of, all, number) {
        Some(texts) => add_listed(list, texts),
        None => Ok(()),
    }
}

// The texts of a file, each once, in byte order.
fn set_of(
    alloc: Global,
    of: Subject,
    all: &[Annotation],
    sources: &Sources,
) -> Result<Items<SharedText>, AllocError>
    ensures { IfOk result (λ set. set ≡ sorted_set (all_texts all.now of sources.now)) }
{
    let mut list = Vec::new(alloc);
    for number in sources.numbers.as_slice() {
        add_at(of, all, *number, &mut list)?;
    }
    add(&mut list, sources.own.as_slice())?;
    Ok(shared_set(list))
}

/// The information of a file.
pub fn info_at(alloc: Global, all: &[Annotation], file: &Covered) -> Result<FileInfo, AllocError>
    ensures { IfOk result (λ i. i ≡ info_at all.now file.now) }
{
    Ok(FileInfo {
        path: file.path.clone()?,
        notices: set_of(alloc, Subject::Notices, all, &file.notices)?,
        licences: set_of(alloc, Subject::Licences, all, &file.licences)?,
    })
}

// Whether the annotation with a number has no texts.
fn has_none_at(of: Subject, all: &[Annotation], number: usize) -> bool
    ensures { result ≡ is_none (texts_at all.now of (number ∷ [])) }
{
    match texts_at(of, all, number) {
        Some(texts) => texts.is_empty(),
        None => true,
    }
}

// Whether a file has no texts.
fn has_none(of: Subject, all: &[Annotation], sources: &Sources) -> bool
    ensures { result ≡ is_none (all_texts all.now of sources.now) }
{
    for number in sources.numbers.as_slice() {
        if !has_none_at(of, all, *number) {
            return false;
        }
    }
    sources.own.is_empty()
}

// A file in outline.
fn outline_of<'a>(all: &[Annotation], file: &'a Covered) -> Outline<'a>
    ensures { outline_in result ≡ outline_of (info_at all.now file.now) }
{
    Outline {
        path: file.path.as_str(),
        no_notice: has_none(Subject::Notices, all, &file.notices),
        no_licence: has_none(Subject::Licences, all, &file.licences),
    }
}

// Files in outline.
fn outlines_of<'a>(
    alloc: Global,
    all: &[Annotation],
    files: &'a [Covered],
) -> Result<Vec<Outline<'a>>, AllocError>
    ensures { IfOk result (λ v. map outline_in v.items
        ≡ map outline_of (infos_at all.now files.now)) }
{
    let mut outlines = Vec::new(alloc);
    for file in files {
        outlines.push(outline_of(all, file))?;
    }
    Ok(outlines)
}

// The information of each file.
fn all_infos(
    alloc: Global,
    all: &[Annotation],
    files: &[Covered],
) -> Result<Vec<FileInfo>, AllocError>
    ensures { IfOk result (λ v. v.items ≡ infos_at all.now files.now) }
{
    let mut infos = Vec::new(alloc);
    for file in files {
        infos.push(info_at(alloc, all, file)?)?;
    }
    Ok(infos)
}

// The texts that files have first, in byte order.
fn distinct_in(alloc: Global, firsts: &[First<'_>]) -> Result<Items<SharedText>, AllocError>
    ensures { IfOk result (λ set. set ≡ sorted_set (first_texts (map first_in firsts.now))) }
{
    let mut list = Vec::new(alloc);
    for first in firsts {
        add(&mut list, first.texts.as_slice())?;
    }
    Ok(shared_set(list))
}

impl Infos {
    /// The information of files that have the numbers of these annotations.
    pub fn of(annotations: Vec<Annotation>, files: Vec<Covered>) -> Infos
        ensures { result ≡ infos_at annotations.items files.items }
    {
        Infos { annotations, files }
    }

    /// How many files there are.
    pub fn len(&self) -> usize
        ensures { result ≡ length self.now }
    {
        self.files.len()
    }

    /// The information of each file, with all its texts. The only error is lack of memory.
    pub fn to_vec(&self, alloc: Global) -> Result<Vec<FileInfo>, AllocError>
        ensures { IfOk result (λ v. v.items ≡ self.now) }
    {
        all_infos(alloc, self.annotations.as_slice(), self.files.as_slice())
    }

    /// Each file in outline. The only error is lack of memory.
    pub fn outlines(&self, alloc: Global) -> Result<Vec<Outline<'_>>, AllocError>
        ensures { IfOk result (λ v. map outline_in v.items ≡ map outline_of self.now) }
    {
        outlines_of(alloc, self.annotations.as_slice(), self.files.as_slice())
    }

    /// For each file the texts that no file before it has. Each annotation is looked at once. The
    /// only error is lack of memory.
    pub fn firsts(&self, alloc: Global, of: Subject) -> Result<Vec<First<'_>>, AllocError>
        ensures { IfOk result (λ v. map first_in v.items ≡ firsts_of of self.now) }
    {
        firsts_of(
            alloc,
            of,
            self.annotations.as_slice(),
            self.files.as_slice(),
        )
    }

    /// The distinct texts of all files, in byte order. Each annotation is looked at once. The only
    /// error is lack of memory.
    pub fn distinct(&self, alloc: Global, of: Subject) -> Result<Items<SharedText>, AllocError>
        ensures { IfOk result (λ set. set ≡ sorted_set (flat_map (texts_in of) self.now)) }
    {
        let firsts = self.firsts(alloc, of)?;
        distinct_in(alloc, firsts.as_slice())
    }
}
