//! Each text at the first file that has it.

ghost use Rattle.std.specs.Prelude.{◌≡◌, ◌∷◌, [], ◌||◌, not, List, ℕ, IfOk, OnOk, filter, map};
ghost use Rattle.desk_base.specs.TextSets.{is_among, has_text};
ghost use Rattle.desk_model.specs.Texts.{sorted_set};
ghost use Rattle.desk_tree_infos.specs.Firsts.{AddsUnseen, Knows, first_in, firsts_of};
ghost use Rattle.desk_tree_infos.specs.Sharing.{texts_at, all_texts, infos_at};

use crate::information::{Sources, Subject, texts_at};
use crate::infos::Covered;
use crate::sets::shared_set;
use desk_base::Items;
use desk_tree_annotations::{Annotation, SharedText, SharedTexts};
use std::alloc::{AllocError, Global};
use std::collections::BTreeSet;

/// A file's path, and those of its texts that no file before it has.
#[derive(Drop)]
pub struct First<'a> {
    /// Its path.
    pub path: &'a str,
    /// The texts, in byte order.
    pub texts: Items<SharedText>,
}

// What was seen: texts, and the annotations whose texts are all among these.
#[derive(Drop)]
pub(crate) struct Seen<'m> {
    pub(crate) texts: BTreeSet<&'m str>,
    pub(crate) numbers: BTreeSet<usize>,
}

// Adds the texts that weren't seen before.
fn add_unseen<'m>(
    seen: &mut BTreeSet<&'m str>,
    texts: &'m [SharedText],
    list: &mut Vec<SharedText>,
) -> Result<(), AllocError>
    ensures { OnOk result (AddsUnseen texts.now seen.old seen.new list.old.items list.new.items) }
{
    for text in texts {
        let added = seen.insert(text.as_str())?;
        if !added {
            continue;
        }
        list.push(text.clone()?)?;
    }
    Ok(())
}

// Adds the texts of a list that weren't seen before.
fn add_listed<'m>(
    seen: &mut BTreeSet<&'m str>,
    texts: &'m SharedTexts,
    list: &mut Vec<SharedText>,
) -> Result<(), AllocError>
    ensures { OnOk result (AddsUnseen texts.now seen.old seen.new list.old.items list.new.items) }
{
    for place in 0..texts.len() {
        let added = seen.insert(texts.at(place))?;
        if !added {
            continue;
        }
        list.push(texts.share(place)?)?;
    }
    Ok(())
}

// Adds the texts of an annotation that weren't seen before: none if the annotation was seen.
fn add_annotation<'m>(
    of: Subject,
    all: &'m [Annotation],
    number: usize,
    seen: &mut Seen<'m>,
    list: &mut Vec<SharedText>,
) -> Result<(), AllocError>
    requires { Knows all.now of seen.old }
    ensures knows { OnOk result (Knows all.now of seen.new) }
    ensures adds { OnOk result (AddsUnseen (texts_at all.now of (number ∷ []))
        seen.old.texts seen.new.texts list.old.items list.new.items) }
{
    let added = seen.numbers.insert(number)?;
    if !added {
        return Ok(());
    }
    match texts_at(of, all, number) {
        Some(texts) => add_listed(&mut seen.texts, texts, list),
        None => Ok(()),
    }
}

// The texts of a file that weren't seen before.
fn unseen_texts<'m>(
    alloc: Global,
    of: Subject,
    all: &'m [Annotation],
    sources: &'m Sources,
    seen: &mut Seen<'m>,
) -> Result<Items<SharedText>, AllocError>
    requires { Knows all.now of seen.old }
    ensures knows { OnOk result (Knows all.now of seen.new) }
    ensures seen { OnOk result ((t : List ℕ) → has_text seen.new.texts t
        ≡ (is_among (all_texts all.now of sources.now) t || has_text seen.old.texts t)) }
    ensures unseen { IfOk result (λ texts. texts ≡ filter (λ t. not (has_text seen.old.texts t))
        (sorted_set (all_texts all.now of sources.now))) }
{
    let mut list = Vec::new(alloc);
    for number in sources.numbers.as_slice() {
        add_annotation(of, all, *number, seen, &mut list)?;
    }
    add_unseen(&mut seen.texts, sources.own.as_slice(), &mut list)?;
    Ok(shared_set(list))
}

/// For each file the texts that no file before it has.
pub(crate) fn firsts_of<'m>(
    alloc: Global,
    of: Subject,
    all: &'m [Annotation],
    files: &'m [Covered],
) -> Result<Vec<First<'m>>, AllocError>
    ensures { IfOk result (λ v. map first_in v.items ≡ firsts_of of (infos_at all.now files.now)) }
{
    let mut seen = Seen {
        texts: BTreeSet::new(alloc),
        numbers: BTreeSet::new(alloc),
    };
    let mut firsts = Vec::new(alloc);
    for file in files {
        let texts = unseen_texts(alloc, of, all, file.sources(of), &mut seen)?;
        let path = file.path.as_str();
        firsts.push(First { path, texts })?;
    }
    Ok(firsts)
}
