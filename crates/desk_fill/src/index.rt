//! Entries by what they are for.

ghost use Rattle.std.specs.Prelude.{◌≡◌, ◌++◌, ◌∷◌, [], List, ℕ, map, not, false, length, IfOk, OnOk, option_map};
ghost use Rattle.std.specs.List.{list_any, position_or_len, slice_get};
ghost use Rattle.desk_fill.specs.declared.subjects.Subject.{Subject};
ghost use Rattle.desk_fill.specs.Subjects.{Entry, Indexes, Knows, credit_entries, credit_entry, is_of, subject_of_credit, subject_of_title, text_entries, text_entry};

use crate::fill::{Credit, Fill};
use crate::subjects::Subject;
use desk_base::{Key, Text};
use desk_model::LicenceText;
use desk_tokens::is_reference;
use std::alloc::{AllocError, Global};
use std::collections::BTreeMap;

/// A package, and its version or any.
pub(crate) fn subject_of_package(
    alloc: Global,
    name: &Text,
    version: Option<&Text>,
) -> Result<Subject, AllocError>
    ensures { IfOk result (λ s. s ≡ record {
      name = name.now;
      version = option_map (λ text. text.now) version.entry;
    }) }
{
    let name = Key::exact(alloc, name.as_str())?;
    let version = match version {
        Some(version) => Some(Key::exact(alloc, version.as_str())?),
        None => None,
    };
    Ok(Subject { name, version })
}

/// What a credit is for.
pub(crate) fn subject_of_credit(alloc: Global, credit: &Credit) -> Result<Subject, AllocError>
    ensures { IfOk result (λ s. s ≡ subject_of_credit credit.now) }
{
    subject_of_package(alloc, &credit.name, credit.version.as_ref())
}

/// What a text with this title is for.
pub(crate) fn subject_of_title(alloc: Global, title: &str) -> Result<Subject, AllocError>
    ensures { IfOk result (λ s. s ≡ subject_of_title title.now) }
{
    let name = if is_reference(title.as_bytes()) {
        Key::exact(alloc, title)?
    } else {
        Key::folded(alloc, title)?
    };
    Ok(Subject {
        name,
        version: None,
    })
}

/// Notes the place of a subject if it is the first one, and returns whether it is.
pub(crate) fn note(
    firsts: &mut BTreeMap<Subject, usize>,
    subject: Subject,
    place: usize,
) -> Result<bool, AllocError>
    ensures new { (subjects : List Subject) → place ≡ length subjects → Knows subjects firsts.old
        → IfOk result (λ new. new ≡ not (list_any (is_of subject) subjects)) }
    ensures knows { (subjects : List Subject) → place ≡ length subjects → Knows subjects firsts.old
        → OnOk result (Knows (subjects ++ subject ∷ []) firsts.new) }
    ensures kept { IfOk result (λ new. new ≡ false → firsts.new ≡ firsts.old) }
{
    if firsts.contains_key(&subject) {
        return Ok(false);
    }
    firsts.insert(subject, place)?;
    Ok(true)
}

/// Texts by what they are for, of which the first counts.
#[derive(Drop)]
pub(crate) struct Index<'a> {
    texts: Vec<&'a Text>,
    firsts: BTreeMap<Subject, usize>,
}

impl<'a> Index<'a> {
    fn new(alloc: Global) -> Index<'a>
        ensures { Indexes [] result }
    {
        Index {
            texts: Vec::new(alloc),
            firsts: BTreeMap::new(alloc),
        }
    }

    // Adds a text. The only error is lack of memory.
    fn add(&mut self, subject: Subject, text: &'a Text) -> Result<(), AllocError>
        ensures { (entries : List Entry) → Indexes entries self.old
            → OnOk result (Indexes (entries ++ (subject, text.now) ∷ []) self.new) }
    {
        note(&mut self.firsts, subject, self.texts.len())?;
        self.texts.push(text)?;
        Ok(())
    }

    /// The place of the first text for a subject, or the number of all if there is none.
    pub(crate) fn place(&self, subject: &Subject) -> usize
        ensures { (entries : List Entry) → Indexes entries self.now
            → result ≡ position_or_len (is_of subject.now) (map (λ (e : Entry). e.0) entries) }
    {
        self.firsts
            .get(subject)
            .copied()
            .unwrap_or(self.texts.len())
    }

    /// The text at a place.
    pub(crate) fn text(&self, place: usize) -> Option<&'a Text>
        ensures { (entries : List Entry) → Indexes entries self.now
            → option_map (λ text. text.now) result
            ≡ slice_get (map (λ (e : Entry). e.1) entries) place }
    {
        self.texts.get(place).copied()
    }
}

// Adds the credits of a file.
fn add_credits<'a>(
    alloc: Global,
    index: &mut Index<'a>,
    credits: &'a [Credit],
) -> Result<(), AllocError>
    ensures { (entries : List Entry) → Indexes entries index.old
        → OnOk result (Indexes (entries ++ map credit_entry credits.now) index.new) }
{
    for credit in credits {
        index.add(subject_of_credit(alloc, credit)?, &credit.text)?;
    }
    Ok(())
}

// Adds the texts of a file.
fn add_texts<'a>(
    alloc: Global,
    index: &mut Index<'a>,
    texts: &'a [LicenceText],
) -> Result<(), AllocError>
    ensures { (entries : List Entry) → Indexes entries index.old
        → OnOk result (Indexes (entries ++ map text_entry texts.now) index.new) }
{
    for text in texts {
        index.add(subject_of_title(alloc, text.title.as_str())?, &text.body)?;
    }
    Ok(())
}

/// The credits of some files. The only error is lack of memory.
pub(crate) fn credit_index(alloc: Global, fills: &[Fill]) -> Result<Index<'_>, AllocError>
    ensures { IfOk result (Indexes (credit_entries fills.now)) }
{
    let mut index = Index::new(alloc);
    for fill in fills {
        add_credits(alloc, &mut index, fill.credits.as_slice())?;
    }
    Ok(index)
}

/// The texts of some files. The only error is lack of memory.
pub(crate) fn text_index(alloc: Global, fills: &[Fill]) -> Result<Index<'_>, AllocError>
    ensures { IfOk result (Indexes (text_entries fills.now)) }
{
    let mut index = Index::new(alloc);
    for fill in fills {
        add_texts(alloc, &mut index, fill.texts.as_slice())?;
    }
    Ok(index)
}
