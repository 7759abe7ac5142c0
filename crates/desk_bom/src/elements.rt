//! The elements of a document by their identifiers.

ghost use Rattle.std.specs.Prelude.{◌≡◌, ◌++◌, ◌∷◌, ◌<◌, ◌%◌, [], ℕ, List, IfOk, OnOk, Some, codes, map, length, slice_index_or};
ghost use Rattle.std.specs.Option.{option_copied};
ghost use Rattle.desk_tagvalue.specs.Documents.{document_text};
ghost use Rattle.desk_bom.specs.Places.{tail_number, slot_of, place_in, place_of};
ghost use Rattle.desk_bom.specs.Elements.{element_ids, element_named, element_noted, element_count};
ghost use Rattle.desk_bom.specs.Notes.{Notes};
ghost use Rattle.desk_bom.specs.Contents.{package_at, file_at, package_named, file_named};
ghost use Rattle.desk_tagvalue.specs.Parts.{DocumentText};
ghost use Rattle.desk_base.specs.Borrowed.{texts};

use crate::places::Places;
use desk_tagvalue::{Document, FileEntry, Package, Snippet};
use std::alloc::{AllocError, Global};

/// Which element of a document an identifier names (SPDX 2.3, clauses 6.3, 7.2, 8.2 and 9.1).
#[derive(Drop)]
pub struct Elements<'a> {
    count: usize,
    packages: usize,
    files: usize,
    places: Places<'a>,
}

fn add_packages<'a>(ids: &mut Vec<&'a str>, packages: &[Package<'a>]) -> Result<(), AllocError>
    ensures { OnOk result (texts ids.new.items
        ≡ texts ids.old.items ++ map (λ p. p.id.now) packages.now) }
{
    for package in packages {
        ids.push(package.id)?;
    }
    Ok(())
}

fn add_files<'a>(ids: &mut Vec<&'a str>, files: &[FileEntry<'a>]) -> Result<(), AllocError>
    ensures { OnOk result (texts ids.new.items
        ≡ texts ids.old.items ++ map (λ f. f.id.now) files.now) }
{
    for file in files {
        ids.push(file.id)?;
    }
    Ok(())
}

fn add_snippets<'a>(ids: &mut Vec<&'a str>, snippets: &[Snippet<'a>]) -> Result<(), AllocError>
    ensures { OnOk result (texts ids.new.items
        ≡ texts ids.old.items ++ map (λ s. s.id.now) snippets.now) }
{
    for snippet in snippets {
        ids.push(snippet.id)?;
    }
    Ok(())
}

// The identifiers of all elements of a document, in their order.
fn ids_of<'a>(alloc: Global, document: &Document<'a>) -> Result<Vec<&'a str>, AllocError>
    ensures { IfOk result (λ v. texts v.items ≡ element_ids (document_text document.now)) }
{
    let mut ids = Vec::new(alloc);
    ids.push("SPDXRef-DOCUMENT")?;
    add_packages(&mut ids, document.packages.as_slice())?;
    add_files(&mut ids, document.files.as_slice())?;
    add_snippets(&mut ids, document.snippets.as_slice())?;
    Ok(ids)
}

impl<'a> Elements<'a> {
    /// Collects the elements of a document.
    pub fn of(alloc: Global, document: &Document<'a>) -> Result<Elements<'a>, AllocError>
        ensures { IfOk result (Notes (document_text document.now)) }
    {
        let ids = ids_of(alloc, document)?;
        let count = ids.len();
        Ok(Elements {
            count,
            packages: document.packages.as_slice().len(),
            files: document.files.as_slice().len(),
            places: Places::of(alloc, ids)?,
        })
    }

    /// How many elements there are.
    pub fn count(&self) -> usize
        ensures { result ≡ element_count self.now }
    {
        self.count
    }

    /// The element that an identifier names: its place among the document itself, the packages, the
    /// files and the snippets.
    pub fn place(&self, id: &str) -> Option<usize>
        ensures { result ≡ element_noted self.now id.now }
    {
        self.places.get(id)
    }

    /// The package that an identifier names, by its place among the packages.
    pub fn package(&self, id: &str) -> Option<usize>
        ensures { (d : DocumentText) → Notes d self.now → result ≡ package_named d id.now }
    {
        match self.place(id) {
            Some(place) => self.package_at(place),
            None => None,
        }
    }

    /// The file that an identifier names, by its place among the files.
    pub fn file(&self, id: &str) -> Option<usize>
        ensures { (d : DocumentText) → Notes d self.now → result ≡ file_named d id.now }
    {
        match self.place(id) {
            Some(place) => self.file_at(place),
            None => None,
        }
    }

    // The package that is an element.
    fn package_at(&self, place: usize) -> Option<usize>
        ensures { (d : DocumentText) → Notes d self.now → result ≡ package_at d place }
    {
        if place > 0 && place <= self.packages {
            Some(place - 1)
        } else {
            None
        }
    }

    // The file that is an element.
    fn file_at(&self, place: usize) -> Option<usize>
        ensures { (d : DocumentText) → Notes d self.now → result ≡ file_at d place }
    {
        if place > self.packages && place - self.packages <= self.files {
            Some(place - self.packages - 1)
        } else {
            None
        }
    }
}
