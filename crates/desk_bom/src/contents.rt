//! The files of packages.

ghost use Rattle.std.specs.Prelude.{◌≡◌, ◌+◌, ◌++◌, ◌∷◌, [], ◌↔◌, ℕ, List, IfOk, OnOk, Contains, map, length};
ghost use Rattle.std.specs.List.{count_by, filter_map};
ghost use Rattle.std.specs.List.Sorted.{IsStrictlyIncreasing};
ghost use Rattle.desk_fields.specs.declared.tag.Tag.TheVariants as tags;
ghost use Rattle.desk_tagvalue.specs.Documents.{document_text};
ghost use Rattle.desk_tagvalue.specs.Entries.{EntryText, entry_text};
ghost use Rattle.desk_tagvalue.specs.Faults.{has_tag};
ghost use Rattle.desk_tagvalue.specs.Parts.{DocumentText};
ghost use Rattle.desk_tagvalue.specs.Views.{edge_text};
ghost use Rattle.desk_bom.specs.declared.arrows.Arrow.{Arrow};
ghost use Rattle.desk_bom.specs.Notes.{Notes};
ghost use Rattle.desk_bom.specs.Targets.{Ascend};
ghost use Rattle.desk_bom.specs.Contents.{onto_package, own_files, package_named, file_named, tie, contents};

use crate::Elements;
use crate::arrows::{Arrow, arrow_between, targets};
use desk_fields::Tag;
use desk_tagvalue::{Document, Edge, Entry};
use std::alloc::{AllocError, Global};

/// The package and the file that a relationship connects.
fn tie(elements: &Elements, edge: &Edge) -> Option<Arrow>
    ensures { (d : DocumentText) → Notes d elements.now → result ≡ tie d (edge_text edge.now) }
{
    if edge.kind == "CONTAINS" {
        return arrow_between(elements.package(edge.left), elements.file(edge.right));
    }
    if edge.kind == "CONTAINED_BY" {
        return arrow_between(elements.package(edge.right), elements.file(edge.left));
    }
    None
}

// Adds a file to the last of this many packages.
fn onto_package(found: &mut Vec<Arrow>, packages: usize, file: usize) -> Result<(), AllocError>
    ensures { OnOk result ((more : List Arrow)
        → found.new.items ++ more ≡ found.old.items ++ onto_package packages file more) }
{
    if packages > 0 {
        found.push(Arrow {
            from: packages - 1,
            to: file,
        })?;
    }
    Ok(())
}

// Adds the files between a PackageName and the next one.
fn add_own(found: &mut Vec<Arrow>, entries: &[Entry]) -> Result<(), AllocError>
    ensures { OnOk result (found.new.items
        ≡ found.old.items ++ own_files 0 0 (map entry_text entries.now)) }
{
    let mut packages = 0;
    let mut files = 0;
    for entry in entries {
        if entry.tag.is(Tag::PackageName) {
            packages += 1;
        } else if entry.tag.is(Tag::FileName) {
            onto_package(found, packages, files)?;
            files += 1;
        }
    }
    Ok(())
}

// Adds the files that relationships assign to packages.
fn add_tied(
    found: &mut Vec<Arrow>,
    document: &Document,
    elements: &Elements,
) -> Result<(), AllocError>
    requires { Notes (document_text document.now) elements.now }
    ensures { OnOk result (found.new.items ≡ found.old.items ++ filter_map
        (tie (document_text document.now)) (document_text document.now).edges) }
{
    let edges = document.edges.as_slice();
    for edge in edges {
        match tie(elements, edge) {
            Some(arrow) => found.push(arrow)?,
            None => {}
        }
    }
    Ok(())
}

/// Which files each package of a document has, collected once for all packages.
#[derive(Drop)]
pub struct Contents {
    arrows: Vec<Arrow>,
    ghost ascend: { Ascend arrows.items },
}

impl Contents {
    ghost use Rattle.desk_bom.specs.Held.{Holds};

    /// Collects the files of a document's packages.
    pub fn of(
        alloc: Global,
        document: &Document,
        elements: &Elements,
    ) -> Result<Contents, AllocError>
        requires { Notes (document_text document.now) elements.now }
        ensures { IfOk result (Holds (document_text document.now)) }
    {
        let mut arrows = Vec::new(alloc);
        add_own(&mut arrows, document.entries.as_slice())?;
        add_tied(&mut arrows, document, elements)?;
        arrows.sort()?;
        arrows.dedup();
        Ok(Contents { arrows })
    }

    /// The arrows to a package's files, each once, in the order of the files.
    pub(crate) fn files(&self, owner: usize) -> &[Arrow]
        ensures once { IsStrictlyIncreasing (map (λ x. x.to) result.now) }
        ensures members { (j : ℕ) → Contains (map (λ x. x.to) result.now) j
            ↔ Contains self.now.arrows.items (record { from = owner; to = j }) }
    {
        targets(&self.arrows, owner)
    }
}

/// A file belongs to the last package that begins before it, and to none if none does: packages and
/// files are identified by how many begin before them.
pub fn files_belong_to_the_package_before()
    ensures own { (d : DocumentText) (before between after : List EntryText) (p f : EntryText)
        → d.entries ≡ before ++ (p ∷ (between ++ (f ∷ after))) → p.tag ≡ tags.PackageName
        → f.tag ≡ tags.FileName → count_by (has_tag tags.PackageName) between ≡ 0
        → Contains (contents d) (record {
          from = count_by (has_tag tags.PackageName) before;
          to = count_by (has_tag tags.FileName) before + count_by (has_tag tags.FileName) between;
        }) }
    ensures none { (es : List EntryText) → count_by (has_tag tags.PackageName) es ≡ 0
        → own_files 0 0 es ≡ [] }
{}
