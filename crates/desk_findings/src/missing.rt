//! Fields that a document should have but doesn't, and relationships that lead nowhere.

ghost use Rattle.std.specs.Prelude.{◌≡◌, ◌++◌, OnOk, map, is_none, ◌||◌};
ghost use Rattle.desk_findings.specs.Kinds.{noted};
ghost use Rattle.std.specs.List.{flat_map};
ghost use Rattle.desk_tagvalue.specs.Documents.{document_text};
ghost use Rattle.desk_tagvalue.specs.Entries.{entry_text, value_of};
ghost use Rattle.desk_tagvalue.specs.Parts.{DocumentText};
ghost use Rattle.desk_tagvalue.specs.Views.{edge_text, package_text, file_text, extracted_text};
ghost use Rattle.desk_bom.specs.Notes.{Notes};
ghost use Rattle.desk_findings.specs.Findings.{is_lost, edge_findings, missing_of_document, missing_of_package, missing_of_file, missing_of_extracted};

use crate::finding::note;
use desk_bom::Elements;
use desk_fields::Tag;
use desk_model::{Finding, FindingKind, MissingField};
use desk_tagvalue::{Document, Edge, Entry, Extracted, FileEntry, Package};
use std::alloc::AllocError;

// Whether an identifier in the document names no element.
fn is_lost(elements: &Elements, id: &str) -> bool
    ensures { (d : DocumentText) → Notes d elements.now → result ≡ is_lost d id.now }
{
    id.starts_with("SPDXRef-") && elements.place(id).is_none()
}

fn is_dangling(elements: &Elements, edge: &Edge) -> bool
    ensures { (d : DocumentText) → Notes d elements.now
        → result ≡ (is_lost d edge.now.left.now || is_lost d edge.now.right.now) }
{
    is_lost(elements, edge.left) || is_lost(elements, edge.right)
}

/// Adds the findings of relationships.
pub(crate) fn add_dangling(
    found: &mut Vec<Finding>,
    elements: &Elements,
    edges: &[Edge],
) -> Result<(), AllocError>
    ensures { (d : DocumentText) → Notes d elements.now
        → OnOk result (found.new.items ≡ found.old.items ++ flat_map (edge_findings d)
        (map edge_text edges.now)) }
{
    for edge in edges {
        note(
            found,
            is_dangling(elements, edge),
            edge.line,
            FindingKind::Dangling,
        )?;
    }
    Ok(())
}

// Whether no field has the tag.
fn is_absent(entries: &[Entry], tag: Tag) -> bool
    ensures { result ≡ is_none (value_of tag (map entry_text entries.now)) }
{
    for entry in entries {
        if entry.tag.is(tag) {
            return false;
        }
    }
    true
}

// Adds the finding about a field of the document, if no field has the tag.
fn add_absent(
    found: &mut Vec<Finding>,
    entries: &[Entry],
    tag: Tag,
    field: MissingField,
) -> Result<(), AllocError>
    ensures { OnOk result (found.new.items ≡ found.old.items ++ noted
        (is_none (value_of tag (map entry_text entries.now))) 1 (FindingKind.MissingField field)) }
{
    note(
        found,
        is_absent(entries, tag),
        1,
        FindingKind::MissingField(field),
    )
}

/// Adds the findings of the document's own fields.
pub(crate) fn add_of_document(
    found: &mut Vec<Finding>,
    document: &Document,
) -> Result<(), AllocError>
    ensures { OnOk result (found.new.items ≡ found.old.items ++ missing_of_document
        (document_text document.now)) }
{
    let entries = document.entries.as_slice();
    add_absent(found, entries, Tag::DataLicense, MissingField::DataLicense)?;
    add_absent(found, entries, Tag::Creator, MissingField::Creator)?;
    add_absent(found, entries, Tag::Created, MissingField::Created)?;
    Ok(())
}

/// Adds the findings of packages.
pub(crate) fn add_of_packages(
    found: &mut Vec<Finding>,
    packages: &[Package],
) -> Result<(), AllocError>
    ensures { OnOk result (found.new.items ≡ found.old.items ++ flat_map missing_of_package
        (map package_text packages.now)) }
{
    for package in packages {
        let kind = FindingKind::MissingField(MissingField::DownloadLocation);
        note(
            found,
            package.download_location.is_none(),
            package.line,
            kind,
        )?;
    }
    Ok(())
}

/// Adds the findings of files.
pub(crate) fn add_of_files(found: &mut Vec<Finding>, files: &[FileEntry]) -> Result<(), AllocError>
    ensures { OnOk result (found.new.items ≡ found.old.items ++ flat_map missing_of_file
        (map file_text files.now)) }
{
    for file in files {
        let kind = FindingKind::MissingField(MissingField::Checksum);
        note(found, file.sha1.is_none(), file.line, kind)?;
    }
    Ok(())
}

/// Adds the findings of extracted licences.
pub(crate) fn add_of_extracted(
    found: &mut Vec<Finding>,
    extracted: &[Extracted],
) -> Result<(), AllocError>
    ensures { OnOk result (found.new.items ≡ found.old.items ++ flat_map missing_of_extracted
        (map extracted_text extracted.now)) }
{
    for licence in extracted {
        let kind = FindingKind::MissingField(MissingField::ExtractedText);
        note(found, licence.text.is_none(), licence.line, kind)?;
    }
    Ok(())
}
