//! Drafts of documents, and their lines.

ghost use Rattle.std.specs.Prelude.{◌≡◌, map, length};
ghost use Rattle.desk_tagvalue.specs.Drafts.{copyright_line, head_lines, lines_of_file, line_text};

use desk_base::{Items, Text};
use desk_fields::Tag;

/// A document of one package and its files, to be written.
#[derive(Drop)]
pub struct Draft {
    /// The name of the document and of its package.
    pub name: Text,
    /// The document's namespace.
    pub namespace: Text,
    /// When the document was made, as `2025-01-01T00:00:00Z`.
    pub created: Text,
    /// The package's verification code.
    pub code: Text,
    /// The package's concluded licence.
    pub concluded: Text,
    /// The package's copyright; `NOASSERTION` is written as it is, any other in `<text>`.
    pub copyright: Text,
    /// The files, which are numbered from 1.
    pub files: Items<DraftFile>,
}

/// A file of a draft.
#[derive(Drop)]
pub struct DraftFile {
    /// Its path in the tree, without `./`.
    pub path: Text,
    /// The SHA1 of its bytes.
    pub digest: [u8; 20],
    /// Its concluded licence.
    pub concluded: Text,
    /// Its copyright, as for the package.
    pub copyright: Text,
}

/// A line, or lines, of a draft's text.
#[derive(Clone, Copy)]
pub enum DraftLine<'a> {
    /// A blank line.
    Blank,
    /// A field on one line.
    OneLine(Tag, &'a str),
    /// A field in `<text>`.
    InText(Tag, &'a str),
}

/// A copyright: anything but `NOASSERTION` is in `<text>`.
pub(crate) fn copyright_line<'a>(tag: Tag, copyright: &'a str) -> DraftLine<'a>
    ensures { line_text result ≡ copyright_line tag copyright.now }
{
    if copyright == "NOASSERTION" {
        DraftLine::OneLine(tag, copyright)
    } else {
        DraftLine::InText(tag, copyright)
    }
}

/// The lines of the document and its package.
pub(crate) fn head_lines<'a>(draft: &'a Draft) -> [DraftLine<'a>; 16]
    ensures { map line_text result ≡ head_lines draft.now }
{
    [
        DraftLine::OneLine(Tag::Version, "SPDX-2.3"),
        DraftLine::OneLine(Tag::DataLicense, "CC0-1.0"),
        DraftLine::OneLine(Tag::Identifier, "SPDXRef-DOCUMENT"),
        DraftLine::OneLine(Tag::DocumentName, draft.name.as_str()),
        DraftLine::OneLine(Tag::DocumentNamespace, draft.namespace.as_str()),
        DraftLine::OneLine(Tag::Creator, "Tool: licence-desk-1"),
        DraftLine::OneLine(Tag::Created, draft.created.as_str()),
        DraftLine::Blank,
        DraftLine::OneLine(Tag::PackageName, draft.name.as_str()),
        DraftLine::OneLine(Tag::Identifier, "SPDXRef-Package"),
        DraftLine::OneLine(Tag::DownloadLocation, "NOASSERTION"),
        DraftLine::OneLine(Tag::FilesAnalyzed, "true"),
        DraftLine::OneLine(Tag::VerificationCode, draft.code.as_str()),
        DraftLine::OneLine(Tag::PackageConcluded, draft.concluded.as_str()),
        copyright_line(Tag::PackageCopyright, draft.copyright.as_str()),
        DraftLine::OneLine(
            Tag::Relationship,
            "SPDXRef-DOCUMENT DESCRIBES SPDXRef-Package",
        ),
    ]
}

/// The lines of a file, from its name, identifier and checksum as they are written.
pub(crate) fn lines_of_file<'a>(
    name: &'a str,
    id: &'a str,
    checksum: &'a str,
    file: &'a DraftFile,
) -> [DraftLine<'a>; 6]
    ensures { map line_text result ≡ lines_of_file name.now id.now checksum.now file.now }
{
    [
        DraftLine::Blank,
        DraftLine::OneLine(Tag::FileName, name),
        DraftLine::OneLine(Tag::Identifier, id),
        DraftLine::OneLine(Tag::FileChecksum, checksum),
        DraftLine::OneLine(Tag::FileConcluded, file.concluded.as_str()),
        copyright_line(Tag::FileCopyright, file.copyright.as_str()),
    ]
}
