//! The sections of a document, and where each tag is read.

ghost use Rattle.std.specs.Prelude.{◌≡◌};
ghost use Rattle.desk_tagvalue.specs.Sections.{section_begun, is_placed, once_in_document, once_in_section, id_form};

use desk_fields::Tag;

/// A kind of section.
#[derive(Clone, Copy, PartialEq, Eq)]
pub enum SectionKind {
    /// The document's own (SPDX 2.3, clause 6), with which every document begins.
    Document,
    /// A package (clause 7).
    Package,
    /// A file (clause 8).
    File,
    /// A snippet (clause 9).
    Snippet,
    /// An extracted licence (clause 10).
    Extracted,
}

/// What an identifier names.
#[derive(Clone, Copy, PartialEq, Eq)]
pub(crate) enum IdForm {
    Document,
    Element,
    Licence,
}

/// The section that a field with this tag begins.
pub fn section_begun(tag: Tag) -> Option<SectionKind>
    ensures { result ≡ section_begun tag }
{
    match tag {
        Tag::PackageName => Some(SectionKind::Package),
        Tag::FileName => Some(SectionKind::File),
        Tag::SnippetIdentifier => Some(SectionKind::Snippet),
        Tag::LicenseIdentifier => Some(SectionKind::Extracted),
        _ => None,
    }
}

/// Whether the tag is read in sections of this kind. Tags of no particular section are read in
/// each.
pub fn is_placed(kind: SectionKind, tag: Tag) -> bool
    ensures { result ≡ is_placed kind tag }
{
    match tag {
        Tag::Identifier => match kind {
            SectionKind::Document | SectionKind::Package | SectionKind::File => true,
            SectionKind::Snippet | SectionKind::Extracted => false,
        },
        Tag::PackageVersion
        | Tag::DownloadLocation
        | Tag::FilesAnalyzed
        | Tag::VerificationCode
        | Tag::PackageConcluded
        | Tag::PackageDeclared
        | Tag::PackageCopyright => match kind {
            SectionKind::Package => true,
            _ => false,
        },
        Tag::FileChecksum | Tag::FileConcluded | Tag::FileLicense | Tag::FileCopyright => {
            match kind {
                SectionKind::File => true,
                _ => false,
            }
        }
        Tag::ExtractedText => match kind {
            SectionKind::Extracted => true,
            _ => false,
        },
        _ => true,
    }
}

/// Whether the tag may occur only once in a document, in whichever section.
pub(crate) fn once_in_document(tag: Tag) -> bool
    ensures { result ≡ once_in_document tag }
{
    match tag {
        Tag::Version
        | Tag::DataLicense
        | Tag::DocumentName
        | Tag::DocumentNamespace
        | Tag::Created => true,
        _ => false,
    }
}

/// Whether the tag may occur only once in a section in which it is read.
pub(crate) fn once_in_section(tag: Tag) -> bool
    ensures { result ≡ once_in_section tag }
{
    match tag {
        Tag::Identifier
        | Tag::PackageVersion
        | Tag::DownloadLocation
        | Tag::FilesAnalyzed
        | Tag::VerificationCode
        | Tag::PackageConcluded
        | Tag::PackageDeclared
        | Tag::PackageCopyright
        | Tag::FileConcluded
        | Tag::FileCopyright
        | Tag::ExtractedText => true,
        _ => false,
    }
}

/// What a field with this tag names in a section of this kind.
pub(crate) fn id_form(kind: SectionKind, tag: Tag) -> Option<IdForm>
    ensures { result ≡ id_form kind tag }
{
    match tag {
        Tag::Identifier => match kind {
            SectionKind::Document => Some(IdForm::Document),
            SectionKind::Package | SectionKind::File => Some(IdForm::Element),
            SectionKind::Snippet | SectionKind::Extracted => None,
        },
        Tag::SnippetIdentifier => Some(IdForm::Element),
        Tag::LicenseIdentifier => Some(IdForm::Licence),
        _ => None,
    }
}
