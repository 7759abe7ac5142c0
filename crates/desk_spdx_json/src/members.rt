//! The members of the objects of a document.

use crate::steps::Kind;
use desk_fields::Tag;

/// How a member's value is written.
#[derive(Clone, Copy)]
pub enum Form {
    /// A text, on one line.
    OneLine(Tag),
    /// A text, in `<text>`.
    InText(Tag),
    /// A text, in `<text>` unless it is `NONE` or `NOASSERTION`.
    Copyright(Tag),
    /// A boolean.
    Flag(Tag),
    /// An array of texts, each on its own line.
    Texts(Tag),
    /// An array of checksums.
    Checksums(Tag),
    /// A package's verification code.
    Code(Tag),
    /// Left out, item by item if it is an array.
    LeftOut(Kind),
    /// Written elsewhere.
    Elsewhere,
}

/// A member of an object.
#[derive(Clone, Copy)]
pub struct Member {
    /// Its key.
    pub key: &'static str,
    /// How its value is written.
    pub form: Form,
    /// Whether it must be there.
    pub is_needed: bool,
}

// A required member.
macro_rules! needed {
    ($key:literal, $form:expr) => {
        Member {
            key: $key,
            form: $form,
            is_needed: true,
        }
    };
}

// An optional member.
macro_rules! perhaps {
    ($key:literal, $form:expr) => {
        Member {
            key: $key,
            form: $form,
            is_needed: false,
        }
    };
}

/// The members of the document.
pub(crate) const DOCUMENT_MEMBERS: [Member; 14] = [
    needed!("spdxVersion", Form::OneLine(Tag::Version)),
    perhaps!("dataLicense", Form::OneLine(Tag::DataLicense)),
    needed!("SPDXID", Form::OneLine(Tag::Identifier)),
    needed!("name", Form::OneLine(Tag::DocumentName)),
    needed!("documentNamespace", Form::OneLine(Tag::DocumentNamespace)),
    perhaps!(
        "externalDocumentRefs",
        Form::LeftOut(Kind::ExternalDocument)
    ),
    perhaps!("annotations", Form::LeftOut(Kind::Annotation)),
    perhaps!("creationInfo", Form::Elsewhere),
    perhaps!("files", Form::Elsewhere),
    perhaps!("snippets", Form::Elsewhere),
    perhaps!("packages", Form::Elsewhere),
    perhaps!("hasExtractedLicensingInfos", Form::Elsewhere),
    perhaps!("documentDescribes", Form::Elsewhere),
    perhaps!("relationships", Form::Elsewhere),
];

/// The members of `creationInfo`.
pub(crate) const CREATION_MEMBERS: [Member; 2] = [
    perhaps!("creators", Form::Texts(Tag::Creator)),
    perhaps!("created", Form::OneLine(Tag::Created)),
];

/// The members of a package.
pub(crate) const PACKAGE_MEMBERS: [Member; 12] = [
    needed!("name", Form::OneLine(Tag::PackageName)),
    needed!("SPDXID", Form::OneLine(Tag::Identifier)),
    perhaps!("versionInfo", Form::OneLine(Tag::PackageVersion)),
    perhaps!("downloadLocation", Form::OneLine(Tag::DownloadLocation)),
    perhaps!("filesAnalyzed", Form::Flag(Tag::FilesAnalyzed)),
    perhaps!("packageVerificationCode", Form::Code(Tag::VerificationCode)),
    perhaps!("licenseConcluded", Form::OneLine(Tag::PackageConcluded)),
    perhaps!("licenseDeclared", Form::OneLine(Tag::PackageDeclared)),
    perhaps!("copyrightText", Form::Copyright(Tag::PackageCopyright)),
    perhaps!("externalRefs", Form::LeftOut(Kind::ExternalReference)),
    perhaps!("annotations", Form::LeftOut(Kind::Annotation)),
    perhaps!("hasFiles", Form::Elsewhere),
];

/// The members of a file.
pub(crate) const FILE_MEMBERS: [Member; 7] = [
    needed!("fileName", Form::OneLine(Tag::FileName)),
    needed!("SPDXID", Form::OneLine(Tag::Identifier)),
    perhaps!("checksums", Form::Checksums(Tag::FileChecksum)),
    perhaps!("licenseConcluded", Form::OneLine(Tag::FileConcluded)),
    perhaps!("licenseInfoInFiles", Form::Texts(Tag::FileLicense)),
    perhaps!("copyrightText", Form::Copyright(Tag::FileCopyright)),
    perhaps!("annotations", Form::LeftOut(Kind::Annotation)),
];

/// The members of a snippet.
pub(crate) const SNIPPET_MEMBERS: [Member; 2] = [
    needed!("SPDXID", Form::OneLine(Tag::SnippetIdentifier)),
    perhaps!("annotations", Form::LeftOut(Kind::Annotation)),
];

/// The members of an extracted licence.
pub(crate) const EXTRACTED_MEMBERS: [Member; 2] = [
    needed!("licenseId", Form::OneLine(Tag::LicenseIdentifier)),
    perhaps!("extractedText", Form::InText(Tag::ExtractedText)),
];

/// The members of a relationship.
pub(crate) const RELATIONSHIP_MEMBERS: [Member; 3] = [
    perhaps!("spdxElementId", Form::Elsewhere),
    perhaps!("relationshipType", Form::Elsewhere),
    perhaps!("relatedSpdxElement", Form::Elsewhere),
];
