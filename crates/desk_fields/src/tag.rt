//! The tags of a document.

ghost use Rattle.std.specs.Prelude.{◌≡◌};
ghost use Rattle.desk_fields.specs.Tags.{tag_of, tag_name, same_tag, document_tag, package_tag, file_tag, other_tag, is_read_over, is_date_or_purpose, begins_as_element, begins_as_remark, begins_as_document};

/// What the tag of a field is read as.
#[derive(Debug, Clone, Copy, PartialEq, Eq)]
pub enum Tag {
    /// `SPDXVersion`, of the document.
    Version,
    /// `DataLicense`, of the document.
    DataLicense,
    /// `SPDXID`, of the document, a package or a file.
    Identifier,
    /// `DocumentName`.
    DocumentName,
    /// `DocumentNamespace`.
    DocumentNamespace,
    /// `Creator`, of the document.
    Creator,
    /// `Created`, of the document.
    Created,
    /// `PackageName`, which begins a package.
    PackageName,
    /// `PackageVersion`.
    PackageVersion,
    /// `PackageDownloadLocation`.
    DownloadLocation,
    /// `FilesAnalyzed`, of a package.
    FilesAnalyzed,
    /// `PackageVerificationCode`.
    VerificationCode,
    /// `PackageLicenseConcluded`.
    PackageConcluded,
    /// `PackageLicenseDeclared`.
    PackageDeclared,
    /// `PackageCopyrightText`.
    PackageCopyright,
    /// `FileName`, which begins a file.
    FileName,
    /// `FileChecksum`.
    FileChecksum,
    /// `LicenseConcluded`, of a file.
    FileConcluded,
    /// `LicenseInfoInFile`, of a file.
    FileLicense,
    /// `FileCopyrightText`.
    FileCopyright,
    /// `SnippetSPDXID`, which begins a snippet.
    SnippetIdentifier,
    /// `LicenseID`, which begins an extracted licence.
    LicenseIdentifier,
    /// `ExtractedText`, of an extracted licence.
    ExtractedText,
    /// `Relationship`, in any section.
    Relationship,
    /// Another tag of the standard, or one that begins like these; it is skipped.
    ReadOver,
    /// Any other tag.
    Unknown,
}

// The tags of the document (clause 6).
fn document_tag(text: &str) -> Option<Tag>
    ensures { result ≡ document_tag text.now }
{
    match text {
        "SPDXVersion" => Some(Tag::Version),
        "DataLicense" => Some(Tag::DataLicense),
        "SPDXID" => Some(Tag::Identifier),
        "DocumentName" => Some(Tag::DocumentName),
        "DocumentNamespace" => Some(Tag::DocumentNamespace),
        "Creator" => Some(Tag::Creator),
        "Created" => Some(Tag::Created),
        _ => None,
    }
}

// The tags of a package (clause 7).
fn package_tag(text: &str) -> Option<Tag>
    ensures { result ≡ package_tag text.now }
{
    match text {
        "PackageName" => Some(Tag::PackageName),
        "PackageVersion" => Some(Tag::PackageVersion),
        "PackageDownloadLocation" => Some(Tag::DownloadLocation),
        "FilesAnalyzed" => Some(Tag::FilesAnalyzed),
        "PackageVerificationCode" => Some(Tag::VerificationCode),
        "PackageLicenseConcluded" => Some(Tag::PackageConcluded),
        "PackageLicenseDeclared" => Some(Tag::PackageDeclared),
        "PackageCopyrightText" => Some(Tag::PackageCopyright),
        _ => None,
    }
}

// The tags of a file (clause 8).
fn file_tag(text: &str) -> Option<Tag>
    ensures { result ≡ file_tag text.now }
{
    match text {
        "FileName" => Some(Tag::FileName),
        "FileChecksum" => Some(Tag::FileChecksum),
        "LicenseConcluded" => Some(Tag::FileConcluded),
        "LicenseInfoInFile" => Some(Tag::FileLicense),
        "FileCopyrightText" => Some(Tag::FileCopyright),
        _ => None,
    }
}

// The tags of snippets (clause 9), extracted licences (clause 10) and relationships (clause 11).
fn other_tag(text: &str) -> Option<Tag>
    ensures { result ≡ other_tag text.now }
{
    match text {
        "SnippetSPDXID" => Some(Tag::SnippetIdentifier),
        "LicenseID" => Some(Tag::LicenseIdentifier),
        "ExtractedText" => Some(Tag::ExtractedText),
        "Relationship" => Some(Tag::Relationship),
        _ => None,
    }
}

// Whether the text is one of the standard's other tags, which begin differently.
fn is_date_or_purpose(text: &str) -> bool
    ensures { result ≡ is_date_or_purpose text.now }
{
    match text {
        "PrimaryPackagePurpose" | "BuiltDate" | "ReleaseDate" | "ValidUntilDate" => true,
        _ => false,
    }
}

// Whether the text begins like the standard's tags of packages, files, snippets or licences.
fn begins_as_element(text: &[u8]) -> bool
    ensures { result ≡ begins_as_element text.now }
{
    text.starts_with(b"Package")
        || text.starts_with(b"File")
        || text.starts_with(b"Snippet")
        || text.starts_with(b"License")
}

// Whether the text begins like the standard's remaining tags.
fn begins_as_remark(text: &[u8]) -> bool
    ensures { result ≡ begins_as_remark text.now }
{
    text.starts_with(b"Annotat")
        || text.starts_with(b"Review")
        || text.starts_with(b"External")
        || text.starts_with(b"Relationship")
        || begins_as_document(text)
}

// Whether the text begins like the standard's tags of documents.
fn begins_as_document(text: &[u8]) -> bool
    ensures { result ≡ begins_as_document text.now }
{
    text.starts_with(b"Creator") || text.starts_with(b"Document") || text.starts_with(b"SPDXREF")
}

// Whether the tag is skipped.
fn is_read_over(text: &str) -> bool
    ensures { result ≡ is_read_over text.now }
{
    let bytes = text.as_bytes();
    begins_as_element(bytes) || begins_as_remark(bytes) || is_date_or_purpose(text)
}

impl Tag {
    /// What a tag is read as. Tags are matched exactly.
    pub fn of(text: &str) -> Tag
        ensures { result ≡ tag_of text.now }
    {
        if let Some(tag) = document_tag(text) {
            return tag;
        }
        if let Some(tag) = package_tag(text) {
            return tag;
        }
        if let Some(tag) = file_tag(text) {
            return tag;
        }
        if let Some(tag) = other_tag(text) {
            return tag;
        }
        if is_read_over(text) {
            Tag::ReadOver
        } else {
            Tag::Unknown
        }
    }

    /// The tag as it is in a document, or the empty text for tags that aren't read.
    pub fn name(&self) -> &'static str
        ensures { result.now ≡ tag_name self.now }
    {
        match self {
            Tag::Version => "SPDXVersion",
            Tag::DataLicense => "DataLicense",
            Tag::Identifier => "SPDXID",
            Tag::DocumentName => "DocumentName",
            Tag::DocumentNamespace => "DocumentNamespace",
            Tag::Creator => "Creator",
            Tag::Created => "Created",
            Tag::PackageName => "PackageName",
            Tag::PackageVersion => "PackageVersion",
            Tag::DownloadLocation => "PackageDownloadLocation",
            Tag::FilesAnalyzed => "FilesAnalyzed",
            Tag::VerificationCode => "PackageVerificationCode",
            Tag::PackageConcluded => "PackageLicenseConcluded",
            Tag::PackageDeclared => "PackageLicenseDeclared",
            Tag::PackageCopyright => "PackageCopyrightText",
            Tag::FileName => "FileName",
            Tag::FileChecksum => "FileChecksum",
            Tag::FileConcluded => "LicenseConcluded",
            Tag::FileLicense => "LicenseInfoInFile",
            Tag::FileCopyright => "FileCopyrightText",
            Tag::SnippetIdentifier => "SnippetSPDXID",
            Tag::LicenseIdentifier => "LicenseID",
            Tag::ExtractedText => "ExtractedText",
            Tag::Relationship => "Relationship",
            Tag::ReadOver | Tag::Unknown => "",
        }
    }

    /// Whether the two are the same.
    pub fn is(&self, other: Tag) -> bool
        ensures { result ≡ same_tag self.now other }
    {
        *self as u8 == other as u8
    }
}
