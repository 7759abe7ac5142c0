//! What in a document isn't as its standard has it: its kinds, by their numbers and names.

ghost use Rattle.std.specs.Prelude.{◌≡◌};
ghost use Rattle.desk_model.specs.FindingKinds.{kind_number, kind_name, missing_place, missing_name, place_in_kind};

/// A field that a document should have but doesn't. Such findings of one line are reported in this
/// order.
#[derive(Clone, Copy, PartialEq, Eq)]
pub enum MissingField {
    /// `DataLicense` (clause 6.2).
    DataLicense,
    /// `Creator` (clause 6.8).
    Creator,
    /// `Created` (clause 6.9).
    Created,
    /// `PackageDownloadLocation` (clause 7.7).
    DownloadLocation,
    /// A `FileChecksum` that is a SHA1 (clause 8.4).
    Checksum,
    /// `ExtractedText` (clause 10.2).
    ExtractedText,
}

/// What isn't as the standard has it. Each kind has a number, a name, the clause of SPDX 2.3 that
/// it is about, and a usual cause.
#[derive(Clone, Copy, PartialEq, Eq)]
pub enum FindingKind {
    /// 1: a tag that the standard doesn't have (clauses 6 to 12). A misspelt tag, or one of another
    /// tool.
    UnknownTag,
    /// 2: a field outside the sections that have it, which is ignored (clauses 6 to 10). Fields in
    /// another order.
    Misplaced,
    /// 3: a licence field whose value is no expression and neither `NONE` nor `NOASSERTION`
    /// (clauses 7.13, 7.15, 8.5, 8.6, Annex D). A licence's full name, or operators in small
    /// letters.
    BadExpression,
    /// 4: a checksum that begins with `SHA1:` and isn't continued by one blank and 40 hexadecimal
    /// digits (clause 8.4). A digest cut short.
    BadDigest,
    /// 5: a verification code of another form (clause 7.9). Another digest in its place.
    BadCode,
    /// 6: a verification code that isn't that of the package's files (clause 7.9). Files changed
    /// after the code was made.
    CodeDiffers,
    /// 7: a verification code although `FilesAnalyzed` is false (clauses 7.8, 7.9). A flag set by
    /// hand.
    CodeUnwanted,
    /// 8: a relationship of an element that isn't there (clause 11.1). An element left out.
    Dangling,
    /// 9: a field that is missing (clauses 6.2, 6.8, 6.9, 7.7, 8.4, 10.2). A document written by
    /// hand.
    MissingField(MissingField),
    /// 10: a `FilesAnalyzed` that is neither `true` nor `false`, which counts as true (clause 7.8).
    /// `yes` or `no`.
    BadFlag,
    /// 11: a concluded licence with a `LicenseRef-` that no extracted licence of the document has
    /// (clauses 7.13, 10.1). A licence text left out.
    UndefinedRef,
}

impl MissingField {
    /// Its place among the fields that may be missing.
    pub fn place(self) -> u8
        ensures { result ≡ missing_place self }
    {
        match self {
            MissingField::DataLicense => 0,
            MissingField::Creator => 1,
            MissingField::Created => 2,
            MissingField::DownloadLocation => 3,
            MissingField::Checksum => 4,
            MissingField::ExtractedText => 5,
        }
    }

    /// Its tag.
    pub fn name(self) -> &'static str
        ensures { result.now ≡ missing_name self }
    {
        match self {
            MissingField::DataLicense => "DataLicense",
            MissingField::Creator => "Creator",
            MissingField::Created => "Created",
            MissingField::DownloadLocation => "PackageDownloadLocation",
            MissingField::Checksum => "FileChecksum",
            MissingField::ExtractedText => "ExtractedText",
        }
    }
}

impl FindingKind {
    /// The kind's number.
    pub fn number(self) -> u8
        ensures { result ≡ kind_number self }
    {
        match self {
            FindingKind::UnknownTag => 1,
            FindingKind::Misplaced => 2,
            FindingKind::BadExpression => 3,
            FindingKind::BadDigest => 4,
            FindingKind::BadCode => 5,
            FindingKind::CodeDiffers => 6,
            FindingKind::CodeUnwanted => 7,
            FindingKind::Dangling => 8,
            FindingKind::MissingField(_) => 9,
            FindingKind::BadFlag => 10,
            FindingKind::UndefinedRef => 11,
        }
    }

    /// The kind's name.
    pub fn name(self) -> &'static str
        ensures { result.now ≡ kind_name self }
    {
        match self {
            FindingKind::UnknownTag => "UnknownTag",
            FindingKind::Misplaced => "Misplaced",
            FindingKind::BadExpression => "BadExpression",
            FindingKind::BadDigest => "BadDigest",
            FindingKind::BadCode => "BadCode",
            FindingKind::CodeDiffers => "CodeDiffers",
            FindingKind::CodeUnwanted => "CodeUnwanted",
            FindingKind::Dangling => "Dangling",
            FindingKind::MissingField(_) => "MissingField",
            FindingKind::BadFlag => "BadFlag",
            FindingKind::UndefinedRef => "UndefinedRef",
        }
    }

    /// Its place among findings of the kind.
    pub fn place(self) -> u8
        ensures { result ≡ place_in_kind self }
    {
        match self {
            FindingKind::MissingField(field) => field.place(),
            _ => 0,
        }
    }
}

/// Something in a document that isn't as the standard has it.
#[derive(Clone, Copy, PartialEq, Eq)]
pub struct Finding {
    /// The line, from 1.
    pub line: u32,
    /// What it is.
    pub kind: FindingKind,
}
