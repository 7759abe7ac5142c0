//! What is still missing for the notices of a release.

ghost use Rattle.std.specs.Prelude.{◌≡◌};
ghost use Rattle.desk_model.specs.Gaps.{gap_name, says_nothing};

use desk_base::Text;

/// What is missing. It is printed as `text`, `copyright`, `shipment` or `twice`.
#[derive(Clone, Copy, PartialEq, Eq)]
pub enum GapKind {
    /// The text of a licence, an exception or a reference.
    Text,
    /// The copyright of a package.
    Copyright,
    /// What a document ships: it ships nothing.
    Shipment,
    /// Nothing, but a package of another document has its name and version.
    Twice,
}

impl GapKind {
    /// The word for it.
    pub fn name(self) -> &'static str
        ensures { result.now ≡ gap_name self }
    {
        match self {
            GapKind::Text => "text",
            GapKind::Copyright => "copyright",
            GapKind::Shipment => "shipment",
            GapKind::Twice => "twice",
        }
    }
}

/// Something that is missing for the notices of a release, or may be wrong in them.
#[derive(Drop)]
pub struct Gap {
    /// What it is.
    pub kind: GapKind,
    /// The number of the document, from 1, or 0 for the text of a licence or an exception, which is
    /// the same in each document.
    pub document: u32,
    /// The id of the licence or the exception, the reference, or the SPDXID of the package; empty
    /// for a document that ships nothing.
    pub subject: Text,
}

/// Whether a value says nothing: it is absent, NONE or NOASSERTION.
pub fn says_nothing(value: &Option<Text>) -> bool
    ensures { result ≡ says_nothing value.now }
{
    match value {
        Some(text) => text.as_str() == "NONE" || text.as_str() == "NOASSERTION",
        None => true,
    }
}
