//! What single fields say, each in its section.

ghost use Rattle.std.specs.Prelude.{◌≡◌, map, ℕ, slice_index_or};
ghost use Rattle.desk_tagvalue.specs.Documents.{document_text};
ghost use Rattle.desk_tagvalue.specs.Parts.{DocumentText};
ghost use Rattle.desk_bom.specs.declared.state.CodeState.TheVariants as state;
ghost use Rattle.desk_findings.specs.Fields.{is_licence_field, is_field, is_unknown, is_misplaced, is_bad_digest, is_bad_code, is_differing, differs, is_unwanted_code, is_flag, is_bad_flag};
ghost use Rattle.desk_findings.specs.Placed.{placed_text};

use desk_bom::{CodeState, is_code, is_unanalyzed};
use desk_fields::Tag;
use desk_tagvalue::{Document, Entry, SectionKind, is_placed, sha1_digits};

/// A field, the section that it is in, and how many packages have begun up to it.
#[derive(Clone, Copy)]
pub(crate) struct Placed<'a> {
    pub section: SectionKind,
    pub packages: usize,
    pub entry: Entry<'a>,
}

/// Whether a tag is that of a licence field.
pub(crate) fn is_licence_field(tag: Tag) -> bool
    ensures { result ≡ is_licence_field tag }
{
    match tag {
        Tag::PackageConcluded | Tag::PackageDeclared | Tag::FileConcluded | Tag::FileLicense => {
            true
        }
        _ => false,
    }
}

/// Whether a field has the tag, and its section has such fields.
pub(crate) fn is_field(tag: Tag, field: &Placed) -> bool
    ensures { result ≡ is_field tag (placed_text field.now) }
{
    field.entry.tag.is(tag) && is_placed(field.section, field.entry.tag)
}

/// Whether the standard has no such tag.
pub(crate) fn is_unknown(field: &Placed) -> bool
    ensures { result ≡ is_unknown (placed_text field.now) }
{
    field.entry.tag.is(Tag::Unknown)
}

/// Whether the section has no such field.
pub(crate) fn is_misplaced(field: &Placed) -> bool
    ensures { result ≡ is_misplaced (placed_text field.now) }
{
    !is_placed(field.section, field.entry.tag)
}

/// Whether the field is a SHA1 of another form.
pub(crate) fn is_bad_digest(field: &Placed) -> bool
    ensures { result ≡ is_bad_digest (placed_text field.now) }
{
    is_field(Tag::FileChecksum, field)
        && field.entry.value.starts_with("SHA1:")
        && sha1_digits(field.entry.value).is_none()
}

/// Whether the field is a code of another form.
pub(crate) fn is_bad_code(field: &Placed) -> bool
    ensures { result ≡ is_bad_code (placed_text field.now) }
{
    is_field(Tag::VerificationCode, field) && !is_code(field.entry.value)
}

fn is_differing(state: CodeState) -> bool
    ensures { result ≡ is_differing state }
{
    match state {
        CodeState::Differs => true,
        _ => false,
    }
}

/// Whether the field is a code that differs from that of the package's files.
pub(crate) fn differs(states: &[CodeState], field: &Placed) -> bool
    ensures { result ≡ differs (λ k. slice_index_or states.now k state.Absent)
        (placed_text field.now) }
{
    if !is_field(Tag::VerificationCode, field) {
        return false;
    }
    let owner = field.packages.saturating_sub(1);
    match states.get(owner) {
        Some(state) => is_differing(*state),
        None => false,
    }
}

/// Whether the field is a code although `FilesAnalyzed` is false.
pub(crate) fn is_unwanted_code(document: &Document, field: &Placed) -> bool
    ensures { result ≡ is_unwanted_code (document_text document.now) (placed_text field.now) }
{
    if !is_field(Tag::VerificationCode, field) {
        return false;
    }
    let owner = field.packages.saturating_sub(1);
    match document.packages.as_slice().get(owner) {
        Some(package) => is_unanalyzed(package.files_analyzed),
        None => false,
    }
}

fn is_flag(value: &str) -> bool
    ensures { result ≡ is_flag value.now }
{
    value.eq_ignore_ascii_case("true") || value.eq_ignore_ascii_case("false")
}

/// Whether the field is a `FilesAnalyzed` that is neither true nor false.
pub(crate) fn is_bad_flag(field: &Placed) -> bool
    ensures { result ≡ is_bad_flag (placed_text field.now) }
{
    is_field(Tag::FilesAnalyzed, field) && !is_flag(field.entry.value)
}
