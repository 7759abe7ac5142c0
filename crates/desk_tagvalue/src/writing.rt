//! Writes a draft.

ghost use Rattle.std.specs.Prelude.{◌≡◌, ◌⊎◌, ◌↔◌, ◌++◌, ◌∷◌, ◌+◌, ◌<◌, ◌≤◌, ◌^◌, [], ℕ, List, All, Some, Ok, IsTrue, IfOk, IfErr, OnOk, map, codes, length};
ghost use Rattle.std.specs.String.{string_bytes};
ghost use Rattle.std.specs.Fmt.{decimal};
ghost use Rattle.hex.specs.Hex.{encode_lower};
ghost use Rattle.desk_fields.specs.Cutting.{Reads, behind_mark};
ghost use Rattle.desk_fields.specs.Found.{field_text};
ghost use Rattle.desk_fields.specs.Tags.{tag_name};
ghost use Rattle.desk_tagvalue.specs.Drafts.{line_text, one_line, in_text, spelled, file_lines, draft_lines, text_of_lines, files_lines, head_lines};
ghost use Rattle.desk_tagvalue.specs.Parts.{DocumentText, sha1_digits};
ghost use Rattle.desk_tagvalue.specs.Documents.{Spells};
ghost use Rattle.desk_tagvalue.specs.Given.{GivesDraft};
ghost use Rattle.desk_tagvalue.specs.Written.{field_at, Stands, Adds, IsDigestRead, IsStopped, fields_of_lines, write_fault_number};

use crate::drafts::{Draft, DraftFile, DraftLine, head_lines, lines_of_file};
use desk_fields::{DocFault, Field, Tag, fields};
use std::alloc::{AllocError, Global};
use thiserror::Error;

/// Why a draft isn't written.
#[derive(Clone, Copy, Debug, PartialEq, Eq, Error)]
pub enum WriteFault {
    /// Memory ran out.
    #[error("out of memory")]
    Memory,
    /// A value can't be read back from its field.
    #[error("a value that can't stand in its field")]
    BadValue,
}

impl WriteFault {
    /// The fault's number, from 1, or 0 if no memory was left.
    pub fn number(&self) -> u8
        ensures { result ≡ write_fault_number self.now }
    {
        match self {
            WriteFault::Memory => 0,
            WriteFault::BadValue => 1,
        }
    }
}

impl From<AllocError> for WriteFault {
    ghost use Rattle.std.specs.Prelude.{◌≡◌};
    ghost use Rattle.desk_tagvalue.specs.declared.writing.WriteFault.TheVariants.{Memory};

    ghost from_gives = { λ _ e. e ≡ Memory };

    fn from(_error: AllocError) -> WriteFault {
        WriteFault::Memory
    }
}

// Whether a field is the one on the first line with this tag and value.
fn is_field(field: &Field, tag: &str, value: &str) -> bool
    ensures { IsTrue result ↔ (field_text field.now ≡ field_at 1 tag.now value.now) }
{
    field.line == 1 && field.tag == tag && field.value == value
}

// Whether there is one field, with this tag and value.
fn is_only(found: &[Field], tag: &str, value: &str) -> bool
    ensures { IsTrue result ↔ (map field_text found.now ≡ field_at 1 tag.now value.now ∷ []) }
{
    found.len() == 1 && is_field(&found[0], tag, value)
}

// Whether the text of a field is read as this one field.
fn is_read_back(alloc: Global, spelled: &str, tag: &str, value: &str) -> Result<bool, AllocError>
    ensures { IfOk result (λ b. IsTrue b ↔ Reads 1 (behind_mark spelled.now)
        (Ok (field_at 1 tag.now value.now ∷ []))) }
{
    match fields(alloc, spelled) {
        Ok(found) => Ok(is_only(&found, tag, value)),
        Err(fault) => match fault {
            DocFault::Memory => Err(AllocError),
            _ => Ok(false),
        },
    }
}

// Adds the text of a field, if the field is read back.
fn put_field(
    alloc: Global,
    out: &mut String,
    spelled: &str,
    tag: Tag,
    value: &str,
) -> Result<(), WriteFault>
    ensures ok { OnOk result (string_bytes out.new ≡ string_bytes out.old ++ spelled.now) }
    ensures stands { OnOk result (Reads 1 (behind_mark spelled.now)
        (Ok (field_at 1 (tag_name tag) value.now ∷ []))) }
    ensures err { IfErr result (λ e. (e ≡ WriteFault.Memory)
        ⊎ ((e ≡ WriteFault.BadValue) ×
        (Reads 1 (behind_mark spelled.now) (Ok (field_at 1 (tag_name tag) value.now ∷ [])) → ⊥))) }
{
    match is_read_back(alloc, spelled, tag.name(), value) {
        Ok(true) => {}
        Ok(false) => return Err(WriteFault::BadValue),
        Err(_) => return Err(WriteFault::Memory),
    }
    match out.push_str(spelled) {
        Ok(()) => Ok(()),
        Err(_) => Err(WriteFault::Memory),
    }
}

// Adds a field on one line.
fn put_one_line(alloc: Global, out: &mut String, tag: Tag, value: &str) -> Result<(), WriteFault>
    ensures ok { OnOk result
        (string_bytes out.new ≡ string_bytes out.old ++ spelled (one_line tag value.now)) }
    ensures stands { OnOk result (Stands (one_line tag value.now)) }
    ensures err { IfErr result (λ e. (e ≡ WriteFault.Memory)
        ⊎ ((e ≡ WriteFault.BadValue) × (Stands (one_line tag value.now) → ⊥))) }
{
    let name = tag.name();
    match format!(in alloc; "{name}: {value}\n") {
        Ok(spelled) => put_field(alloc, out, &spelled, tag, value),
        Err(_) => Err(WriteFault::Memory),
    }
}

// Adds a field in `<text>`.
fn put_in_text(alloc: Global, out: &mut String, tag: Tag, value: &str) -> Result<(), WriteFault>
    ensures ok { OnOk result
        (string_bytes out.new ≡ string_bytes out.old ++ spelled (in_text tag value.now)) }
    ensures stands { OnOk result (Stands (in_text tag value.now)) }
    ensures err { IfErr result (λ e. (e ≡ WriteFault.Memory)
        ⊎ ((e ≡ WriteFault.BadValue) × (Stands (in_text tag value.now) → ⊥))) }
{
    let name = tag.name();
    match format!(in alloc; "{name}: <text>{value}</text>\n") {
        Ok(spelled) => put_field(alloc, out, &spelled, tag, value),
        Err(_) => Err(WriteFault::Memory),
    }
}

/// Adds the text of a line, if its field is read back.
pub fn put_line(alloc: Global, out: &mut String, line: DraftLine) -> Result<(), WriteFault>
    ensures ok { OnOk result
        (string_bytes out.new ≡ string_bytes out.old ++ spelled (line_text line.entry)) }
    ensures stands { OnOk result (Stands (line_text line.entry)) }
    ensures err { IfErr result (λ e. (e ≡ WriteFault.Memory)
        ⊎ ((e ≡ WriteFault.BadValue) × (Stands (line_text line.entry) → ⊥))) }
{
    match line {
        DraftLine::Blank => match out.push_str("\n") {
            Ok(()) => Ok(()),
            Err(_) => Err(WriteFault::Memory),
        },
        DraftLine::OneLine(tag, value) => put_one_line(alloc, out, tag, value),
        DraftLine::InText(tag, value) => put_in_text(alloc, out, tag, value),
    }
}

// Adds the text of some lines.
fn put_all(alloc: Global, out: &mut String, lines: &[DraftLine]) -> Result<(), WriteFault>
    ensures ok { OnOk result
        (Adds (string_bytes out.old) (map line_text lines.now) (string_bytes out.new)) }
    ensures err { IfErr result (λ e. IsStopped (map line_text lines.now) e) }
{
    for line in lines {
        match put_line(alloc, out, *line) {
            Ok(()) => {}
            Err(fault) => return Err(fault),
        }
    }
    Ok(())
}

// The name of a file in a document.
fn file_name(alloc: Global, path: &str) -> Result<String, AllocError>
    ensures { IfOk result (λ s. string_bytes s ≡ codes "./" ++ path.now) }
{
    format!(in alloc; "./{path}")
}

// The identifier of the file with a number.
fn file_id(alloc: Global, number: u64) -> Result<String, AllocError>
    ensures { IfOk result (λ s. string_bytes s ≡ codes "SPDXRef-File-" ++ decimal number) }
{
    format!(in alloc; "SPDXRef-File-{number}")
}

// The checksum of a file, from which its digest is read back.
fn file_checksum(alloc: Global, digest: &[u8; 20]) -> Result<String, AllocError>
    ensures text { IfOk result (λ s. string_bytes s ≡ codes "SHA1: " ++ encode_lower digest.now) }
    ensures read { IfOk result
        (λ s. sha1_digits (string_bytes s) ≡ Some (encode_lower digest.now)) }
{
    let digits = hex::encode(alloc, digest)?;
    let digits = digits.as_str();
    format!(in alloc; "SHA1: {digits}")
}

// Adds the text of the file with a number.
fn put_file(
    alloc: Global,
    out: &mut String,
    number: u64,
    file: &DraftFile,
) -> Result<(), WriteFault>
    ensures ok { OnOk result
        (Adds (string_bytes out.old) (file_lines number file.now) (string_bytes out.new)) }
    ensures digest { OnOk result (IsDigestRead file.now) }
    ensures err { IfErr result (λ e. IsStopped (file_lines number file.now) e) }
{
    let Ok(name) = file_name(alloc, file.path.as_str()) else {
        return Err(WriteFault::Memory);
    };
    let Ok(id) = file_id(alloc, number) else {
        return Err(WriteFault::Memory);
    };
    let Ok(checksum) = file_checksum(alloc, &file.digest) else {
        return Err(WriteFault::Memory);
    };
    let lines = lines_of_file(&name, &id, &checksum, file);
    put_all(alloc, out, &lines)
}

// Adds the text of all files, numbered from 1.
fn put_files(alloc: Global, out: &mut String, files: &[DraftFile]) -> Result<(), WriteFault>
    ensures ok { OnOk result
        (Adds (string_bytes out.old) (files_lines 1 files.now) (string_bytes out.new)) }
    ensures digests { OnOk result (All IsDigestRead files.now) }
    ensures err { IfErr result (λ e. IsStopped (files_lines 1 files.now) e) }
{
    for (i, file) in files.iter().enumerate() {
        match put_file(alloc, out, i as u64 + 1, file) {
            Ok(()) => {}
            Err(fault) => return Err(fault),
        }
    }
    Ok(())
}

/// The text of a draft.
pub fn write(alloc: Global, draft: &Draft) -> Result<String, WriteFault>
    // The text is that of the draft's lines, each of which is read back.
    ensures ok { IfOk result (λ t. Adds [] (draft_lines draft.now) (string_bytes t)) }
    // The text has the draft's fields, and no others.
    ensures fields { IfOk result (λ t. Reads 1 (behind_mark (string_bytes t))
        (Ok (fields_of_lines 1 (draft_lines draft.now)))) }
    // What is read from it says what the draft says.
    ensures read { IfOk result
        (λ t. length (string_bytes t) ≤ 4194304 → length draft.now.files ≤ 9999
        → (x : DocumentText) × Spells (string_bytes t) (Ok x) × GivesDraft draft.now x) }
    // Memory ran out, or some value can't be read back from its field.
    ensures err { IfErr result (λ e. IsStopped (draft_lines draft.now) e) }
{
    let mut out = String::new(alloc);
    match put_all(alloc, &mut out, &head_lines(draft)) {
        Ok(()) => {}
        Err(fault) => return Err(fault),
    }
    match put_files(alloc, &mut out, draft.files.as_slice()) {
        Ok(()) => Ok(out),
        Err(fault) => Err(fault),
    }
}

/// The checksum that is written for a digest is read as its 40 digits.
pub fn one_digest()
    ensures { (digest : List ℕ) → length digest ≡ 20 → All (λ b. b < 256) digest
        → sha1_digits (codes "SHA1: " ++ encode_lower digest) ≡ Some (encode_lower digest) }
{}
