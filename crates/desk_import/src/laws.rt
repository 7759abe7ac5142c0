//! Laws of conversions, each the contract of a function with an empty body: what is converted is
//! read (SPDX 2.3, clauses 6 to 11).
//!
//! `conversions_are_read` says that a converted text is judged by the fields of its lines and by
//! nothing else. `documents_are_read_back` and `objects_are_said` are about documents in normal form
//! (`specs/Said.antt`): lists of elements of any length, with all columns that the desk reads.
//! `fields_have_places` says that the place of a line is that of the step whose field it has.

ghost use Rattle.std.specs.Prelude.{◌≡◌, ◌≤◌, ℕ, List, Some, Ok, All, length};
ghost use Rattle.std.specs.String.{string_bytes};
ghost use Rattle.serde_json.specs.Data.{Data};
ghost use Rattle.desk_base.specs.Limits.{document_bytes};
ghost use Rattle.desk_tagvalue.specs.Documents.{Spells, judged};
ghost use Rattle.desk_tagvalue.specs.Drafts.{text_of_lines};
ghost use Rattle.desk_tagvalue.specs.Parts.{DocumentText, document_of};
ghost use Rattle.desk_tagvalue.specs.Written.{Stands};
ghost use Rattle.desk_spdx_files.specs.declared.idle.Files.{Files};
ghost use Rattle.desk_spdx_files.specs.declared.idle.Files.TheVariants as files;
ghost use Rattle.desk_spdx_json.specs.Documents.{document_steps};
ghost use Rattle.desk_tagvalue.specs.Written.{fields_of_lines};
ghost use Rattle.desk_import.specs.Places.{IsWritten};
ghost use Rattle.desk_import.specs.Results.{IsConverted, json_of, steps_of};
ghost use Rattle.desk_spdx_json.specs.Steps.{StepText, lines_of};
ghost use Rattle.desk_import.specs.Said.{AreDistinct, DocumentSaid, IsNormal, IsSaid, document_lines, document_object, element_ids, entries_of};
ghost use Rattle.desk_import.specs.declared.converting.Converted.{Converted};

/// A converted text of at most 4 MiB spells the document, or has the fault, that the fields of its
/// lines have.
pub fn conversions_are_read()
    ensures { (wanted : Files) (bytes : List ℕ) (c : Converted) → IsConverted wanted bytes c
        → length (string_bytes c.text) ≤ document_bytes → (d : Data) × (json_of bytes ≡ Some d)
        × Spells (string_bytes c.text) (judged (entries_of (steps_of wanted d))) }
{}

/// The text of a document in normal form, with elements of any number and all their columns, spells
/// what the document says, if it spells a document and each of its lines is read back alone.
pub fn documents_are_read_back()
    ensures { (d : DocumentSaid) (x : DocumentText) → IsNormal d → All Stands (document_lines d)
        → Spells (text_of_lines (document_lines d)) (Ok x) → IsSaid d x }
{}

/// The object of a document in normal form, whose elements have distinct identifiers, converts to
/// the lines of that document, whose fields say the same; and if the converted text, with all files,
/// spells a document, that says the same.
pub fn objects_are_said()
    ensures lines { (d : DocumentSaid) → IsNormal d → AreDistinct (element_ids d)
        → lines_of (document_steps (document_object d)) ≡ document_lines d }
    ensures fields { (d : DocumentSaid) → IsNormal d → AreDistinct (element_ids d)
        → IsSaid d (document_of (entries_of (document_steps (document_object d)))) }
    ensures text { (bytes : List ℕ) (c : Converted) (d : DocumentSaid) (x : DocumentText)
        → IsNormal d → AreDistinct (element_ids d) → json_of bytes ≡ Some (document_object d)
        → IsConverted files.All bytes c
        → Spells (string_bytes c.text) (Ok x) → IsSaid d x }
{}

/// Each field of the text that steps write is what the step wrote that wrote its line.
pub fn fields_have_places()
    ensures { (steps : List StepText) → All (IsWritten steps) (fields_of_lines 1 (lines_of steps)) }
{}
