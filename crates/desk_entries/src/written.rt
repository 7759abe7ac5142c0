//! Entries as files that fill gaps.

ghost use Rattle.std.specs.Prelude.{◌≡◌, ◌≤◌, List, ℕ, [], Ok, Some, length, false, true, IfOk, IfSome, option_map};
ghost use Rattle.std.specs.String.{string_bytes};
ghost use Rattle.toml_parser.specs.Strings.{recursion_limit};
ghost use Rattle.toml.specs.Data.{members_depth, members_have_valid_dates};
ghost use Rattle.toml.specs.Parse.{parse_document};
ghost use Rattle.toml.specs.Text.{IsDocumentText};
ghost use Rattle.toml.specs.View.{table_view};
ghost use Rattle.desk_fill.specs.Reading.{fill_of};
ghost use Rattle.desk_entries.specs.Sifting.{AreEntries};
ghost use Rattle.desk_entries.specs.Written.{IsTextFile, if_fits};

use crate::tables::text_document;
use desk_fill::limits;
use desk_model::LicenceText;
use std::alloc::{AllocError, Global};
use toml::Table;
use toml::ser::Error;

/// A table as a document. It has no date, so the only error is lack of memory.
pub fn printed(alloc: Global, table: &Table) -> Result<String, AllocError>
    requires { members_have_valid_dates (table_view table.now) ≡ true }
    ensures text { IfOk result (λ s. IsDocumentText false (table_view table.now) (string_bytes s)) }
    ensures reads_back { IfOk result (λ s. members_depth (table_view table.now) ≤ recursion_limit
        → parse_document (string_bytes s) ≡ Some (table_view table.now)) }
{
    match toml::table_to_string(alloc, table) {
        Ok(text) => Ok(text),
        Err(Error::OutOfMemory) => Err(AllocError),
        Err(Error::DateInvalid) => unreachable!(),
    }
}

/// A file with some texts, or none if `--fill` takes no such file: of more than 10,000 texts or
/// 4 MiB. Texts that are entries are read back as they are. The only error is lack of memory.
pub fn text_file(alloc: Global, texts: &[LicenceText]) -> Result<Option<String>, AllocError>
    ensures file { IfOk result (λ made. (text : List ℕ) × IsTextFile texts.now text
        × (option_map string_bytes made ≡ if_fits (length texts.now) text)) }
    ensures reads_back { AreEntries [] texts.now → IfOk result (λ made. IfSome made (λ file.
        fill_of (string_bytes file) ≡ Ok (record { texts = texts.now; credits = [] }))) }
{
    let table = text_document(alloc, texts)?;
    let text = printed(alloc, &table)?;
    if texts.len() <= limits::FILL_ENTRIES && text.as_str().len() <= limits::FILL_BYTES {
        Ok(Some(text))
    } else {
        Ok(None)
    }
}
