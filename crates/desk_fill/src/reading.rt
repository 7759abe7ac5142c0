//! Reads a file.

ghost use Rattle.std.specs.Prelude.{◌≡◌, IfOk};
ghost use Rattle.toml.specs.View.{table_view};
ghost use Rattle.desk_fill.specs.Reading.{fill_of, fill_of_table, fill_of_text};
ghost use Rattle.desk_fill.specs.Shown.{IsRead};

use crate::credits::credits_of;
use crate::fault::{FillFault, Flaw};
use crate::fill::Fill;
use crate::limits;
use crate::texts::texts_of;
use crate::values::take_member;
use std::alloc::{AllocError, Global};
use toml::Table;

// What a table says, or its first fault. Its entries are taken.
fn fill_of_table(alloc: Global, table: Table) -> Result<Result<Fill, Flaw>, AllocError>
    ensures { IfOk result (λ read. read ≡ fill_of_table (table_view table)) }
{
    let mut table = table;
    let texts = take_member(&mut table, "text");
    let credits = take_member(&mut table, "credit");
    let texts = match texts_of(alloc, texts)? {
        Ok(texts) => texts,
        Err(flaw) => return Ok(Err(flaw)),
    };
    match credits_of(alloc, credits)? {
        Ok(credits) => Ok(Ok(Fill { texts, credits })),
        Err(flaw) => Ok(Err(flaw)),
    }
}

// What a text says, or its first fault.
fn fill_of_text(alloc: Global, text: &str) -> Result<Fill, FillFault>
    ensures { IsRead (fill_of_text text.now) result }
{
    let table = match toml::table_from_str(alloc, text) {
        Ok(table) => table,
        Err(error) => {
            if error.is_memory() {
                return Err(FillFault::Memory(AllocError));
            }
            return Err(FillFault::Refused(Flaw::NotToml));
        }
    };
    match fill_of_table(alloc, table) {
        Ok(Ok(fill)) => Ok(fill),
        Ok(Err(flaw)) => Err(FillFault::Refused(flaw)),
        Err(error) => Err(FillFault::Memory(error)),
    }
}

/// What the bytes of a file say, or their first fault. `FillFault::Memory` is lack of memory and
/// nothing else.
pub fn read_fill(alloc: Global, bytes: &[u8]) -> Result<Fill, FillFault>
    ensures { IsRead (fill_of bytes.now) result }
{
    if bytes.len() > limits::FILL_BYTES {
        return Err(FillFault::Refused(Flaw::TooLarge));
    }
    match str::from_utf8(bytes) {
        Ok(text) => fill_of_text(alloc, text),
        Err(_) => Err(FillFault::Refused(Flaw::NotUtf8)),
    }
}
