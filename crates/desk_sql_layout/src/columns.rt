//! The value in a column of a row. A value of another kind, which no desk's table has, is a fault
//! of the rows.

ghost use Rattle.std.specs.Prelude.{◌≡◌, ◌≢◌, ◌<◌, Err, IfErr, IfOk, IsTrue, if◌then◌else◌, Bool, List, Option, ℕ, length};
ghost use Rattle.sqlite_value.specs.Order.{column};
ghost use Rattle.sqlite_value.specs.declared.value.Value.TheVariants.{Null, Text as Words, Blob};
ghost use Rattle.desk_base.specs.Profiles.{profile_number};
ghost use Rattle.desk_sql_layout.specs.Cells.{number, text_or_null};
ghost use Rattle.desk_sql_layout.specs.Causes.{IsWritten};
ghost use Rattle.desk_base.specs.Day.{is_day};
ghost use Rattle.desk_model.specs.Names.{release_state_name, duty_state_name, word_name};

use desk_base::{Day, Items, Profile, Text};
use desk_model::{DutyState, Fault, ReleaseState, StoreFault, Word};
use sqlite::Row;
use sqlite_value::value::ValueRef;
use std::alloc::Global;

/// The fault of rows that no desk's table has.
pub const ROWS: Fault = Fault::Store(StoreFault::Rows);

/// A number.
pub fn number_at(row: &Row, at: usize) -> Result<u32, Fault>
    ensures value { IfOk result (λ n. column row.now at ≡ number n) }
    ensures cause { IfErr result (λ fault. (n : ℕ)
        → column row.now at ≡ number n
        → IsWritten (column row.now at) → fault ≡ Fault.Memory) }
    ensures rows { IfErr result (λ fault. fault ≡ Fault.Store StoreFault.Rows) }
{
    match row.get_ref(at) {
        Ok(ValueRef::Int(n)) => match u32::try_from(n) {
            Ok(number) => Ok(number),
            Err(_) => Err(ROWS),
        },
        _ => Err(ROWS),
    }
}

/// A text, as the row has it.
pub fn str_at(row: &Row, at: usize) -> Result<&str, Fault>
    ensures value { IfOk result (λ text. column row.now at ≡ Words text.now) }
    ensures cause { IfErr result (λ fault. (text : List ℕ)
        → column row.now at ≡ Words text
        → IsWritten (column row.now at) → fault ≡ Fault.Memory) }
    ensures rows { IfErr result (λ fault. fault ≡ Fault.Store StoreFault.Rows) }
{
    match row.get_ref(at) {
        Ok(ValueRef::Text(bytes)) => match std::str::from_utf8(bytes) {
            Ok(text) => Ok(text),
            Err(_) => Err(ROWS),
        },
        _ => Err(ROWS),
    }
}

/// A text.
pub fn text_at(alloc: Global, row: &Row, at: usize) -> Result<Text, Fault>
    ensures value { IfOk result (λ text. column row.now at ≡ Words text) }
    ensures cause { IfErr result (λ fault. (text : List ℕ)
        → column row.now at ≡ Words text
        → IsWritten (column row.now at) → fault ≡ Fault.Memory) }
    ensures rows { ((text : List ℕ) → column row.now at ≢ Words text)
        → result ≡ Err (Fault.Store StoreFault.Rows) }
{
    let text = str_at(row, at)?;
    Ok(Text::of(alloc, text)?)
}

/// A text, or none if the column is NULL.
pub fn text_or_null_at(alloc: Global, row: &Row, at: usize) -> Result<Option<Text>, Fault>
    ensures value { IfOk result (λ text. column row.now at ≡ text_or_null text) }
    ensures cause { IfErr result (λ fault. (text : Option (List ℕ)) → at < length row.now
        → column row.now at ≡ text_or_null text
        → IsWritten (column row.now at) → fault ≡ Fault.Memory) }
    ensures rows { column row.now at ≢ Null → ((text : List ℕ) → column row.now at ≢ Words text)
        → result ≡ Err (Fault.Store StoreFault.Rows) }
{
    match row.get_ref(at) {
        Ok(ValueRef::Null) => Ok(None),
        _ => Ok(Some(text_at(alloc, row, at)?)),
    }
}

/// A day.
pub fn day_at(row: &Row, at: usize) -> Result<Day, Fault>
    ensures value { IfOk result (λ day. column row.now at ≡ Words day) }
    ensures cause { IfErr result (λ fault. (day : List ℕ)
        → column row.now at ≡ Words day
        → IsWritten (column row.now at) → IsTrue (is_day day) → fault ≡ Fault.Memory) }
    ensures rows { IfErr result (λ fault. fault ≡ Fault.Store StoreFault.Rows) }
{
    match Day::parse(str_at(row, at)?) {
        Some(day) => Ok(day),
        None => Err(ROWS),
    }
}

/// Whether something is so, by 1 or 0.
pub fn flag_at(row: &Row, at: usize) -> Result<bool, Fault>
    ensures value { IfOk result (λ is. column row.now at ≡ number (if is then 1 else 0)) }
    ensures cause { IfErr result (λ fault. (is : Bool)
        → column row.now at ≡ number (if is then 1 else 0)
        → IsWritten (column row.now at) → fault ≡ Fault.Memory) }
    ensures rows { IfErr result (λ fault. fault ≡ Fault.Store StoreFault.Rows) }
{
    match number_at(row, at)? {
        0 => Ok(false),
        1 => Ok(true),
        _ => Err(ROWS),
    }
}

/// A profile, by its number.
pub fn profile_at(row: &Row, at: usize) -> Result<Profile, Fault>
    ensures value { IfOk result (λ profile. column row.now at ≡ number (profile_number profile)) }
    ensures cause { IfErr result (λ fault. (profile : Profile)
        → column row.now at ≡ number (profile_number profile)
        → IsWritten (column row.now at) → fault ≡ Fault.Memory) }
    ensures rows { IfErr result (λ fault. fault ≡ Fault.Store StoreFault.Rows) }
{
    match number_at(row, at)? {
        1 => Ok(Profile::Capitals),
        2 => Ok(Profile::Either),
        _ => Err(ROWS),
    }
}

/// The state of a release, by its word.
pub fn release_state_at(row: &Row, at: usize) -> Result<ReleaseState, Fault>
    ensures value { IfOk result (λ state. column row.now at ≡ Words (release_state_name state)) }
    ensures cause { IfErr result (λ fault. (state : ReleaseState)
        → column row.now at ≡ Words (release_state_name state)
        → IsWritten (column row.now at) → fault ≡ Fault.Memory) }
    ensures rows { IfErr result (λ fault. fault ≡ Fault.Store StoreFault.Rows) }
{
    ReleaseState::named(str_at(row, at)?).ok_or(ROWS)
}

/// The state of a duty, by its word.
pub fn duty_state_at(row: &Row, at: usize) -> Result<DutyState, Fault>
    ensures value { IfOk result (λ state. column row.now at ≡ Words (duty_state_name state)) }
    ensures cause { IfErr result (λ fault. (state : DutyState)
        → column row.now at ≡ Words (duty_state_name state)
        → IsWritten (column row.now at) → fault ≡ Fault.Memory) }
    ensures rows { IfErr result (λ fault. fault ≡ Fault.Store StoreFault.Rows) }
{
    DutyState::named(str_at(row, at)?).ok_or(ROWS)
}

/// The word for a change.
pub fn word_at(row: &Row, at: usize) -> Result<Word, Fault>
    ensures value { IfOk result (λ word. column row.now at ≡ Words (word_name word)) }
    ensures cause { IfErr result (λ fault. (word : Word)
        → column row.now at ≡ Words (word_name word)
        → IsWritten (column row.now at) → fault ≡ Fault.Memory) }
    ensures rows { IfErr result (λ fault. fault ≡ Fault.Store StoreFault.Rows) }
{
    Word::named(str_at(row, at)?).ok_or(ROWS)
}

/// Bytes, whoever wrote them.
pub fn bytes_at(alloc: Global, row: &Row, at: usize) -> Result<Items<u8>, Fault>
    ensures value { IfOk result (λ bytes. column row.now at ≡ Blob bytes) }
    ensures cause { IfErr result (λ fault. (bytes : List ℕ)
        → column row.now at ≡ Blob bytes → fault ≡ Fault.Memory) }
    ensures rows { ((bytes : List ℕ) → column row.now at ≢ Blob bytes)
        → result ≡ Err (Fault.Store StoreFault.Rows) }
{
    match row.get_ref(at) {
        Ok(ValueRef::Blob(bytes)) => Ok(Items::from_vec(Vec::from_slice(alloc, bytes)?)),
        _ => Err(ROWS),
    }
}
