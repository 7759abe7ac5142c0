//! The request in JSON that words spell.

ghost use Rattle.std.specs.Prelude.{◌≡◌, Some, Ok, IfOk, IfErr, OnOk, is_some};
ghost use Rattle.std.specs.String.{string_bytes};
ghost use Rattle.serde_json.specs.Data.{Data, put};
ghost use Rattle.serde_json.specs.Find.{get_member};
ghost use Rattle.serde_json.specs.Read.{read};
ghost use Rattle.serde_json.specs.View.{members_view, view};
ghost use Rattle.desk_assignments.specs.Words.{IsFaultOf, members_in, with_operand, words_data};

use crate::value::{assigned_value, text_value};
use crate::verb::Verb;
use desk_base::Text;
use serde_json::{Map, Value};
use std::alloc::{AllocError, Global};
use thiserror::Error;

/// Why words spell no request.
#[derive(Clone, Copy, Debug, Drop, PartialEq, Eq, Error)]
pub enum WordsFault {
    /// Memory ran out.
    #[error("no memory is left")]
    Memory,
    /// The operand with this number, counted from 0, has no `=`.
    #[error("operand {0} is no assignment")]
    NoAssignment(usize),
    /// The operand with this number has the key of one before it, or that of the word.
    #[error("operand {0} repeats a key")]
    Repeated(usize),
}

impl From<AllocError> for WordsFault {
    ghost use Rattle.std.specs.Prelude.{◌≡◌};
    ghost use Rattle.desk_assignments.specs.declared.line.WordsFault.TheVariants.{Memory};

    ghost from_gives = { λ _ fault. fault ≡ Memory };

    fn from(_error: AllocError) -> WordsFault {
        WordsFault::Memory
    }
}

/// Puts a member, in place of one with its name.
fn put(
    alloc: Global,
    members: &mut Map<String, Value>,
    name: &str,
    value: Value,
) -> Result<(), AllocError>
    ensures { OnOk result (members_view members.new.entries
        ≡ put name.now (view value) (members_view members.old.entries)) }
{
    let name = String::from_str(alloc, name)?;
    drop(members.insert(name, value)?);
    Ok(())
}

/// Whether there is a member with this name.
fn has(members: &Map<String, Value>, name: &str) -> bool
    ensures { result ≡ is_some (get_member name.now (members_view members.now.entries)) }
{
    members.get(name).is_some()
}

/// Adds the member that an operand, the one with this number, is.
fn add_operand(
    alloc: Global,
    members: &mut Map<String, Value>,
    place: usize,
    operand: &str,
) -> Result<(), WordsFault>
    ensures ok { OnOk result (with_operand place (members_view members.old.entries) operand.now
        ≡ Ok (members_view members.new.entries)) }
    ensures err { IfErr result
        (IsFaultOf (with_operand place (members_view members.old.entries) operand.now)) }
{
    let Some((key, text)) = operand.split_once('=') else {
        return Err(WordsFault::NoAssignment(place));
    };
    if has(members, key) {
        return Err(WordsFault::Repeated(place));
    }
    let value = assigned_value(alloc, key, text)?;
    put(alloc, members, key, value)?;
    Ok(())
}

/// The members of a request: the word, and those that the operands are.
fn members_of(
    alloc: Global,
    verb: Verb,
    word: &str,
    operands: &[Text],
) -> Result<Map<String, Value>, WordsFault>
    ensures ok { IfOk result (λ members. members_in verb word.now operands.now
        ≡ Ok (members_view members.entries)) }
    ensures err { IfErr result (IsFaultOf (members_in verb word.now operands.now)) }
{
    let mut members = Map::new(alloc);
    put(alloc, &mut members, verb.key(), text_value(alloc, word)?)?;
    for (place, operand) in operands.iter().enumerate() {
        add_operand(alloc, &mut members, place, operand.as_str())?;
    }
    Ok(members)
}

/// The request that words spell, as a line of JSON (RFC 8259) without its end.
///
/// # Errors
///
/// Out of memory, an operand without `=`, or a key that is repeated: the first of these.
pub fn request_line(
    alloc: Global,
    verb: Verb,
    word: &str,
    operands: &[Text],
) -> Result<String, WordsFault>
    ensures ok { IfOk result (λ line. (d : Data) × (words_data verb word.now operands.now ≡ Ok d)
        × (read (string_bytes line) ≡ Some d)) }
    ensures err { IfErr result (IsFaultOf (words_data verb word.now operands.now)) }
{
    let value = Value::Object(members_of(alloc, verb, word, operands)?);
    let line = value.to_string(alloc);
    drop(value);
    Ok(line?)
}
