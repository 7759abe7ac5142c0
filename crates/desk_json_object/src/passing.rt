//! Skips values of JSON without keeping anything of them.

ghost use Rattle.std.specs.Prelude.{◌≡◌, ◌≤◌, ◌<◌, ◌∷◌, length, None, OnOk, OnErr};
ghost use Rattle.json.specs.Reads.{token_of};
ghost use Rattle.serde_json.specs.Data.{Members};
ghost use Rattle.desk_json_object.specs.Taken.{data_at, items_at, members_at, IsTaken};

use crate::number::number_of;
use json::{Invalid, Reader, Token};

/// Skips the rest of a value whose first token was taken. Arrays and objects may nest `depth` deep.
#[cycle(pass)]
pub(crate) fn pass_rest(
    reader: &mut Reader<'_>,
    token: Token<'_>,
    depth: usize,
) -> Result<(), Invalid>
    ensures ok { OnOk result
        (IsTaken (data_at depth (token_of token.entry ∷ reader.old)) reader.new) }
    ensures err { OnErr result (data_at depth (token_of token.entry ∷ reader.old) ≡ None) }
    ensures left { OnOk result (length reader.new ≤ length reader.old) }
{
    match token {
        Token::String(_) | Token::Bool(_) | Token::Null => Ok(()),
        Token::Number(text) => match number_of(text) {
            Some(_) => Ok(()),
            None => Err(Invalid),
        },
        Token::EndObject | Token::EndArray | Token::Key(_) | Token::Bad => Err(Invalid),
        Token::BeginArray => {
            if depth == 0 {
                return Err(Invalid);
            }
            pass_items(reader, depth - 1)
        }
        Token::BeginObject => {
            if depth == 0 {
                return Err(Invalid);
            }
            pass_members(reader, depth - 1)
        }
    }
}

/// Skips a value.
#[cycle(pass)]
pub(crate) fn pass_value(reader: &mut Reader<'_>, depth: usize) -> Result<(), Invalid>
    ensures ok { OnOk result (IsTaken (data_at depth reader.old) reader.new) }
    ensures err { OnErr result (data_at depth reader.old ≡ None) }
    ensures left { OnOk result (length reader.new < length reader.old) }
{
    let token = reader.next().ok_or(Invalid)?;
    pass_rest(reader, token, depth)
}

/// Skips the items of an array and its end.
#[cycle(pass)]
pub(crate) fn pass_items(reader: &mut Reader<'_>, depth: usize) -> Result<(), Invalid>
    ensures ok { OnOk result (IsTaken (items_at depth reader.old) reader.new) }
    ensures err { OnErr result (items_at depth reader.old ≡ None) }
    ensures left { OnOk result (length reader.new < length reader.old) }
{
    'items: while !reader.take_end_array() {
        pass_value(reader, depth)?;
    }
    Ok(())
}

/// Skips the members of an object and its end.
#[cycle(pass)]
pub(crate) fn pass_members(reader: &mut Reader<'_>, depth: usize) -> Result<(), Invalid>
    ensures ok { (before : Members)
        → OnOk result (IsTaken (members_at before depth reader.old) reader.new) }
    ensures err { (before : Members)
        → OnErr result (members_at before depth reader.old ≡ None) }
    ensures left { OnOk result (length reader.new < length reader.old) }
{
    'members: while let Some(_) = reader.next_key()? {
        pass_value(reader, depth)?;
    }
    Ok(())
}
