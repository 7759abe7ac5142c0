//! Reads an object, and leaves out what isn't needed.

ghost use Rattle.std.specs.Prelude.{◌≡◌, ◌≤◌, ◌<◌, ◌∷◌, [], length, Some, None, IfOk, OnOk, option_map};
ghost use Rattle.json.specs.Reads.{token_of};
ghost use Rattle.serde_json.specs.Data.{Data, Items, no_items, item, no_members};
ghost use Rattle.desk_json_object.specs.Seen.{member_seen, members_seen, seen};
ghost use Rattle.desk_json_object.specs.Taken.{data_at, items_at, members_at};
ghost use Rattle.desk_json_object.specs.Spared.{IsSpared};
ghost use Rattle.desk_json_object.specs.Kept.{joined, IsRefused, AreKept, KeepsItems, Keeps, KeepsMembers, AreTooMany, KeepsObject, IsNoObject};

use crate::members::{Member, Object};
use crate::number::number_of;
use crate::passing::pass_rest;
use desk_base::TextList;
use json::{Invalid, Reader, Scratch, Token};
use std::alloc::{AllocError, Global};

/// How deep arrays and objects may be nested for the kit's `serde_json`.
const DEPTH: usize = 127;

/// Why nothing is read.
#[derive(Clone, Copy, Drop)]
enum Unread {
    /// There is no value, or it isn't an object with so few members.
    NoObject,
    /// There is no memory for it.
    Memory,
}

impl From<AllocError> for Unread {
    ghost use Rattle.std.specs.Prelude.{◌≡◌};
    ghost use Rattle.desk_json_object.specs.declared.object.Unread.TheVariants.{Memory};

    ghost from_gives = { λ _ unread. unread ≡ Memory };

    fn from(_error: AllocError) -> Unread {
        Unread::Memory
    }
}

impl From<Invalid> for Unread {
    ghost use Rattle.std.specs.Prelude.{◌≡◌};
    ghost use Rattle.desk_json_object.specs.declared.object.Unread.TheVariants.{NoObject};

    ghost from_gives = { λ _ unread. unread ≡ NoObject };

    fn from(_error: Invalid) -> Unread {
        Unread::NoObject
    }
}

// The texts of an array with its next item, whose first token was taken: nothing if that item or
// one before it isn't a text.
fn with_item(
    reader: &mut Reader<'_>,
    texts: Option<TextList>,
    token: Token<'_>,
    depth: usize,
) -> Result<Option<TextList>, Unread>
    ensures ok { (before : Items) → AreKept before texts → IfOk result (λ more.
        (d : Data) × (data_at depth (token_of token.entry ∷ reader.old) ≡ Some (d, reader.new))
        × AreKept (joined before (item d no_items)) more) }
    ensures left { OnOk result (length reader.new ≤ length reader.old) }
    ensures err { IsRefused result → data_at depth (token_of token.entry ∷ reader.old) ≡ None }
{
    match token {
        Token::String(text) => match texts {
            Some(mut list) => {
                list.push(text)?;
                Ok(Some(list))
            }
            None => Ok(None),
        },
        _ => {
            drop(texts);
            pass_rest(reader, token, depth)?;
            Ok(None)
        }
    }
}

// The texts of an array up to its end; nothing if it has anything else.
fn read_texts(
    alloc: Global,
    reader: &mut Reader<'_>,
    depth: usize,
) -> Result<Option<TextList>, Unread>
    ensures ok { IfOk result (λ texts. KeepsItems (items_at depth reader.old) texts reader.new) }
    ensures left { OnOk result (length reader.new < length reader.old) }
    ensures err { IsRefused result → items_at depth reader.old ≡ None }
{
    let mut texts = Some(TextList::new(alloc));
    'items: while !reader.take_end_array() {
        let token = reader.next().ok_or(Invalid)?;
        texts = with_item(reader, texts, token, depth)?;
    }
    Ok(texts)
}

// The value of a member, as far as it is kept.
fn read_member(alloc: Global, reader: &mut Reader<'_>) -> Result<Member, Unread>
    ensures ok { IfOk result (λ m. Keeps (data_at 126 reader.old) (member_seen m) reader.new) }
    ensures left { OnOk result (length reader.new < length reader.old) }
    ensures err { IsRefused result → data_at 126 reader.old ≡ None }
{
    let token = reader.next().ok_or(Invalid)?;
    match token {
        Token::String(text) => Ok(Member::Text(String::from_str(alloc, text)?)),
        Token::Number(text) => match number_of(text) {
            Some(number) => Ok(Member::Number(number)),
            None => Err(Unread::NoObject),
        },
        Token::BeginArray => match read_texts(alloc, reader, DEPTH - 2)? {
            Some(texts) => Ok(Member::Texts(texts)),
            None => Ok(Member::Other),
        },
        _ => {
            pass_rest(reader, token, DEPTH - 1)?;
            Ok(Member::Other)
        }
    }
}

// The members of an object up to its end, at most this many.
fn read_members(alloc: Global, reader: &mut Reader<'_>, most: usize) -> Result<Object, Unread>
    ensures ok { IfOk result (λ found. KeepsMembers most (members_at no_members 126 reader.old)
        (members_seen found.members.entries) reader.new) }
    ensures err { IsRefused result → AreTooMany most (members_at no_members 126 reader.old) }
{
    let mut found = Object::new(alloc);
    'members: while let Some(name) = reader.next_key()? {
        let member = read_member(alloc, reader)?;
        found.put(alloc, name, member)?;
        if found.len() > most {
            return Err(Unread::NoObject);
        }
    }
    Ok(found)
}

// The object with which tokens begin.
fn read_begun(alloc: Global, reader: &mut Reader<'_>, most: usize) -> Result<Object, Unread>
    ensures ok { IfOk result (λ found. KeepsObject most (data_at 127 reader.old)
        (members_seen found.members.entries) reader.new) }
    ensures err { IsRefused result → IsNoObject most (data_at 127 reader.old) }
{
    let token = reader.next().ok_or(Invalid)?;
    match token {
        Token::BeginObject => read_members(alloc, reader, most),
        _ => Err(Unread::NoObject),
    }
}

// The object that all tokens are, up to the last.
fn read_tokens(alloc: Global, reader: &mut Reader<'_>, most: usize) -> Result<Object, Unread>
    ensures ok { IfOk result (λ found. KeepsObject most (data_at 127 reader.old)
        (members_seen found.members.entries) []) }
    ensures err { IsRefused result → IsNoObject most (data_at 127 reader.old) }
{
    let object = read_begun(alloc, reader, most)?;
    match reader.next() {
        Some(_) => Err(Unread::NoObject),
        None => Ok(object),
    }
}

/// The object whose JSON text the bytes are, if it has at most this many members: texts, numbers
/// and lists of texts are kept, and any other value is left out. If a key appears twice, the last
/// value wins.
pub fn read_object(alloc: Global, bytes: &[u8], most: usize) -> Result<Option<Object>, AllocError>
    ensures { IfOk result (λ found. IsSpared most bytes.now (option_map seen found)) }
{
    let Ok(text) = str::from_utf8(bytes) else {
        return Ok(None);
    };
    let mut scratch = Scratch::new(alloc);
    let mut reader = Reader::new(text, &mut scratch)?;
    match read_tokens(alloc, &mut reader, most) {
        Ok(object) => Ok(Some(object)),
        Err(Unread::NoObject) => Ok(None),
        Err(Unread::Memory) => Err(AllocError),
    }
}
