//! Reads the members of a JSON object.

ghost use Rattle.std.specs.Prelude.{◌≡◌, ◌==◌, true, false, IfOk, IfErr, Some, None};
ghost use Rattle.desk_json_object.specs.Seen.{seen};
ghost use Rattle.desk_json.specs.Fields.{size, text_in, number_in, profile_in, texts_in};
ghost use Rattle.desk_json.specs.Unread.{IsFound};

use desk_base::{Profile, Text, TextList, limits};
use desk_json_object::Object;
use std::alloc::{AllocError, Global};

/// How many members the object has.
pub(crate) fn size_of(object: &Object) -> usize
    ensures { result ≡ size (seen object.now) }
{
    object.len()
}

/// The whole number that is a member's value.
fn number_at(object: &Object, key: &str) -> Option<u64>
    ensures { result ≡ number_in key.now (seen object.now) }
{
    match object.number(key) {
        Some(number) if number <= limits::NUMBER => Some(number),
        _ => None,
    }
}

/// The profile of operators whose number is a member's value.
pub(crate) fn profile_at(object: &Object, key: &str) -> Option<Profile>
    ensures { result ≡ profile_in key.now (seen object.now) }
{
    Profile::numbered(number_at(object, key)?)
}

/// Why a value isn't read as a request.
#[derive(Clone, Copy, Drop)]
pub(crate) enum Unread {
    /// It isn't one.
    BadCommand,
    /// There is no memory for it.
    Memory,
}

impl From<AllocError> for Unread {
    ghost use Rattle.std.specs.Prelude.{◌≡◌};
    ghost use Rattle.desk_json.specs.declared.fields.Unread.TheVariants.{Memory};

    ghost from_gives = { λ _ unread. unread ≡ Memory };

    fn from(_error: AllocError) -> Unread {
        Unread::Memory
    }
}

/// Refuses an object that doesn't have this many members.
pub(crate) fn require_members(object: &Object, count: usize) -> Result<(), Unread>
    ensures right { IfOk result (λ _. (size (seen object.now) == count) ≡ true) }
    ensures wrong { IfErr result (λ why. (size (seen object.now) == count) ≡ false) }
    ensures why { IfErr result (λ why. why ≡ Unread.BadCommand) }
{
    if size_of(object) == count {
        Ok(())
    } else {
        Err(Unread::BadCommand)
    }
}

/// A copy of the text that is a member's value.
pub(crate) fn wanted_text(alloc: Global, object: &Object, key: &str) -> Result<Text, Unread>
    ensures { IsFound (text_in key.now (seen object.now)) result }
{
    match object.text(key) {
        Some(text) => Ok(Text::of(alloc, text)?),
        None => Err(Unread::BadCommand),
    }
}

/// The whole number that is a member's value.
pub(crate) fn wanted_number(object: &Object, key: &str) -> Result<u64, Unread>
    ensures found { IsFound (number_in key.now (seen object.now)) result }
    ensures why { IfErr result (λ why. why ≡ Unread.BadCommand) }
{
    number_at(object, key).ok_or(Unread::BadCommand)
}

/// The texts of a member that is a list of texts. The member is taken out of the object.
pub(crate) fn wanted_texts(object: &mut Object, key: &str) -> Result<TextList, Unread>
    ensures found { IsFound (texts_in key.now (seen object.old)) result }
    ensures why { IfErr result (λ why. why ≡ Unread.BadCommand) }
{
    object.take_texts(key).ok_or(Unread::BadCommand)
}
