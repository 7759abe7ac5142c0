//! What is kept of an object.

ghost use Rattle.std.specs.Prelude.{◌≡◌, OnOk, option_map, option_and_then, string_bytes};
ghost use Rattle.serde_json.specs.Data.{no_members, put};
ghost use Rattle.serde_json.specs.Events.{members_len};
ghost use Rattle.serde_json.specs.Find.{get, get_member, as_array, as_number, as_str, as_u64};
ghost use Rattle.desk_json_object.specs.Seen.{texts_seen, member_seen, members_seen, seen};

use desk_base::TextList;
use serde_json::Number;
use std::alloc::{AllocError, Global};
use std::collections::BTreeMap;

/// A member's value, as far as it is kept.
#[derive(Drop)]
pub(crate) enum Member {
    /// A text.
    Text(String),
    /// A number.
    Number(Number),
    /// A list of texts.
    Texts(TextList),
    /// Anything else.
    Other,
}

/// What is kept of an object: the names of its members, and those of their values that are texts,
/// numbers or lists of texts.
#[derive(Drop)]
pub struct Object {
    members: BTreeMap<String, Member>,
}

impl Object {
    /// An object without members.
    pub(crate) fn new(alloc: Global) -> Object
        ensures { members_seen result.members.entries ≡ no_members }
    {
        Object {
            members: BTreeMap::new(alloc),
        }
    }

    /// How many members it has.
    pub fn len(&self) -> usize
        ensures { result ≡ members_len (members_seen self.now.members.entries) }
    {
        self.members.len()
    }

    /// Adds a member to the others, in place of one with its name.
    pub(crate) fn put(
        &mut self,
        alloc: Global,
        name: &str,
        member: Member,
    ) -> Result<(), AllocError>
        ensures { OnOk result (members_seen self.new.members.entries
            ≡ put name.now (member_seen member) (members_seen self.old.members.entries)) }
    {
        let key = String::from_str(alloc, name)?;
        drop(self.members.insert(key, member)?);
        Ok(())
    }

    fn member(&self, name: &str) -> Option<&Member>
        ensures { option_map (λ m. member_seen m.now) result
            ≡ get_member name.now (members_seen self.now.members.entries) }
    {
        self.members.get(name)
    }

    fn take(&mut self, name: &str) -> Option<Member>
        ensures { option_map member_seen result
            ≡ get_member name.now (members_seen self.old.members.entries) }
    {
        self.members.remove(name)
    }

    /// The text of a member, if it is one.
    pub fn text(&self, name: &str) -> Option<&str>
        ensures { option_map (λ s. s.now) result
            ≡ option_and_then as_str (get name.now (seen self.now)) }
    {
        match self.member(name)? {
            Member::Text(text) => Some(text.as_str()),
            _ => None,
        }
    }

    /// The number of a member, if it is a whole one from 0 to 2 ^ 64 - 1.
    pub fn number(&self, name: &str) -> Option<u64>
        ensures { result ≡ option_and_then as_u64
            (option_and_then as_number (get name.now (seen self.now))) }
    {
        match self.member(name)? {
            Member::Number(number) => number.as_u64(),
            _ => None,
        }
    }

    /// Takes a member out, and returns its text if it is one.
    pub fn take_text(&mut self, name: &str) -> Option<String>
        ensures { option_map string_bytes result
            ≡ option_and_then as_str (get name.now (seen self.old)) }
    {
        match self.take(name)? {
            Member::Text(text) => Some(text),
            _ => None,
        }
    }

    /// Takes a member out, and returns its texts if it is a list of texts.
    pub fn take_texts(&mut self, name: &str) -> Option<TextList>
        ensures { option_map texts_seen result
            ≡ option_and_then as_array (get name.now (seen self.old)) }
    {
        match self.take(name)? {
            Member::Texts(texts) => Some(texts),
            _ => None,
        }
    }
}
