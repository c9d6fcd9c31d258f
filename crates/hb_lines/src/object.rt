//! Objects in JSON of which what is empty is left out.

ghost use Rattle.std.specs.Prelude.{◌≡◌, map, Some, IfOk, OnOk};
ghost use Rattle.std.specs.Option.{option_map};
ghost use Rattle.serde_json.specs.Data.{string, object, no_members, put};
ghost use Rattle.serde_json.specs.View.{view};
ghost use Rattle.hb_lines.specs.Object.{text_member, array_member, number_member, put_some, members_as, with_member};

use crate::value::{ToJson, array_of};
use hb_base::{NoMemory, Text};
use serde_json::{Map, Value};
use std::alloc::Global;

/// An object as far as its members were put.
#[derive(Drop)]
pub(crate) struct Object {
    alloc: Global,
    members: Map<String, Value>,
}

impl Object {
    /// It has no members.
    pub(crate) fn new(alloc: Global) -> Object
        ensures { members_as result ≡ no_members }
    {
        Object {
            alloc,
            members: Map::new(alloc),
        }
    }

    /// Puts a member.
    pub(crate) fn put(&mut self, key: &str, value: Value) -> Result<(), NoMemory>
        ensures { OnOk result (members_as self.new ≡ put key.now (view value) (members_as self.old)) }
    {
        serde_json::put(&mut self.members, self.alloc, key, value)
    }

    /// Puts a member where it has a value.
    #[tactic(auto, unfolding(crate::specs::Object::put_some))]
    pub(crate) fn put_some(&mut self, key: &str, value: Option<Value>) -> Result<(), NoMemory>
        ensures { OnOk result (members_as self.new ≡ put_some key.now (option_map view value) (members_as self.old)) }
    {
        match value {
            Some(value) => self.put(key, value),
            None => Ok(()),
        }
    }

    /// Puts a word.
    #[tactic(auto, unfolding(crate::specs::Object::put_some))]
    pub(crate) fn put_word(&mut self, key: &str, word: &str) -> Result<(), NoMemory>
        ensures { OnOk result (members_as self.new ≡ put_some key.now (Some (string word.now)) (members_as self.old)) }
    {
        let word = Value::try_from_str(self.alloc, word)?;
        self.put(key, word)
    }

    /// Puts a text that isn't empty.
    #[tactic(auto, unfolding(crate::specs::Object::put_some, crate::specs::Object::text_member))]
    pub(crate) fn put_text(&mut self, key: &str, text: &Text) -> Result<(), NoMemory>
        ensures { OnOk result (members_as self.new ≡ put_some key.now (text_member text.now) (members_as self.old)) }
    {
        if text.as_slice().is_empty() {
            return Ok(());
        }
        let text = text.to_json(self.alloc)?;
        self.put(key, text)
    }

    /// Puts a number that isn't 0.
    #[tactic(auto, unfolding(crate::specs::Object::put_some, crate::specs::Object::number_member))]
    pub(crate) fn put_number(&mut self, key: &str, number: u32) -> Result<(), NoMemory>
        ensures { OnOk result (members_as self.new ≡ put_some key.now (number_member number) (members_as self.old)) }
    {
        if number == 0 {
            return Ok(());
        }
        self.put(key, Value::from(number))
    }

    /// Puts an array of these items, in order, where there are any.
    #[tactic(auto, unfolding(crate::specs::Object::put_some, crate::specs::Object::array_member))]
    pub(crate) fn put_array<T: ToJson>(&mut self, key: &str, items: &[T]) -> Result<(), NoMemory>
        ensures { OnOk result (members_as self.new ≡ put_some key.now (array_member (map T.told items.now)) (members_as self.old)) }
    {
        if items.is_empty() {
            return Ok(());
        }
        let items = array_of(self.alloc, items)?;
        self.put(key, items)
    }

    /// The object as a value.
    pub(crate) fn into_value(self) -> Value
        ensures { view result ≡ object (members_as self) }
    {
        Value::Object(self.members)
    }
}

/// An object with one member more.
pub(crate) fn with_member(
    alloc: Global,
    key: &str,
    member: Value,
    value: Value,
) -> Result<Value, NoMemory>
    ensures { IfOk result (λ v. view v ≡ with_member key.now (view member) (view value)) }
{
    match value {
        Value::Object(mut members) => {
            serde_json::put(&mut members, alloc, key, member)?;
            Ok(Value::Object(members))
        }
        other => Ok(other),
    }
}
