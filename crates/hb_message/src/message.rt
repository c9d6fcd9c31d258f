//! A message that is read field by field.

ghost use Rattle.std.specs.Prelude.{◌≡◌, ◌+◌, ◌^◌, ◌<◌, ◌++◌, ◌∷◌, [], length, Ok};
ghost use Rattle.hb_message.specs.Reading.{read_into};
ghost use Rattle.hb_base.specs.Outcome.{Answers, Merges};

use crate::fault::MessageFault;
use hb_base::{List, Or};
use hb_wire::{Field, Fields};
use std::alloc::Global;

/// A value that takes a message's fields one after the other.
pub trait Message {
    ghost use Rattle.std.specs.Prelude.{Result};
    ghost use Rattle.hb_wire.specs.Field.{Content};
    ghost use Rattle.hb_wire.specs.Seen.{content, IsInMemory};
    ghost use Rattle.hb_base.specs.Outcome.{Merges};

    /// Why bytes aren't such a message.
    type Fault: MessageFault;

    ghost merged: { Self → Content → Result Self Self.Fault };

    /// Takes one field.
    ///
    /// Errors: the type's own fault, where the message can't have this field; and `NoMemory`. What the value is then
    /// isn't said.
    fn merge(&mut self, alloc: Global, field: Field<'_>) -> Result<(), Or<Self::Fault>>
        requires { IsInMemory field }
        ensures { Merges (merged self.old (content field.entry)) self.new result };
}

/// Reads `bytes`, which stand at place `at` of the whole record, into `message` (Protocol Buffers encoding guide,
/// "Message Structure").
///
/// Errors: the first, in order of bytes, of a field that `merge` refuses and of bytes that are no field; and
/// `NoMemory`. What `message` is then isn't said.
#[inline(never)]
pub fn read_message<M: Message>(
    alloc: Global,
    bytes: &[u8],
    at: usize,
    message: &mut M,
) -> Result<(), Or<M::Fault>>
    requires { at + length bytes.now < 2 ^ 64 }
    ensures { Merges (read_into M.merged M.Fault.wire message.old at bytes.now) message.new result }
{
    let mut fields = Fields::within(bytes, at);
    loop {
        match fields.next_field() {
            Ok(Some(field)) => message.merge(alloc, field)?,
            Ok(None) => return Ok(()),
            Err(fault) => return Err(Or::Fault(M::Fault::of_wire(fault))),
        }
    }
}

/// What the fields of `bytes`, which stand at place `at` of the whole record, make of `message`.
///
/// Errors: as for `read_message`.
#[inline(always)]
pub fn read_whole<M: Message + Drop>(
    alloc: Global,
    bytes: &[u8],
    at: usize,
    mut message: M,
) -> Result<M, Or<M::Fault>>
    requires { at + length bytes.now < 2 ^ 64 }
    ensures { Answers result (read_into M.merged M.Fault.wire message at bytes.now) }
{
    read_message(alloc, bytes, at, &mut message)?;
    Ok(message)
}

/// One more entry of a repeated field.
///
/// Errors: `NoMemory`, and then the entry is dropped.
pub fn add<T: Drop, F>(entries: &mut List<T>, entry: T) -> Result<(), Or<F>>
    ensures { Merges (Ok (entries.old ++ entry ∷ [])) entries.new result }
{
    entries.push(entry)?;
    Ok(())
}
