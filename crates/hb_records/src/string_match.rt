//! String matches.

ghost use Rattle.std.specs.Prelude.{◌≡◌, ◌+◌, ◌^◌, ◌<◌, length};
ghost use Rattle.hb_base.specs.Outcome.{Answers, Merges};
ghost use Rattle.hb_records.specs.StringMatch.{string_match_in, member_in};

use crate::fault::RecordFault;
use hb_base::{Or, Text};
use hb_message::{Message, read_text, read_whole};
use hb_wire::{Field, FieldValue};
use std::alloc::Global;

/// What a text has to be to match: equal, begin so, end so, or not be empty.
#[derive(Drop)]
pub enum StringMatch {
    Exact(Text),
    Prefix(Text),
    Suffix(Text),
    Presence,
}

/// The member that occurred last, if one did.
#[derive(Drop)]
struct Member {
    kind: Option<StringMatch>,
}

impl Message for Member {
    ghost use Rattle.hb_records.specs.StringMatch.{member_of};

    type Fault = RecordFault;

    ghost merged = { member_of };

    fn merge(&mut self, alloc: Global, field: Field<'_>) -> Result<(), Or<RecordFault>> {
        match field.value {
            FieldValue::Span(bytes) => self.take(alloc, field.number, bytes),
            _ => Ok(()),
        }
    }
}

impl Member {
    fn take(&mut self, alloc: Global, number: u32, bytes: &[u8]) -> Result<(), Or<RecordFault>>
        ensures { Merges (member_in self.old.kind number bytes.now) self.new.kind result }
    {
        let kind = match number {
            1 => StringMatch::Exact(read_text(alloc, 1, bytes)?),
            2 => StringMatch::Prefix(read_text(alloc, 2, bytes)?),
            3 => StringMatch::Suffix(read_text(alloc, 3, bytes)?),
            4 => StringMatch::Presence,
            _ => return Ok(()),
        };
        self.kind = Some(kind);
        Ok(())
    }
}

/// The string match of `bytes`, which stand at place `at` under the field number `field`.
///
/// Errors: the first of `Wire` and `Utf8` in order of bytes, and `NoKind` of `field` behind them, where it has no
/// member; and `NoMemory`.
#[tactic(auto, unfolding(crate::specs::StringMatch::string_match_in))]
pub fn read_string_match(
    alloc: Global,
    field: u32,
    at: usize,
    bytes: &[u8],
) -> Result<StringMatch, Or<RecordFault>>
    requires { at + length bytes.now < 2 ^ 64 }
    ensures { Answers result (string_match_in field at bytes.now) }
{
    let member = read_whole(alloc, bytes, at, Member { kind: None })?;
    match member.kind {
        Some(kind) => Ok(kind),
        None => Err(Or::Fault(RecordFault::NoKind { field })),
    }
}
