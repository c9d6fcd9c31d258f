//! Prefixes of addresses.

ghost use Rattle.std.specs.Prelude.{◌≡◌, ◌+◌, ◌^◌, ◌<◌, length};
ghost use Rattle.hb_base.specs.Outcome.{Answers, Merges};
ghost use Rattle.hb_records.specs.Prefix.{prefix_span, prefix_number, octets_or, prefix_in};

use crate::entries::{low_32, read_octets};
use crate::fault::RecordFault;
use hb_base::{Cidr, Or, Short};
use hb_message::{Message, read_whole};
use hb_wire::{Field, FieldValue};
use std::alloc::Global;

/// A prefix as far as its fields were read.
#[derive(Drop)]
struct PrefixParts {
    address: Option<Short>,
    length: u32,
}

impl Message for PrefixParts {
    ghost use Rattle.hb_records.specs.Prefix.{prefix_merged};

    type Fault = RecordFault;

    ghost merged = { prefix_merged };

    fn merge(&mut self, _alloc: Global, field: Field<'_>) -> Result<(), Or<RecordFault>> {
        match field.value {
            FieldValue::Span(bytes) => self.take_span(field.number, bytes),
            FieldValue::Varint(n) => {
                self.take_number(field.number, n);
                Ok(())
            }
            _ => Ok(()),
        }
    }
}

impl PrefixParts {
    fn take_span(&mut self, number: u32, bytes: &[u8]) -> Result<(), Or<RecordFault>>
        ensures { Merges (prefix_span self.old number bytes.now) self.new result }
    {
        if number == 1 {
            let _ip = read_octets(1, bytes)?;
            self.address = Some(Short::of(bytes));
        }
        Ok(())
    }

    fn take_number(&mut self, number: u32, n: u64)
        ensures { self.new ≡ prefix_number self.old number n }
    {
        if number == 2 {
            self.length = low_32(n);
        }
    }

    /// The prefix, which has to have an address that is as long.
    fn whole(&self, field: u32) -> Result<Cidr, Or<RecordFault>>
        ensures { Answers result (octets_or field self.now.length self.now.address) }
    {
        let Some(octets) = &self.address else {
            return Err(Or::Fault(RecordFault::BadCidr { field }));
        };
        match Cidr::new(octets.as_slice(), self.length) {
            Some(cidr) => Ok(cidr),
            None => Err(Or::Fault(RecordFault::BadCidr { field })),
        }
    }
}

/// The prefix of `bytes`, which stand at place `at` under the field number `field`.
///
/// Errors: the first of `Wire` and `BadIp` in order of bytes, and `BadCidr` of `field` behind them, where it has no
/// address or is longer than its address; and `NoMemory`.
#[tactic(auto, unfolding(crate::specs::Prefix::prefix_in))]
pub fn read_prefix(
    alloc: Global,
    field: u32,
    at: usize,
    bytes: &[u8],
) -> Result<Cidr, Or<RecordFault>>
    requires { at + length bytes.now < 2 ^ 64 }
    ensures { Answers result (prefix_in field at bytes.now) }
{
    let unread = PrefixParts {
        address: None,
        length: 0,
    };
    let parts = read_whole(alloc, bytes, at, unread)?;
    parts.whole(field)
}
