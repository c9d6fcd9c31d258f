//! Repeated numbers, one a field or packed.

ghost use Rattle.std.specs.Prelude.{◌+◌, ◌^◌, ◌<◌, length};
ghost use Rattle.hb_base.specs.Outcome.{Merges};
ghost use Rattle.hb_records.specs.Numbers.{with_number, packed_in};

use crate::entries::{check_room, low_32};
use crate::fault::RecordFault;
use hb_base::{List, Or};
use hb_message::add;
use hb_wire::Packed;

/// Takes one more number of the field `field`.
///
/// Errors: `TooMany` where it would be the 4,097th; and `NoMemory`. What `numbers` has then isn't said.
pub fn take_number(field: u32, n: u64, numbers: &mut List<u32>) -> Result<(), Or<RecordFault>>
    ensures { Merges (with_number field numbers.old n) numbers.new result }
{
    check_room(field, numbers)?;
    add(numbers, low_32(n))
}

/// Takes the numbers of the packed field `field` whose bytes stand at place `at` (Protocol Buffers encoding guide,
/// "Packed Repeated Fields").
///
/// Errors: at the first number for which one applies, `TooMany` where it would be the 4,097th, also of a broken one,
/// and `Wire` where it is broken; and `NoMemory`. What `numbers` has then isn't said.
pub fn take_packed(
    field: u32,
    at: usize,
    bytes: &[u8],
    numbers: &mut List<u32>,
) -> Result<(), Or<RecordFault>>
    requires { at + length bytes.now < 2 ^ 64 }
    ensures { Merges (packed_in field numbers.old (record { at = at; left = bytes.now })) numbers.new result }
{
    let mut packed = Packed::within(bytes, at);
    loop {
        match packed.next_number() {
            Ok(Some(n)) => take_number(field, n, numbers)?,
            Ok(None) => return Ok(()),
            Err(fault) => {
                check_room(field, numbers)?;
                return Err(Or::Fault(RecordFault::Wire(fault)));
            }
        }
    }
}
