//! Numbers, addresses, and the entries of a repeated field.

ghost use Rattle.std.specs.Prelude.{◌≡◌};
ghost use Rattle.hb_base.specs.Outcome.{Answers};
ghost use Rattle.hb_records.specs.Entries.{low_32, octets_in, room_in, too_many};

use crate::fault::RecordFault;
use hb_base::{Ip, List, Or};

/// How many numbers 32 bits have.
const NUMBERS_OF_32_BITS: u64 = 4_294_967_296;

/// The most entries that a repeated field may have.
pub const MOST_ENTRIES: usize = 4096;

/// A uint32 or an enum is the low 32 bits of its varint.
pub fn low_32(n: u64) -> u32
    ensures { result ≡ low_32 n }
{
    (n % NUMBERS_OF_32_BITS) as u32
}

/// An address of 4 or 16 octets.
///
/// Errors: `BadIp` of this field for any other number of octets.
pub fn read_octets(field: u32, octets: &[u8]) -> Result<Ip, Or<RecordFault>>
    ensures { Answers result (octets_in field octets.now) }
{
    match Ip::from_octets(octets) {
        Some(ip) => Ok(ip),
        None => Err(Or::Fault(RecordFault::BadIp { field })),
    }
}

/// One entry more than a repeated field may have.
///
/// Errors: always `TooMany` of this field, with the count 4,097.
pub fn too_many<T>(field: u32) -> Result<T, Or<RecordFault>>
    ensures { Answers result (too_many field) }
{
    Err(Or::Fault(RecordFault::TooMany { field, count: 4097 }))
}

/// Looks whether a repeated field has room for one more entry.
///
/// Errors: `TooMany` of this field where that would be the 4,097th.
pub fn check_room<T>(field: u32, entries: &List<T>) -> Result<(), Or<RecordFault>>
    ensures { Answers result (room_in field entries.now) }
{
    if entries.len() < MOST_ENTRIES {
        return Ok(());
    }
    too_many(field)
}
