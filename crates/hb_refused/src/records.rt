//! Of hb_records.

ghost use Rattle.hb_base.specs.Outcome.{Answers};
ghost use Rattle.hb_records.specs.Address.{address_of};
ghost use Rattle.hb_records.specs.Authorization.{authorization_of};

use hb_base::Or;
use hb_records::{AddressRecord, Authorization, RecordFault};
use std::alloc::Global;

/// `read_address`, with its Errors.
pub fn read_address(alloc: Global, bytes: &[u8]) -> Result<AddressRecord, Or<RecordFault>>
    ensures { Answers result (address_of bytes.now) }
{
    hb_records::read_address(alloc, bytes)
}

/// `read_authorization`, with its Errors.
pub fn read_authorization(alloc: Global, bytes: &[u8]) -> Result<Authorization, Or<RecordFault>>
    ensures { Answers result (authorization_of bytes.now) }
{
    hb_records::read_authorization(alloc, bytes)
}
