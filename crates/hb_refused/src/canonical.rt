//! Of hb_canonical.

ghost use Rattle.std.specs.Prelude.{◌≡◌, ◌++◌, ℕ, List as list, Ok, OnOk, OnErr};
ghost use Rattle.std.specs.List.{All};
ghost use Rattle.hb_wire.specs.Spelling.{IsOctet};
ghost use Rattle.hb_records.specs.Address.{address_of};
ghost use Rattle.hb_canonical.specs.Address.{canonical_address};

use hb_base::NoMemory;
use hb_records::AddressRecord;
use std::alloc::Global;

/// `put_address`, with its Errors.
pub fn put_address(alloc: Global, r: &AddressRecord, out: &mut Vec<u8>) -> Result<(), NoMemory>
    ensures ok { OnOk result (out.new.items ≡ out.old.items ++ canonical_address r.now) }
    ensures err { OnErr result (out.new.items ≡ out.old.items) }
    ensures reads_back { OnOk result ((b : list ℕ) → All IsOctet b → address_of b ≡ Ok r.now
        → address_of (canonical_address r.now) ≡ Ok r.now) }
{
    hb_canonical::put_address(alloc, r, out)
}
