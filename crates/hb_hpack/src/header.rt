//! Headers and lists of them.

ghost use Rattle.std.specs.Prelude.{◌≡◌, ◌-◌, ◌^◌, min};
ghost use Rattle.hb_hpack.specs.StaticTable.{header};
ghost use Rattle.hb_hpack.specs.Table.{size_of};

use crate::octets::Octets;
use hb_base::{Bytes, List, NoMemory};
use std::alloc::Global;

/// A header: a name and a value, any bytes.
#[derive(Drop)]
pub struct Header {
    pub name: Bytes,
    pub value: Bytes,
}

/// The headers of a block. `size` is the sum of their sizes, each the bytes of name and value and 32
/// (RFC 7541 section 4.1), or 18,446,744,073,709,551,615 where it is more. `kept` are the headers in order,
/// the longest front whose sizes sum to at most 16,384.
#[derive(Drop)]
pub struct HeaderList {
    pub kept: List<Header>,
    pub size: u64,
}

/// The size of the header of this name and this value (RFC 7541 section 4.1).
#[inline(always)]
fn size_of(name: &[u8], value: &[u8]) -> u64
    ensures { result ≡ min (size_of (header name.now value.now)) (2 ^ 64 - 1) }
{
    let name = name.len() as u64;
    let value = value.len() as u64;
    name.saturating_add(value).saturating_add(32)
}

/// The most that the sizes of the headers that are kept may sum to.
const MOST_KEPT: u64 = 16384;

/// The headers for which a list has memory from the start: most requests have no more.
const FIRST_ROOM: usize = 16;

impl HeaderList {
    ghost use Rattle.std.specs.Prelude.{List as list, [], ◌∷◌, ◌++◌, IfOk, OnOk};
    ghost use Rattle.hb_hpack.specs.declared.header.Header.{Header};
    ghost use Rattle.hb_hpack.specs.Decoded.{IsListOf};
    ghost use Rattle.hb_hpack.specs.Reader.{octets};
    ghost use Rattle.hb_hpack.specs.StaticTable.{header};

    pub(crate) fn new(alloc: Global) -> Result<HeaderList, NoMemory>
        ensures { IfOk result (λ r. IsListOf [] r) }
    {
        Ok(HeaderList {
            kept: List::with_capacity(alloc, FIRST_ROOM)?,
            size: 0,
        })
    }

    /// Adds the header of this name and this value, which are copied only where they are kept. On NoMemory the list
    /// isn't used again.
    #[inline(always)]
    pub(crate) fn add(
        &mut self,
        alloc: Global,
        name: Octets<'_>,
        value: Octets<'_>,
    ) -> Result<(), NoMemory>
        ensures { OnOk result ((headers : list Header) → IsListOf headers self.old
            → IsListOf (headers ++ header (octets name.entry) (octets value.entry) ∷ []) self.new) }
    {
        let size = size_of(name.as_slice(), value.as_slice());
        self.size = self.size.saturating_add(size);
        if self.size <= MOST_KEPT {
            self.kept.push(Header {
                name: name.into_bytes(alloc)?,
                value: value.into_bytes(alloc)?,
            })?;
        }
        Ok(())
    }
}
