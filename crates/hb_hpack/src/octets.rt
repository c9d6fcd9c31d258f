//! Octets of a header before it is known whether they are kept.

ghost use Rattle.std.specs.Prelude.{◌≡◌};
ghost use Rattle.hb_hpack.specs.Reader.{octets};

use hb_base::{Bytes, NoMemory};
use std::alloc::Global;

/// A name or a value: octets of the block or of a table as they stand there, or a text that was spelled in the
/// Huffman code.
#[derive(Drop)]
pub enum Octets<'a> {
    Standing(&'a [u8]),
    Decoded(Bytes),
}

impl<'a> Octets<'a> {
    ghost use Rattle.std.specs.Prelude.{◌≡◌, IfOk};
    ghost use Rattle.hb_hpack.specs.Reader.{octets};

    #[inline(always)]
    pub(crate) fn as_slice(&self) -> &[u8]
        ensures { result.now ≡ octets self.now }
    {
        match self {
            Octets::Standing(bytes) => bytes,
            Octets::Decoded(bytes) => bytes.as_slice(),
        }
    }

    /// These octets as bytes of their own.
    #[inline(always)]
    pub(crate) fn into_bytes(self, alloc: Global) -> Result<Bytes, NoMemory>
        ensures { IfOk result (λ r. r ≡ octets self.entry) }
    {
        match self {
            Octets::Standing(bytes) => Bytes::of(alloc, bytes),
            Octets::Decoded(bytes) => Ok(bytes),
        }
    }
}
