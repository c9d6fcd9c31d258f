//! The five bytes in front of a message.

ghost use Rattle.std.specs.Prelude.{◌≡◌, ◌-◌, ◌≤◌, ◌++◌, [], length, take, drop};
ghost use Rattle.hb_grpc.specs.Reading.{announced};

use crate::fault::GrpcFault;
use hb_base::Short;
use std::marker::Model;

/// The Compressed-Flag and the Message-Length.
pub(crate) const HEADER: usize = 5;

/// What has come of a header. Contracts see it as these bytes.
#[derive(Drop)]
pub(crate) struct Header {
    bytes: Short,
}

impl Model for Header {
    ghost use Rattle.std.specs.Prelude.{List, ℕ, ◌≤◌, length};

    ghost Value = { List ℕ };

    ghost view = { λ h. h.bytes };

    ghost invariant = { λ h. length h.bytes ≤ 5 };
}

impl Header {
    /// The header of which nothing has come.
    pub fn new() -> Header
        ensures { result ≡ [] }
    {
        Header {
            bytes: Short::new(),
        }
    }

    /// The bytes that have come of it, in order.
    pub fn as_slice(&self) -> &[u8]
        ensures value { result.now ≡ self.now }
        ensures short { length self.now ≤ 5 }
    {
        self.bytes.as_slice()
    }

    /// Takes what it lacks from the front of the piece, and gives what is left of the piece.
    pub fn fill<'a>(&mut self, piece: &'a [u8]) -> &'a [u8]
        ensures after { self.new ≡ take 5 (self.old ++ piece.now) }
        ensures rest { result.now ≡ drop (5 - length self.old) piece.now }
        ensures short { length self.old ≤ 5 }
    {
        self.bytes.fill(HEADER, piece)
    }

    /// Forgets all but the first `n` bytes.
    pub fn truncate(&mut self, n: usize)
        ensures { self.new ≡ take n self.old }
    {
        self.bytes.truncate(n);
    }
}

/// The length that the bytes of a header announce; None where they don't yet.
pub(crate) fn announced(header: &[u8], limit: u32) -> Result<Option<u32>, GrpcFault>
    ensures { result ≡ announced limit header.now }
{
    if header.is_empty() {
        return Ok(None);
    }
    if header[0] != 0 {
        return Err(GrpcFault::Compressed { flag: header[0] });
    }
    if header.len() < HEADER {
        return Ok(None);
    }
    let length = u32::from_be_bytes([header[1], header[2], header[3], header[4]]);
    if length > limit {
        return Err(GrpcFault::TooLong { length });
    }
    Ok(Some(length))
}
