//! The bytes that are left of a message, and the values in front of them.

ghost use Rattle.std.specs.Prelude.{◌≡◌, ◌+◌, ◌-◌, ◌*◌, ◌^◌, ◌<◌, ◌≤◌, length, IfOk};
ghost use Rattle.hb_wire.specs.Field.{behind, varint_in, bytes_in, eight_in, four_in};

use crate::fault::{WireFault, WireWhy};
use crate::varint::read_varint;

/// Bytes that aren't read yet, and the place at which they stand.
#[derive(Clone, Copy)]
pub struct Cursor<'a> {
    pub at: usize,
    pub left: &'a [u8],
    pub ghost in_range: { at + length left.now < 2 ^ 64 },
}

impl<'a> Cursor<'a> {
    ghost use Rattle.hb_wire.specs.Seen.{seen, unread};

    /// The varint in front, and what is unread behind it (Protocol Buffers encoding guide, "Base 128 Varints").
    ///
    /// Errors: `Truncated` where the bytes end within it, `LongVarint` where its tenth byte is above 1.
    #[tactic(auto, unfolding(crate::specs::Field::varint_in))]
    pub fn varint(self) -> Result<(u64, Cursor<'a>), WireFault>
        ensures { seen (λ v. (v.0, unread v.1)) result ≡ varint_in (unread self.entry) }
    {
        // Most are one byte or two, which need no reading byte by byte.
        if let Some(first) = self.left.first() {
            if *first < 128 {
                return Ok((u64::from(*first), self.behind(1)));
            }
            if let Some(second) = self.left.get(1) {
                if *second < 128 {
                    let value = (u64::from(*first) - 128) + 128 * u64::from(*second);
                    return Ok((value, self.behind(2)));
                }
            }
        }
        let read = read_varint(self.left, self.at, 0)?;
        Ok((read.value, self.behind(read.length)))
    }

    /// What is unread behind the first `n` bytes.
    fn behind(self, n: usize) -> Cursor<'a>
        requires { n ≤ length self.left.now }
        ensures { unread result ≡ behind n (unread self.entry) }
    {
        Cursor {
            at: self.at + n,
            left: &self.left[n..],
        }
    }

    /// The first `n` bytes, and what is unread behind them.
    ///
    /// Errors: `Truncated`, at the end of the bytes, where there are fewer.
    #[tactic(auto, unfolding(crate::specs::Field::bytes_in))]
    pub fn bytes(self, n: u64) -> Result<(&'a [u8], Cursor<'a>), WireFault>
        ensures value { seen (λ b. (b.0.now, unread b.1)) result ≡ bytes_in n (unread self.entry) }
        ensures inside { IfOk result (λ b. length b.0.now ≤ length self.entry.left.now) }
    {
        if (self.left.len() as u64) < n {
            return Err(WireFault {
                at: self.at + self.left.len(),
                why: WireWhy::Truncated,
            });
        }
        let n = n as usize;
        Ok((&self.left[..n], self.behind(n)))
    }

    /// The number of the first eight bytes, the least first, and what is unread behind them.
    ///
    /// Errors: `Truncated`, at the end of the bytes, where there are fewer.
    #[tactic(auto, unfolding(crate::specs::Field::bytes_in))]
    pub fn eight(self) -> Result<(u64, Cursor<'a>), WireFault>
        ensures { seen (λ v. (v.0, unread v.1)) result ≡ eight_in (unread self.entry) }
    {
        let (b, rest) = self.bytes(8)?;
        Ok((
            u64::from_le_bytes([b[0], b[1], b[2], b[3], b[4], b[5], b[6], b[7]]),
            rest,
        ))
    }

    /// The number of the first four bytes, the least first, and what is unread behind them.
    ///
    /// Errors: `Truncated`, at the end of the bytes, where there are fewer.
    #[tactic(auto, unfolding(crate::specs::Field::bytes_in))]
    pub fn four(self) -> Result<(u32, Cursor<'a>), WireFault>
        ensures { seen (λ v. (v.0, unread v.1)) result ≡ four_in (unread self.entry) }
    {
        let (b, rest) = self.bytes(4)?;
        Ok((u32::from_le_bytes([b[0], b[1], b[2], b[3]]), rest))
    }
}
