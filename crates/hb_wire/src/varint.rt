//! Base 128 varints.

ghost use Rattle.std.specs.Prelude.{◌≡◌, ◌+◌, ◌-◌, ◌*◌, ◌^◌, ◌<◌, ◌≤◌, length, IfOk};
ghost use Rattle.hb_wire.specs.Varint.{varint_at};

use crate::fault::{WireFault, WireWhy};

/// A varint's value and its length in bytes.
#[derive(Clone, Copy)]
pub struct Varint {
    pub value: u64,
    pub length: usize,
}

/// The varint in front of `bytes`, which stand at place `at`; `index` of its bytes stand before them (Protocol
/// Buffers encoding guide, "Base 128 Varints").
///
/// Errors: `Truncated` where the bytes end within it, `LongVarint` where its tenth byte is above 1.
pub fn read_varint(bytes: &[u8], at: usize, index: u32) -> Result<Varint, WireFault>
    requires place { at + length bytes.now < 2 ^ 64 }
    requires few { index ≤ 9 }
    ensures value { result ≡ varint_at bytes.now at index }
    ensures inside { IfOk result (λ v. (0 < v.length) × (v.length ≤ length bytes.now)) }
    ensures small { IfOk result (λ v. v.value < 2 ^ (64 - 7 * index)) }
{
    let Some((byte, rest)) = bytes.split_first() else {
        return Err(WireFault {
            at,
            why: WireWhy::Truncated,
        });
    };
    let low = u64::from(*byte);
    if index == 9 {
        if low > 1 {
            return Err(WireFault {
                at,
                why: WireWhy::LongVarint,
            });
        }
        return Ok(Varint {
            value: low,
            length: 1,
        });
    }
    if low < 128 {
        return Ok(Varint {
            value: low,
            length: 1,
        });
    }
    let high = read_varint(rest, at + 1, index + 1)?;
    Ok(Varint {
        value: (low - 128) + 128 * high.value,
        length: high.length + 1,
    })
}
