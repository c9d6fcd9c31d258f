//! Integers with a prefix (RFC 7541 section 5.1).

ghost use Rattle.std.specs.Prelude.{◌≡◌, ◌+◌, ◌-◌, ◌*◌, ◌^◌, ◌<◌, ◌≤◌};
ghost use Rattle.hb_hpack.specs.Outcome.{Gives};
ghost use Rattle.hb_hpack.specs.Reader.{groups_from, integer_at};

use crate::fault::{HpackWhy, Stop};

/// The groups of seven bits from the one of this weight on, behind groups that make `value`; at most `left` of
/// them are there. Gives the bytes behind them too.
#[tactic(auto, unfolding(crate::specs::Reader::groups_from))]
fn groups_from(bytes: &[u8], left: u8, weight: u64, value: u64) -> Result<(usize, &[u8]), Stop>
    requires left { left ≤ 5 }
    requires weight { weight ≡ 128 ^ (5 - left) }
    requires value { value < 2 ^ 32 }
    ensures { Gives (λ x. (x.0, x.1.now)) result (groups_from left weight value bytes.now) }
{
    let Some((byte, rest)) = bytes.split_first() else {
        return Err(Stop {
            left: 0,
            why: HpackWhy::Truncated,
        });
    };
    if left == 0 {
        return Err(Stop {
            left: bytes.len(),
            why: HpackWhy::LongInteger,
        });
    }
    let value = value + u64::from(*byte % 128) * weight;
    if u64::from(u32::MAX) < value {
        return Err(Stop {
            left: bytes.len(),
            why: HpackWhy::LongInteger,
        });
    }
    if *byte < 128 {
        return Ok((value as usize, rest));
    }
    groups_from(rest, left - 1, 128 * weight, value)
}

/// The integer in front with a prefix of so many bits, and the bytes behind it.
#[tactic(auto, unfolding(crate::specs::Reader::integer_at))]
#[inline(always)]
pub(crate) fn integer_at(bytes: &[u8], prefix: u8) -> Result<(usize, &[u8]), Stop>
    requires { prefix < 8 }
    ensures { Gives (λ x. (x.0, x.1.now)) result (integer_at prefix bytes.now) }
{
    let Some((byte, rest)) = bytes.split_first() else {
        return Err(Stop {
            left: 0,
            why: HpackWhy::Truncated,
        });
    };
    let full = (1u8 << prefix) - 1;
    let low = *byte & full;
    if low < full {
        return Ok((usize::from(low), rest));
    }
    groups_from(rest, 5, 1, u64::from(full))
}
