//! String literals (RFC 7541 section 5.2).

ghost use Rattle.std.specs.Prelude.{◌≡◌};
ghost use Rattle.hb_hpack.specs.Outcome.{GivesOr};
ghost use Rattle.hb_hpack.specs.Reader.{octets, string_at};

use crate::fault::{HpackWhy, Stop};
use crate::huffman::huffman_read;
use crate::integer::integer_at;
use crate::octets::Octets;
use hb_base::Or;
use std::alloc::Global;

/// The string literal in front, and the bytes behind it.
#[tactic(auto, unfolding(crate::specs::Reader::string_at))]
#[inline(always)]
pub(crate) fn string_at(alloc: Global, bytes: &[u8]) -> Result<(Octets<'_>, &[u8]), Or<Stop>>
    ensures { GivesOr (λ x. (octets x.0, x.1.now)) result (string_at bytes.now) }
{
    let Some(first) = bytes.first() else {
        return Err(Or::Fault(Stop {
            left: 0,
            why: HpackWhy::Truncated,
        }));
    };
    let (length, rest) = integer_at(bytes, 7).map_err(Or::Fault)?;
    if rest.len() < length {
        return Err(Or::Fault(Stop {
            left: 0,
            why: HpackWhy::Truncated,
        }));
    }
    let (text, rest) = rest.split_at(length);
    if *first < 128 {
        return Ok((Octets::Standing(text), rest));
    }
    match huffman_read(alloc, text)? {
        None => Err(Or::Fault(Stop {
            left: bytes.len(),
            why: HpackWhy::BadHuffman,
        })),
        Some(text) => Ok((Octets::Decoded(text), rest)),
    }
}
