//! Whole reads.

ghost use Rattle.std.specs.Prelude.{◌≡◌, ◌<◌, ◌≤◌, List, [], ℕ, length, vec_len, IfOk, IfSome, OnOk};
ghost use Rattle.std.specs.Io.KnownBytes.{Consumes};
ghost use Rattle.hb_base.specs.Count.{Counts};
ghost use Rattle.hb_base.specs.Reading.{read_failed};
ghost use Rattle.hb_base.specs.declared.reading.ReadStop.TheVariants.{TooLong};

use crate::bytes::Bytes;
use crate::or::NoMemory;
use crate::source::{Source, Taken};
use std::alloc::{AllocError, Global};
use thiserror::Error;

/// How many bytes one take may give.
const CHUNK: usize = 65536;

/// Why a source wasn't read to its end.
#[derive(Clone, Copy, Debug, Error)]
pub enum ReadStop {
    #[error("more bytes than allowed")]
    TooLong,
    #[error("a read failed")]
    Failed,
    #[error("out of memory")]
    NoMemory,
}

impl From<AllocError> for ReadStop {
    ghost use Rattle.std.specs.Prelude.{◌≡◌};
    ghost use Rattle.hb_base.specs.declared.reading.ReadStop.TheVariants.{NoMemory};

    ghost from_gives = { λ _ r. r ≡ NoMemory };

    fn from(_no_memory: NoMemory) -> ReadStop {
        ReadStop::NoMemory
    }
}

/// So many zero bytes.
fn zeros(alloc: Global, count: usize) -> Result<Vec<u8>, NoMemory>
    ensures { IfOk result (λ v. vec_len v ≡ count) }
{
    vec![in alloc; 0u8; count]
}

/// Reads a source to its end, which has to come within `limit` bytes.
///
/// Errors: `TooLong` where more bytes came, `Failed` at the first take that failed, and `NoMemory`. What was read is
/// lost then.
pub fn read_all<S: Source>(alloc: Global, source: &mut S, limit: usize) -> Result<Bytes, ReadStop>
    ensures whole { IfOk result (λ b. IfSome (S.left source.old) (λ left. b ≡ left)) }
    ensures within { IfOk result (λ b. length b ≤ limit) }
    ensures end { OnOk result (IfSome (S.left source.old) (λ _. S.left source.new ≡ Some [])) }
    ensures too_long { result ≡ Err TooLong → IfSome (S.left source.old) (λ left. limit < length left) }
    ensures over { result ≡ Err TooLong → (b : List ℕ) × (limit < length b) × Consumes (S.left source.old) (S.left source.new) b }
    ensures taken { (b : List ℕ) × Consumes (S.left source.old) (S.left source.new) b }
    ensures later { S.faults source.old ≤ S.faults source.new }
    ensures counts { Counts (S.faults source.old) (S.faults source.new) (read_failed result) }
{
    let mut chunk = zeros(alloc, CHUNK)?;
    let mut bytes = Vec::new(alloc);
    loop {
        match source.take(chunk.as_mut_slice()) {
            Taken::Failed => return Err(ReadStop::Failed),
            Taken::End => return Ok(Bytes::from_vec(bytes)),
            Taken::Got(n) => {
                if n > limit - bytes.len() {
                    return Err(ReadStop::TooLong);
                }
                bytes.extend_from_slice(&chunk[..n])?;
            }
        }
    }
}
