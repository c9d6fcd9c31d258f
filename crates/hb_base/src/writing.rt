//! Whole writes.

ghost use Rattle.std.specs.Prelude.{◌≤◌, is_err};
ghost use Rattle.hb_base.specs.Count.{Counts};
ghost use Rattle.hb_base.specs.Sink.{WritesAll};

use crate::sink::{Put, Sink};
use thiserror::Error;

/// A put failed before all bytes were written.
#[derive(Clone, Copy, Debug, Error)]
#[error("a write failed")]
pub struct WriteFault;

/// Writes all of these bytes.
///
/// Errors: `WriteFault` at the first put that fails, after which nothing more is put; a part of the bytes, from the
/// front, is written then.
pub fn put_all<K: Sink>(sink: &mut K, bytes: &[u8]) -> Result<(), WriteFault>
    ensures bytes { WritesAll (K.written sink.old) (K.written sink.new) bytes.now result }
    ensures later { K.faults sink.old ≤ K.faults sink.new }
    ensures counts { Counts (K.faults sink.old) (K.faults sink.new) (is_err result) }
{
    let mut at = 0;
    while at < bytes.len() {
        match sink.put(&bytes[at..]) {
            Put::Took(n) => at += n,
            Put::Failed => return Err(WriteFault),
        }
    }
    Ok(())
}
