//! A sink over std's writer.

ghost use Rattle.std.specs.Prelude.{◌≡◌};

use crate::sink::{Put, Sink};
use std::io::{ErrorKind, Write};
use std::marker::Model;

/// How often a write that was interrupted is tried again before it counts as a fault.
const INTERRUPTS: u32 = 16;

/// A sink over std's writer, which tells the bytes written where the writer tells them. A write of 0 bytes is a fault. A write that is
/// interrupted is tried again, up to 16 times in one call; then it counts as a fault, as any other error
/// does. Contracts see the writer and the count of faults, which stays at `u64::MAX` once it is there. Nothing is flushed.
#[derive(Drop)]
pub struct StdSink<W> {
    writer: W,
    faults: u64,
}

impl<W> Model for StdSink<W> {
    ghost use Rattle.std.specs.Prelude.{ℕ};

    ghost Value = { W × ℕ };

    ghost view = { λ s. (s.writer, s.faults) };
}

impl<W> StdSink<W> {
    /// A sink that writes to `writer`, of which no put has failed.
    pub fn over(writer: W) -> StdSink<W>
        ensures { result ≡ (writer, 0) }
    {
        StdSink { writer, faults: 0 }
    }
}

impl<W: Write> Sink for StdSink<W> {
    ghost written = { λ s. W.contents s.0 };

    ghost faults = { λ s. s.1 };

    fn put(&mut self, from: &[u8]) -> Put {
        for _ in 0..INTERRUPTS {
            match self.writer.write(from) {
                Ok(0) => break,
                Ok(n) => return Put::Took(n),
                Err(e) if e.kind() == ErrorKind::Interrupted => {}
                Err(_) => break,
            }
        }
        self.faults = self.faults.saturating_add(1);
        Put::Failed
    }
}
