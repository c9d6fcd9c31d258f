//! A source over std's reader.

ghost use Rattle.std.specs.Prelude.{◌≡◌};

use crate::source::{Source, Taken};
use std::io::{ErrorKind, Read};
use std::marker::Model;

/// How often a read that was interrupted is tried again before it counts as a fault.
const INTERRUPTS: u32 = 16;

/// A source over std's reader, which tells the bytes left where the reader tells them. A read of 0 bytes is the end. A read that is
/// interrupted is tried again, up to 16 times in one call; then it counts as a fault, as any other error
/// does. Contracts see the reader and the count of faults, which stays at `u64::MAX` once it is there.
#[derive(Drop)]
pub struct StdSource<R> {
    reader: R,
    faults: u64,
}

impl<R> Model for StdSource<R> {
    ghost use Rattle.std.specs.Prelude.{ℕ};

    ghost Value = { R × ℕ };

    ghost view = { λ s. (s.reader, s.faults) };
}

impl<R> StdSource<R> {
    /// A source that reads from `reader`, of which no take has failed.
    pub fn over(reader: R) -> StdSource<R>
        ensures { result ≡ (reader, 0) }
    {
        StdSource { reader, faults: 0 }
    }
}

impl<R: Read> Source for StdSource<R> {
    ghost left = { λ s. R.remaining s.0 };

    ghost faults = { λ s. s.1 };

    fn take(&mut self, into: &mut [u8]) -> Taken {
        for _ in 0..INTERRUPTS {
            match self.reader.read(into) {
                Ok(0) => return Taken::End,
                Ok(n) => return Taken::Got(n),
                Err(e) if e.kind() == ErrorKind::Interrupted => {}
                Err(_) => break,
            }
        }
        self.faults = self.faults.saturating_add(1);
        Taken::Failed
    }
}
