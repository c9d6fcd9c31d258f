//! The streams that this end reset a short while ago.

ghost use Rattle.std.specs.Prelude.{◌≡◌, [], IfOk};
ghost use Rattle.hb_streams.specs.Resets.{with_reset, is_among};

use crate::numbers::MOST_RESETS;
use circular_buffer::HeapCircularBuffer;
use hb_base::NoMemory;
use std::alloc::Global;
use std::marker::Model;

/// The numbers of the streams that this end reset, oldest first, the last 128.
#[derive(Drop)]
pub(crate) struct Resets {
    numbers: HeapCircularBuffer<u32>,
}

impl Model for Resets {
    ghost use Rattle.std.specs.Prelude.{◌≡◌, List, ℕ};
    ghost use Rattle.hb_streams.specs.Numbers.{most_resets};

    ghost Value = { List ℕ };

    ghost view = { λ r. r.numbers.items };

    ghost invariant = { λ r. r.numbers.capacity ≡ most_resets };
}

impl Resets {
    /// No stream was reset.
    ///
    /// Errors: `NoMemory`.
    pub fn new(alloc: Global) -> Result<Resets, NoMemory>
        ensures { IfOk result (λ resets. resets ≡ []) }
    {
        let numbers = HeapCircularBuffer::with_capacity(alloc, MOST_RESETS)?;
        Ok(Resets { numbers })
    }

    /// Adds a stream. The oldest of 128 goes.
    pub fn add(&mut self, stream: u32)
        ensures { self.new ≡ with_reset self.old stream }
    {
        self.numbers.push_back(stream);
    }

    /// Whether this stream is one of them.
    pub fn contains(&self, stream: u32) -> bool
        ensures { result ≡ is_among self.now stream }
    {
        let (front, back) = self.numbers.as_slices();
        let in_front = front.contains(&stream);
        let in_back = back.contains(&stream);
        in_front || in_back
    }
}
