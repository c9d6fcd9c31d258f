//! Sinks that say whether they take more.

ghost use Rattle.std.specs.Prelude.{◌≡◌};

use hb_base::{Put, Sink};

/// A sink of bytes that is asked before each put whether it takes more without a wait, and that counts its faults.
pub trait Polled {
    ghost use Rattle.std.specs.Prelude.{◌≡◌, ◌<◌, ◌≤◌, ℕ, Bool, true, List, Option, Some, length};
    ghost use Rattle.hb_base.specs.Count.{Rose, Counts};
    ghost use Rattle.hb_base.specs.Sink.{Puts, put_failed};
    ghost use Rattle.hb_line_audit.specs.Lines.{most};

    /// The bytes written, where the sink tells them.
    ghost written: { Self → Option (List ℕ) };

    /// How often a put failed.
    ghost faults: { Self → ℕ };

    /// What it answered last, where nothing was put since.
    ghost answer: { Self → Option Bool };

    /// How often it was asked.
    ghost asked: { Self → ℕ };

    /// Whether it takes some bytes now, up to 4,096 of them, without a wait.
    fn takes_more(&mut self) -> bool
        ensures answer { answer self.new ≡ Some result }
        ensures asked { Rose (asked self.old) (asked self.new) }
        ensures later { asked self.old ≤ asked self.new }
        ensures bytes { written self.new ≡ written self.old }
        ensures faults { faults self.new ≡ faults self.old };

    /// Writes some bytes from the buffer's front.
    fn put(&mut self, from: &[u8]) -> Put
        requires some { 0 < length from.now }
        requires most { length from.now ≤ most }
        requires takes { answer self.old ≡ Some true }
        ensures bytes { Puts (written self.old) (written self.new) from.now result }
        ensures asked { asked self.new ≡ asked self.old }
        ensures counts { Counts (faults self.old) (faults self.new) (put_failed result) };
}

/// A sink that always takes more, as one over memory.
#[derive(Drop)]
pub struct Always<K> {
    sink: K,
    takes: bool,
    asked: u64,
}

impl<K> Always<K> {
    /// A sink that was never asked.
    pub fn over(sink: K) -> Always<K>
        ensures { result.sink ≡ sink }
    {
        Always {
            sink,
            takes: false,
            asked: 0,
        }
    }

    /// The sink itself.
    pub fn sink(&self) -> &K
        ensures { result.now ≡ self.now.sink }
    {
        &self.sink
    }
}

impl<K: Sink> Polled for Always<K> {
    ghost use Rattle.hb_line_audit.specs.Lines.{answered};

    ghost written = { λ s. K.written s.sink };

    ghost faults = { λ s. K.faults s.sink };

    ghost answer = { λ s. answered s.takes };

    ghost asked = { λ s. s.asked };

    fn takes_more(&mut self) -> bool {
        self.asked = self.asked.saturating_add(1);
        self.takes = true;
        true
    }

    fn put(&mut self, from: &[u8]) -> Put {
        self.takes = false;
        self.sink.put(from)
    }
}
