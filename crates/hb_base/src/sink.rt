//! Where bytes go.

/// What a put answers.
#[derive(Clone, Copy, Debug)]
pub enum Put {
    /// So many bytes from the buffer's front are written, at least one.
    Took(usize),
    /// The sink failed and wrote nothing; a later put may do better.
    Failed,
}

/// A sink of bytes that counts its faults.
pub trait Sink {
    ghost use Rattle.std.specs.Prelude.{◌<◌, ◌≤◌, List, ℕ, length, Option};
    ghost use Rattle.hb_base.specs.Count.{Counts};
    ghost use Rattle.hb_base.specs.Sink.{Puts, put_failed};

    /// The bytes written, where the sink tells them.
    ghost written: { Self → Option (List ℕ) };

    /// How often a put failed.
    ghost faults: { Self → ℕ };

    /// Writes some bytes from the buffer's front.
    fn put(&mut self, from: &[u8]) -> Put
        requires { 0 < length from.now }
        ensures bytes { Puts (written self.old) (written self.new) from.now result }
        ensures later { faults self.old ≤ faults self.new }
        ensures counts { Counts (faults self.old) (faults self.new) (put_failed result) };
}
