//! Where bytes come from.

/// What a take answers.
#[derive(Clone, Copy, Debug)]
pub enum Taken {
    /// So many bytes stand at the buffer's front, at least one.
    Got(usize),
    /// No byte is left.
    End,
    /// The source failed; a later take may do better.
    Failed,
}

/// A source of bytes that counts its faults.
pub trait Source {
    ghost use Rattle.std.specs.Prelude.{◌<◌, ◌≤◌, List, ℕ, length, Option};
    ghost use Rattle.hb_base.specs.Count.{Counts};
    ghost use Rattle.hb_base.specs.Source.{Takes, take_failed};

    /// The bytes left, where the source tells them.
    ghost left: { Self → Option (List ℕ) };

    /// How often a take failed.
    ghost faults: { Self → ℕ };

    /// Puts some of the next bytes at the buffer's front.
    fn take(&mut self, into: &mut [u8]) -> Taken
        requires { 0 < length into.old }
        ensures bytes { Takes (left self.old) (left self.new) into.new result }
        ensures later { faults self.old ≤ faults self.new }
        ensures counts { Counts (faults self.old) (faults self.new) (take_failed result) };
}
