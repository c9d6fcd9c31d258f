//! Whose turn it is. No promise rests on it: any stream may go next, so contracts see nothing of it.

use std::marker::Model;

/// The stream that bytes were put on last.
#[derive(Drop)]
pub struct Turn {
    last: u32,
}

impl Model for Turn {
    ghost use Rattle.std.specs.Prelude.{⊤};

    ghost Value = { ⊤ };

    ghost view = { λ _. tt };
}

impl Turn {
    /// That of the first stream.
    pub fn new() -> Turn {
        Turn { last: 0 }
    }

    /// So many bytes were put on the stream: where there are some, the turn passes behind it.
    pub fn took(&mut self, stream: u32, count: usize) {
        if count > 0 {
            self.last = stream;
        }
    }

    /// The stream that bytes were put on last, 0 before any were.
    pub fn last(&self) -> u32 {
        self.last
    }
}
