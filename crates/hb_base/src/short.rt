//! Few bytes, without memory of their own.

ghost use Rattle.std.specs.Prelude.{◌≡◌, ◌+◌, ◌-◌, ◌≤◌, ◌++◌, [], length, take, drop};

use std::marker::Model;

/// The most bytes that a Short has.
pub(crate) const SHORT: usize = 23;

/// At most 23 bytes. Contracts see it as these bytes.
#[derive(Drop)]
pub struct Short {
    bytes: [u8; 23],
    known: u8,
}

impl Model for Short {
    ghost use Rattle.std.specs.Prelude.{List, ℕ, ◌≤◌, take};

    ghost Value = { List ℕ };

    ghost view = { λ s. take s.known s.bytes };

    ghost invariant = { λ s. s.known ≤ 23 };
}

impl Short {
    /// No byte.
    pub fn new() -> Short
        ensures { result ≡ [] }
    {
        Short {
            bytes: [0; 23],
            known: 0,
        }
    }

    /// A copy of these bytes.
    pub fn of(b: &[u8]) -> Short
        requires { length b.now ≤ 23 }
        ensures { result ≡ b.now }
    {
        let mut bytes = [0; 23];
        bytes[..b.len()].copy_from_slice(b);
        Short {
            bytes,
            known: b.len() as u8,
        }
    }

    /// The bytes, in order.
    pub fn as_slice(&self) -> &[u8]
        ensures { result.now ≡ self.now }
    {
        &self.bytes[..usize::from(self.known)]
    }

    /// Takes what it lacks of `most` bytes from the front of the piece, and gives what is left of the piece.
    pub fn fill<'a>(&mut self, most: usize, piece: &'a [u8]) -> &'a [u8]
        requires most { most ≤ 23 }
        requires short { length self.old ≤ most }
        ensures after { self.new ≡ take most (self.old ++ piece.now) }
        ensures rest { result.now ≡ drop (most - length self.old) piece.now }
    {
        let known = usize::from(self.known);
        let n = piece.len().min(most - known);
        let (front, rest) = piece.split_at(n);
        write_at(&mut self.bytes, known, front);
        self.known += n as u8;
        rest
    }

    /// Forgets all but the first `n` bytes.
    pub fn truncate(&mut self, n: usize)
        ensures { self.new ≡ take n self.old }
    {
        if n < usize::from(self.known) {
            self.known = n as u8;
        }
    }
}

fn write_at(bytes: &mut [u8], at: usize, piece: &[u8])
    requires { at + length piece.now ≤ length bytes.old }
    ensures { take (at + length piece.now) bytes.new ≡ take at bytes.old ++ piece.now }
{
    bytes[at..at + piece.len()].copy_from_slice(piece);
}
